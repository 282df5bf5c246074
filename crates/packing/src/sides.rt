// Whether stores have the sides of a sheet's pictures.
ghost use Rattle.std.specs.Prelude.{◌≡◌};
ghost use Rattle.sheet.specs.Contents.{content};
ghost use Rattle.packing.specs.Moves.{has_sides, fit, fitted};

use geometry::Sides;
use picture::Store;
use refusal::Refusal;
use sheet::Sheet;

// Refused with 21 unless a store has these sides.
pub(crate) fn check_sides<S: Store>(store: &S, sides: Sides) -> Result<(), Refusal>
    ensures { result ≡ fitted (has_sides (S.Store.shown store.now) sides.width sides.height) }
{
    if store.width() != sides.width || store.height() != sides.height {
        return Err(Refusal::UnfitSides);
    }
    Ok(())
}

// Refused with 21 unless one store has the sides of the sheet's projected picture, and the other those of its packed one.
pub(crate) fn check_fit<P: Store, Q: Store<Sample = P::Sample>>(
    sheet: &Sheet,
    projected: &P,
    packed: &Q,
) -> Result<(), Refusal>
    ensures { result ≡ fitted (fit (content sheet.now) (P.Store.shown projected.now) (Q.Store.shown packed.now)) }
{
    let sides = sheet.sides();
    check_sides(projected, sides.projected)?;
    check_sides(packed, Sides::from(sides.packed))
}
