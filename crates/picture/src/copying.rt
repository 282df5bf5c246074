// A copy between any two stores of the same sides.
ghost use Rattle.std.specs.Prelude.{◌≡◌, ◌<◌, true, false, Ok};
ghost use Rattle.picture.specs.Copies.{same_sides, copied, copying, row_to};
ghost use Rattle.picture.specs.Draws.{drawn};

use crate::store::Store;
use geometry::Place;
use refusal::Refusal;

// Copies one row.
fn copy_row<P: Store, Q: Store<Sample = P::Sample>>(
    from: &P,
    to: &mut Q,
    y: u32,
) -> Result<(), Refusal>
    requires same { same_sides (P.Store.shown from.now) (Q.Store.shown to.old) ≡ true }
    requires inside { y < (P.Store.shown from.now).sides.height }
    ensures answer { result ≡ Ok tt }
    ensures after { Q.Store.shown to.new ≡ drawn (row_to y (P.Store.shown from.now).sides.width)
        (P.Store.shown from.now) (Q.Store.shown to.old) }
    ensures rest { Q.Store.kept to.old to.new }
{
    for x in 0..from.width() {
        let place = Place { x, y };
        let sample = from.read(place)?;
        to.put(place, sample)?;
    }
    Ok(())
}

// Makes one store show what another of the same sides shows.
pub fn copy<P: Store, Q: Store<Sample = P::Sample>>(from: &P, to: &mut Q) -> Result<(), Refusal>
    ensures answer { result ≡ copying (P.Store.shown from.now) (Q.Store.shown to.old) }
    ensures after { Q.Store.shown to.new ≡
        copied (P.Store.shown from.now) (Q.Store.shown to.old) }
    ensures rest { Q.Store.kept to.old to.new }
    ensures untouched { same_sides (P.Store.shown from.now) (Q.Store.shown to.old) ≡ false →
        to.new ≡ to.old }
{
    // Widths first, since a side of a deep pile takes its time.
    if from.width() != to.width() || from.height() != to.height() {
        return Err(Refusal::UnfitSides);
    }
    for y in 0..from.height() {
        copy_row(from, to, y)?;
    }
    Ok(())
}
