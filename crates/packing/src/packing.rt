// Packing: each place of a body takes the sample at its centre sample. Unpacking is alike and stands apart, since there have to be
// both calls.
ghost use Rattle.std.specs.Prelude.{◌≡◌, OnErr};
ghost use Rattle.sheet.specs.Contents.{content};
ghost use Rattle.packing.specs.Moves.{Packs};

use crate::moving::move_rows;
use crate::rows::Packing;
use crate::sides::check_fit;
use picture::Store;
use refusal::Refusal;
use sheet::Sheet;

// Reads a projected store and writes a packed one: each body place takes the sample at its centre sample, all other
// samples stay. Refused with 21 unless both stores have the sheet's sides.
pub fn pack<P: Store, Q: Store<Sample = P::Sample>>(
    sheet: &Sheet,
    from: &P,
    to: &mut Q,
) -> Result<(), Refusal>
    ensures picture { Packs (content sheet.now) result
        (P.Store.shown from.now) (Q.Store.shown to.old) (Q.Store.shown to.new) }
    ensures rest { Q.Store.kept to.old to.new }
    ensures untouched { OnErr result (to.new ≡ to.old) }
{
    check_fit(sheet, from, to)?;
    sheet.facts();
    move_rows::<Packing, P, Q>(sheet.rows(), from, to);
    Ok(())
}
