// Unpacking: each covered place takes the sample of the body place that serves it. Packing is alike and stands apart, since there
// have to be both calls.
ghost use Rattle.std.specs.Prelude.{◌≡◌, OnErr};
ghost use Rattle.sheet.specs.Contents.{content};
ghost use Rattle.packing.specs.Moves.{Unpacks};

use crate::moving::move_rows;
use crate::rows::Unpacking;
use crate::sides::check_fit;
use picture::Store;
use refusal::Refusal;
use sheet::Sheet;

// Reads a packed store and writes a projected one: each covered place takes the sample of the body place that serves it,
// all other samples stay. Refused with 21 unless both stores have the sheet's sides.
pub fn unpack<P: Store, Q: Store<Sample = P::Sample>>(
    sheet: &Sheet,
    from: &P,
    to: &mut Q,
) -> Result<(), Refusal>
    ensures picture { Unpacks (content sheet.now) result
        (P.Store.shown from.now) (Q.Store.shown to.old) (Q.Store.shown to.new) }
    ensures rest { Q.Store.kept to.old to.new }
    ensures untouched { OnErr result (to.new ≡ to.old) }
{
    check_fit(sheet, to, from)?;
    sheet.facts();
    move_rows::<Unpacking, P, Q>(sheet.rows(), from, to);
    Ok(())
}
