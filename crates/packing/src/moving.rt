// All rows of a sheet carried one way.
ghost use Rattle.std.specs.Prelude.{◌≡◌};
ghost use Rattle.std.specs.List.{AllByRecursion};
ghost use Rattle.picture.specs.Draws.{drawn};
ghost use Rattle.packing.specs.Moves.{pulled};
ghost use Rattle.packing.specs.Rows.{LiesIn};

use crate::carry::carry_over;
use crate::rows::Way;
use picture::Store;
use sheet::Row;

// Carries the rows from the last to the first, so that the lowest-numbered row that has a place comes last.
pub(crate) fn move_rows<W: Way, P: Store, Q: Store<Sample = P::Sample>>(
    rows: &[Row],
    from: &P,
    to: &mut Q,
)
    requires { AllByRecursion (LiesIn
        (W.projected (P.Store.shown from.now).sides (Q.Store.shown to.old).sides)
        (W.packed (P.Store.shown from.now).sides (Q.Store.shown to.old).sides)) rows.now }
    ensures after { Q.Store.shown to.new ≡ drawn (pulled W.has W.origin rows.now)
        (P.Store.shown from.now) (Q.Store.shown to.old) }
    ensures rest { Q.Store.kept to.old to.new }
{
    for row in rows.iter().rev() {
        carry_over(W::carry(*row), from, to);
    }
}
