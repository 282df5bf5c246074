// A film from end to end: a sheet by its edits, a picture packed by it, and unpacked again.
ghost use Rattle.std.specs.Prelude.{◌≡◌, IfOk, IfErr, MatchResult, OnErr};
ghost use Rattle.edits.specs.Runs.{Ran};
ghost use Rattle.sheet.specs.Contents.{content};
ghost use Rattle.packing.specs.Promise.{Promise, Rehearsed};

use crate::packing::pack;
use crate::sides::check_sides;
use crate::unpacking::unpack;
use edits::{Answer, Edit, replay_edits};
use picture::Store;
use refusal::Refusal;
use sheet::Sheet;
use std::alloc::{AllocError, Global};

// The sheet after the edits, the answer to each, and whether the stores had the sheet's sides.
#[derive(Drop)]
pub struct Rehearsal {
    pub sheet: Sheet,
    pub answers: Vec<Answer>,
    pub moved: Result<(), Refusal>,
}

// Packs, and unpacks what was packed, if all three stores have the sheet's sides.
fn there_and_back<P: Store, Q: Store<Sample = P::Sample>, R: Store<Sample = P::Sample>>(
    sheet: &Sheet,
    original: &P,
    packed: &mut Q,
    restored: &mut R,
) -> Result<(), Refusal>
    ensures stores { Rehearsed (content sheet.now) result (P.Store.shown original.now)
        (Q.Store.shown packed.old) (Q.Store.shown packed.new)
        (R.Store.shown restored.old) (R.Store.shown restored.new) }
    ensures rest { Q.Store.kept packed.old packed.new ×
        R.Store.kept restored.old restored.new }
    ensures untouched { IfErr result (λ _.
        (packed.new ≡ packed.old) × (restored.new ≡ restored.old)) }
{
    sheet.facts();
    check_sides(restored, sheet.sides().projected)?;
    pack(sheet, original, packed)?;
    unpack(sheet, packed, restored)
}

// Does nothing. Whoever calls it on what a run of edits left knows the promise, for samples of that store's kind.
fn promise_holds<P: Store>(edits: &[Edit], sheet: &Sheet, answers: &Vec<Answer>, original: &P)
    requires { Ran edits.now (content sheet.now) answers.now.items }
    ensures { Promise P.Sample edits.now (content sheet.now) answers.now.items }
{
    sheet.facts();
}

// Runs the edits from a new sheet, packs the original by the sheet that they leave, and unpacks what was packed. Its
// contract is the promise, whole.
pub fn rehearse<P: Store, Q: Store<Sample = P::Sample>, R: Store<Sample = P::Sample>>(
    alloc: Global,
    edits: &[Edit],
    original: &P,
    packed: &mut Q,
    restored: &mut R,
) -> Result<Rehearsal, AllocError>
    ensures promise { IfOk result (λ done. Promise P.Sample edits.now (content done.sheet) done.answers.items) }
    ensures stores { IfOk result (λ done. Rehearsed (content done.sheet) done.moved (P.Store.shown original.now)
        (Q.Store.shown packed.old) (Q.Store.shown packed.new)
        (R.Store.shown restored.old) (R.Store.shown restored.new)) }
    ensures rest { Q.Store.kept packed.old packed.new ×
        R.Store.kept restored.old restored.new }
    ensures untouched { MatchResult result
        (λ done. OnErr done.moved ((packed.new ≡ packed.old) × (restored.new ≡ restored.old)))
        (λ _. (packed.new ≡ packed.old) × (restored.new ≡ restored.old)) }
{
    let (sheet, answers) = replay_edits(alloc, edits)?;
    promise_holds(edits, &sheet, &answers, original);
    let moved = there_and_back(&sheet, original, packed, restored);
    Ok(Rehearsal {
        sheet,
        answers,
        moved,
    })
}
