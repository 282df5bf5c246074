// Runs edits on a sheet, one, or a whole list from a new sheet.
ghost use Rattle.std.specs.Prelude.{◌≡◌, true, IfOk};
ghost use Rattle.sheet.specs.Contents.{content};
ghost use Rattle.edits.specs.Runs.{answer, next, Ran};
ghost use Rattle.edits.specs.Told.{is_refused};

use crate::edit::{Answer, Edit};
use rwpk::load;
use sheet::Sheet;
use std::alloc::{AllocError, Global};

// One edit, whatever it is. Edits are values in the caller's list, which promises speak of, and so no closures.
pub fn apply(sheet: &mut Sheet, edit: &Edit) -> Answer
    ensures answer { result ≡ answer (content sheet.old) edit.now }
    ensures after { content sheet.new ≡ next (content sheet.old) edit.now }
    ensures refused { is_refused result ≡ true → sheet.new ≡ sheet.old }
{
    match *edit {
        Edit::Open(sides) => sheet.open(sides)?,
        Edit::Load(input) => load(sheet, input)?,
        Edit::Lay(row) => sheet.lay(row)?,
        Edit::Place(draft) => return Ok(Some(sheet.place(draft)?)),
        Edit::Lift(number) => sheet.lift(number)?,
    }
    Ok(None)
}

// The sheet after all the edits from a new sheet, with the answer to each.
pub fn replay_edits(alloc: Global, edits: &[Edit]) -> Result<(Sheet, Vec<Answer>), AllocError>
    ensures { IfOk result (λ p. Ran edits.now (content p.0) p.1.items) }
{
    let mut sheet = Sheet::new();
    let mut answers = Vec::new(alloc);
    for edit in edits {
        answers.push(apply(&mut sheet, edit))?;
    }
    Ok((sheet, answers))
}
