// The calls of a job.
ghost use Rattle.std.specs.Prelude.{◌≡◌, ℕ, ◌+◌, ◌≤◌, true, false, List, length, Ok, OnErr, Result};
ghost use Rattle.rwpk.specs.Bytes.{box_of, word_bytes};
ghost use Rattle.rwpk.specs.Parts.{part_at, place_of};
ghost use Rattle.rwpk.specs.Writing.{put_at, part_out};
ghost use Rattle.sheet.specs.Contents.{content};
ghost use Rattle.writer.specs.Runs.{Finished, ReadsBack, Sealing};
ghost use Rattle.writer.specs.Steps.{step_answer, step_done, seal_answer, seal_out, seal_spent};

use crate::fits::{rows_fit, sides_fit};
use crate::job::Job;
use crate::size::put_size;
use refusal::Refusal;
use rwpk::write_part;
use sheet::Sheet;

impl Job<'_> {
    // Begins a job: no part is written yet.
    pub fn begin(sheet: &Sheet) -> Job
        ensures sheet { result.sheet.now ≡ sheet.now }
        ensures done { result.done ≡ 0 }
        ensures spent { result.spent ≡ false }
    {
        Job {
            sheet,
            done: 0,
            place: 0,
            spent: false,
        }
    }

    // Writes the next part at its byte place in the box, and answers its length: first 26 bytes with size 0, then each row.
    // Refused with 7, then 23, then 22.
    pub fn step(&mut self, out: &mut [u8]) -> Result<usize, Refusal>
        ensures answer { result ≡ step_answer (content self.old.sheet.now) self.old.done out.old }
        ensures out { out.new ≡ part_out result out.old (place_of (content self.old.sheet.now) self.old.done) (part_at (content self.old.sheet.now) self.old.done) }
        ensures sheet { self.new.sheet.now ≡ self.old.sheet.now }
        ensures done { self.new.done ≡ step_done result self.old.done }
        ensures spent { self.new.spent ≡ self.old.spent }
        ensures refused { OnErr result (self.new ≡ self.old) }
    {
        if self.sheet.len() == 0 {
            return Err(Refusal::NoRows);
        }
        let length = write_part(self.sheet, self.done, out, self.place)?;
        self.done += 1;
        self.place += length;
        Ok(length)
    }

    // Does nothing. Whoever calls it knows what a seal at this place of the job comes to.
    fn sealing(&self)
        ensures here { Sealing (content self.now.sheet.now) self.now.done self.now.place }
        ensures back { (out : List ℕ) (r : Result ℕ Refusal) → r ≡ seal_answer (content self.now.sheet.now) self.now.done out →
            ReadsBack (content self.now.sheet.now) self.now.done r }
    {
        self.sheet.facts();
        sides_fit(self.sheet.sides());
        rows_fit(self.sheet.rows());
    }

    // Writes the size where all parts are written and the box has room, and spends the job.
    fn write_size(&mut self, out: &mut [u8]) -> usize
        requires due { self.old.done ≡ length (content self.old.sheet.now).rows + 1 }
        requires room { length (box_of (content self.old.sheet.now)) ≤ length out.old }
        ensures answer { result ≡ length (box_of (content self.old.sheet.now)) }
        ensures out { out.new ≡ put_at out.old 0 (word_bytes 4 result) }
        ensures sheet { self.new.sheet.now ≡ self.old.sheet.now }
        ensures done { self.new.done ≡ self.old.done }
        ensures spent { self.new.spent ≡ true }
        ensures run { Finished (content self.old.sheet.now) self.old.done out.old (Ok result) out.new }
        ensures back { ReadsBack (content self.old.sheet.now) self.old.done (Ok result) }
    {
        self.sealing();
        let size = self.place;
        put_size(out, size as u32);
        self.spent = true;
        size
    }

    // Writes the size into the first four bytes and answers it; the job is then spent. Refused with 24, then 22, and the job
    // goes on as it was.
    pub fn seal(&mut self, out: &mut [u8]) -> Result<usize, Refusal>
        ensures answer { result ≡ seal_answer (content self.old.sheet.now) self.old.done out.old }
        ensures out { out.new ≡ seal_out result out.old }
        ensures sheet { self.new.sheet.now ≡ self.old.sheet.now }
        ensures done { self.new.done ≡ self.old.done }
        ensures spent { self.new.spent ≡ seal_spent result self.old.spent }
        ensures refused { OnErr result (self.new ≡ self.old) }
        ensures run { Finished (content self.old.sheet.now) self.old.done out.old result out.new }
        ensures back { ReadsBack (content self.old.sheet.now) self.old.done result }
    {
        self.sealing();
        if self.done != self.sheet.len() + 1 {
            return Err(Refusal::PartDue);
        }
        if out.len() < self.place {
            return Err(Refusal::BufferShort);
        }
        Ok(self.write_size(out))
    }
}
