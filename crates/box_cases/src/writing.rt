// Writing the box of a sheet by a job that is ended on every way out.
ghost use Rattle.std.specs.Prelude.{◌≡◌};

use refusal::Refusal;
use sheet::Sheet;
use writer::Job;

// Writes so many parts. Granted or refused, the job goes on.
fn write_parts(job: &mut Job, parts: usize, out: &mut [u8]) -> Result<(), Refusal>
    ensures { job.new.spent ≡ job.old.spent }
{
    for _ in 0..parts {
        job.step(out)?;
    }
    Ok(())
}

// Writes the box at the start of the buffer, part by part, and answers its size. No `?`, since the job has to be ended first.
pub(crate) fn write_box(sheet: &Sheet, out: &mut [u8]) -> Result<usize, Refusal> {
    let mut job = Job::begin(sheet);
    if let Err(refusal) = write_parts(&mut job, sheet.len() + 1, out) {
        job.abandon();
        return Err(refusal);
    }
    match job.seal(out) {
        Ok(size) => Ok(size),
        Err(refusal) => {
            job.abandon();
            Err(refusal)
        }
    }
}
