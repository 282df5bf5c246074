// A job that writes the box of a sheet.
ghost use Rattle.std.specs.Prelude.{◌≡◌, ◌+◌, ◌≤◌, true, length};
ghost use Rattle.rwpk.specs.Parts.{place_of};
ghost use Rattle.sheet.specs.Contents.{content};

use sheet::Sheet;

// A job lends the sheet, so that nobody edits it until the job ends. It ends sealed or abandoned: a job that is neither
// cannot be let go.
pub struct Job<'a> {
    pub(crate) sheet: &'a Sheet,
    // how many parts are written
    pub(crate) done: usize,
    // the byte place of the next part
    pub(crate) place: usize,
    // Sealed or abandoned. A flag, as the customer asked: a seal lends the job and cannot take it, since where it is refused the job
    // goes on.
    pub(crate) spent: bool,
    ghost few: { done ≤ length (content sheet.now).rows + 1 },
    ghost placed: { place ≡ place_of (content sheet.now) done },
}

impl Drop for Job<'_> {
    fn drop(self)
        requires { self.spent ≡ true }
    {
        let Job {
            sheet: _,
            done: _,
            place: _,
            spent: _,
        } = self;
    }
}

impl Job<'_> {
    // Ends the job and writes nothing. It takes the job, so nothing can be done with it afterwards.
    pub fn abandon(self)
        ensures { result ≡ tt }
    {
        let mut job = self;
        job.spent = true;
    }
}
