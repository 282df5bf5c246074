// Jobs that meet each refusal, all ended on every way out.
use listing::list_box;
use refusal::Refusal;
use sheet::Sheet;
use writer::Job;

// A text of one answer: a length or size, or a refusal's number. By hand, since a `Result` can have no `Display` of ours.
fn print_answer(
    rt: &HostRuntime,
    name: &str,
    answer: Result<usize, Refusal>,
) -> anyhow::Result<()> {
    match answer {
        Ok(length) => println!(rt; "{name}: {length}")?,
        Err(refusal) => println!(rt; "{name}: refused {}", refusal.number())?,
    }
    Ok(())
}

// What each call answered, in the order in which they were made.
type Answers<const N: usize> = [Result<usize, Refusal>; N];

// A seal with all parts due, and a step into a buffer that ends inside the first part.
fn too_early(sheet: &Sheet) -> Answers<2> {
    let mut short = [0u8; 25];
    let mut job = Job::begin(sheet);
    let answers = [job.seal(&mut short), job.step(&mut short)];
    job.abandon();
    answers
}

// A step and a seal into a short buffer once every part is written, and a seal into the one that has them.
fn too_late(sheet: &Sheet, out: &mut [u8]) -> Answers<3> {
    let mut job = Job::begin(sheet);
    for _ in 0..sheet.len() + 1 {
        let _ = job.step(out);
    }
    let answers = [job.step(out), job.seal(&mut [0u8; 51]), job.seal(out)];
    job.abandon();
    answers
}

// The same on a sheet with no rows.
fn without_rows() -> Result<usize, Refusal> {
    let sheet = Sheet::new();
    let mut job = Job::begin(&sheet);
    let stepped = job.step(&mut [0u8; 26]);
    job.abandon();
    stepped
}

// Prints what each of these answers, and a listing into a buffer that is too short.
pub(crate) fn show_jobs(
    rt: &HostRuntime,
    sheet: &Sheet,
    input: &[u8],
    out: &mut [u8],
) -> anyhow::Result<()> {
    let [sealed, stepped] = too_early(sheet);
    print_answer(rt, "seal with parts due", sealed)?;
    print_answer(rt, "step into 25 bytes", stepped)?;
    let [stepped, unsealed, sealed] = too_late(sheet, out);
    print_answer(rt, "step after the last part", stepped)?;
    print_answer(rt, "seal into 51 bytes", unsealed)?;
    print_answer(rt, "seal", sealed)?;
    print_answer(rt, "step with no rows", without_rows())?;
    print_answer(rt, "listing into 7 bytes", list_box(input, &mut [0u8; 7]))
}
