// Lines for what a store shows, what a call answered and what a run holds.
use geometry::Place;
use picture::Store;
use refusal::Refusal;
use std::fmt::Debug;
use std::io;

// By hand, since a `Result` can have no `Display` of ours.
pub(crate) fn print_answer(
    rt: &HostRuntime,
    call: &str,
    answer: Result<(), Refusal>,
) -> io::Result<()> {
    match answer {
        Ok(()) => println!(rt; "{call}: granted"),
        Err(refusal) => {
            let number = refusal.number();
            println!(rt; "{call}: {number}, {refusal}")
        }
    }
}

// A line for the sides, and one for each row.
pub(crate) fn print_shown<S: Store>(rt: &HostRuntime, name: &str, store: &S) -> io::Result<()>
where
    S::Sample: Debug,
{
    let width = store.width();
    let height = store.height();
    println!(rt; "{name}, {width} by {height}:")?;
    for y in 0..height {
        for x in 0..width {
            if let Ok(sample) = store.read(Place { x, y }) {
                print!(rt; " {sample:?}")?;
            }
        }
        println!(rt; "")?;
    }
    Ok(())
}

// The samples of a run, eight to a line.
pub(crate) fn print_run<T: Copy + Debug>(
    rt: &HostRuntime,
    name: &str,
    run: &[T],
) -> io::Result<()> {
    println!(rt; "{name}:")?;
    for line in run.chunks(8) {
        for sample in line {
            print!(rt; " {sample:?}")?;
        }
        println!(rt; "")?;
    }
    Ok(())
}
