// Lists, loads and writes back the boxes on standard input, whole and damaged, to be compared with what tools/box_cases.py wrote.
#![tactic(auto)]

mod damage;
mod digits;
mod jobs;
mod writing;

use anyhow::{Context, anyhow};
use damage::{flip, mend};
use digits::bytes_of;
use jobs::show_jobs;
use listing::{LONGEST, list_box};
use rwpk::load;
use sheet::Sheet;
use writing::write_box;

// No box is longer than this: 26 bytes, and 255 rows of 32.
const LONGEST_BOX: usize = 8186;

// Prints the listing of the input. A box that is granted is written back by a job, and has to be the input again.
fn show(rt: &HostRuntime, input: &[u8]) -> anyhow::Result<()> {
    // A buffer to lend: the listing goes to its start, and the call answers how long it is.
    let mut lines = [0u8; LONGEST];
    // The refusal is left out of the message, here and below.
    let length = list_box(input, &mut lines)
        .ok()
        .context("a listing is too long")?;
    rt.write_all(&lines[0..length])?;
    let mut sheet = Sheet::new();
    // No `?`, since a refused box is a case like others: its listing has said why.
    if load(&mut sheet, input).is_err() {
        return Ok(());
    }
    let mut out = [0u8; LONGEST_BOX];
    // By hand, since a `Result` can have no `Display` of ours.
    match write_box(&sheet, &mut out) {
        Ok(size) if size <= out.len() && &out[0..size] == input => println!(rt; "written {size}")?,
        Ok(size) => println!(rt; "written {size}, not alike")?,
        Err(refusal) => println!(rt; "not written: {}", refusal.number())?,
    }
    Ok(())
}

// Every cut of the input, with the size as it was, and mended. A cut is its length, so the loop is over lengths.
fn show_cuts(rt: &HostRuntime, input: &[u8]) -> anyhow::Result<()> {
    for length in 0..input.len() {
        show(rt, &input[0..length])?;
        let mut cut = Vec::new(rt.alloc());
        cut.extend_from_slice(&input[0..length])?;
        mend(&mut cut);
        show(rt, &cut)?;
    }
    Ok(())
}

// The input with each of its bits flipped in turn, by place, since the whole input is shown at each.
fn show_flips(rt: &HostRuntime, input: &mut [u8]) -> anyhow::Result<()> {
    for place in 0..input.len() {
        for bit in 0..8 {
            flip(input, place, bit);
            show(rt, input)?;
            flip(input, place, bit);
        }
    }
    Ok(())
}

// The jobs of a box that is granted.
fn show_all_jobs(rt: &HostRuntime, input: &[u8]) -> anyhow::Result<()> {
    let mut sheet = Sheet::new();
    load(&mut sheet, input).ok().context("a box is refused")?;
    let mut out = [0u8; LONGEST_BOX];
    show_jobs(rt, &sheet, input, &mut out)
}

// A word chooses what to show. A table of closures would be no plainer than the four arms.
fn run_line(rt: &HostRuntime, line: &str) -> anyhow::Result<()> {
    let mut words = line.split_whitespace();
    let (Some(call), Some(digits)) = (words.next(), words.next()) else {
        return Err(anyhow!("a line is a word and hexadecimal digits"));
    };
    let mut input = bytes_of(rt, digits)?;
    match call {
        "box" => show(rt, &input),
        "cuts" => show_cuts(rt, &input),
        "flips" => show_flips(rt, &mut input),
        "jobs" => show_all_jobs(rt, &input),
        _ => Err(anyhow!("no such word")),
    }
}

fn main(rt: HostRuntime) -> anyhow::Result<()> {
    for line in rt.lines(rt.alloc()) {
        run_line(&rt, line?.as_str())?;
    }
    Ok(())
}
