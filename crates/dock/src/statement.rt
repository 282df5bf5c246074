// The lines of the statement.
use crate::tally::Count;
use edits::{Answer, EditRefused};
use geometry::{PackedPlace, Place, ProjectedPlace};
use picture::{Mark, Store};
use refusal::Refusal;
use sheet::{Served, Sheet};
use std::io;

// By hand, since a `Result` can have no `Display` of ours.
pub(crate) fn print_answer(rt: &HostRuntime, answer: Answer) -> io::Result<()> {
    match answer {
        Ok(None) => println!(rt; "granted"),
        Ok(Some(spot)) => println!(rt; "placed {} {}", spot.top, spot.left),
        Err(EditRefused::Plain(refusal)) => println!(rt; "refused {}", refusal.number()),
        Err(EditRefused::InBox(fault)) => {
            println!(rt; "refused {} at {}", fault.refusal.number(), fault.place)
        }
    }
}

// By hand, since a `Result` can have no `Display` of ours.
pub(crate) fn print_moved(
    rt: &HostRuntime,
    call: &str,
    moved: Result<(), Refusal>,
) -> io::Result<()> {
    match moved {
        Ok(()) => println!(rt; "{call}: granted"),
        Err(refusal) => println!(rt; "{call}: refused {}", refusal.number()),
    }
}

pub(crate) fn print_sheet(rt: &HostRuntime, name: &str, sheet: &Sheet) -> io::Result<()> {
    let sides = sheet.sides();
    println!(rt;
        "{name}: {} rows, {} by {} projected, {} by {} packed",
        sheet.len(),
        sides.projected.width,
        sides.projected.height,
        sides.packed.width,
        sides.packed.height
    )
}

pub(crate) fn print_count(rt: &HostRuntime, name: &str, count: Count) -> io::Result<()> {
    println!(rt; "{name}: {count}")
}

// Where a mark of the projected picture lies this year. By hand, since a `Result` can have no `Display` of ours.
pub(crate) fn print_mark(rt: &HostRuntime, sheet: &Sheet, mark: Place) -> io::Result<()> {
    let Place { x, y } = mark;
    match sheet.serve(ProjectedPlace(mark)) {
        Ok(
            Served {
                row,
                place: PackedPlace(place),
            },
        ) => println!(rt; "mark {x} {y}: row {row} at {} {}", place.x, place.y),
        Err(refusal) => println!(rt; "mark {x} {y}: refused {}", refusal.number()),
    }
}

// The sum of a picture's samples, each times its number in reading order, counted from 1.
pub(crate) fn weighted_sum<S: Store<Sample = u16>>(store: &S) -> u64 {
    let mut sum = 0u64;
    for y in 0..store.height() {
        for x in 0..store.width() {
            let before = u64::from(y) * u64::from(store.width()) + u64::from(x);
            if let Ok(sample) = store.read(Place { x, y }) {
                sum = sum.wrapping_add(before.wrapping_add(1).wrapping_mul(u64::from(sample)));
            }
        }
    }
    sum
}

// A letter for each row: large for its body, small for its bands, and a dot for nobody. By hand, since a type of another crate
// can have no `Display` here.
fn letter(mark: Mark) -> char {
    match mark {
        Mark::Nobody => '.',
        Mark::Body(0) => 'A',
        Mark::Body(1) => 'B',
        Mark::Body(2) => 'C',
        Mark::Body(3) => 'D',
        Mark::Body(_) => '#',
        Mark::Band(0) => 'a',
        Mark::Band(1) => 'b',
        Mark::Band(2) => 'c',
        Mark::Band(3) => 'd',
        Mark::Band(_) => '+',
    }
}

pub(crate) fn print_map<S: Store<Sample = Mark>>(rt: &HostRuntime, map: &S) -> io::Result<()> {
    for y in 0..map.height() {
        for x in 0..map.width() {
            if let Ok(mark) = map.read(Place { x, y }) {
                print!(rt; "{}", letter(mark))?;
            }
        }
        println!(rt; "")?;
    }
    Ok(())
}
