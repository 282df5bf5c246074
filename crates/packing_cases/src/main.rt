// Packs and unpacks small pictures in stores of every make, to be compared with what tools/packing_cases.py wrote.
#![tactic(auto)]

mod stores;

use anyhow::{Context, bail};
use geometry::{Place, Sides};
use packing::{map_claims, pack, unpack};
use picture::{Mark, Rows, Store};
use refusal::Refusal;
use rwpk::load;
use sheet::Sheet;
use std::str::SplitWhitespace;
use stores::{pile_of, rows_of, tiles_of};

// No run of a case is longer than this.
const LONGEST: usize = 4096;

// Numbers the places of a store in reading order. The count is kept by hand, since it goes on from line to line and wraps.
fn number_places<S: Store<Sample = u16>>(store: &mut S, first: u16) {
    let mut next = first;
    for y in 0..store.height() {
        for x in 0..store.width() {
            let _ = store.put(Place { x, y }, next);
            next = next.wrapping_add(1);
        }
    }
}

fn print_samples<S: Store<Sample = u16>>(
    rt: &HostRuntime,
    name: &str,
    store: &S,
) -> anyhow::Result<()> {
    print!(rt; "{name}")?;
    for y in 0..store.height() {
        for x in 0..store.width() {
            let sample = store.read(Place { x, y })?;
            print!(rt; " {sample}")?;
        }
    }
    println!(rt; "")?;
    Ok(())
}

// The number of a refused call goes before what its store then shows. A `Result` can have no `Display` of ours.
fn print_refusal(rt: &HostRuntime, answer: Result<(), Refusal>) -> anyhow::Result<()> {
    if let Err(refusal) = answer {
        print!(rt; "refused {}: ", refusal.number())?;
    }
    Ok(())
}

fn move_both_ways<P: Store<Sample = u16>, Q: Store<Sample = u16>>(
    rt: &HostRuntime,
    sheet: &Sheet,
    projected: &mut P,
    packed: &mut Q,
) -> anyhow::Result<()> {
    number_places(projected, 1000);
    number_places(packed, 2000);
    print_refusal(rt, pack(sheet, projected, packed))?;
    print_samples(rt, "packed", packed)?;
    number_places(packed, 3000);
    number_places(projected, 4000);
    print_refusal(rt, unpack(sheet, packed, projected))?;
    print_samples(rt, "unpacked", projected)
}

// The packed store in the make that is asked for. No `dyn` can stand for the three, since a store takes any line and so has a
// generic call.
fn with_packed<P: Store<Sample = u16>>(
    rt: &HostRuntime,
    sheet: &Sheet,
    projected: &mut P,
    make: &str,
) -> anyhow::Result<()> {
    let mut run = [0u16; LONGEST];
    let sides = Sides::from(sheet.sides().packed);
    match make {
        "rows" => move_both_ways(rt, sheet, projected, &mut rows_of(&mut run, sides)),
        "tiles" => move_both_ways(rt, sheet, projected, &mut tiles_of(&mut run, sides)),
        "pile" => move_both_ways(rt, sheet, projected, &mut pile_of(&mut run, sides)),
        "unfit" => move_both_ways(rt, sheet, projected, &mut rows_of(&mut run, higher(sides))),
        _ => bail!("no such make"),
    }
}

// Sides that are one line too many.
fn higher(sides: Sides) -> Sides {
    Sides {
        width: sides.width,
        height: sides.height.saturating_add(1),
    }
}

// And the projected one.
fn with_both(
    rt: &HostRuntime,
    sheet: &Sheet,
    projected_make: &str,
    packed_make: &str,
) -> anyhow::Result<()> {
    let mut run = [0u16; LONGEST];
    let sides = sheet.sides().projected;
    match projected_make {
        "rows" => with_packed(rt, sheet, &mut rows_of(&mut run, sides), packed_make),
        "tiles" => with_packed(rt, sheet, &mut tiles_of(&mut run, sides), packed_make),
        "pile" => with_packed(rt, sheet, &mut pile_of(&mut run, sides), packed_make),
        _ => bail!("no such make"),
    }
}

fn print_map(rt: &HostRuntime, sheet: &Sheet, make: &str) -> anyhow::Result<()> {
    let mut run = [Mark::Nobody; LONGEST];
    let sides = Sides::from(sheet.sides().packed);
    let mut map = Rows::new(&mut run);
    let asked = if make == "unfit" {
        higher(sides)
    } else {
        sides
    };
    print_refusal(rt, map.size(asked))?;
    print_refusal(rt, map_claims(sheet, &mut map))?;
    print!(rt; "map")?;
    for y in 0..map.height() {
        for x in 0..map.width() {
            // By hand, since a type of another crate can have no `Display` here.
            match map.read(Place { x, y })? {
                Mark::Nobody => print!(rt; " .")?,
                Mark::Body(number) => print!(rt; " {number}")?,
                Mark::Band(number) => print!(rt; " ({number})")?,
            }
        }
    }
    println!(rt; "")?;
    Ok(())
}

// The numbers that are left on a line, as bytes.
fn bytes_left(rt: &HostRuntime, words: SplitWhitespace) -> anyhow::Result<Vec<u8>> {
    let mut bytes = Vec::new(rt.alloc());
    for word in words {
        bytes.push(word.parse().ok().context("not a byte")?)?;
    }
    Ok(bytes)
}

fn run_line(rt: &HostRuntime, line: &str) -> anyhow::Result<()> {
    let mut words = line.split_whitespace();
    let (Some(projected_make), Some(packed_make)) = (words.next(), words.next()) else {
        bail!("a line is two makes and the bytes of a box");
    };
    let mut sheet = Sheet::new();
    load(&mut sheet, &bytes_left(rt, words)?)
        .ok()
        .context("a box is refused")?;
    with_both(rt, &sheet, projected_make, packed_make)?;
    print_map(rt, &sheet, packed_make)
}

fn main(rt: HostRuntime) -> anyhow::Result<()> {
    for line in rt.lines(rt.alloc()) {
        run_line(&rt, line?.as_str())?;
    }
    Ok(())
}
