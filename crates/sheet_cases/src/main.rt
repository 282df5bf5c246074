// Runs lists of edits, positions and serving from standard input, to be compared with what tools/sheet_cases.py wrote.
#![tactic(auto)]

mod answer;
mod call;

use answer::run_call;
use call::read_call;
use geometry::{Body, ProjectedRectangle, Sides, Spot};
use sheet::{Draft, PackedSides, Row, Sheet, SheetSides};

const SIDE: u16 = 65535;

const WIDE: u16 = 258;

// A row 1 by 1 in the projected picture, with a body of this width and height at the top.
fn tall_row(width: u16, height: u16, left: u16) -> Row {
    Row {
        projected: ProjectedRectangle {
            width: 1,
            height: 1,
            top: 0,
            left: 0,
        },
        turn: 0,
        body: Body {
            width,
            height,
            top: 0,
            left,
        },
        bands: None,
    }
}

// 254 rows on the largest packed picture, and then a place that has to jump past all of them.
fn largest(sheet: &mut Sheet) -> Option<Spot> {
    let side = u32::from(SIDE);
    let _ = sheet.open(SheetSides {
        projected: Sides {
            width: side,
            height: side,
        },
        packed: PackedSides {
            width: SIDE,
            height: SIDE,
        },
    });
    for i in 0u16..254 {
        let _ = sheet.lay(tall_row(WIDE, SIDE - i, WIDE * i));
    }
    let Row {
        projected,
        turn,
        ..
    } = tall_row(1, 1, 0);
    let draft = Draft {
        projected,
        turn,
        width: 4,
        height: 1,
        bands: None,
    };
    sheet.place(draft).ok()
}

// `new` begins with a new sheet; every other line is a call, whose answer is printed.
fn run_line(rt: &HostRuntime, sheet: &mut Sheet, line: &str) -> anyhow::Result<()> {
    if line.split_whitespace().next() == Some("new") {
        *sheet = Sheet::new();
        return Ok(());
    }
    let Some(call) = read_call(rt, line)? else {
        return Ok(());
    };
    // By hand, since a `Result` can have no `Display` of ours.
    match run_call(sheet, call) {
        Ok(answer) => println!(rt; "{answer}")?,
        Err(refusal) => {
            let number = refusal.number();
            println!(rt; "refused {number}")?;
        }
    }
    Ok(())
}

fn run(rt: &HostRuntime) -> anyhow::Result<()> {
    let mut sheet = Sheet::new();
    for line in rt.lines(rt.alloc()) {
        let text = line?;
        run_line(rt, &mut sheet, text.as_str())?;
    }
    // By hand, since an `Option` can have no `Display` of ours.
    match largest(&mut sheet) {
        Some(Spot { top, left }) => println!(rt; "largest: placed {top} {left}")?,
        None => println!(rt; "largest: refused")?,
    }
    Ok(())
}

fn main(rt: HostRuntime) -> anyhow::Result<()> {
    run(&rt)
}
