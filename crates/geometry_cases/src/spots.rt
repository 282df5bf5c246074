// Free spots: the cases on standard input, and the largest search.
use anyhow::anyhow;
use geometry::{Bounds, Spot, first_free};

const SIDE: u32 = 65535;

// By hand, since an `Option` can have no `Display` of ours.
fn print_spot(rt: &HostRuntime, found: Option<Spot>) -> anyhow::Result<()> {
    match found {
        Some(Spot { top, left }) => println!(rt; "spot {top} {left}")?,
        None => println!(rt; "no spot")?,
    }
    Ok(())
}

// The numbers of a line. Other programs read such lines too: a crate to share one loop would be no plainer.
fn numbers(rt: &HostRuntime, line: &str) -> anyhow::Result<Vec<u32>> {
    let mut found = Vec::new(rt.alloc());
    for word in line.split_whitespace() {
        found.push(word.parse::<u32>()?)?;
    }
    Ok(found)
}

// Four numbers a box: top, bottom, left, right.
fn boxes(rt: &HostRuntime, edges: &[u32]) -> anyhow::Result<Vec<Bounds>> {
    let mut found = Vec::new(rt.alloc());
    for edge in edges.chunks(4) {
        let [top, bottom, left, right] = edge else {
            return Err(anyhow!("a box has four numbers"));
        };
        found.push(Bounds {
            top: *top,
            bottom: *bottom,
            left: *left,
            right: *right,
        })?;
    }
    Ok(found)
}

fn print_case(rt: &HostRuntime, line: &str) -> anyhow::Result<()> {
    let all = numbers(rt, line)?;
    let [tops, lefts, edges @ ..] = all.as_slice() else {
        return Err(anyhow!("a case has two sides"));
    };
    let found = boxes(rt, edges)?;
    print_spot(rt, first_free(&found, *tops, *lefts))
}

// One case a line: how many tops and lefts, then the boxes.
pub(crate) fn print_spots(rt: &HostRuntime) -> anyhow::Result<()> {
    for line in rt.lines(rt.alloc()) {
        let text = line?;
        print_case(rt, text.as_str())?;
    }
    Ok(())
}

// 255 boxes on the largest packed picture: 128 columns, and 127 steps that each ask for a line of jumps.
pub(crate) fn print_largest(rt: &HostRuntime) -> anyhow::Result<()> {
    let mut found = Vec::new(rt.alloc());
    for i in 0..128 {
        let left = 512 * i;
        let bottom = if i == 127 { SIDE - 1 } else { SIDE };
        found.push(Bounds {
            top: 0,
            bottom,
            left,
            right: SIDE.min(left + 512),
        })?;
    }
    for i in 0..127 {
        found.push(Bounds {
            top: 0,
            bottom: 500 * (i + 1),
            left: 0,
            right: SIDE,
        })?;
    }
    print!(rt; "largest: ")?;
    print_spot(rt, first_free(&found, SIDE, SIDE))
}
