// Tables of turns, centres and positions.
use geometry::{Body, PackedPlace, Place, Position, ProjectedRectangle, Sides, Turn, centre};

fn print_turn(rt: &HostRuntime, code: u8, body: Sides) -> anyhow::Result<()> {
    let turn = Turn::try_from(code)?;
    let Sides { width, height } = body;
    let field = turn.field(body);
    print!(rt;
        "turn {code} of {width} by {height} into {} by {}:",
        field.width, field.height
    )?;
    for y in 0..height {
        for x in 0..width {
            let Place { x: k, y: m } = turn.forwards(body, Place { x, y })?;
            print!(rt; " {k},{m}")?;
        }
    }
    println!(rt; "")?;
    Ok(())
}

pub(crate) fn print_turns(rt: &HostRuntime) -> anyhow::Result<()> {
    for code in 0..8 {
        for width in 1..4 {
            for height in 1..4 {
                print_turn(rt, code, Sides { width, height })?;
            }
        }
    }
    Ok(())
}

pub(crate) fn print_centres(rt: &HostRuntime) -> anyhow::Result<()> {
    for samples in 1..13 {
        for cells in 1..13 {
            print!(rt; "centre of {samples} in {cells}:")?;
            for cell in 0..cells {
                let sample = centre(samples, cells, cell)?;
                print!(rt; " {sample}")?;
            }
            println!(rt; "")?;
        }
    }
    Ok(())
}

fn print_position(rt: &HostRuntime, turn: Turn, body: Body, place: Place) -> anyhow::Result<()> {
    let rectangle = ProjectedRectangle {
        width: 5,
        height: 7,
        top: 1,
        left: 4,
    };
    let Position { across, down } = Position::of(&rectangle, turn, body, PackedPlace(place))?;
    print!(rt; " {across},{down}")?;
    Ok(())
}

pub(crate) fn print_positions(rt: &HostRuntime) -> anyhow::Result<()> {
    let body = Body {
        width: 2,
        height: 3,
        top: 0,
        left: 0,
    };
    for code in 0..8 {
        let turn = Turn::try_from(code)?;
        print!(rt; "position {code}:")?;
        for y in 0..3 {
            for x in 0..2 {
                print_position(rt, turn, body, Place { x, y })?;
            }
        }
        println!(rt; "")?;
    }
    Ok(())
}

// The worked film's columns: a body 2 wide under a rectangle 3 wide, so each column is a centre turned back.
pub(crate) fn print_film_columns(rt: &HostRuntime) -> anyhow::Result<()> {
    let body = Sides {
        width: 2,
        height: 1,
    };
    for code in 0..2 {
        let turn = Turn::try_from(code)?;
        print!(rt; "film columns under code {code}:")?;
        for u in 0..3 {
            let x = centre(2, 3, u)?;
            let place = turn.backwards(body, Place { x, y: 0 })?;
            print!(rt; " {}", place.x)?;
        }
        println!(rt; "")?;
    }
    Ok(())
}
