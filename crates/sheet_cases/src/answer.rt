// What a sheet answers to a call it grants, as its line of output says it.
use crate::call::Call;
use geometry::{Position, Spot};
use refusal::Refusal;
use sheet::{Served, Sheet};
use std::fmt;

#[derive(Clone, Copy)]
pub(crate) enum Answer {
    Granted,
    Placed(Spot),
    Found(Position),
    Served(Served),
}

impl fmt::Display for Answer {
    fn fmt<W: fmt::Write>(&self, f: &mut fmt::Formatter<W>) -> fmt::Result {
        match self {
            Answer::Granted => f.write_str("granted"),
            Answer::Placed(Spot { top, left }) => write!(f, "placed {top} {left}"),
            Answer::Found(Position { across, down }) => write!(f, "position {across} {down}"),
            Answer::Served(Served { row, place }) => {
                let (x, y) = (place.0.x, place.0.y);
                write!(f, "served {row} {x} {y}")
            }
        }
    }
}

// Runs a call on the sheet. Calls are values, read whole before they are run, and so no closures.
pub(crate) fn run_call(sheet: &mut Sheet, call: Call) -> Result<Answer, Refusal> {
    Ok(match call {
        Call::Open(sides) => {
            sheet.open(sides)?;
            Answer::Granted
        }
        Call::Lay(row) => {
            sheet.lay(row)?;
            Answer::Granted
        }
        Call::Place(draft) => Answer::Placed(sheet.place(draft)?),
        Call::Lift(number) => {
            sheet.lift(number)?;
            Answer::Granted
        }
        Call::Position(number, place) => Answer::Found(sheet.position(number, place)?),
        Call::Serve(place) => Answer::Served(sheet.serve(place)?),
    })
}
