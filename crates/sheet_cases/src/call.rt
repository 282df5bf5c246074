// The calls of a list, each read from its line.
use anyhow::anyhow;
use geometry::{PackedPlace, Place, ProjectedPlace, Rectangle, Sides};
use sheet::{Draft, FourSides, GuardBands, Row, SheetSides};
use std::error::Error;

// A call with what it is given.
#[derive(Clone, Copy)]
pub(crate) enum Call {
    Open(SheetSides),
    Lay(Row),
    Place(Draft),
    Lift(u8),
    Position(u8, PackedPlace),
    Serve(ProjectedPlace),
}

// The numbers of a line that are still to be read.
#[derive(Clone, Copy)]
struct Numbers<'a> {
    rest: &'a [u32],
}

impl Numbers<'_> {
    // The next one, in a type that has it.
    fn next<T: TryFrom<u32> + Drop>(&mut self) -> anyhow::Result<T>
    where
        T::Error: Error,
    {
        let Some((first, rest)) = self.rest.split_first() else {
            return Err(anyhow!("a number is missing"));
        };
        self.rest = rest;
        Ok(T::try_from(*first)?)
    }

    fn sides<T: TryFrom<u32> + Drop>(&mut self) -> anyhow::Result<Sides<T>>
    where
        T::Error: Error,
    {
        Ok(Sides {
            width: self.next()?,
            height: self.next()?,
        })
    }

    fn rectangle<T: TryFrom<u32> + Drop>(&mut self) -> anyhow::Result<Rectangle<T>>
    where
        T::Error: Error,
    {
        Ok(Rectangle {
            width: self.next()?,
            height: self.next()?,
            top: self.next()?,
            left: self.next()?,
        })
    }

    fn place(&mut self) -> anyhow::Result<Place> {
        Ok(Place {
            x: self.next()?,
            y: self.next()?,
        })
    }

    fn four_sides(&mut self) -> anyhow::Result<FourSides> {
        Ok(FourSides {
            left: self.next()?,
            right: self.next()?,
            top: self.next()?,
            bottom: self.next()?,
        })
    }

    // Refused in these words unless so many are left.
    fn count(&self, count: usize, words: &str) -> anyhow::Result<()> {
        if self.rest.len() != count {
            return Err(anyhow!("{words}"));
        }
        Ok(())
    }

    // Nine numbers, or none.
    fn bands(&mut self) -> anyhow::Result<Option<GuardBands>> {
        if self.rest.is_empty() {
            return Ok(None);
        }
        self.count(9, "bands are nine numbers")?;
        Ok(Some(GuardBands {
            sizes: self.four_sides()?,
            prediction: self.next::<u32>()? == 1,
            kinds: self.four_sides()?,
        }))
    }

    fn sheet_sides(&mut self) -> anyhow::Result<SheetSides> {
        self.count(4, "open has four numbers")?;
        Ok(SheetSides {
            projected: self.sides()?,
            packed: self.sides()?,
        })
    }

    fn row(&mut self) -> anyhow::Result<Row> {
        if self.rest.len() < 9 {
            return Err(anyhow!("a row has nine numbers before its bands"));
        }
        Ok(Row {
            projected: self.rectangle()?,
            turn: self.next()?,
            body: self.rectangle()?,
            bands: self.bands()?,
        })
    }

    fn draft(&mut self) -> anyhow::Result<Draft> {
        if self.rest.len() < 7 {
            return Err(anyhow!("a draft has seven numbers before its bands"));
        }
        Ok(Draft {
            projected: self.rectangle()?,
            turn: self.next()?,
            width: self.next()?,
            height: self.next()?,
            bands: self.bands()?,
        })
    }

    fn lift(&mut self) -> anyhow::Result<Call> {
        self.count(1, "lift has one number")?;
        Ok(Call::Lift(self.next()?))
    }

    fn position(&mut self) -> anyhow::Result<Call> {
        self.count(3, "position has three numbers")?;
        Ok(Call::Position(self.next()?, PackedPlace(self.place()?)))
    }

    fn serve(&mut self) -> anyhow::Result<Call> {
        self.count(2, "serve has two numbers")?;
        Ok(Call::Serve(ProjectedPlace(self.place()?)))
    }

    // The call of this name, with all of the numbers. How many there are is judged before their sizes, but for those of bands. A table
    // of closures would be no plainer than the arms.
    fn call(&mut self, name: &str) -> anyhow::Result<Call> {
        match name {
            "open" => Ok(Call::Open(self.sheet_sides()?)),
            "lay" => Ok(Call::Lay(self.row()?)),
            "place" => Ok(Call::Place(self.draft()?)),
            "lift" => self.lift(),
            "position" => self.position(),
            "serve" => self.serve(),
            _ => Err(anyhow!("no such call")),
        }
    }
}

// The call of a line, or none for an empty one.
pub(crate) fn read_call(rt: &HostRuntime, line: &str) -> anyhow::Result<Option<Call>> {
    let mut words = line.split_whitespace();
    let Some(name) = words.next() else {
        return Ok(None);
    };
    let mut numbers = Vec::new(rt.alloc());
    for word in words {
        numbers.push(word.parse::<u32>()?)?;
    }
    let mut numbers = Numbers { rest: &numbers };
    Ok(Some(numbers.call(name)?))
}
