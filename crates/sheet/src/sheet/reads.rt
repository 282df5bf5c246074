// What a sheet answers without changing.
ghost use Rattle.std.specs.Prelude.{◌≡◌, length};
ghost use Rattle.sheet.specs.Contents.{content};
ghost use Rattle.sheet.specs.Serving.{position_answer, serving, serve_answer};
ghost use Rattle.sheet.specs.Words.{Facts};

use super::Sheet;
use crate::row::{Row, SheetSides};
use crate::served::{Served, first_covering};
use geometry::{PackedPlace, Place, Position, ProjectedPlace, Turn};
use refusal::Refusal;

impl Sheet {
    // The sides of the two pictures.
    pub fn sides(&self) -> SheetSides
        ensures { result ≡ (content self.now).sides }
    {
        self.table.sides
    }

    // How many rows there are.
    pub fn len(&self) -> usize
        ensures { result ≡ length (content self.now).rows }
    {
        self.rows().len()
    }

    // The rows, in their order.
    pub fn rows(&self) -> &[Row]
        ensures { result.now ≡ (content self.now).rows }
    {
        &self.table.rows[..self.table.len]
    }

    // Does nothing. Whoever calls it knows afterwards what holds of every sheet: its rows are well shaped, no packed
    // sample is claimed by two of them, and their bodies lie inside and apart.
    pub fn facts(&self)
        ensures { Facts (content self.now) }
    {}

    // Where the middle of a sample of a row's body lies in the projected picture. The place is counted from the body's
    // corner. Refused with 18, then 19.
    pub fn position(&self, number: u8, place: PackedPlace) -> Result<Position, Refusal>
        ensures { result ≡ position_answer (content self.now) number place }
    {
        self.facts();
        let row = self
            .rows()
            .get(usize::from(number))
            .ok_or(Refusal::NoSuchRow)?;
        // The turn of a sheet's row is one that there is, so this is not refused.
        let turn = Turn::try_from(row.turn)?;
        Position::of(&row.projected, turn, row.body, place)
    }

    // The first of the rows that covers a place, and the place in its body.
    fn first_serving(&self, place: Place) -> Result<Served, Refusal>
        ensures { result ≡ serving 0 (content self.now).rows place }
    {
        self.facts();
        let rows = self.rows();
        let number = first_covering(rows, place).ok_or(Refusal::NotCovered)?;
        let body_place = rows[number].place_in_body(place)?;
        Ok(Served {
            row: number as u8,
            place: PackedPlace(body_place),
        })
    }

    // The lowest-numbered row that covers a projected place, and the place in its body. Refused with 19, then 20.
    pub fn serve(&self, place: ProjectedPlace) -> Result<Served, Refusal>
        ensures { result ≡ serve_answer (content self.now) place }
    {
        if !self.sides().projected.contain(place.0) {
            return Err(Refusal::PlaceOutside);
        }
        self.first_serving(place.0)
    }
}
