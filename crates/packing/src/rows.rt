// What a row carries each way.
ghost use Rattle.std.specs.Prelude.{◌≡◌, ◌≤◌, ℕ, Bool};
ghost use Rattle.std.specs.Bool.{then_some};
ghost use Rattle.geometry.specs.declared.place.Place.{Place};
ghost use Rattle.geometry.specs.declared.place.Sides.{Sides};
ghost use Rattle.sheet.specs.Serving.{covers_place, Sided};
ghost use Rattle.sheet.specs.declared.row.Row.{Row};
ghost use Rattle.packing.specs.Carries.{CarryFits, carried};
ghost use Rattle.packing.specs.Moves.{holds, centre_of, server_of};
ghost use Rattle.packing.specs.Rows.{LiesIn};

use crate::carry::Carry;
use crate::course::Course;
use geometry::{Rectangle, Sides, Turn};
use sheet::Row;

// Which way samples go, and what of each row is carried so.
pub(crate) trait Way {
    // the places of the picture written that a row has
    ghost has: { Row → Place → Bool };

    // the place of the picture read that such a place takes its sample from
    ghost origin: { Row → Place → Place };

    // the sides of the projected picture, of those of the pictures read and written
    ghost projected: { Sides ℕ → Sides ℕ → Sides ℕ };

    // and those of the packed one
    ghost packed: { Sides ℕ → Sides ℕ → Sides ℕ };

    // What a row carries.
    fn carry(row: Row) -> Carry
        requires turn { row.turn ≤ 7 }
        requires sided { Sided row }
        ensures carries { (p : Place) → carried result p ≡ then_some (has row p) (origin row p) }
        ensures fits { (from to : Sides ℕ) → LiesIn (projected from to) (packed from to) row → CarryFits result from to };
}

// From the projected picture into the bodies.
pub(crate) struct Packing;

// From the bodies into the projected picture.
pub(crate) struct Unpacking;

impl Way for Packing {
    ghost has = { holds };

    ghost origin = { centre_of };

    ghost projected = { λ from to. from };

    ghost packed = { λ from to. to };

    fn carry(row: Row) -> Carry {
        let turn = Turn::try_from(row.turn).unwrap();
        let frame = row.projected;
        let body = Rectangle::from(row.body);
        let read = turn.field(Sides::from(frame));
        Carry {
            from: frame.corner(),
            to: body.corner(),
            across: Course::inwards(body.width, read.width, turn.mirrored),
            down: Course::inwards(body.height, read.height, turn.flipped),
            crossed: turn.transposed,
        }
    }
}

impl Way for Unpacking {
    ghost has = { covers_place };

    ghost origin = { server_of };

    ghost projected = { λ from to. to };

    ghost packed = { λ from to. from };

    fn carry(row: Row) -> Carry {
        let turn = Turn::try_from(row.turn).unwrap();
        let frame = row.projected;
        let body = Rectangle::from(row.body);
        let read = turn.field(Sides::from(body));
        // Where lines come from columns, the far ends change places too.
        let (far_across, far_down) = if turn.transposed {
            (turn.flipped, turn.mirrored)
        } else {
            (turn.mirrored, turn.flipped)
        };
        Carry {
            from: body.corner(),
            to: frame.corner(),
            across: Course::outwards(frame.width, read.width, far_across),
            down: Course::outwards(frame.height, read.height, far_down),
            crossed: turn.transposed,
        }
    }
}
