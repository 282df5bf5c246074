// Two films of one hall: last year's table as the box that came with it, and this year's as the edits that make it.
use edits::Edit;
use geometry::{Body, Place, ProjectedRectangle, Rectangle, Sides};
use sheet::{Draft, FourSides, GuardBands, PackedSides, Row, SheetSides};

// The hall is 26 by 12 samples, and last year's film 16 by 12. The left 12 columns were shrunk to 8; the next 12 were
// shrunk to 8 by 6 and laid on their side (code 5) with a guard band all round. The last two columns were left out.
pub(crate) const LAST_YEAR: [u8; 84] = [
    0x00, 0x00, 0x00, 0x54, 0x72, 0x77, 0x70, 0x6b, 0x00, 0x00, 0x00, 0x00, 0x00, 0x02, 0x00, 0x00,
    0x00, 0x1a, 0x00, 0x00, 0x00, 0x0c, 0x00, 0x10, 0x00, 0x0c, 0x00, 0x00, 0x00, 0x00, 0x0c, 0x00,
    0x00, 0x00, 0x0c, 0x00, 0x00, 0x00, 0x00, 0x00, 0x00, 0x00, 0x00, 0x00, 0x00, 0x08, 0x00, 0x0c,
    0x00, 0x00, 0x00, 0x00, 0x10, 0x00, 0x00, 0x00, 0x0c, 0x00, 0x00, 0x00, 0x0c, 0x00, 0x00, 0x00,
    0x00, 0x00, 0x00, 0x00, 0x0c, 0xa0, 0x00, 0x06, 0x00, 0x08, 0x00, 0x01, 0x00, 0x09, 0x01, 0x01,
    0x01, 0x01, 0x12, 0x48,
];

// The sides of the hall's pictures.
pub(crate) const HALL: Sides = Sides {
    width: 26,
    height: 12,
};

pub(crate) const LAST_YEARS_FILM: Sides = Sides {
    width: 16,
    height: 12,
};

pub(crate) const THIS_YEARS_FILM: Sides = Sides {
    width: 30,
    height: 16,
};

// The stones that the workshop marked, as places of the projected picture. The last two have no piece and no picture.
pub(crate) const MARKS: [Place; 5] = [
    Place { x: 3, y: 3 },
    Place { x: 13, y: 2 },
    Place { x: 20, y: 9 },
    Place { x: 25, y: 5 },
    Place { x: 26, y: 0 },
];

fn rectangle<T>(width: T, height: T, top: T, left: T) -> Rectangle<T> {
    Rectangle {
        width,
        height,
        top,
        left,
    }
}

fn piece(projected: ProjectedRectangle, turn: u8, body: Body) -> Row {
    Row {
        projected,
        turn,
        body,
        bands: None,
    }
}

fn title(projected: ProjectedRectangle, width: u16, height: u16) -> Draft {
    Draft {
        projected,
        turn: 0,
        width,
        height,
        bands: None,
    }
}

// One sample on each side, of the kind that repeats the edge.
fn narrow_bands() -> GuardBands {
    let one = FourSides {
        left: 1,
        right: 1,
        top: 1,
        bottom: 1,
    };
    GuardBands {
        sizes: one,
        prediction: false,
        kinds: one,
    }
}

// This year's edits: a box that came cut short, the pieces, one laid and lifted again, one that clashes, a title panel,
// and a piece for which there is no room.
pub(crate) fn this_years_edits(cut_box: &[u8]) -> [Edit<'_>; 10] {
    let sides = SheetSides {
        projected: HALL,
        packed: PackedSides {
            width: 30,
            height: 16,
        },
    };
    let banded = Row {
        projected: rectangle(12, 6, 0, 12),
        turn: 3,
        body: rectangle(12, 6, 1, 13),
        bands: Some(narrow_bands()),
    };
    [
        Edit::Load(cut_box),
        Edit::Open(sides),
        Edit::Lay(piece(rectangle(12, 12, 0, 0), 0, rectangle(12, 12, 0, 0))),
        Edit::Lay(banded),
        Edit::Lay(piece(rectangle(6, 6, 6, 12), 1, rectangle(4, 4, 9, 13))),
        Edit::Lay(piece(rectangle(6, 6, 6, 18), 0, rectangle(6, 6, 7, 20))),
        Edit::Lay(piece(rectangle(12, 6, 6, 12), 6, rectangle(3, 6, 0, 27))),
        Edit::Lift(2),
        Edit::Place(title(rectangle(4, 2, 2, 2), 4, 2)),
        Edit::Place(title(rectangle(24, 12, 0, 0), 20, 8)),
    ]
}
