// What came back after packing and unpacking, counted place by place.
use geometry::{Bounds, PackedPlace, Place, ProjectedPlace, Sides, Turn};
use picture::Store;
use sheet::{Row, Sheet};
use std::fmt;

// How many samples there are of a kind, and how many of them returned.
#[derive(Clone, Copy, Default)]
pub(crate) struct Count {
    samples: u32,
    returned: u32,
}

impl Count {
    fn add(&mut self, returned: bool) {
        self.samples = self.samples.saturating_add(1);
        if returned {
            self.returned = self.returned.saturating_add(1);
        }
    }
}

impl fmt::Display for Count {
    fn fmt<W: fmt::Write>(&self, f: &mut fmt::Formatter<W>) -> fmt::Result {
        write!(f, "{} samples, {} returned", self.samples, self.returned)
    }
}

// The samples of a kind that the promise brings back, and the others.
#[derive(Clone, Copy, Default)]
pub(crate) struct Tally {
    pub(crate) promised: Count,
    pub(crate) others: Count,
}

impl Tally {
    fn add(&mut self, promised: bool, returned: bool) {
        if promised {
            self.promised.add(returned);
        } else {
            self.others.add(returned);
        }
    }
}

// The sides of the field that the row's turn makes of its body.
fn field_of(row: &Row) -> Option<Sides> {
    let turn = Turn::try_from(row.turn).ok()?;
    Some(turn.field(row.body.sides()))
}

fn is_fine(row: &Row) -> bool {
    let projected = row.projected;
    field_of(row).is_some_and(|f| f.width >= projected.width && f.height >= projected.height)
}

fn is_coarse(row: &Row) -> bool {
    let projected = row.projected;
    field_of(row).is_some_and(|f| f.width <= projected.width && f.height <= projected.height)
}

// Whether both stores show the same sample at a place.
fn alike<P: Store<Sample = u16>, Q: Store<Sample = u16>>(p: &P, q: &Q, place: Place) -> bool {
    match (p.read(place), q.read(place)) {
        (Ok(a), Ok(b)) => a == b,
        _ => false,
    }
}

// The row that serves a projected place, if one does.
fn server(sheet: &Sheet, place: Place) -> Option<&Row> {
    let served = sheet.serve(ProjectedPlace(place)).ok()?;
    sheet.rows().get(served.row as usize)
}

// The covered samples of a projected picture: promised are those that a fine row serves.
pub(crate) fn tally_projected<P: Store<Sample = u16>, Q: Store<Sample = u16>>(
    sheet: &Sheet,
    first: &P,
    last: &Q,
) -> Tally {
    let mut tally = Tally::default();
    for y in 0..first.height() {
        for x in 0..first.width() {
            let place = Place { x, y };
            if let Some(row) = server(sheet, place) {
                tally.add(is_fine(row), alike(first, last, place));
            }
        }
    }
    tally
}

// The centre sample of a place in the body of the row with this number.
fn centre_sample(sheet: &Sheet, number: u8, place: Place) -> Option<Place> {
    let position = sheet.position(number, PackedPlace(place)).ok()?;
    Some(Place {
        x: u32::try_from(position.across.whole()?).ok()?,
        y: u32::try_from(position.down.whole()?).ok()?,
    })
}

// Whether that row serves that sample.
fn serves_centre(sheet: &Sheet, number: u8, place: Place) -> bool {
    centre_sample(sheet, number, place)
        .and_then(|sample| sheet.serve(ProjectedPlace(sample)).ok())
        .is_some_and(|served| served.row == number)
}

// The samples of one body: promised are those of a coarse row that serves their centre samples.
fn tally_body<P: Store<Sample = u16>, Q: Store<Sample = u16>>(
    sheet: &Sheet,
    number: u8,
    row: &Row,
    stores: (&P, &Q),
    tally: &mut Tally,
) {
    let body = Bounds::from(row.body);
    for y in body.top..body.bottom {
        for x in body.left..body.right {
            let place = Place { x, y };
            let inner = Place {
                x: x - body.left,
                y: y - body.top,
            };
            let promised = is_coarse(row) && serves_centre(sheet, number, inner);
            tally.add(promised, alike(stores.0, stores.1, place));
        }
    }
}

// The samples of all bodies.
pub(crate) fn tally_packed<P: Store<Sample = u16>, Q: Store<Sample = u16>>(
    sheet: &Sheet,
    first: &P,
    last: &Q,
) -> Tally {
    let mut tally = Tally::default();
    for (i, row) in sheet.rows().iter().enumerate() {
        if let Ok(number) = u8::try_from(i) {
            tally_body(sheet, number, row, (first, last), &mut tally);
        }
    }
    tally
}
