// A rectangle of one store carried onto a rectangle of another.
ghost use Rattle.std.specs.Prelude.{◌≡◌, ◌+◌, ◌^◌, ◌<◌, ◌≤◌, length};
ghost use Rattle.picture.specs.Draws.{drawn};
ghost use Rattle.packing.specs.Carries.{CarryFits, carried};
ghost use Rattle.packing.specs.Strips.{StepsFrom, track_of, strip};

use crate::course::Course;
use geometry::Place;
use picture::{Picked, Store, Track};

// how many columns are carried at a time, so that one table of steps serves all their lines
const LONG: usize = 8192;

// the same where a line comes from a column: few, so that the next line finds its samples in the cache
const SHORT: usize = 128;

// Where the two rectangles begin, and how the places along a line and a column of the one written come from the other.
#[derive(Clone, Copy)]
pub(crate) struct Carry {
    pub(crate) from: Place,
    pub(crate) to: Place,
    pub(crate) across: Course,
    pub(crate) down: Course,
    // whether a line comes from a column
    pub(crate) crossed: bool,
}

impl Carry {
    // How many columns to carry at a time.
    fn strip_width(self) -> usize
        ensures some { 0 < result }
        ensures few { result ≤ 8192 }
    {
        if self.crossed { SHORT } else { LONG }
    }

    // The line or the column that line j comes from.
    fn track(self, j: u32) -> Track
        requires line { j < self.down.parts }
        requires across { (track_of self j).start.x < 2 ^ 32 }
        requires down { (track_of self j).start.y < 2 ^ 32 }
        ensures { result ≡ track_of self j }
    {
        let Place { x, y } = self.from;
        let step = self.down.step(j);
        let start = if self.crossed {
            Place { x: x + step, y }
        } else {
            Place { x, y: y + step }
        };
        Track {
            start,
            down: self.crossed,
        }
    }
}

// Carries the columns from `start` on, as many as there are steps.
fn carry_strip<P: Store, Q: Store<Sample = P::Sample>>(
    carry: Carry,
    start: u32,
    steps: &[u32],
    from: &P,
    to: &mut Q,
)
    requires fits { CarryFits carry (P.Store.shown from.now).sides (Q.Store.shown to.old).sides }
    requires columns { start + length steps.now ≤ carry.across.parts }
    requires steps { StepsFrom carry.across start steps.now }
    ensures after { Q.Store.shown to.new ≡
        drawn (strip carry start (length steps.now) carry.down.parts)
        (P.Store.shown from.now) (Q.Store.shown to.old) }
    ensures rest { Q.Store.kept to.old to.new }
{
    for j in 0..carry.down.parts {
        let place = Place {
            x: carry.to.x + start,
            y: carry.to.y + j,
        };
        let track = carry.track(j);
        to.put_line(place, &Picked { from, track, steps });
    }
}

// Carries the whole rectangle. Both rectangles lie inside their stores.
pub(crate) fn carry_over<P: Store, Q: Store<Sample = P::Sample>>(carry: Carry, from: &P, to: &mut Q)
    requires { CarryFits carry (P.Store.shown from.now).sides (Q.Store.shown to.old).sides }
    ensures after { Q.Store.shown to.new ≡ drawn (carried carry)
        (P.Store.shown from.now) (Q.Store.shown to.old) }
    ensures rest { Q.Store.kept to.old to.new }
{
    // Fixed memory, since neither packing nor unpacking may run out of it.
    let mut table = [0; LONG];
    let width = carry.strip_width();
    for start in (0..carry.across.parts).step_by(width) {
        let n = width.min((carry.across.parts - start) as usize);
        let steps = &mut table[0..n];
        carry.across.fill(start, steps);
        carry_strip(carry, start, steps, from, to);
    }
}
