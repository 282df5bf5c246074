// How the places along one side of a rectangle come from those along a side of another.
ghost use Rattle.std.specs.Prelude.{◌≡◌, ◌<◌};
ghost use Rattle.geometry.specs.Turns.{mirror};

use geometry::centre;

// There are `parts` places along the side that is written, and `side` along the one that is read: at least one of each. The
// mirrors stand apart, since a middle that lies between two samples falls to another one if it is mirrored first.
#[derive(Clone, Copy)]
pub(crate) struct Course {
    pub(crate) parts: u32,
    pub(crate) side: u32,
    // counted from the far end before the whole part is taken
    pub(crate) before: bool,
    // counted from the far end after it
    pub(crate) after: bool,
    ghost some_parts: { 0 < parts },
    ghost some_side: { 0 < side },
}

// Counted from the other end of a side, if `on`. It stands beside geometry's, which tests `x`, since each step asks for it twice.
fn mirrored_if(on: bool, side: u32, x: u32) -> u32
    requires { x < side }
    ensures { result ≡ mirror on side x }
{
    if on { side - 1 - x } else { x }
}

impl Course {
    ghost use Rattle.std.specs.Prelude.{◌≡◌, ◌+◌, ◌<◌, ◌≤◌, length};
    ghost use Rattle.packing.specs.Carries.{step, inwards, outwards, Leads};
    ghost use Rattle.packing.specs.Strips.{StepsFrom};

    // Mirrored first.
    pub(crate) fn inwards(parts: u32, side: u32, far: bool) -> Course
        requires parts { 0 < parts }
        requires side { 0 < side }
        ensures { Leads result parts side (inwards parts side far) }
    {
        Course {
            parts,
            side,
            before: far,
            after: false,
        }
    }

    // Mirrored last.
    pub(crate) fn outwards(parts: u32, side: u32, far: bool) -> Course
        requires parts { 0 < parts }
        requires side { 0 < side }
        ensures { Leads result parts side (outwards parts side far) }
    {
        Course {
            parts,
            side,
            before: false,
            after: far,
        }
    }

    // The place along the other side that place i comes from.
    #[inline]
    pub(crate) fn step(self, i: u32) -> u32
        requires { i < self.parts }
        ensures { result ≡ step self i }
    {
        let cell = mirrored_if(self.before, self.parts, i);
        // Never refused. A trap, as `unwrap` has one, would keep the loop of `fill` from being split by the two mirrors.
        let sample = centre(self.side, self.parts, cell).unwrap_or(0);
        mirrored_if(self.after, self.side, sample)
    }

    // Writes down where the places from `start` on come from.
    #[inline]
    pub(crate) fn fill(self, start: u32, steps: &mut [u32])
        requires { start + length steps.old ≤ self.parts }
        ensures { StepsFrom self start steps.new }
    {
        for (i, step) in steps.iter_mut().enumerate() {
            *step = self.step(start + i as u32);
        }
    }
}
