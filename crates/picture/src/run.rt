// What the two bottoms do with the run of samples that their caller lends.
ghost use Rattle.std.specs.Prelude.{◌≡◌, ℕ, ◌+◌, ◌*◌, ◌<◌, length, Some, slice_index};
ghost use Rattle.std.specs.List.{slice_get};
ghost use Rattle.picture.specs.Lines.{Given};
ghost use Rattle.picture.specs.Runs.{short};

use geometry::Sides;

// the longest side that a bottom takes
const LONGEST: u32 = 65535;

// what a bottom shows before it is sized, and where its run is too short
pub(crate) const EMPTY: Sides = Sides {
    width: 0,
    height: 0,
};

// Whether no side is over the longest.
pub(crate) fn are_short(sides: Sides) -> bool
    ensures { result ≡ short sides }
{
    sides.width <= LONGEST && sides.height <= LONGEST
}

// The sample at a spot.
pub(crate) fn sample_at<T: Copy>(samples: &[T], spot: usize) -> T
    requires { spot < length samples.now }
    ensures { slice_get samples.now spot ≡ Some result }
{
    samples[spot]
}

// Copies the samples that lie so many strides on from a spot, one for each of the steps.
pub(crate) fn pick<T: Copy>(samples: &[T], spot: usize, stride: usize, steps: &[u32], out: &mut [T])
    requires long { length out.old ≡ length steps.now }
    requires within { (i : ℕ) → i < length steps.now → spot + slice_index steps.now i * stride < length samples.now }
    ensures { Given (length steps.now)
        (λ i. slice_get samples.now (spot + slice_index steps.now i * stride)) out.new }
{
    // by number, since a loop over `out` itself beside the steps leaves it open what `out` then holds
    for (i, &step) in steps.iter().enumerate() {
        out[i] = sample_at(samples, spot + step as usize * stride);
    }
}
