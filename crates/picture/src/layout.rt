// The two ways to keep a picture in a run, as one trait.
ghost use Rattle.std.specs.Prelude.{◌≡◌, length};
ghost use Rattle.picture.specs.Laws.{Lawful, Reversible, InPieces};
ghost use Rattle.picture.specs.Lines.{Given, StepsInside, picked};
ghost use Rattle.picture.specs.Runs.{Layout, Pieces, laid};

use crate::run::sample_at;
use crate::track::Track;
use geometry::{Place, Sides};

// Where a bottom keeps each place. Nothing of this type is ever made: it stands as a parameter of `Bottom`.
pub trait RunLayout {
    // The spot of each place, and the sides that a run takes.
    ghost layout: { Layout };

    // How many places of a line are sure to stand side by side in the run, from each place on.
    ghost pieces: { Pieces };

    // Sides that a run takes are short, and each place inside has its spot in the run.
    ghost lawful: { Lawful layout };

    // No two places inside share a spot.
    ghost reversible: { Reversible layout };

    // A piece is never empty, and its places have spots one after another.
    ghost in_pieces: { InPieces layout pieces };

    // The spot of a place in a picture of this width.
    fn spot(width: u32, place: Place) -> usize
        ensures { result ≡ layout.spot width place };

    // Whether a run of this length takes these sides.
    fn takes(sides: Sides, length: usize) -> bool
        ensures { result ≡ layout.takes sides length };

    // How many places, from this one on, make a piece of its line.
    fn piece(place: Place) -> usize
        ensures { result ≡ pieces place };

    // Reads the places so many steps on, one for each of the steps. They lie inside, so none is tested.
    fn gather<T: Copy>(samples: &[T], sides: Sides, track: Track, steps: &[u32], out: &mut [T])
        requires long { length out.old ≡ length steps.now }
        requires within { StepsInside (laid layout sides samples.now).sides track steps.now }
        ensures { Given (length steps.now)
            (picked (laid layout sides samples.now) track steps.now) out.new }
    {
        // by number, for the reason that stands beside `pick`
        for (i, &step) in steps.iter().enumerate() {
            out[i] = sample_at(samples, Self::spot(sides.width, track.place(step)));
        }
    }
}
