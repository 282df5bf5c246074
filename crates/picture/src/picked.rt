// The samples of a store at some places, as a line for another store to take.
ghost use Rattle.std.specs.Prelude.{length};
ghost use Rattle.picture.specs.Lines.{picked};

use crate::line::Line;
use crate::store::Store;
use crate::track::Track;

// Shows of a store the places so many steps on along a track, one for each of the steps.
#[derive(Drop)]
pub struct Picked<'a, 'b, S: Store> {
    pub from: &'a S,
    pub track: Track,
    pub steps: &'b [u32],
}

impl<'a, 'b, S: Store> Line for Picked<'a, 'b, S> {
    type Sample = S::Sample;

    ghost long = { λ p. length p.steps.now };

    ghost held = { λ p. picked (S.Store.shown p.from.now) p.track p.steps.now };

    fn count(&self) -> usize {
        self.steps.len()
    }

    fn sample(&self, i: usize) -> S::Sample {
        let place = self.track.place(self.steps[i]);
        self.from.read(place).unwrap()
    }

    fn give(&self, start: usize, out: &mut [S::Sample]) {
        let end = start + out.len();
        self.from.gather(self.track, &self.steps[start..end], out);
    }
}
