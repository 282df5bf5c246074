// A picture kept in a run of samples that the caller lends, by any layout.
ghost use Rattle.std.specs.Prelude.{◌≡◌, ◌+◌, ◌<◌, ◌≤◌, false, if◌then◌else◌, length, Ok, Err};
ghost use Rattle.refusal.specs.declared.Refusal.TheVariants.{UnfitSides};
ghost use Rattle.geometry.specs.Places.{by, inside};
ghost use Rattle.picture.specs.KeptSteps.{bottom_keeps};
ghost use Rattle.picture.specs.Laws.{Together};
ghost use Rattle.picture.specs.Lines.{Full, lined};
ghost use Rattle.picture.specs.Picture.{painted, reading, putting};
ghost use Rattle.picture.specs.Runs.{fitting, sizing, kept_at};
ghost use Rattle.picture.specs.Soundness.{laid_sound};
ghost use Rattle.picture.specs.Stores.{bottom_shown, bottom_kept, bottom_sized};

use crate::layout::RunLayout;
use crate::line::Line;
use crate::run::{EMPTY, sample_at};
use crate::store::Store;
use crate::track::Track;
use geometry::{Place, Sides};
use refusal::Refusal;
use std::marker::PhantomData;

// Keeps each place at its layout's spot of the run. Sides that the run does not take show nothing.
#[derive(Drop)]
pub struct Bottom<'a, T: Copy, L: RunLayout> {
    samples: &'a mut [T],
    sides: Sides,
    layout: PhantomData<L>,
}

impl<'a, T: Copy, L: RunLayout> Bottom<'a, T, L> {
    // A picture of 0 by 0 over a run.
    pub fn new(samples: &'a mut [T]) -> Self
        ensures { result ≡ record { samples = samples.entry; sides = by 0 0; layout = record {} } }
    {
        Bottom {
            samples,
            sides: EMPTY,
            layout: PhantomData,
        }
    }

    // A picture of these sides over a run, whose samples stay. Refused with 21 where the run does not take them.
    pub fn of_sides(samples: &'a mut [T], sides: Sides) -> Result<Self, Refusal>
        ensures { result ≡ if L.layout.takes sides (length samples.entry.now)
            then Ok (record { samples = samples.entry; sides = sides; layout = record {} }) else Err UnfitSides }
    {
        if L::takes(sides, samples.len()) {
            Ok(Bottom {
                samples,
                sides,
                layout: PhantomData,
            })
        } else {
            Err(Refusal::UnfitSides)
        }
    }

    // Takes other sides; no sample of the run changes.
    pub fn size(&mut self, sides: Sides) -> Result<(), Refusal>
        ensures answer { result ≡ sizing L.layout sides (length self.old.samples.now) }
        ensures after { self.new ≡ bottom_sized L.layout self.old sides }
    {
        if !L::takes(sides, self.samples.len()) {
            return Err(Refusal::UnfitSides);
        }
        self.sides = sides;
        Ok(())
    }

    // The sides that the run takes.
    #[inline]
    fn shown_sides(&self) -> Sides
        ensures { result ≡ fitting L.layout self.now.sides (length self.now.samples.now) }
    {
        if L::takes(self.sides, self.samples.len()) {
            self.sides
        } else {
            EMPTY
        }
    }

    // The spot of a place that is shown.
    #[inline]
    fn spot(&self, place: Place) -> Result<usize, Refusal>
        ensures { result ≡ kept_at L.layout self.now.sides (length self.now.samples.now) place }
    {
        if !self.shown_sides().contain(place) {
            return Err(Refusal::PlaceOutside);
        }
        Ok(L::spot(self.sides.width, place))
    }

    // What the trait's call reads.
    #[inline]
    fn read_sample(&self, place: Place) -> Result<T, Refusal>
        ensures { result ≡ reading (bottom_shown L.layout self.now) place }
    {
        let spot = self.spot(place)?;
        Ok(sample_at(self.samples, spot))
    }

    // What the trait's call puts.
    #[inline]
    fn put_sample(&mut self, place: Place, sample: T) -> Result<(), Refusal>
        ensures answer { result ≡ putting (bottom_shown L.layout self.old) place }
        ensures after { bottom_shown L.layout self.new ≡
            painted (bottom_shown L.layout self.old) place sample }
        ensures rest { bottom_kept L.layout self.old self.new }
        ensures untouched { inside (bottom_shown L.layout self.old).sides place ≡ false →
            self.new ≡ self.old }
    {
        let spot = self.spot(place)?;
        self.samples[spot] = sample;
        Ok(())
    }

    // Puts n samples of a line, from its sample `start` on, where they stand side by side in the run.
    fn put_piece<M: Line<Sample = T>>(&mut self, place: Place, line: &M, start: usize, n: usize)
        requires across { place.x + n ≤ (bottom_shown L.layout self.old).sides.width }
        requires down { place.y < (bottom_shown L.layout self.old).sides.height }
        requires some { 0 < n }
        requires together { Together (L.layout.spot self.old.sides.width) place n }
        requires part { start + n ≤ M.Line.long line.now }
        requires full { Full (M.Line.long line.now) (M.Line.held line.now) }
        ensures after { bottom_shown L.layout self.new ≡
            lined (bottom_shown L.layout self.old) place n (λ i. M.Line.held line.now (start + i)) }
        ensures rest { bottom_kept L.layout self.old self.new }
    {
        let spot = L::spot(self.sides.width, place);
        line.give(start, &mut self.samples[spot..spot + n]);
    }
}

impl<'a, T: Copy, L: RunLayout> Store for Bottom<'a, T, L> {
    type Sample = T;

    ghost shown = { λ s. bottom_shown L.layout s };

    ghost sound = { λ s. laid_sound L.layout L.lawful s.sides s.samples.now };

    ghost kept = { λ s t. bottom_kept L.layout s t };

    ghost keeps = { bottom_keeps L.layout };

    #[inline]
    fn width(&self) -> u32 {
        self.shown_sides().width
    }

    #[inline]
    fn height(&self) -> u32 {
        self.shown_sides().height
    }

    #[inline]
    fn read(&self, place: Place) -> Result<T, Refusal> {
        self.read_sample(place)
    }

    #[inline]
    fn put(&mut self, place: Place, sample: T) -> Result<(), Refusal> {
        self.put_sample(place, sample)
    }

    // Left to the layout, since rows do better than a spot for each place.
    fn gather(&self, track: Track, steps: &[u32], out: &mut [T]) {
        L::gather(self.samples, self.sides, track, steps, out);
    }

    // Piece after piece, each up to where its samples no longer stand side by side in the run. The pieces differ in length, so
    // no iterator of the library tells where each begins.
    fn put_line<M: Line<Sample = T>>(&mut self, place: Place, line: &M) {
        let count = line.count();
        let mut done = 0;
        while done < count {
            let next = Place {
                x: place.x + done as u32,
                y: place.y,
            };
            let n = L::piece(next).min(count - done);
            self.put_piece(next, line, done, n);
            done += n;
        }
    }
}
