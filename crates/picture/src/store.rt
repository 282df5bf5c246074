// What a picture store means.
ghost use Rattle.std.specs.Prelude.{◌≡◌, ◌+◌, ◌<◌, ◌≤◌, false, length};
ghost use Rattle.geometry.specs.Places.{inside};
ghost use Rattle.picture.specs.Kept.{Keeps};
ghost use Rattle.picture.specs.Lines.{Full, Given, StepsInside, picked, lined};
ghost use Rattle.picture.specs.Picture.{Picture, Sound, painted, reading, putting};

use crate::line::Line;
use crate::track::Track;
use geometry::{Place, Sides};
use refusal::Refusal;

// A width, a height, and one sample at each place inside them.
pub trait Store {
    // A refused put lets its sample go.
    type Sample: Drop;

    // The picture that callers see.
    ghost shown: { Self → Picture Self.Sample };

    // Its sides fit 32 bits, and it has a sample at each place inside and at no other.
    ghost sound: { (s : Self) → Sound (shown s) };

    // What the store holds beside its picture is the same in both.
    ghost kept: { Self → Self → Type 0 };

    // So over no call and over several calls.
    ghost keeps: { Keeps kept };

    fn width(&self) -> u32
        ensures { result ≡ (shown self.now).sides.width };

    fn height(&self) -> u32
        ensures { result ≡ (shown self.now).sides.height };

    fn read(&self, place: Place) -> Result<Self::Sample, Refusal>
        ensures { result ≡ reading (shown self.now) place };

    // A refused put leaves the whole store equal, not only its picture.
    fn put(&mut self, place: Place, sample: Self::Sample) -> Result<(), Refusal>
        ensures answer { result ≡ putting (shown self.old) place }
        ensures after { shown self.new ≡ painted (shown self.old) place sample }
        ensures rest { kept self.old self.new }
        ensures untouched { inside (shown self.old).sides place ≡ false →
            self.new ≡ self.old };

    // Reads the places so many steps on, one for each of the steps. A store that keeps its samples in a run does better. Track,
    // steps and room stay apart, since one table of steps serves many tracks.
    fn gather(&self, track: Track, steps: &[u32], out: &mut [Self::Sample])
        requires long { length out.old ≡ length steps.now }
        requires within { StepsInside (shown self.now).sides track steps.now }
        ensures { Given (length steps.now)
            (picked (shown self.now) track steps.now) out.new }
    {
        // by number, for the reason that stands beside `pick`
        for (i, &step) in steps.iter().enumerate() {
            out[i] = self.read(track.place(step)).unwrap();
        }
    }

    // Puts the samples of a line from a place on, along the place's own line, by number, since a line is no slice.
    fn put_line<L: Line<Sample = Self::Sample>>(&mut self, place: Place, line: &L)
        requires across { place.x + L.Line.long line.now ≤ (shown self.old).sides.width }
        requires down { place.y < (shown self.old).sides.height }
        requires full { Full (L.Line.long line.now) (L.Line.held line.now) }
        ensures after { shown self.new ≡
            lined (shown self.old) place (L.Line.long line.now) (L.Line.held line.now) }
        ensures rest { kept self.old self.new }
    {
        for i in 0..line.count() {
            let next = Place {
                x: place.x + i as u32,
                y: place.y,
            };
            let _ = self.put(next, line.sample(i));
        }
    }
}

// A store's width and height.
pub fn sides_of<S: Store>(store: &S) -> Sides
    ensures { result ≡ (S.Store.shown store.now).sides }
{
    Sides {
        width: store.width(),
        height: store.height(),
    }
}
