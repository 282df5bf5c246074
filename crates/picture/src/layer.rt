// A store that shows the store below through a view.
ghost use Rattle.std.specs.Prelude.{◌≡◌, ◌+◌, ◌<◌, ◌≤◌, false, length};
ghost use Rattle.geometry.specs.Places.{inside};
ghost use Rattle.picture.specs.KeptSteps.{layer_keeps};
ghost use Rattle.picture.specs.Lines.{Full, Given, StepsInside, picked, lined};
ghost use Rattle.picture.specs.Picture.{painted, putting};
ghost use Rattle.picture.specs.Soundness.{narrow_sound};
ghost use Rattle.picture.specs.Stores.{layer_shown, layer_kept};
ghost use Rattle.picture.specs.Views.{seen};

use crate::line::Line;
use crate::store::{Store, sides_of};
use crate::track::Track;
use crate::view::{LayerView, moved};
use geometry::{Place, Sides};
use refusal::Refusal;

// Shows as each place the place below that its view has for it.
#[derive(Drop)]
pub struct Layer<S: Store, V: LayerView> {
    pub(crate) below: S,
    pub(crate) view: V,
}

impl<S: Store, V: LayerView> Layer<S, V> {
    // The store below, so that a pile can be taken apart.
    pub fn into_below(self) -> S
        ensures { result ≡ self.below }
    {
        let Layer { below, view: _ } = self;
        below
    }

    // The sides that the view shows.
    #[inline]
    fn shown_sides(&self) -> Sides
        ensures { result ≡ (layer_shown V.view S.Store.shown self.now).sides }
    {
        self.view.sides_shown(sides_of(&self.below))
    }

    // The place below that this place shows.
    #[inline]
    fn spot(&self, place: Place) -> Result<Place, Refusal>
        ensures { result ≡ seen (V.view self.now.view) (S.Store.shown self.now.below).sides place }
    {
        self.view.place_below(sides_of(&self.below), place)
    }

    // What the trait's call puts.
    #[inline]
    fn put_sample(&mut self, place: Place, sample: S::Sample) -> Result<(), Refusal>
        ensures answer { result ≡ putting (layer_shown V.view S.Store.shown self.old) place }
        ensures after { layer_shown V.view S.Store.shown self.new ≡
            painted (layer_shown V.view S.Store.shown self.old) place sample }
        ensures rest { layer_kept V.view S.Store.shown S.Store.kept self.old self.new }
        ensures untouched { inside (layer_shown V.view S.Store.shown self.old).sides place ≡ false →
            self.new ≡ self.old }
    {
        let spot = self.spot(place)?;
        self.below.put(spot, sample)
    }

    // Reads place after place of a track. The trait's own loop does so for any store, but a store that replaces it cannot
    // call it, and the checker took no function, of those that were tried, that both could call.
    fn gather_each(&self, track: Track, steps: &[u32], out: &mut [S::Sample])
        requires long { length out.old ≡ length steps.now }
        requires within { StepsInside (layer_shown V.view S.Store.shown self.now).sides track steps.now }
        ensures { Given (length steps.now)
            (picked (layer_shown V.view S.Store.shown self.now) track steps.now) out.new }
    {
        // by number, for the reason that stands beside `pick`
        for (i, &step) in steps.iter().enumerate() {
            let spot = self.spot(track.place(step)).unwrap();
            out[i] = self.below.read(spot).unwrap();
        }
    }

    // Puts place after place of a line, beside the trait's own loop for the same reason.
    fn put_each<L: Line<Sample = S::Sample>>(&mut self, place: Place, line: &L)
        requires across { place.x + L.Line.long line.now ≤ (layer_shown V.view S.Store.shown self.old).sides.width }
        requires down { place.y < (layer_shown V.view S.Store.shown self.old).sides.height }
        requires full { Full (L.Line.long line.now) (L.Line.held line.now) }
        ensures after { layer_shown V.view S.Store.shown self.new ≡
            lined (layer_shown V.view S.Store.shown self.old) place (L.Line.long line.now) (L.Line.held line.now) }
        ensures rest { layer_kept V.view S.Store.shown S.Store.kept self.old self.new }
    {
        for i in 0..line.count() {
            let next = Place {
                x: place.x + i as u32,
                y: place.y,
            };
            let _ = self.put_sample(next, line.sample(i));
        }
    }
}

impl<S: Store, V: LayerView> Store for Layer<S, V> {
    type Sample = S::Sample;

    ghost shown = { λ s. layer_shown V.view S.Store.shown s };

    ghost sound = { λ s. narrow_sound (V.view s.view) (V.inner s.view) (V.narrow s.view) (S.Store.shown s.below) (S.Store.sound s.below) };

    ghost kept = { λ s t. layer_kept V.view S.Store.shown S.Store.kept s t };

    ghost keeps = { layer_keeps V.view S.Store.shown S.Store.kept S.Store.keeps };

    #[inline]
    fn width(&self) -> u32 {
        self.shown_sides().width
    }

    #[inline]
    fn height(&self) -> u32 {
        self.shown_sides().height
    }

    #[inline]
    fn read(&self, place: Place) -> Result<S::Sample, Refusal> {
        let spot = self.spot(place)?;
        self.below.read(spot)
    }

    #[inline]
    fn put(&mut self, place: Place, sample: S::Sample) -> Result<(), Refusal> {
        self.put_sample(place, sample)
    }

    // The same places of the store below, if the view moves all by as much. A track of no steps may start anywhere, and so
    // have no place below.
    fn gather(&self, track: Track, steps: &[u32], out: &mut [S::Sample]) {
        match self.view.shift() {
            Some(corner) if !steps.is_empty() => {
                let start = moved(corner, track.start);
                let down = track.down;
                self.below.gather(Track { start, down }, steps, out);
            }
            _ => self.gather_each(track, steps, out),
        }
    }

    // The same stretch of the store below, if the view moves all by as much. A line of no samples may stand past its edge.
    fn put_line<L: Line<Sample = S::Sample>>(&mut self, place: Place, line: &L) {
        match self.view.shift() {
            Some(corner) if line.count() > 0 => self.below.put_line(moved(corner, place), line),
            _ => self.put_each(place, line),
        }
    }
}
