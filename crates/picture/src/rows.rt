// A picture kept row after row.
ghost use Rattle.std.specs.Prelude.{◌≡◌};
ghost use Rattle.picture.specs.LayoutLaws.{rows_lawful, rows_reversible, rows_in_pieces};
ghost use Rattle.picture.specs.Runs.{row_layout, row_pieces};

use crate::bottom::Bottom;
use crate::layout::RunLayout;
use crate::run::{are_short, pick};
use crate::track::Track;
use geometry::{Place, Sides};

// Keeps (x, y) at spot y * width + x of the run.
pub struct RowAfterRow;

// A bottom that keeps row after row.
pub type Rows<'a, T> = Bottom<'a, T, RowAfterRow>;

impl RunLayout for RowAfterRow {
    ghost layout = { row_layout };

    ghost pieces = { row_pieces };

    ghost lawful = { rows_lawful };

    ghost reversible = { rows_reversible };

    ghost in_pieces = { rows_in_pieces };

    #[inline]
    fn spot(width: u32, place: Place) -> usize {
        place.y as usize * width as usize + place.x as usize
    }

    #[inline]
    fn takes(sides: Sides, length: usize) -> bool {
        are_short(sides) && sides.height as usize * sides.width as usize <= length
    }

    // A line stands side by side to its end.
    #[inline]
    fn piece(_: Place) -> usize {
        usize::MAX
    }

    // The places of a line stand side by side in the run, and those of a column a whole row apart.
    fn gather<T: Copy>(samples: &[T], sides: Sides, track: Track, steps: &[u32], out: &mut [T]) {
        let width = sides.width;
        let spot = Self::spot(width, track.start);
        if track.down {
            pick(samples, spot, width as usize, steps, out);
        } else {
            pick(samples, spot, 1, steps, out);
        }
    }
}
