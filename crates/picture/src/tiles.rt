// A picture kept in blocks of 8 by 8.
ghost use Rattle.std.specs.Prelude.{◌≡◌};
ghost use Rattle.picture.specs.LayoutLaws.{tiles_lawful, tiles_reversible, tiles_in_pieces};
ghost use Rattle.picture.specs.Runs.{blocks, tile_layout, tile_pieces};

use crate::bottom::Bottom;
use crate::layout::RunLayout;
use crate::run::are_short;
use geometry::{Place, Sides};

// Keeps block after block along a line of blocks, each block row by row.
pub struct BlockAfterBlock;

// A bottom that keeps block after block.
pub type Tiles<'a, T> = Bottom<'a, T, BlockAfterBlock>;

// How many blocks of 8 a side takes.
fn block_count(side: u32) -> usize
    ensures { result ≡ blocks side }
{
    (side as usize + 7) / 8
}

impl RunLayout for BlockAfterBlock {
    ghost layout = { tile_layout };

    ghost pieces = { tile_pieces };

    ghost lawful = { tiles_lawful };

    ghost reversible = { tiles_reversible };

    ghost in_pieces = { tiles_in_pieces };

    #[inline]
    fn spot(width: u32, place: Place) -> usize {
        let block = (place.y / 8) as usize * block_count(width) + (place.x / 8) as usize;
        block * 64 + (place.y % 8 * 8 + place.x % 8) as usize
    }

    #[inline]
    fn takes(sides: Sides, length: usize) -> bool {
        are_short(sides) && block_count(sides.height) * block_count(sides.width) * 64 <= length
    }

    // A line stands side by side to the end of its block.
    #[inline]
    fn piece(place: Place) -> usize {
        8 - place.x as usize % 8
    }
}
