// The boxes of spots that a draft cannot take, for the search that jumps.
ghost use Rattle.std.specs.Prelude.{◌≡◌, ◌≤◌, [], ◌∷◌, length};
ghost use Rattle.std.specs.List.{flat_map};
ghost use Rattle.sheet.specs.Blocked.{walls, against, blocked};
ghost use Rattle.sheet.specs.Claims.{reaches};

use crate::claims::{claim, reaches};
use crate::row::{Draft, PackedSides, Row};
use arrayvec::ArrayVec;
use geometry::Bounds;

// The most boxes that there are for claims of one box: four walls, and one box against each of 255 rows.
const MOST: usize = 259;

impl Draft {
    // Where the claim would leave the packed picture: above, on the left, below, on the right.
    fn walls(&self, packed: PackedSides) -> [Bounds; 4]
        ensures { result ≡ flat_map (walls packed self.now) (reaches self.now.bands) }
    {
        let [reach] = reaches(self.bands);
        let height = u32::from(packed.height);
        let width = u32::from(packed.width);
        let down = u32::from(self.height) + u32::from(reach.bottom);
        let across = u32::from(self.width) + u32::from(reach.right);
        let all = Bounds {
            top: 0,
            bottom: height,
            left: 0,
            right: width,
        };
        [
            Bounds {
                bottom: u32::from(reach.top),
                ..all
            },
            Bounds {
                right: u32::from(reach.left),
                ..all
            },
            Bounds {
                top: (height + 1).saturating_sub(down),
                ..all
            },
            Bounds {
                left: (width + 1).saturating_sub(across),
                ..all
            },
        ]
    }

    // Where the claim would meet a row's.
    fn against(&self, row: &Row) -> Bounds
        ensures { against self.now row.now ≡ result ∷ [] }
    {
        let [reach] = reaches(self.bands);
        let [there] = claim(row);
        let down = u32::from(self.height) + u32::from(reach.bottom);
        let across = u32::from(self.width) + u32::from(reach.right);
        Bounds {
            top: (there.top + 1).saturating_sub(down),
            bottom: there.bottom + u32::from(reach.top),
            left: (there.left + 1).saturating_sub(across),
            right: there.right + u32::from(reach.left),
        }
    }

    // Puts all boxes of spots that the draft cannot take into an empty list: the walls, and one box against each row. The list is
    // lent, since handing back one of this size copies it, which takes longer than a search among few rows.
    pub(crate) fn block(
        &self,
        packed: PackedSides,
        rows: &[Row],
        boxes: &mut ArrayVec<Bounds, MOST>,
    )
        requires few { length rows.now ≤ 255 }
        requires empty { boxes.old.items ≡ [] }
        ensures { boxes.new.items ≡ blocked packed rows.now self.now }
    {
        for wall in self.walls(packed) {
            boxes.push(wall);
        }
        for row in rows {
            boxes.push(self.against(row));
        }
    }
}
