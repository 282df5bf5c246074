// The first free spot among boxes, found by jumps from box to box and never by trying spot after spot.
ghost use Rattle.std.specs.Prelude.{◌≡◌};
ghost use Rattle.geometry.specs.FirstFree.{first_left, first_top, clear, first_free};
ghost use Rattle.geometry.specs.Jumps.{past, next};

use crate::bounds::Bounds;
use crate::place::Place;

// A top and a left, for the corner of what is to be laid there.
#[derive(Clone, Copy, Debug, PartialEq, Eq)]
pub struct Spot {
    pub top: u32,
    pub left: u32,
}

// Where to look: among the tops below `tops` and the lefts below `lefts`, off the boxes.
#[derive(Clone, Copy)]
struct Search<'a> {
    boxes: &'a [Bounds],
    tops: u32,
    lefts: u32,
}

impl Search<'_> {
    // One jump to the right: to the end of the first box that has the spot, or nowhere.
    fn past(&self, spot: Spot) -> u32
        ensures { result ≡ past self.now.boxes.now spot.top spot.left }
    {
        let place = Place {
            x: spot.left,
            y: spot.top,
        };
        for b in self.boxes {
            if b.contain(place) {
                return b.right;
            }
        }
        spot.left
    }

    // The leftmost free spot at this top, or `lefts` where there is none. The loop goes by jumps.
    fn leftmost_free(&self, top: u32) -> u32
        ensures { result ≡ first_left (clear self.now.boxes.now) self.now.lefts top }
    {
        let mut left = 0;
        while left < self.lefts {
            let end = self.past(Spot { top, left });
            if end == left {
                return left;
            }
            left = end;
        }
        self.lefts
    }

    // One jump down: to the nearest end of a box that stands at this top.
    fn next_top(&self, top: u32) -> u32
        ensures { result ≡ next self.now.boxes.now self.now.tops top }
    {
        let mut end = self.tops;
        for b in self.boxes {
            if b.stands_at(top) && b.bottom < end {
                end = b.bottom;
            }
        }
        end
    }

    // The highest top with a free spot, or `tops` where there is none. The loop goes by jumps.
    fn highest_free(&self) -> u32
        ensures { result ≡ first_top (clear self.now.boxes.now) self.now.tops self.now.lefts }
    {
        let mut top = 0;
        while top < self.tops {
            if self.leftmost_free(top) < self.lefts {
                return top;
            }
            top = self.next_top(top);
        }
        self.tops
    }
}

// The highest spot that no box has, and the leftmost of those, among tops below `tops` and lefts below `lefts`.
pub fn first_free(boxes: &[Bounds], tops: u32, lefts: u32) -> Option<Spot>
    ensures { result ≡ first_free boxes.now tops lefts }
{
    let search = Search { boxes, tops, lefts };
    let top = search.highest_free();
    if top >= tops {
        return None;
    }
    Some(Spot {
        top,
        left: search.leftmost_free(top),
    })
}
