// Claims in code: the boxes of a row, and whether they lie inside and apart.
ghost use Rattle.std.specs.Prelude.{◌≡◌};
ghost use Rattle.std.specs.List.{AllByRecursion, list_any};
ghost use Rattle.sheet.specs.Blocked.{Small};
ghost use Rattle.sheet.specs.Claims.{reaches, widened, claim, fits, claim_inside, overlap, meets, meets_any};

use crate::row::{FourSides, GuardBands, PackedSides, Row};
use geometry::{Body, Bounds};

// How many boxes a claim has.
pub const PARTS: usize = 1;

const NO_REACH: FourSides = FourSides {
    left: 0,
    right: 0,
    top: 0,
    bottom: 0,
};

// How far each box of a claim reaches beyond the body.
pub(crate) fn reaches(bands: Option<GuardBands>) -> [FourSides; PARTS]
    ensures { result ≡ reaches bands }
{
    [bands.map_or(NO_REACH, |b| b.sizes)]
}

fn widened(body: Body, reach: FourSides) -> Bounds
    ensures value { result ≡ widened body reach }
    ensures small { Small result }
{
    let body = Bounds::from(body);
    Bounds {
        top: body.top.saturating_sub(u32::from(reach.top)),
        bottom: body.bottom + u32::from(reach.bottom),
        left: body.left.saturating_sub(u32::from(reach.left)),
        right: body.right + u32::from(reach.right),
    }
}

// The boxes of the packed picture that belong to a row.
pub fn claim(row: &Row) -> [Bounds; PARTS]
    ensures value { result ≡ claim row.now }
    ensures small { AllByRecursion Small result }
{
    let [reach] = reaches(row.bands);
    [widened(row.body, reach)]
}

fn fits(packed: PackedSides, body: Body, reach: FourSides) -> bool
    ensures { result ≡ fits packed body reach }
{
    let there = Bounds::from(body);
    u32::from(reach.left) <= there.left
        && u32::from(reach.top) <= there.top
        && there.right + u32::from(reach.right) <= u32::from(packed.width)
        && there.bottom + u32::from(reach.bottom) <= u32::from(packed.height)
}

// Whether a row's claim lies inside the packed picture.
pub(crate) fn claim_inside(packed: PackedSides, row: &Row) -> bool
    ensures { result ≡ claim_inside packed row.now }
{
    let [reach] = reaches(row.bands);
    fits(packed, row.body, reach)
}

fn overlap(a: &Bounds, b: &Bounds) -> bool
    ensures { result ≡ overlap a.now b.now }
{
    a.left < b.right && b.left < a.right && a.top < b.bottom && b.top < a.bottom
}

fn overlaps_some(a: &Bounds, boxes: &[Bounds]) -> bool
    ensures { result ≡ list_any (overlap a.now) boxes.now }
{
    boxes.iter().any(|b| overlap(a, b))
}

// Whether two claims share a sample.
fn meet(claim: &[Bounds], other: &[Bounds]) -> bool
    ensures { result ≡ meets claim.now other.now }
{
    claim.iter().any(|a| overlaps_some(a, other))
}

// Whether a claim shares a sample with that of one of the rows.
pub(crate) fn meets_some(claim_there: &[Bounds], rows: &[Row]) -> bool
    ensures { result ≡ meets_any claim_there.now rows.now }
{
    rows.iter().any(|row| meet(claim_there, &claim(row)))
}
