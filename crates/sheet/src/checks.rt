// The single checks of a row, each answered as its rule says.
ghost use Rattle.std.specs.Prelude.{◌≡◌};
ghost use Rattle.sheet.specs.Rules.{empty_picture, empty_row, bad_bands, leaves_projected};

use crate::row::{GuardBands, Row, SheetSides};
use geometry::{ProjectedRectangle, Sides};

pub(crate) fn has_empty_picture(sides: SheetSides) -> bool
    ensures { result ≡ empty_picture sides }
{
    sides.projected.is_empty() || Sides::from(sides.packed).is_empty()
}

pub(crate) fn has_empty_side(row: &Row) -> bool
    ensures { result ≡ empty_row row.now }
{
    Sides::from(row.projected).is_empty() || row.body.sides().is_empty()
}

pub(crate) fn has_bad_bands(bands: Option<GuardBands>) -> bool
    ensures { result ≡ bad_bands bands }
{
    bands.is_some_and(|b| b.sizes.are_zero() || b.kinds.has_over_four())
}

// The sums are taken in 64 bits, where they cannot wrap.
pub(crate) fn leaves_projected(sides: Sides, rectangle: ProjectedRectangle) -> bool
    ensures { result ≡ leaves_projected sides rectangle }
{
    u64::from(rectangle.left) + u64::from(rectangle.width) > u64::from(sides.width)
        || u64::from(rectangle.top) + u64::from(rectangle.height) > u64::from(sides.height)
}
