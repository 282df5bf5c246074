// Stores of each make. Were a size refused, the picture would be empty, and the calls that take it would answer 21.
use geometry::Sides;
use picture::{Frame, Rows, Tiles, Turned, Window};

pub(crate) fn rows_of(run: &mut [u16], sides: Sides) -> Rows<'_, u16> {
    let mut rows = Rows::new(run);
    let _ = rows.size(sides);
    rows
}

pub(crate) fn tiles_of(run: &mut [u16], sides: Sides) -> Tiles<'_, u16> {
    let mut tiles = Tiles::new(run);
    let _ = tiles.size(sides);
    tiles
}

// A window over a picture that is turned by code 6 and has three lines and two columns more. Other programs make such piles too: a
// crate to share three lines would be no plainer.
pub(crate) fn pile_of(run: &mut [u16], sides: Sides) -> Window<Turned<Rows<'_, u16>>> {
    let mut below = Rows::new(run);
    let _ = below.size(Sides {
        width: sides.height.saturating_add(3),
        height: sides.width.saturating_add(2),
    });
    let mut turned = Turned::new(below);
    let _ = turned.set_code(6);
    Window::new(
        turned,
        Frame {
            left: 1,
            top: 2,
            width: sides.width,
            height: sides.height,
        },
    )
}
