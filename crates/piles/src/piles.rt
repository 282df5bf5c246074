// The piles: a window over a turn over a bottom.
use geometry::Sides;
use picture::{Frame, Mark, Rows, Store, Tiles, Turned, Window};
use refusal::Refusal;

// Numbers from 0 on. The program `dock` has the like from any number on: a crate to share one loop would be no plainer.
pub(crate) fn counted<const N: usize>() -> [u16; N] {
    let mut run = [0; N];
    for (sample, number) in run.iter_mut().zip(0..=u16::MAX) {
        *sample = number;
    }
    run
}

// A frame over a bottom that is turned by a code.
fn pile_over<S: Store + Drop>(
    bottom: S,
    code: u8,
    frame: Frame,
) -> Result<Window<Turned<S>>, Refusal> {
    let mut turned = Turned::new(bottom);
    turned.set_code(code)?;
    Ok(Window::new(turned, frame))
}

// Rows of 6 by 4, mirrored and exchanged, through a frame that passes the right edge.
pub(crate) fn rows_pile(run: &mut [u16]) -> Result<Window<Turned<Rows<'_, u16>>>, Refusal> {
    let sides = Sides {
        width: 6,
        height: 4,
    };
    let frame = Frame {
        left: 1,
        top: 2,
        width: 9,
        height: 3,
    };
    pile_over(Rows::of_sides(run, sides)?, 5, frame)
}

// Tiles of 10 by 9, mirrored and flipped, through a frame whose far corner passes 32 bits.
pub(crate) fn tiles_pile(run: &mut [u16]) -> Result<Window<Turned<Tiles<'_, u16>>>, Refusal> {
    let sides = Sides {
        width: 10,
        height: 9,
    };
    let frame = Frame {
        left: 7,
        top: 6,
        width: u32::MAX,
        height: u32::MAX,
    };
    pile_over(Tiles::of_sides(run, sides)?, 2, frame)
}

// Rows of 4 by 3 marks, flipped and exchanged, through a frame past the lower edge.
pub(crate) fn marks_pile(run: &mut [Mark]) -> Result<Window<Turned<Rows<'_, Mark>>>, Refusal> {
    let sides = Sides {
        width: 4,
        height: 3,
    };
    let frame = Frame {
        left: 1,
        top: 1,
        width: 2,
        height: 7,
    };
    pile_over(Rows::of_sides(run, sides)?, 7, frame)
}
