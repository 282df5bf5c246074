// The samples that the stores of the task begin with, and one of the stores.
use crate::hall::HALL;
use geometry::Sides;
use picture::{Frame, Rows, Turned, Window};
use refusal::Refusal;

// Numbers from `first` on, so that no two samples of a picture are alike. The program `piles` has the like: a crate to share one
// loop would be no plainer.
pub(crate) fn numbered<const N: usize>(first: u16) -> [u16; N] {
    let mut run = [0; N];
    for (sample, number) in run.iter_mut().zip(first..=u16::MAX) {
        *sample = number;
    }
    run
}

// The hall as a window over a turned picture of 15 by 28. Other programs make such piles too: a crate to share three lines would
// be no plainer.
pub(crate) fn pile_of_hall(run: &mut [u16]) -> Result<Window<Turned<Rows<'_, u16>>>, Refusal> {
    let sides = Sides {
        width: 15,
        height: 28,
    };
    let mut turned = Turned::new(Rows::of_sides(run, sides)?);
    turned.set_code(5)?;
    let frame = Frame {
        left: 1,
        top: 2,
        width: HALL.width,
        height: HALL.height,
    };
    Ok(Window::new(turned, frame))
}
