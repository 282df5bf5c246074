// Places of a picture one after another, along a line or down a column.
ghost use Rattle.std.specs.Prelude.{◌≡◌, ◌^◌, ◌<◌};
ghost use Rattle.picture.specs.Lines.{along};

use geometry::Place;

// From a place on: to the right along its line, or down its column.
#[derive(Clone, Copy)]
pub struct Track {
    pub start: Place,
    pub down: bool,
}

impl Track {
    // The place so many steps on.
    pub(crate) fn place(self, steps: u32) -> Place
        requires across { (along self steps).x < 2 ^ 32 }
        requires down { (along self steps).y < 2 ^ 32 }
        ensures { result ≡ along self steps }
    {
        let Place { x, y } = self.start;
        if self.down {
            Place { x, y: y + steps }
        } else {
            Place { x: x + steps, y }
        }
    }
}
