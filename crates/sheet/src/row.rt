// Rows, drafts of rows, and the sides of a sheet's two pictures.
ghost use Rattle.std.specs.Prelude.{◌≡◌};
ghost use Rattle.sheet.specs.Rules.{all_zero, drafted, over_four};

use geometry::{Body, ProjectedRectangle, Sides};

// One number for each side of a body.
#[derive(Clone, Copy, Debug, PartialEq, Eq)]
pub struct FourSides {
    pub left: u8,
    pub right: u8,
    pub top: u8,
    pub bottom: u8,
}

impl FourSides {
    // Whether all four numbers are 0.
    pub fn are_zero(self) -> bool
        ensures { result ≡ all_zero self }
    {
        self.left == 0 && self.right == 0 && self.top == 0 && self.bottom == 0
    }

    // Whether one of the numbers is over 4, and so no kind of guard band.
    pub fn has_over_four(self) -> bool
        ensures { result ≡ over_four self }
    {
        self.left > 4 || self.right > 4 || self.top > 4 || self.bottom > 4
    }
}

// The guard bands around a body: how wide, whether they are kept out of prediction, and what they hold (kinds 0 to 4).
// The kinds are numbers and no enum, so that a sheet can refuse one that there is not as `GuardBands`.
#[derive(Clone, Copy, Debug, PartialEq, Eq)]
pub struct GuardBands {
    pub sizes: FourSides,
    pub prediction: bool,
    pub kinds: FourSides,
}

// A row of a sheet: a rectangle of the projected picture, and the body in the packed picture that it is turned onto.
// The turn is its code and no `Turn`, so that a sheet can refuse a code that there is not as `TurnCode`. What needs the turn of
// a row asks for a code of up to 7.
#[derive(Clone, Copy, Debug, PartialEq, Eq)]
pub struct Row {
    pub projected: ProjectedRectangle,
    pub turn: u8,
    pub body: Body,
    pub bands: Option<GuardBands>,
}

// A row whose body has no top and left yet. Its turn is a code as in a row, and for the same reason.
#[derive(Clone, Copy, Debug, PartialEq, Eq)]
pub struct Draft {
    pub projected: ProjectedRectangle,
    pub turn: u8,
    pub width: u16,
    pub height: u16,
    pub bands: Option<GuardBands>,
}

impl Draft {
    // The row with its body at a spot.
    pub(crate) fn at(&self, top: u16, left: u16) -> Row
        ensures { result ≡ drafted self.now top left }
    {
        Row {
            projected: self.projected,
            turn: self.turn,
            body: Body {
                width: self.width,
                height: self.height,
                top,
                left,
            },
            bands: self.bands,
        }
    }
}

// The sides of a packed picture.
pub type PackedSides = Sides<u16>;

// The sides of the two pictures that a sheet relates.
#[derive(Clone, Copy, Debug, PartialEq, Eq)]
pub struct SheetSides {
    pub projected: Sides,
    pub packed: PackedSides,
}
