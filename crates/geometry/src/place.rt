// Places and rectangles, and the two units they are counted in.
ghost use Rattle.std.specs.Prelude.{◌≡◌};
ghost use Rattle.geometry.specs.Places.{at, inside, is_empty, sides_of};

// A place: x from the left and y from the top, both from 0.
#[derive(Clone, Copy, Debug, PartialEq, Eq)]
pub struct Place {
    pub x: u32,
    pub y: u32,
}

// A place counted in packed samples. Two wrappers, as the customer asked, so that neither place can stand for the other.
#[derive(Clone, Copy, Debug, PartialEq, Eq)]
pub struct PackedPlace(pub Place);

// A place counted in projected samples.
#[derive(Clone, Copy, Debug, PartialEq, Eq)]
pub struct ProjectedPlace(pub Place);

// How many samples across and down.
#[derive(Clone, Copy, Debug, PartialEq, Eq)]
pub struct Sides<T = u32> {
    pub width: T,
    pub height: T,
}

// A rectangle of samples: its sides, and where its corner lies.
#[derive(Clone, Copy, Debug, PartialEq, Eq)]
pub struct Rectangle<T> {
    pub width: T,
    pub height: T,
    pub top: T,
    pub left: T,
}

// The rectangle of the projected picture that a row shows, in projected samples.
pub type ProjectedRectangle = Rectangle<u32>;

// A row's rectangle in the packed picture, without its guard bands, in packed samples.
pub type Body = Rectangle<u16>;

impl Sides {
    // Whether a place counted from the corner lies inside.
    pub fn contain(self, place: Place) -> bool
        ensures { result ≡ inside self place }
    {
        place.x < self.width && place.y < self.height
    }

    // Whether one of the sides is 0.
    pub fn is_empty(self) -> bool
        ensures { result ≡ is_empty self }
    {
        self.width == 0 || self.height == 0
    }
}

// The same number of samples, counted in 32 bits.
impl From<Sides<u16>> for Sides {
    ghost from_gives = { λ sides wide. wide ≡ sides };

    fn from(sides: Sides<u16>) -> Sides {
        Sides {
            width: sides.width as u32,
            height: sides.height as u32,
        }
    }
}

// The same rectangle, counted in 32 bits.
impl From<Body> for Rectangle<u32> {
    ghost from_gives = { λ body wide. wide ≡ body };

    fn from(body: Body) -> Rectangle<u32> {
        Rectangle {
            width: body.width as u32,
            height: body.height as u32,
            top: body.top as u32,
            left: body.left as u32,
        }
    }
}

impl Rectangle<u32> {
    // Where its corner lies.
    pub fn corner(self) -> Place
        ensures { result ≡ at self.left self.top }
    {
        Place {
            x: self.left,
            y: self.top,
        }
    }
}

// A rectangle's sides, without where it lies.
impl From<ProjectedRectangle> for Sides {
    ghost from_gives = { λ rectangle sides. sides ≡ sides_of rectangle };

    fn from(rectangle: ProjectedRectangle) -> Sides {
        Sides {
            width: rectangle.width,
            height: rectangle.height,
        }
    }
}

impl Body {
    // The body's sides, without where it lies.
    pub fn sides(self) -> Sides
        ensures { result ≡ sides_of self }
    {
        Sides::from(Rectangle::from(self))
    }
}
