// What a claim map puts at a packed place.

// Nobody, or the body or the guard band of the row with that number.
#[derive(Clone, Copy, Debug, PartialEq, Eq)]
pub enum Mark {
    Nobody,
    Body(u8),
    Band(u8),
}
