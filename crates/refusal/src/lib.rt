// Why a call was refused: one enum for the whole library.
#![tactic(auto)]

ghost use Rattle.std.specs.Prelude.{◌≡◌, ◌==◌, ◌↔◌, IsTrue, Some};
ghost use Rattle.refusal.specs.Numbers.{number, NumbersDiffer};
ghost use Rattle.refusal.specs.Sentences.{sentence};

use std::error::Error;
use std::fmt;

// A refusal returns its number and changes nothing. docs/REFUSALS.md says which call gives which.
#[derive(Clone, Copy, Debug, PartialEq, Eq)]
pub enum Refusal {
    InputEnds = 1,
    SizeDiffers = 2,
    NotRwpk = 3,
    NoPayload = 4,
    Paired = 5,
    ReservedBit = 6,
    NoRows = 7,
    EmptySide = 8,
    PackingType = 9,
    GuardBands = 10,
    TurnCode = 11,
    LeavesProjected = 12,
    ClaimLeaves = 13,
    ClaimMeets = 14,
    BytesLeft = 15,
    SheetFull = 16,
    NoFreeSpot = 17,
    NoSuchRow = 18,
    PlaceOutside = 19,
    NotCovered = 20,
    UnfitSides = 21,
    BufferShort = 22,
    AllWritten = 23,
    PartDue = 24,
}

impl Refusal {
    // The number that the adapter prints and its users know.
    pub fn number(self) -> u8
        ensures { result ≡ number self }
    {
        self as u8
    }

    // Whether it is this refusal and no other, which is also where the two numbers are equal.
    pub fn is(self, other: Refusal) -> bool
        ensures computed { result ≡ (number self == number other) }
        ensures decides { IsTrue result ↔ (self ≡ other) }
    {
        self == other
    }

    // The refusal in one plain sentence.
    pub fn sentence(self) -> &'static str
        ensures { result.now ≡ sentence self }
    {
        match self {
            Refusal::InputEnds => "the input ends inside a field",
            Refusal::SizeDiffers => "the size field is not the input's length",
            Refusal::NotRwpk => "the type is not rwpk, or the version or a flag is not 0",
            Refusal::NoPayload => "the box has no payload",
            Refusal::Paired => "the paired flag is set",
            Refusal::ReservedBit => "a reserved bit is set",
            Refusal::NoRows => "there are no rows",
            Refusal::EmptySide => "a width or height is 0",
            Refusal::PackingType => "the packing type is not 0",
            Refusal::GuardBands => "a guard band's kind is over 4, or all four sizes are 0",
            Refusal::TurnCode => "the turn code is over 7",
            Refusal::LeavesProjected => "the projected rectangle leaves its picture",
            Refusal::ClaimLeaves => "the claim leaves the packed picture",
            Refusal::ClaimMeets => "the claim meets another row's claim",
            Refusal::BytesLeft => "bytes are left over after the last row",
            Refusal::SheetFull => "the sheet has 255 rows already",
            Refusal::NoFreeSpot => "there is no free spot for the claim",
            Refusal::NoSuchRow => "the row number is too high",
            Refusal::PlaceOutside => "the place is outside",
            Refusal::NotCovered => "no row covers the place",
            Refusal::UnfitSides => "the sides are too large or differ, or the run is too short",
            Refusal::BufferShort => "the buffer is too short",
            Refusal::AllWritten => "every part is written",
            Refusal::PartDue => "a part is still due",
        }
    }
}

impl fmt::Display for Refusal {
    ghost output = { λ r. Some (sentence r) };

    fn fmt<W: fmt::Write>(&self, f: &mut fmt::Formatter<W>) -> fmt::Result {
        f.write_str(self.sentence())
    }
}

impl Error for Refusal {}

// No two refusals share a number.
pub fn numbers_differ()
    ensures { NumbersDiffer }
{}
