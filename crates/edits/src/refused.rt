// Why an edit is refused.
ghost use Rattle.std.specs.Prelude.{◌≡◌, Some};
ghost use Rattle.refusal.specs.Numbers.{number};
ghost use Rattle.edits.specs.declared.refused.EditRefused.TheVariants.{Plain, InBox};
ghost use Rattle.edits.specs.Told.{told, sentence};

use crate::edit::Answer;
use refusal::Refusal;
use rwpk::Fault;
use std::error::Error;
use std::fmt;

// A refusal, or that of a box with its byte place. Of the shape of `CopyFault` in crate `rwpk`, but with another meaning: there
// the two cases say whether the box was not read or its copy not written.
#[derive(Clone, Copy, Debug, PartialEq, Eq)]
pub enum EditRefused {
    Plain(Refusal),
    InBox(Fault),
}

impl EditRefused {
    // The refusal, without a byte place.
    pub fn refusal(self) -> Refusal
        ensures { Some (number result) ≡ (told (Err self)).number }
    {
        match self {
            EditRefused::Plain(refusal) => refusal,
            EditRefused::InBox(fault) => fault.refusal,
        }
    }
}

// The number of an answer's refusal, if it is one: numbers are what the adapter's users know.
pub fn refusal_number(answer: Answer) -> Option<u8>
    ensures { result ≡ (told answer).number }
{
    answer.err().map(|refused| refused.refusal().number())
}

impl From<Refusal> for EditRefused {
    ghost from_gives = { λ refusal refused. refused ≡ Plain refusal };

    fn from(refusal: Refusal) -> EditRefused {
        EditRefused::Plain(refusal)
    }
}

impl From<Fault> for EditRefused {
    ghost from_gives = { λ fault refused. refused ≡ InBox fault };

    fn from(fault: Fault) -> EditRefused {
        EditRefused::InBox(fault)
    }
}

impl fmt::Display for EditRefused {
    ghost output = { λ refused. Some (sentence refused) };

    fn fmt<W: fmt::Write>(&self, f: &mut fmt::Formatter<W>) -> fmt::Result {
        match self {
            EditRefused::Plain(refusal) => write!(f, "{refusal}"),
            EditRefused::InBox(fault) => write!(f, "{fault}"),
        }
    }
}

impl Error for EditRefused {}
