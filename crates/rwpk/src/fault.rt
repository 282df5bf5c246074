// Why a box is refused, and where.
ghost use Rattle.std.specs.Prelude.{◌≡◌, Some};
ghost use Rattle.rwpk.specs.declared.fault.CopyFault.TheVariants.{Unread, Unwritten};
ghost use Rattle.rwpk.specs.Sentences.{fault_sentence, copy_sentence};

use refusal::Refusal;
use std::error::Error;
use std::fmt;

// A refusal of a box, and the byte place where the field that it is about begins.
#[derive(Clone, Copy, Debug, PartialEq, Eq)]
pub struct Fault {
    pub refusal: Refusal,
    pub place: usize,
}

impl Fault {
    pub(crate) fn at(refusal: Refusal, place: usize) -> Fault
        ensures { result ≡ record { refusal = refusal; place = place } }
    {
        Fault { refusal, place }
    }
}

impl fmt::Display for Fault {
    ghost output = { λ fault. Some (fault_sentence fault) };

    fn fmt<W: fmt::Write>(&self, f: &mut fmt::Formatter<W>) -> fmt::Result {
        write!(f, "{} at byte {}", self.refusal, self.place)
    }
}

impl Error for Fault {}

// Why a box is not copied: it is not granted, or the buffer is too short.
#[derive(Clone, Copy, Debug, PartialEq, Eq)]
pub enum CopyFault {
    Unread(Fault),
    Unwritten(Refusal),
}

impl From<Fault> for CopyFault {
    ghost from_gives = { λ fault copy_fault. copy_fault ≡ Unread fault };

    fn from(fault: Fault) -> CopyFault {
        CopyFault::Unread(fault)
    }
}

impl From<Refusal> for CopyFault {
    ghost from_gives = { λ refusal copy_fault. copy_fault ≡ Unwritten refusal };

    fn from(refusal: Refusal) -> CopyFault {
        CopyFault::Unwritten(refusal)
    }
}

impl fmt::Display for CopyFault {
    ghost output = { λ fault. Some (copy_sentence fault) };

    fn fmt<W: fmt::Write>(&self, f: &mut fmt::Formatter<W>) -> fmt::Result {
        match self {
            CopyFault::Unread(fault) => write!(f, "{fault}"),
            CopyFault::Unwritten(refusal) => write!(f, "{refusal}"),
        }
    }
}

impl Error for CopyFault {}
