// Why a line of a script holds no keystroke, and what a person is told of it.
ghost use Rattle.std.specs.Prelude.{◌≡◌, Some};
ghost use Rattle.keystrokes.specs.Sentences.{fault_sentence};
ghost use Rattle.keystrokes.specs.Errors.{IsOutOfMemory};
ghost use Rattle.keystrokes.specs.declared.faults.LineError.TheVariants.{Fault as fault_of_line};

use std::alloc::{AllocError, AllocFailed};
use std::error::Error;
use std::fmt;

#[derive(Clone, Copy, Debug, PartialEq, Eq)]
pub enum LineFault {
    // The first word is no number in base ten below 2^64.
    BadPlace,
    // There is no second word.
    NoCount,
    // The second word is no number in base ten below 2^64.
    BadCount,
    // The code point of this number, counted from 1, is no scalar value in base sixteen.
    BadCodePoint(usize),
}

impl fmt::Display for LineFault {
    ghost output = { λ fault. Some (fault_sentence fault) };

    fn fmt<W: fmt::Write>(&self, f: &mut fmt::Formatter<W>) -> fmt::Result {
        match self {
            LineFault::BadPlace => f.write_str("the place is no number in base ten below 2^64"),
            LineFault::NoCount => f.write_str("the count to take is missing"),
            LineFault::BadCount => {
                f.write_str("the count to take is no number in base ten below 2^64")
            }
            LineFault::BadCodePoint(n) => {
                write!(f, "code point {n} is no scalar value in base sixteen")
            }
        }
    }
}

impl Error for LineFault {}

// Why a line is not read to its end.
#[derive(Clone, Copy)]
pub(crate) enum LineError {
    Fault(LineFault),
    OutOfMemory(AllocError),
}

impl From<LineFault> for LineError {
    ghost from_gives = { λ fault error. error ≡ fault_of_line fault };

    fn from(fault: LineFault) -> LineError {
        LineError::Fault(fault)
    }
}

impl<T: Drop> From<AllocFailed<T>> for LineError {
    ghost from_gives = { λ _ error. IsOutOfMemory error };

    fn from(failed: AllocFailed<T>) -> LineError {
        LineError::OutOfMemory(failed.into())
    }
}
