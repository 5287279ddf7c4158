// What a person is told of a fault.
ghost use Rattle.std.specs.Prelude.{◌≡◌, Some};
ghost use Rattle.ucd.specs.Faults.{reason_number, reason_sentence, field_number, finder_name, fault_text};

use crate::faults::{Fault, Field, Finder, LineFault, Reason};
use std::error::Error;
use std::fmt;

impl Reason {
    // The number of the refusal. A method and no `From`, so that a call says which number it asks for.
    pub fn number(self) -> u8
        ensures { result ≡ reason_number self }
    {
        match self {
            Reason::LongLine => 1,
            Reason::FieldCount => 2,
            Reason::BadRange => 3,
            Reason::BadPoint => 4,
            Reason::BadName => 5,
            Reason::Shared => 6,
            Reason::Full => 7,
        }
    }

    // The same in words.
    pub fn sentence(self) -> &'static str
        ensures { result.now ≡ reason_sentence self }
    {
        match self {
            Reason::LongLine => "the line has over 1,024 bytes",
            Reason::FieldCount => "the data line does not have two fields",
            Reason::BadRange => {
                "field 1 is neither one code point nor two joined by \"..\", each of 4 to 6 digits 0-9 or A-F"
            }
            Reason::BadPoint => {
                "a code point of field 1 is above 10FFFF, or the first is above the last"
            }
            Reason::BadName => "field 2 is no name of this file's property",
            Reason::Shared => "the range shares a code point with a kept one",
            Reason::Full => "the table has no free record",
        }
    }
}

impl fmt::Display for Reason {
    ghost output = { λ reason. Some (reason_sentence reason) };

    fn fmt<W: fmt::Write>(&self, f: &mut fmt::Formatter<W>) -> fmt::Result {
        f.write_str(self.sentence())
    }
}

impl Field {
    // The number of the field, and 0 for the whole line. A method, for the same reason.
    pub fn number(self) -> u8
        ensures { result ≡ field_number self }
    {
        match self {
            Field::Whole => 0,
            Field::First => 1,
            Field::Second => 2,
        }
    }
}

impl Finder {
    // Which reader it is.
    pub fn name(self) -> &'static str
        ensures { result.now ≡ finder_name self }
    {
        match self {
            Finder::Line => "line reader",
            Finder::Field => "field reader",
            Finder::File => "file reader",
        }
    }
}

impl fmt::Display for Fault {
    ghost output = { λ fault. Some (fault_text fault) };

    fn fmt<W: fmt::Write>(&self, f: &mut fmt::Formatter<W>) -> fmt::Result {
        let Fault {
            line,
            in_line: LineFault {
                reason,
                field,
                place,
                finder: _,
            },
        } = *self;
        let field = field.number();
        let number = reason.number();
        write!(
            f,
            "line {line}, field {field}, byte {place}: refused {number}: {reason}"
        )
    }
}

impl Error for Fault {}
