// Why a line of a data file is refused, and what the fault tells.

#[derive(Clone, Copy, PartialEq, Eq, Debug)]
pub enum Reason {
    // The line has over 1,024 bytes.
    LongLine,
    // The line is not blank and does not have two fields.
    FieldCount,
    // Field 1 is neither one code point nor two joined by "..", each of 4 to 6 digits.
    BadRange,
    // A code point of field 1 is above 10FFFF, or the first is above the last.
    BadPoint,
    // Field 2 is no name of this file's property.
    BadName,
    // The range shares a code point with a kept one.
    Shared,
    // The table has no free record.
    Full,
}

// What of the line is at fault.
#[derive(Clone, Copy, PartialEq, Eq, Debug)]
pub enum Field {
    Whole,
    First,
    Second,
}

// Which of the readers found the fault.
#[derive(Clone, Copy, PartialEq, Eq, Debug)]
pub enum Finder {
    Line,
    Field,
    File,
}

// A fault as the line reader hands it up.
#[derive(Clone, Copy, PartialEq, Eq, Debug)]
pub struct LineFault {
    pub reason: Reason,
    pub field: Field,
    // Where in the line the field begins, in bytes from 0; an empty field lies at its end.
    pub place: usize,
    pub finder: Finder,
}

// A fault as the file reader hands it up.
#[derive(Clone, Copy, PartialEq, Eq, Debug)]
pub struct Fault {
    // The number of the line.
    pub line: usize,
    pub in_line: LineFault,
}
