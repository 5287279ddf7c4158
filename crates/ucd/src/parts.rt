// Takes a line apart: its fields and its comment.
ghost use Rattle.std.specs.Prelude.{◌≡◌};
ghost use Rattle.ucd.specs.Lines.{layout, whole, Laid};
ghost use Rattle.ucd.specs.Written.{PartsStand};

use crate::faults::{Field, Finder, LineFault, Reason};
use crate::pieces::{Parts, Piece};
use crate::stretches::Stretch;
use cutting::first_place;

// No line may have more bytes.
const LONGEST_LINE: usize = 1024;

fn fault_of_line(reason: Reason) -> LineFault
    ensures { result ≡ whole reason }
{
    LineFault {
        reason,
        field: Field::Whole,
        place: 0,
        finder: Finder::Line,
    }
}

// The parts of a line, which is given without its line feed.
pub fn take_apart(line: &[u8]) -> Result<Parts<'_>, LineFault>
    ensures parts { Laid result (layout line.now) }
    ensures stand { PartsStand line.now (layout line.now) }
{
    if line.len() > LONGEST_LINE {
        return Err(fault_of_line(Reason::LongLine));
    }
    let end = first_place(line, b'#').unwrap_or(line.len());
    let comment = Piece {
        bytes: &line[end..],
        place: end,
    };
    let before = Stretch {
        bytes: &line[0..end],
        place: 0,
        closing: end == line.len(),
    };
    if before.core().is_empty() {
        return Ok(Parts::Blank { comment });
    }
    let Some((range, value)) = before.halves() else {
        return Err(fault_of_line(Reason::FieldCount));
    };
    Ok(Parts::Listing {
        range: range.field(),
        value: value.field(),
        comment,
    })
}
