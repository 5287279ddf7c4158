// Reads the two fields of a line, and says where in the line a fault is. (What the clauses need of `Property` is named
// one by one, as in files.rt.)
ghost use Rattle.std.specs.Prelude.{◌≡◌};
ghost use Rattle.ucd.specs.Entries.{blame, range_field, value_field};
ghost use Rattle.ucd.specs.Lines.{seen};

use crate::faults::{Field, Finder, LineFault, Reason};
use crate::pieces::Piece;
use crate::points::read_range;
use properties::Property;

fn fault_of_field(reason: Reason, field: Field, place: usize) -> LineFault
    ensures { result ≡ blame reason field place }
{
    LineFault {
        reason,
        field,
        place,
        finder: Finder::Field,
    }
}

// The first and the last code point of the range.
pub(crate) fn range_field(field: Piece<'_>) -> Result<(u32, u32), LineFault>
    ensures { result ≡ range_field (seen field.entry) }
{
    read_range(field.bytes).map_err(|reason| fault_of_field(reason, Field::First, field.place))
}

// The value that the name stands for, or none where it names another property of a shared file.
pub(crate) fn value_field<P: Property>(field: Piece<'_>) -> Result<Option<P>, LineFault>
    ensures { result ≡ value_field P.Property.meant P.Property.shared (seen field.entry) }
{
    let value = P::read(field.bytes);
    if value.is_none() && !P::shares_its_file() {
        return Err(fault_of_field(Reason::BadName, Field::Second, field.place));
    }
    Ok(value)
}
