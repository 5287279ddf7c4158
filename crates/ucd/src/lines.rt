// Reads a line: what it lists of a property. (What the clause needs of `Property` is named one by one, as in
// files.rt.)
ghost use Rattle.std.specs.Prelude.{◌≡◌};
ghost use Rattle.ucd.specs.Entries.{entry_of};

use crate::faults::LineFault;
use crate::fields::{range_field, value_field};
use crate::listings::Listing;
use crate::parts::take_apart;
use crate::pieces::Parts;
use properties::Property;
use ranges::Range;

// What a line lists, which is given without its line feed, or nothing.
pub fn read_line<P: Property>(line: &[u8]) -> Result<Option<Listing<P>>, LineFault>
    ensures { result ≡ entry_of P.Property.meant P.Property.shared line.now }
{
    match take_apart(line)? {
        Parts::Blank { comment: _ } => Ok(None),
        Parts::Listing {
            range,
            value,
            comment: _,
        } => {
            let (first, last) = range_field(range)?;
            let value = value_field::<P>(value)?;
            Ok(value.map(|value| Listing {
                range: Range { first, last, value },
                place: range.place,
            }))
        }
    }
}
