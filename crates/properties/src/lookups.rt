// The property of a code point, from a table that lists only some.
ghost use Rattle.std.specs.Prelude.{◌≡◌};
ghost use Rattle.ranges.specs.Rows.{lookup};
ghost use Rattle.ranges.specs.Tables.{rows};
ghost use Rattle.std.specs.Option.{unwrap_or};

use crate::property::Property;
use ranges::Table;

// The value that the table lists for the code point, or the property's default.
pub fn value_of<P: Property + Drop>(table: &Table<'_, P>, c: u32) -> P
    ensures { result ≡ unwrap_or (lookup (rows table.now) c) P.Property.unlisted }
{
    table.lookup(c).unwrap_or(P::default_value())
}
