// Reads a data file into a table, line by line. The clauses name what they need of `Property` one by one, since the
// definitions stand below that interface; and each call that changes a table says that its room stays, which compares
// two tables and is no fact of one.
ghost use Rattle.std.specs.Prelude.{◌≡◌, ◌≤◌, length, Ok, Some, MatchResult, OnOk};
ghost use Rattle.cutting.specs.Pieces.{lines, Lined};
ghost use Rattle.ranges.specs.Rows.{Added, placed};
ghost use Rattle.ranges.specs.Tables.{Untouched, kept, room};
ghost use Rattle.ucd.specs.Entries.{entry_of};
ghost use Rattle.ucd.specs.Written.{Tells};
ghost use Rattle.ucd.specs.Files.{Answered, rows_with, Grown, Loads, Goes};

use crate::faults::{Fault, Field, Finder, LineFault, Reason};
use crate::lines::read_line;
use crate::listings::Listing;
use cutting::Lines;
use properties::Property;
use ranges::{Filling, Range, Refusal, Table};

// Puts what the line of this number lists into the table.
fn keep<V: Copy>(
    listing: Listing<V>,
    number: usize,
    table: &mut Filling<'_, V>,
) -> Result<(), Fault>
    requires { listing.range.first ≤ listing.range.last }
    ensures told { Answered (room table.old) (kept table.old) number (Ok (Some listing)) result }
    ensures rows { MatchResult result (λ _. kept table.new ≡ placed listing.range (kept table.old)) (λ _. Untouched table.old table.new) }
    ensures same_room { room table.new ≡ room table.old }
    ensures values { OnOk result (Added listing.range (kept table.old) (kept table.new)) }
{
    let Err(refusal) = table.insert(listing.range) else {
        return Ok(());
    };
    let (reason, field, place) = match refusal {
        Refusal::Backward => unreachable(),
        Refusal::Shared => (Reason::Shared, Field::First, listing.place),
        Refusal::Full => (Reason::Full, Field::Whole, 0),
    };
    let in_line = LineFault {
        reason,
        field,
        place,
        finder: Finder::File,
    };
    Err(Fault {
        line: number,
        in_line,
    })
}

// Reads the line of this number, which is given without its line feed, into the table. A line that is
// refused leaves the table as it was.
pub fn read_data_line<P: Property>(
    line: &[u8],
    number: usize,
    table: &mut Filling<'_, P>,
) -> Result<(), Fault>
    ensures told { Answered (room table.old) (kept table.old) number (entry_of P.Property.meant P.Property.shared line.now) result }
    ensures rows { MatchResult result (λ _. kept table.new ≡ rows_with (kept table.old) (entry_of P.Property.meant P.Property.shared line.now)) (λ _. Untouched table.old table.new) }
    ensures same_room { room table.new ≡ room table.old }
    ensures values { OnOk result (Grown (Tells P.Property.listed line.now) (kept table.old) (kept table.new)) }
{
    let listed = read_line::<P>(line).map_err(|in_line| Fault {
        line: number,
        in_line,
    })?;
    match listed {
        Some(listing) => keep(listing, number, table),
        None => Ok(()),
    }
}

// Reads the lines of a file into the table, and tells how many there are. The first line that is
// refused ends the reading; what the lines before it list is in the table then.
fn read_lines<P: Property>(bytes: &[u8], table: &mut Filling<'_, P>) -> Result<usize, Fault>
    ensures goes { Goes P.Property.listed P.Property.meant P.Property.shared (room table.old) (lines bytes.now) (kept table.old) (kept table.new) result }
    ensures same_room { room table.new ≡ room table.old }
{
    // The answer, beside the place.
    let mut count = 0;
    for (i, line) in Lines::new(bytes).enumerate() {
        count = i + 1;
        read_data_line(line, count, table)?;
    }
    Ok(count)
}

// Reads a file into a table in these records, and tells how many lines it has. Where a line is refused
// there is no table.
pub fn read_file<'a, P: Property>(
    bytes: &[u8],
    records: &'a mut [Range<P>],
) -> Result<(Table<'a, P>, usize), Fault>
    ensures loads { Loads P.Property.listed P.Property.meant P.Property.shared (length records.old) (lines bytes.now) result }
    ensures lined { Lined bytes.now }
{
    let mut filling = Filling::new(records);
    let count = read_lines(bytes, &mut filling)?;
    Ok((filling.table(), count))
}
