// A table that is being filled, in records that are lent for writing.
ghost use Rattle.std.specs.Prelude.{◌≡◌, true, [], length, take, OnErr, OnOk};
ghost use Rattle.ranges.specs.Rows.{Added, Told, ascending, placed};

use crate::range::Range;
use crate::refusal::Refusal;
use crate::slots::Slots;
use crate::table::Table;

#[derive(Drop)]
pub struct Filling<'a, V> {
    slots: Slots<'a, V>,
    ghost ascends: { ascending (take slots.used slots.records.now) ≡ true },
}

impl<'a, V> Filling<'a, V> {
    ghost use Rattle.ranges.specs.Tables.{kept, room, rows};

    // Nothing is kept, whatever the records hold.
    pub fn new(records: &'a mut [Range<V>]) -> Filling<'a, V>
        ensures empty { kept result ≡ [] }
        ensures room { room result ≡ length records.old }
    {
        Filling {
            slots: Slots { records, used: 0 },
        }
    }

    // How many ranges are kept.
    pub fn len(&self) -> usize
        ensures { result ≡ length (kept self.now) }
    {
        self.slots.used
    }

    // How many ranges there is room for.
    pub fn capacity(&self) -> usize
        ensures { result ≡ room self.now }
    {
        self.slots.records.len()
    }

    // The ranges that are kept, as a table in the same records.
    pub fn table(self) -> Table<'a, V>
        ensures { rows result ≡ kept self.entry }
    {
        let Filling {
            slots: Slots { records, used },
        } = self;
        let records: &'a [Range<V>] = records;
        Table {
            records: &records[0..used],
        }
    }
}

impl<'a, V: Copy> Filling<'a, V> {
    ghost use Rattle.ranges.specs.Tables.{Untouched, kept, room};

    // Keeps one more range, in its order, or says why it can't.
    #[tactic(auto, using(crate::proofs::Placing::placed_from, crate::proofs::Placing::values_from))]
    pub fn insert(&mut self, range: Range<V>) -> Result<(), Refusal>
        ensures told { Told (room self.old) (kept self.old) range result }
        ensures rows { OnOk result (kept self.new ≡ placed range (kept self.old)) }
        ensures refused { OnErr result (Untouched self.old self.new) }
        ensures same_room { room self.new ≡ room self.old }
        ensures values { OnOk result (Added range (kept self.old) (kept self.new)) }
    {
        let kept = Table {
            records: self.slots.kept(),
        };
        let place = kept.place_for(self.capacity(), range)?;
        self.slots.put(place, range);
        Ok(())
    }
}
