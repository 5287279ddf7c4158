// The records that a table is filled into, and how one more range is stored among them.
ghost use Rattle.std.specs.Prelude.{◌≡◌, ◌+◌, ◌<◌, ◌≤◌, length, take};
ghost use Rattle.std.specs.List.{insert};

use crate::range::Range;

// The first `used` records hold ranges; the others are free. The count stands beside the slice, since the records
// are the caller's and a table allocates nothing.
#[derive(Drop)]
pub(crate) struct Slots<'a, V> {
    pub(crate) records: &'a mut [Range<V>],
    pub(crate) used: usize,
    ghost within: { used ≤ length records.now },
}

impl<'a, V: Copy> Slots<'a, V> {
    // The first records, which hold ranges.
    pub(crate) fn kept(&self) -> &[Range<V>]
        ensures { result.now ≡ take self.now.used self.now.records.now }
    {
        &self.records[..self.used]
    }

    // Moves the ranges from the place on by one, and writes the range there.
    pub(crate) fn put(&mut self, place: usize, range: Range<V>)
        requires among { place ≤ self.old.used }
        requires free { self.old.used < length self.old.records.now }
        ensures rows { take self.new.used self.new.records.now ≡ insert (take self.old.used self.old.records.now) place range }
        ensures count { self.new.used ≡ self.old.used + 1 }
        ensures same_len { length self.new.records.now ≡ length self.old.records.now }
    {
        self.records.copy_within(place..self.used, place + 1);
        self.records[place] = range;
        self.used += 1;
    }
}
