// A table of ranges, in records that are lent for reading.
ghost use Rattle.std.specs.Prelude.{◌≡◌, ◌^◌, ◌≤◌, true, ⊤, length, take, IfOk, Some};
ghost use Rattle.ranges.specs.Places.{place as place_in};
ghost use Rattle.ranges.specs.Rows.{Listed, Told, ascending, covered, front, lookup, shares_any};

use crate::range::Range;
use crate::refusal::Refusal;
use std::alloc::AllocError;

#[derive_where(Copy)]
pub struct Table<'a, V> {
    pub(crate) records: &'a [Range<V>],
    ghost ascends: { ascending records.now ≡ true },
}

// By hand: `Clone` cannot be derived for a struct with a ghost field.
impl<'a, V> Clone for Table<'a, V> {
    ghost is_clone = { λ table result. result ≡ table };

    ghost is_infallible = { λ _. ⊤ };

    fn clone(&self) -> Result<Table<'a, V>, AllocError> {
        Ok(*self)
    }
}

impl<'a, V> Table<'a, V> {
    ghost use Rattle.ranges.specs.Tables.{rows};

    // The records up to the first that is out of order.
    pub fn new(records: &'a [Range<V>]) -> Table<'a, V>
        ensures front { rows result ≡ front records.now }
        ensures whole { ascending records.now ≡ true → rows result ≡ records.now }
    {
        Table {
            records: &records[..ordered(records)],
        }
    }

    // How many ranges there are.
    pub fn len(&self) -> usize
        ensures { result ≡ length (rows self.now) }
    {
        self.records.len()
    }

    // How many code points the ranges hold together. A `for` and no `sum`, of which four goals stayed open.
    pub fn covered(&self) -> u64
        ensures sum { result ≡ covered (rows self.now) }
        ensures bound { result ≤ 2 ^ 32 }
    {
        let mut total: u64 = 0;
        for range in self.records {
            total += (range.last - range.first) as u64 + 1;
        }
        total
    }

    // How many of the ranges end before the code point, by a binary search.
    pub(crate) fn place_of(&self, c: u32) -> usize
        ensures { result ≡ place_in c (rows self.now) }
    {
        self.records.partition_point(|row| row.last < c)
    }
}

impl<'a, V: Copy> Table<'a, V> {
    ghost use Rattle.ranges.specs.Tables.{rows};

    // The value of the code point, if it is listed.
    pub fn lookup(&self, c: u32) -> Option<V>
        ensures value { result ≡ lookup (rows self.now) c }
        ensures found { (v : V) → result ≡ Some v → Listed (rows self.now) c v }
        ensures listed { (v : V) → Listed (rows self.now) c v → result ≡ Some v }
    {
        self.records
            .get(self.place_of(c))
            .filter(|row| row.first <= c)
            .map(|row| row.value)
    }

    // The place of one more range, or why it can't be put there; there is room for `room` ranges.
    pub(crate) fn place_for(&self, room: usize, range: Range<V>) -> Result<usize, Refusal>
        ensures told { Told room (rows self.now) range result }
        ensures place { IfOk result (λ p. p ≡ place_in range.first (rows self.now)) }
    {
        if range.last < range.first {
            return Err(Refusal::Backward);
        }
        let place = self.place_of(range.first);
        if self.is_shared(place, range) {
            return Err(Refusal::Shared);
        }
        if room <= self.len() {
            return Err(Refusal::Full);
        }
        Ok(place)
    }

    // Whether a range has a code point in common with this one, whose place is known.
    fn is_shared(&self, place: usize, range: Range<V>) -> bool
        requires { place ≡ place_in range.first (rows self.now) }
        ensures { result ≡ shares_any (rows self.now) range }
    {
        self.records
            .get(place)
            .is_some_and(|row| row.first <= range.last)
    }
}

// How many records are in order, from the first on. A `for`, since each is compared with what the one before left.
fn ordered<V>(records: &[Range<V>]) -> usize
    ensures within { result ≤ length records.now }
    ensures front { take result records.now ≡ front records.now }
    ensures ascends { ascending (take result records.now) ≡ true }
{
    let mut low: u64 = 0;
    for (i, range) in records.iter().enumerate() {
        if (range.first as u64) < low || range.last < range.first {
            return i;
        }
        low = range.last as u64 + 1;
    }
    records.len()
}
