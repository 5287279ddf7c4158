// The flat store: the text from the start of the array. Its length stands beside the array, and is no Vec's own,
// since the array is the caller's, is given back whole, and no edit may allocate.
ghost use Rattle.std.specs.Prelude.{◌≡◌, ◌+◌, ◌-◌, ◌≤◌, false, [], length, take as first, vec_len};
ghost use Rattle.store.specs.Replacements.{made};
ghost use Rattle.store.specs.Texts.{Replaced, capacity_of};
ghost use Rattle.std.proofs.Common.{rules};

use crate::limits::capacity_of;
use crate::replacement::Replacement;
use crate::text_store::TextStore;

#[derive(Drop)]
pub struct FlatStore {
    cells: Vec<u32>,
    used: usize,
    ghost within: { used ≤ capacity_of (vec_len cells) },
}

// Like the calls of a gap store: one type for both would be generic over what stands beside the array, for three
// calls of a line.
impl FlatStore {
    ghost use Rattle.store.specs.Stores.{flat_text, flat_room};

    // An empty store over the array, whatever that holds.
    pub fn new(cells: Vec<u32>) -> FlatStore
        ensures empty { flat_text result ≡ [] }
        ensures room { flat_room result ≡ capacity_of (vec_len cells) }
        ensures array { result.cells ≡ cells }
    {
        FlatStore { cells, used: 0 }
    }

    // The array, with the text at its start.
    pub fn into_cells(self) -> Vec<u32>
        ensures { result ≡ self.cells }
    {
        let FlatStore { cells, used: _ } = self;
        cells
    }
}

impl TextStore for FlatStore {
    ghost use Rattle.store.specs.Stores.{flat_text, flat_room};

    ghost text = { flat_text };

    ghost room = { flat_room };

    ghost within = { Prim.search rules };

    ghost limited = { Prim.search rules };

    fn len(&self) -> usize {
        self.used
    }

    fn capacity(&self) -> usize {
        capacity_of(self.cells.len())
    }

    fn at(&self, place: usize) -> u32 {
        if place < self.used {
            self.cells[place]
        } else {
            0
        }
    }

    fn replace(&mut self, place: usize, take: usize, put: &[u32]) -> bool
        ensures replaced { Replaced (flat_room self.old) place take put.now (flat_text self.old) result (flat_text self.new) }
        ensures same_room { flat_room self.new ≡ flat_room self.old }
        ensures refused { result ≡ false → self.new ≡ self.old }
        ensures same_array_len { vec_len self.new.cells ≡ vec_len self.old.cells }
    {
        let used = self.used;
        let change = Replacement { place, take, put };
        if !change.is_possible(self.capacity(), used) {
            return false;
        }
        splice(self.cells.as_mut_slice(), used, change);
        self.used = used - take + put.len();
        true
    }
}

// Makes the replacement: the text behind what is taken moves, then the list is written.
fn splice(cells: &mut [u32], used: usize, change: Replacement<'_>)
    requires inside { used ≤ length cells.old }
    requires taken { change.place + change.take ≤ used }
    requires fits { used - change.take + length change.put.now ≤ length cells.old }
    ensures { first (used - change.entry.take + length change.entry.put.now) cells.new ≡ made change.entry (first used cells.old) }
{
    let Replacement { place, take, put } = change;
    let end = place + put.len();
    cells.copy_within(place + take..used, end);
    cells[place..end].copy_from_slice(put);
}
