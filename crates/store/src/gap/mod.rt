// The gap store: the text at both ends of the array, and the unused cells where the last
// replacement ended, so that typing on costs no more than what is typed. Where the gap lies stands beside the
// array, since the array is the caller's, is given back whole, and no edit may allocate.
mod moves;
pub mod place;

ghost use Rattle.std.specs.Prelude.{◌≡◌, ◌+◌, ◌-◌, ◌≤◌, false, [], length, if◌then◌else◌, vec_len};
ghost use Rattle.store.specs.Texts.{Replaced, capacity_limit, capacity_of};
ghost use Rattle.std.proofs.Common.{rules};

use crate::gap::moves::splice;
use crate::gap::place::Gap;
use crate::limits::capacity_of;
use crate::replacement::Replacement;
use crate::text_store::TextStore;

#[derive(Drop)]
pub struct GapStore {
    cells: Vec<u32>,
    gap: Gap,
    ghost apart: { gap.start ≤ gap.end },
    ghost inside: { gap.end ≤ vec_len cells },
    ghost within: { gap.start + (vec_len cells - gap.end) ≤ capacity_limit },
}

// Like the calls of a flat store, as is said there.
impl GapStore {
    ghost use Rattle.store.specs.Stores.{gap_text, gap_room};

    // An empty store over the array, all of which is gap.
    pub fn new(cells: Vec<u32>) -> GapStore
        ensures empty { gap_text result ≡ [] }
        ensures room { gap_room result ≡ capacity_of (vec_len cells) }
        ensures array { result.cells ≡ cells }
        ensures gap { result.gap.start ≡ 0 }
    {
        let end = cells.len();
        GapStore {
            cells,
            gap: Gap { start: 0, end },
        }
    }

    // Where in the array the unused cells are.
    pub fn gap(&self) -> Gap
        ensures { result ≡ self.now.gap }
    {
        self.gap
    }

    // The array, with the text around the gap.
    pub fn into_cells(self) -> Vec<u32>
        ensures { result ≡ self.cells }
    {
        let GapStore { cells, gap: _ } = self;
        cells
    }
}

impl TextStore for GapStore {
    ghost use Rattle.store.specs.Lengths.{gap_text_within};
    ghost use Rattle.store.specs.Stores.{gap_text, gap_room};

    ghost text = { gap_text };

    ghost room = { gap_room };

    ghost within = { gap_text_within };

    ghost limited = { Prim.search rules };

    fn len(&self) -> usize {
        self.gap.start + (self.cells.len() - self.gap.end)
    }

    fn capacity(&self) -> usize {
        capacity_of(self.cells.len())
    }

    fn at(&self, place: usize) -> u32 {
        if place < self.gap.start {
            self.cells[place]
        } else if place < self.len() {
            self.cells[place - self.gap.start + self.gap.end]
        } else {
            0
        }
    }

    // The gap then starts right behind the list.
    fn replace(&mut self, place: usize, take: usize, put: &[u32]) -> bool
        ensures replaced { Replaced (gap_room self.old) place take put.now (gap_text self.old) result (gap_text self.new) }
        ensures same_room { gap_room self.new ≡ gap_room self.old }
        ensures refused { result ≡ false → self.new ≡ self.old }
        ensures same_array_len { vec_len self.new.cells ≡ vec_len self.old.cells }
        ensures gap { self.new.gap.start ≡ (if result then place + length put.now else self.old.gap.start) }
    {
        let change = Replacement { place, take, put };
        if !change.is_possible(self.capacity(), self.len()) {
            return false;
        }
        let gap = self.gap;
        self.gap = splice(self.cells.as_mut_slice(), gap, change);
        true
    }
}
