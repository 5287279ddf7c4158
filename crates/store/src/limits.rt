// How much a store holds.
ghost use Rattle.std.specs.Prelude.{◌≡◌};
ghost use Rattle.store.specs.Texts.{capacity_of};

// No store holds more numbers than this.
pub const CAPACITY_LIMIT: usize = 4096;

// The capacity of a store over an array with this many cells.
pub(crate) fn capacity_of(cells: usize) -> usize
    ensures { result ≡ capacity_of cells }
{
    cells.min(CAPACITY_LIMIT)
}
