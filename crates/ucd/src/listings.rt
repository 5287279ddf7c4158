// What a line lists.
use ranges::Range;

// A range with its value, and where in the line field 1 begins.
#[derive(Clone, Copy, PartialEq, Eq, Debug)]
pub struct Listing<V> {
    pub range: Range<V>,
    pub place: usize,
}
