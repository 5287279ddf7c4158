// Where a gap lies.

// The unused cells of an array, from `start` up to `end`.
#[derive(Clone, Copy, PartialEq, Eq, Debug)]
pub struct Gap {
    pub start: usize,
    pub end: usize,
}
