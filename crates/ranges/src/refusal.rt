// Why a range is not kept.

#[derive(Clone, Copy, PartialEq, Eq, Debug)]
pub enum Refusal {
    // Its first code point is above its last.
    Backward,
    // It shares a code point with a range that is kept.
    Shared,
    // No record is free.
    Full,
}
