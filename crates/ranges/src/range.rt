// A range of code points, with a value.

// The code points from `first` to `last`, both among them.
#[derive(Clone, Copy, PartialEq, Eq, Debug)]
pub struct Range<V> {
    pub first: u32,
    pub last: u32,
    pub value: V,
}
