// A replacement of a part of a text.
ghost use Rattle.std.specs.Prelude.{◌≡◌, ◌+◌, ◌-◌, ◌&&◌, length, nat_le};

// At a place, `take` numbers of a text give way to those of `put`.
#[derive(Clone, Copy)]
pub(crate) struct Replacement<'a> {
    pub(crate) place: usize,
    pub(crate) take: usize,
    pub(crate) put: &'a [u32],
}

impl<'a> Replacement<'a> {
    // Whether it can be made in a text of `used` numbers, by lengths alone. No sum is made that could
    // pass the largest `usize`.
    pub(crate) fn is_possible(&self, capacity: usize, used: usize) -> bool
        ensures { result ≡ nat_le (self.now.place + self.now.take) used && nat_le (used - self.now.take + length self.now.put.now) capacity }
    {
        let Replacement { place, take, put } = *self;
        place <= used
            && take <= used - place
            && used - take <= capacity
            && put.len() <= capacity - (used - take)
    }
}
