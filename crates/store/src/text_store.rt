// What every text store promises, so that code above is proved once for all of them.
ghost use Rattle.std.specs.Prelude.{◌≡◌, ℕ, ◌≤◌, List, length, slice_index};
ghost use Rattle.store.specs.Texts.{Replaced, capacity_limit};

// A text, which is a list of 32-bit numbers, and a capacity that never changes. In a text of n
// numbers a place runs from 0 to n, and place p lies before number p, counted from 0.
pub trait TextStore {
    ghost text: { Self → List ℕ };

    ghost room: { Self → ℕ };

    fn len(&self) -> usize
        ensures { result ≡ length (text self.now) };

    fn capacity(&self) -> usize
        ensures { result ≡ room self.now };

    // The number at a place, and 0 at or above the length.
    fn at(&self, place: usize) -> u32
        ensures { result ≡ slice_index (text self.now) place };

    // Puts a list in the place of `take` numbers. Done exactly if place plus take is at most the
    // length and the new length is at most the capacity; else it answers false, and the text stays. The
    // arguments are three, and the answer a bool, as the rules of text stores have it (docs/RULES.md).
    fn replace(&mut self, place: usize, take: usize, put: &[u32]) -> bool
        ensures replaced { Replaced (room self.old) place take put.now (text self.old) result (text self.new) }
        ensures same_room { room self.new ≡ room self.old };

    ghost within: { (s : Self) → length (text s) ≤ room s };

    ghost limited: { (s : Self) → room s ≤ capacity_limit };
}
