// What a piece of a row of bytes may end at: one byte, or a kind of them.
ghost use Rattle.std.specs.Prelude.{◌≡◌, ◌==◌, ℕ, Bool};
ghost use Rattle.cutting.specs.Pieces.{ends};

use crate::stops::Stop;
use crate::words::is_blank;

pub trait Ending: Copy {
    // Whether a byte ends a piece.
    ghost is_end: { Self → ℕ → Bool };

    fn is_end(self, b: u8) -> bool
        ensures { result ≡ is_end self b };
}

impl Ending for u8 {
    ghost is_end = { λ end b. b == end };

    fn is_end(self, b: u8) -> bool {
        b == self
    }
}

impl Ending for Stop {
    ghost is_end = { ends };

    fn is_end(self, b: u8) -> bool {
        match self {
            Stop::Newline => b == b'\n',
            Stop::Hash => b == b'#',
            Stop::Blank => is_blank(b),
        }
    }
}
