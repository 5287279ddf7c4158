// Stretches of a line, and the fields that stand in them.
ghost use Rattle.std.specs.Prelude.{◌≡◌, ◌+◌, ◌^◌, ◌<◌, length};
ghost use Rattle.ucd.specs.Lines.{core_of, field, seen};

use crate::pieces::Piece;
use crate::runs::{leading_blanks, strip};
use cutting::first_place;

// Bytes of a line that may hold a field. It is no `Piece` with a flag, since its place is bounded, and each use
// would go through the piece.
#[derive(Clone, Copy)]
pub(crate) struct Stretch<'a> {
    pub(crate) bytes: &'a [u8],
    pub(crate) place: usize,
    // Whether the line ends with them.
    pub(crate) closing: bool,
    ghost fits: { place + length bytes.now < 2 ^ 64 },
}

impl<'a> Stretch<'a> {
    ghost use Rattle.ucd.specs.Stretches.{Halved};

    // The bytes without the blanks around them, and without the carriage return at the line's end.
    pub(crate) fn core(self) -> &'a [u8]
        ensures { result.now ≡ core_of self.entry.closing self.entry.bytes.now }
    {
        match self.bytes {
            [front @ .., b'\r'] if self.closing => strip(front),
            bytes => strip(bytes),
        }
    }

    // The field that they hold.
    pub(crate) fn field(self) -> Piece<'a>
        ensures { seen result ≡ field self.entry.closing self.entry.place self.entry.bytes.now }
    {
        let core = self.core();
        let skipped = if core.is_empty() {
            self.bytes.len()
        } else {
            leading_blanks(self.bytes)
        };
        Piece {
            bytes: core,
            place: self.place + skipped,
        }
    }

    // What stands before the only ';' and what stands behind it; none where there is no ';', or another.
    pub(crate) fn halves(self) -> Option<(Stretch<'a>, Stretch<'a>)>
        ensures { Halved self.entry result }
    {
        let first = first_place(self.bytes, b';')?;
        let rest = &self.bytes[first + 1..];
        if first_place(rest, b';').is_some() {
            return None;
        }
        let front = Stretch {
            bytes: &self.bytes[0..first],
            place: self.place,
            closing: false,
        };
        let back = Stretch {
            bytes: rest,
            place: self.place + first + 1,
            closing: self.closing,
        };
        Some((front, back))
    }
}
