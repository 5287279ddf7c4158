// The lines of a row of bytes, one after the other.
ghost use Rattle.std.specs.Prelude.{◌≡◌, ◌≤◌, length};
ghost use Rattle.std.specs.Iterator.{YieldsFirstRef, item_count};
ghost use Rattle.cutting.specs.Left.{lines_left};
ghost use Rattle.cutting.specs.Pieces.{lines};

use crate::places::cut;

// The lines that are left. A line goes up to a line feed, which it lacks, or to the end.
#[derive(Clone, Copy)]
pub struct Lines<'a> {
    rest: &'a [u8],
}

impl<'a> Lines<'a> {
    pub fn new(bytes: &'a [u8]) -> Lines<'a>
        ensures lines { lines_left result ≡ lines bytes.now }
        ensures few { length (lines bytes.now) ≤ length bytes.now }
    {
        Lines { rest: bytes }
    }
}

impl<'a> Iterator for Lines<'a> {
    type Item = &'a [u8];

    ghost next_gives = { YieldsFirstRef lines_left };

    ghost remaining = { item_count lines_left };

    fn next(&mut self) -> Option<&'a [u8]> {
        if self.rest.is_empty() {
            return None;
        }
        let (line, behind) = cut(self.rest, b'\n');
        self.rest = behind;
        Some(line)
    }
}
