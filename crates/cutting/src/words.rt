// The words of a row of bytes, one after the other.
ghost use Rattle.std.specs.Prelude.{◌≡◌, ◌≤◌, length};
ghost use Rattle.std.specs.List.{prefix_len};
ghost use Rattle.std.specs.Iterator.{YieldsFirstRef, item_count};
ghost use Rattle.cutting.specs.Left.{words_left};
ghost use Rattle.cutting.specs.Pieces.{Begins, Blank as blank, ends, words};

use crate::places::cut;
use crate::stops::Stop;

// The words that are left, which are parted by one blank or more.
#[derive(Clone, Copy)]
pub struct Words<'a> {
    rest: &'a [u8],
}

impl<'a> Words<'a> {
    pub fn new(bytes: &'a [u8]) -> Words<'a>
        ensures words { words_left result ≡ words bytes.now }
        ensures few { length (words bytes.now) ≤ length bytes.now }
    {
        Words { rest: bytes }
    }
}

impl<'a> Iterator for Words<'a> {
    type Item = &'a [u8];

    ghost next_gives = { YieldsFirstRef words_left };

    ghost remaining = { item_count words_left };

    fn next(&mut self) -> Option<&'a [u8]> {
        let text = &self.rest[blanks_len(self.rest)..];
        if text.is_empty() {
            return None;
        }
        let (word, behind) = cut(text, Stop::Blank);
        self.rest = behind;
        Some(word)
    }
}

// The first word, and what follows the blank that ends it; an empty word where there is none. For one who goes on with
// the bytes behind a word, which `Words` keeps to itself.
pub fn next_word(text: &[u8]) -> (&[u8], &[u8])
    ensures { Begins text.now result.0.now result.1.now }
{
    cut(&text[blanks_len(text)..], Stop::Blank)
}

// Whether the byte is a space, a tab or a carriage return.
pub(crate) fn is_blank(b: u8) -> bool
    ensures { result ≡ ends blank b }
{
    b == b' ' || b == b'\t' || b == b'\r'
}

// How many blanks stand in front.
fn blanks_len(bytes: &[u8]) -> usize
    ensures run { result ≡ prefix_len (ends blank) bytes.now }
    ensures within { result ≤ length bytes.now }
{
    bytes.iter().take_while(|b| is_blank(**b)).count()
}
