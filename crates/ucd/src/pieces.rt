// The parts of a line, borrowed from it.

// Bytes of a line, and where in the line they begin.
#[derive(Clone, Copy)]
pub struct Piece<'a> {
    pub bytes: &'a [u8],
    pub place: usize,
}

// What a line holds, an enum that borrows from it (docs/DECISIONS.md). A comment goes from '#' to the line's end,
// and is empty where there is none.
#[derive(Clone, Copy)]
pub enum Parts<'a> {
    Blank {
        comment: Piece<'a>,
    },
    Listing {
        range: Piece<'a>,
        value: Piece<'a>,
        comment: Piece<'a>,
    },
}
