// What ends a piece of a script: a line, a statement before a comment, a word.
#[derive(Clone, Copy, PartialEq, Eq, Debug)]
pub enum Stop {
    Newline,
    Hash,
    // A space, a tab or a carriage return.
    Blank,
}
