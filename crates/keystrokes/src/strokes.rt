// What a keystroke is.

// At a place, `take` code points give way to those of `put`.
#[derive(Drop)]
pub struct Keystroke {
    // The line of the script that it stands on, counted from 1.
    pub line: usize,
    pub place: usize,
    pub take: usize,
    pub put: Vec<u32>,
}
