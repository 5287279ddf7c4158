// What is read of a keystroke script.
use crate::faults::LineFault;
use crate::strokes::Keystroke;

// A line that is not blank and holds no keystroke.
#[derive(Clone, Copy, PartialEq, Eq, Debug)]
pub struct BadLine {
    pub line: usize,
    pub fault: LineFault,
}

#[derive(Drop)]
pub struct Script {
    // How many lines were read.
    pub lines: usize,
    pub keys: Vec<Keystroke>,
    pub bad: Vec<BadLine>,
}
