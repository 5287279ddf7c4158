// Rows of bytes cut into pieces: a file into lines, a line into what stands before its comment, and words.
#![tactic(auto)]

mod endings;
mod lines;
mod places;
mod stops;
mod words;

pub use endings::Ending;
pub use lines::Lines;
pub use places::{cut, first_place, statement};
pub use stops::Stop;
pub use words::{Words, next_word};

#[cfg(test)]
mod tests;
