// Keystrokes: what a person types into a text store, and scripts of them.
#![tactic(auto)]

mod faults;
mod numbers;
mod reading;
mod refusals;
mod script;
mod scripts;
mod strokes;
mod typing;

pub use faults::LineFault;
pub use reading::{same_text, text_of};
pub use refusals::{Outcome, Refusal, sentence_of};
pub use script::read_script;
pub use scripts::{BadLine, Script};
pub use strokes::Keystroke;
pub use typing::replay_on_both;

#[cfg(test)]
mod tests;
