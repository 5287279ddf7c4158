// Replays a keystroke script on a flat and on a gap store, and tells what came of it; and what the programs
// that do so have in common.
#![tactic(auto)]

mod program;
mod replay;

pub use program::{exit_code, read_input};
pub use replay::replay_script;

#[cfg(test)]
mod tests;
