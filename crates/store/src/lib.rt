// Text stores: a text under edit, kept in an array that the caller hands over.
#![tactic(auto)]

mod flat;
mod gap;
mod limits;
mod replacement;
mod text_store;

pub use flat::FlatStore;
pub use gap::GapStore;
pub use gap::place::Gap;
pub use limits::CAPACITY_LIMIT;
pub use text_store::TextStore;

#[cfg(test)]
mod tests;
