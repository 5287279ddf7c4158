// Tables from ranges of code points to values of any type.
//
//     let mut filling = Filling::new(&mut records);
//     filling.insert(Range { first: 0x41, last: 0x5A, value })?;
//     let value = filling.table().lookup(0x42);
#![tactic(auto)]

mod filling;
mod range;
mod refusal;
mod slots;
mod table;

pub use filling::Filling;
pub use range::Range;
pub use refusal::Refusal;
pub use table::Table;

#[cfg(test)]
mod tests;
