// Readers of the Unicode data files: a field, a line, a file.
//
//     let (table, lines) = read_file(bytes, &mut records)?;
//     let class: LineClass = value_of(&table, 0x1F468);
#![tactic(auto)]

mod faults;
mod fields;
mod files;
mod lines;
mod listings;
mod parts;
mod pieces;
mod points;
mod runs;
mod sentences;
mod stretches;

pub use faults::{Fault, Field, Finder, LineFault, Reason};
pub use files::{read_data_line, read_file};
pub use lines::read_line;
pub use listings::Listing;
pub use parts::take_apart;
pub use pieces::{Parts, Piece};

#[cfg(test)]
mod tests;
