// The properties of code points that boundaries rest on, with their values' names in the data files.
#![tactic(auto)]

mod category;
mod grapheme_class;
mod line_class;
mod listed;
mod lookups;
mod named;
mod pictograph;
mod property;
mod width;

pub use category::Category;
pub use grapheme_class::GraphemeClass;
pub use line_class::LineClass;
pub use lookups::value_of;
pub use named::Named;
pub use property::Property;
pub use width::Width;
