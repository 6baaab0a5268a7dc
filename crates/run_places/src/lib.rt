//! Parts of values: elements, entries, characters and bits, what stands along keys, and what an index comes to.
#![tactic(auto)]

mod elements;
mod members;
mod places;
mod standing;
mod steps;

pub use elements::{bit, character, element};
pub use members::entry;
pub use places::{PlaceKey, along, inside, replace_along};
pub use standing::Part;
pub use steps::{IndexTarget, Indexed, index, index_target};
