// A bounded list over places that its owner lends.
#![tactic(auto)]

mod list;

pub use list::{BoundedList, ListRefusal};
