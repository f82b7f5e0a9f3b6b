// The strip panel: a picture, and a list of the changes that are not painted yet.
#![tactic(auto)]

mod strip;

pub use strip::{Change, NO_CHANGE, StripPanel};
