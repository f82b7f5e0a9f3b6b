// The theorems over whole lives of displays, and the calls that name them.
#![tactic(auto)]

pub mod compare;
pub mod recall;
pub mod replay;
pub mod theorems;
