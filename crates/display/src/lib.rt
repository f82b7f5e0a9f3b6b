// A display over a panel of any make: the calls of a till.
#![tactic(auto)]

pub mod engine;
pub mod words;

/// A customer display over a panel of the make `P`, with the command sets that tills speak.
pub type Display<P> = engine::Display<P, sets::Commands>;
