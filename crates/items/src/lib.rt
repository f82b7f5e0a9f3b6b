// The item reader: walks a buffer, and hands out each item as a part of it.
#![tactic(auto)]

pub mod kinds;
pub mod parts;
#[cfg(test)]
mod tests;
pub mod walk;
