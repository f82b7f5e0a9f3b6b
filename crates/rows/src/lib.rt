// The rows panel: a make of panel of a builder's own (docs/PANELS.md walks through it).
#![tactic(auto)]

mod rows;

pub use rows::RowsPanel;

#[cfg(test)]
mod tests;
