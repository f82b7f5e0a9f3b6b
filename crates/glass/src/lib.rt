// The glass: two rows of twenty places, areas of it, and the strokes that change its cells.
#![tactic(auto)]

pub mod area;
pub mod frame;
pub mod stroke;
