// Panels: forty cells behind one interface, and strokes drawn on any of them.
#![tactic(auto)]

pub mod draw;
mod panel;
mod picture;
mod plain;

pub use panel::{Panel, PanelRefusal};
pub use picture::Picture;
pub use plain::PlainPanel;
