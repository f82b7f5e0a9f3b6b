// The terms between a till and a display: the settings that it is switched on with, and the faults that it reports.
#![tactic(auto)]

pub mod fault;
pub mod settings;
