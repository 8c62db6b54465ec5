// A frame as a view of the caller's bytes: document 01's "record of plain fields beside the caller's packed run" as one struct that holds a reference
// to the run.
#![tactic(auto)]

pub mod again;
pub mod frame;

pub use frame::Frame;
