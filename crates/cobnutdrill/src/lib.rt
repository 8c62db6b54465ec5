// The static library that C links: each entry point of the crates host_NAME under its own symbol, with the promise of the call that it makes.
// Each export says that promise again, since the C interface needs a symbol for each.
#![tactic(auto)]

mod c_command;
mod c_frames;
mod c_held_keys;
mod c_ids;
mod c_inquiry;
mod c_packed;
mod c_running_status;
mod c_stream;
mod c_wire;
