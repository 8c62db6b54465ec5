// The 22 messages of a frame, with the types of their fields. A message has two forms here: a head, which holds only what its command has, in types
// of its own, and fields, ten plain values for every command. What a command lacks is 0 in its fields, and is neither tested nor written.
#![tactic(auto)]

pub mod fields;
pub mod head;
pub mod prefix;

pub use fields::Fields;
pub use head::{FrameHead, Head};
pub use prefix::Prefix;
