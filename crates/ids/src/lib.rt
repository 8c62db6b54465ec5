// The small numbers and names that every frame is made of: each is made from a byte by a call that refuses what is out of range.
// A value made by hand may still hold any byte, so whoever writes one to the wire tests it again.
#![tactic(auto)]

pub mod bank;
pub mod device;
pub mod interface;
pub mod model;
pub mod pattern;
pub mod program;
pub mod slot;
pub mod version;

pub use bank::Bank;
pub use device::DeviceId;
pub use interface::Interface;
pub use model::Model;
pub use pattern::PatternNumber;
pub use program::ProgramNumber;
pub use slot::Slot;
pub use version::ProtocolVersion;

// Behringer's manufacturer number.
pub const MANUFACTURER_ID: [u8; 3] = [0x00, 0x20, 0x32];
