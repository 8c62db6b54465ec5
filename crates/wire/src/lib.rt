// What the MIDI messages on the wire share: channels, how many data bytes a status byte takes, and fourteen bits from two bytes.
#![tactic(auto)]

ghost use Rattle.std.specs.Prelude.{◌≡◌, ◌+◌, ◌*◌, ◌≤◌, length, take};
ghost use Rattle.refusal.specs.Outcome.{with_room, Writes};
ghost use Rattle.refusal.proofs.Given.{given_number};
ghost use Rattle.wire.specs.Status.{data_length};
ghost use Rattle.wire.specs.Channel.{channel_of};

pub mod channel_message;
pub mod real_time;
pub mod system_common;

pub use channel_message::ChannelMessage;
pub use real_time::Realtime;
use refusal::{OfByte, Refusal};
pub use system_common::{CommonStatus, SystemCommon};

pub const CHANNEL_COUNT: u8 = 16;

// A MIDI channel as it stands on the wire, 0 to 15.
#[derive(Clone, Copy, Debug, PartialEq, Eq)]
pub struct Channel(pub u8);

impl Channel {
    pub const ONE: Channel = Channel(0);

    pub const SIXTEEN: Channel = Channel(15);

    // The number on the front panel, 1 to 16.
    pub fn number(self) -> u16
        ensures { result ≡ self.0 + 1 }
    {
        u16::from(self.0) + 1
    }
}

// An impl of its own: number types differ in name, count and refusal, and a trait that asked each for the three would take as many lines.
impl OfByte for Channel {
    ghost of_byte = { channel_of };

    ghost byte_of = { λ x. x.0 };

    // Refuses 17 with the byte.
    fn from_byte(byte: u8) -> Result<Channel, Refusal> {
        if byte < CHANNEL_COUNT {
            Ok(Channel(byte))
        } else {
            Err(Refusal::ChannelOutOfRange(byte))
        }
    }

    fn to_byte(self) -> u8 {
        self.0
    }

    ghost same_byte = { λ b x. given_number _ _ _ _ x (λ y. y.0) };
}

// How many data bytes follow each of the 256 byte values; 0 for those that take none or are no status.
#[tactic(auto, unfolding(crate::specs::Status::data_length))]
pub fn data_len(status: u8) -> usize
    ensures { result ≡ data_length status }
{
    match status {
        0x80..0xC0 => 2,
        0xC0..0xE0 => 1,
        0xE0..0xF0 => 2,
        0xF1 => 1,
        0xF2 => 2,
        0xF3 => 1,
        _ => 0,
    }
}

// Puts the first one, two or three of three bytes to the front of a buffer, one by one: a call of the library's copy takes longer than so few bytes.
// Refuses 14.
pub fn put_short(bytes: [u8; 3], len: usize, out: &mut [u8]) -> Result<usize, Refusal>
    requires { len ≤ 3 }
    ensures { Writes (with_room (length out.old) (take len bytes)) result out.old out.new }
{
    refusal::room(len, out.len())?;
    if 1 <= len {
        out[0] = bytes[0];
    }
    if 2 <= len {
        out[1] = bytes[1];
    }
    if 3 <= len {
        out[2] = bytes[2];
    }
    Ok(len)
}

// Fourteen bits from two data bytes, low seven first.
pub fn bend(low: u8, high: u8) -> u16
    ensures { result ≡ low + 128 * high }
{
    u16::from(low) + 128 * u16::from(high)
}
