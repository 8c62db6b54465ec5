// Channel messages, without their channel.
ghost use Rattle.std.specs.Prelude.{◌≡◌, [], ◌∷◌, ◌+◌, length, get_or};
ghost use Rattle.refusal.specs.Outcome.{Writes};
ghost use Rattle.wire.specs.ChannelMessage.{channel_data_length, status_nibble, data_bytes, channel_write, channel_message, channel_kind};

use crate::Channel;
use refusal::{OfByte, Refusal};

#[derive(Clone, Copy, Debug, PartialEq, Eq)]
pub enum ChannelMessage {
    NoteOff { key: u8, velocity: u8 },
    NoteOn { key: u8, velocity: u8 },
    PolyKeyPressure { key: u8, pressure: u8 },
    ControlChange { controller: u8, value: u8 },
    ProgramChange { program: u8 },
    ChannelPressure { pressure: u8 },
    PitchBend { value: u16 },
}

impl ChannelMessage {
    pub const BEND_CENTRE: u16 = 8192;

    // The high four bits of the status byte.
    pub fn status_nibble(self) -> u8
        ensures { result ≡ status_nibble self }
    {
        match self {
            ChannelMessage::NoteOff { .. } => 0x80,
            ChannelMessage::NoteOn { .. } => 0x90,
            ChannelMessage::PolyKeyPressure { .. } => 0xA0,
            ChannelMessage::ControlChange { .. } => 0xB0,
            ChannelMessage::ProgramChange { .. } => 0xC0,
            ChannelMessage::ChannelPressure { .. } => 0xD0,
            ChannelMessage::PitchBend { .. } => 0xE0,
        }
    }

    // How many data bytes follow a channel status byte; none for a byte that is no such status.
    pub fn data_len_for(status: u8) -> Option<usize>
        ensures { result ≡ channel_data_length status }
    {
        match status {
            0x80..0xF0 => Some(crate::data_len(status)),
            _ => None,
        }
    }

    // How many bytes encode_into writes.
    pub fn encoded_len(self) -> usize
        ensures { result ≡ 1 + length (data_bytes self) }
    {
        match self {
            ChannelMessage::ProgramChange { .. } | ChannelMessage::ChannelPressure { .. } => 2,
            _ => 3,
        }
    }

    // The data bytes that are sent, 0 for what the message lacks: seven bits of each, fourteen of a bend, low seven first.
    // A bend's are cast, since From does not narrow.
    pub fn data_bytes(self) -> [u8; 2]
        ensures { result ≡ get_or (data_bytes self) 0 0 ∷ get_or (data_bytes self) 1 0 ∷ [] }
    {
        match self {
            ChannelMessage::NoteOff { key, velocity } | ChannelMessage::NoteOn { key, velocity } =>
                [key % 128, velocity % 128],
            ChannelMessage::PolyKeyPressure { key, pressure } => [key % 128, pressure % 128],
            ChannelMessage::ControlChange { controller, value } => [controller % 128, value % 128],
            ChannelMessage::ProgramChange { program } => [program % 128, 0],
            ChannelMessage::ChannelPressure { pressure } => [pressure % 128, 0],
            ChannelMessage::PitchBend { value } => [(value % 128) as u8, (value / 128 % 128) as u8],
        }
    }

    // Writes the message on a channel, status byte first. Refuses 17, then 14.
    pub fn encode_into(self, channel: Channel, out: &mut [u8]) -> Result<usize, Refusal>
        ensures { Writes (channel_write channel self (length out.old)) result out.old out.new }
    {
        Channel::from_byte(channel.0)?;
        let [first, second] = self.data_bytes();
        let bytes = [self.status_nibble() + channel.0, first, second];
        crate::put_short(bytes, self.encoded_len(), out)
    }

    // The message of a status byte and its data; of one-byte messages the second byte is not read.
    // The three bytes stay three: a struct would be made of them and taken apart again.
    pub fn from_bytes(status: u8, first: u8, second: u8) -> Option<ChannelMessage>
        ensures { result ≡ channel_message status first second }
    {
        let a = first % 128;
        let b = second % 128;
        let nibble = status & 0xF0;
        let value = if nibble == 0xE0 {
            crate::bend(a, b)
        } else {
            u16::from(a)
        };
        ChannelMessage::from_nibble(nibble, value, b)
    }

    // The message of a status nibble and its data: a is the whole of a bend, and the first data byte of every other message: a cast, since From does
    // not narrow.
    pub fn from_nibble(nibble: u8, a: u16, b: u8) -> Option<ChannelMessage>
        ensures { result ≡ channel_kind nibble a b }
    {
        let first = (a % 256) as u8;
        match nibble {
            0x80 => Some(ChannelMessage::NoteOff {
                key: first,
                velocity: b,
            }),
            0x90 => Some(ChannelMessage::NoteOn {
                key: first,
                velocity: b,
            }),
            0xA0 => Some(ChannelMessage::PolyKeyPressure {
                key: first,
                pressure: b,
            }),
            0xB0 => Some(ChannelMessage::ControlChange {
                controller: first,
                value: b,
            }),
            0xC0 => Some(ChannelMessage::ProgramChange { program: first }),
            0xD0 => Some(ChannelMessage::ChannelPressure { pressure: first }),
            0xE0 => Some(ChannelMessage::PitchBend { value: a }),
            _ => None,
        }
    }
}
