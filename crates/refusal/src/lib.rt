// The refusal table of document 01: why a call turned its input down, with the details that the table names.
#![tactic(auto)]

ghost use Rattle.std.specs.Prelude.{◌≡◌, [], ◌∷◌, slice_get};
ghost use Rattle.refusal.specs.Refusal.{number_of, values_of};

mod buffer;
mod of_byte;

pub use buffer::{put, room};
pub use of_byte::OfByte;

#[derive(Clone, Copy, Debug, PartialEq, Eq)]
pub enum Refusal {
    Unframed,
    NotSevenBit(u8),
    ShortFrame(usize),
    // the three bytes where the maker stands, then the model
    Foreign {
        maker0: u8,
        maker1: u8,
        maker2: u8,
        model: u8,
    },
    InvalidDeviceId(u8),
    UnknownCommand(u8),
    PayloadLength {
        command: u8,
        expected: usize,
        found: usize,
    },
    UnsupportedProtocolVersion(u8),
    BankOutOfRange(u8),
    ProgramOutOfRange(u8),
    PatternOutOfRange(u8),
    InvalidInterface(u8),
    PackedRunLength(usize),
    BufferTooSmall {
        needed: usize,
        available: usize,
    },
    NotAnInquiryRequest,
    NotAnInquiryResponse,
    ChannelOutOfRange(u8),
    SysExInterrupted,
    SysExTooLong(usize),
    BadStore,
    ValueTooLarge(u16),
    LengthOverflow,
}

impl Refusal {
    // The number in the table.
    pub fn number(self) -> u8
        ensures { result ≡ number_of self }
    {
        match self {
            Refusal::Unframed => 1,
            Refusal::NotSevenBit(_) => 2,
            Refusal::ShortFrame(_) => 3,
            Refusal::Foreign { .. } => 4,
            Refusal::InvalidDeviceId(_) => 5,
            Refusal::UnknownCommand(_) => 6,
            Refusal::PayloadLength { .. } => 7,
            Refusal::UnsupportedProtocolVersion(_) => 8,
            Refusal::BankOutOfRange(_) => 9,
            Refusal::ProgramOutOfRange(_) => 10,
            Refusal::PatternOutOfRange(_) => 11,
            Refusal::InvalidInterface(_) => 12,
            Refusal::PackedRunLength(_) => 13,
            Refusal::BufferTooSmall { .. } => 14,
            Refusal::NotAnInquiryRequest => 15,
            Refusal::NotAnInquiryResponse => 16,
            Refusal::ChannelOutOfRange(_) => 17,
            Refusal::SysExInterrupted => 18,
            Refusal::SysExTooLong(_) => 19,
            Refusal::BadStore => 20,
            Refusal::ValueTooLarge(_) => 21,
            Refusal::LengthOverflow => 22,
        }
    }

    // The values that the table gives for it, in the table's order, and none behind the last. Lengths are cast, since no From leads from usize to u64.
    pub fn details(self) -> [Option<u64>; 4]
        ensures { result ≡ slice_get (values_of self) 0 ∷ slice_get (values_of self) 1 ∷ slice_get (values_of self) 2 ∷ slice_get (values_of self) 3 ∷ [] }
    {
        match self {
            Refusal::Unframed
            | Refusal::NotAnInquiryRequest
            | Refusal::NotAnInquiryResponse
            | Refusal::SysExInterrupted
            | Refusal::BadStore
            | Refusal::LengthOverflow => [None, None, None, None],
            Refusal::NotSevenBit(byte)
            | Refusal::InvalidDeviceId(byte)
            | Refusal::UnknownCommand(byte)
            | Refusal::UnsupportedProtocolVersion(byte)
            | Refusal::BankOutOfRange(byte)
            | Refusal::ProgramOutOfRange(byte)
            | Refusal::PatternOutOfRange(byte)
            | Refusal::InvalidInterface(byte)
            | Refusal::ChannelOutOfRange(byte) => [Some(u64::from(byte)), None, None, None],
            Refusal::ShortFrame(len) | Refusal::PackedRunLength(len) | Refusal::SysExTooLong(len) =>
                [Some(len as u64), None, None, None],
            Refusal::ValueTooLarge(value) => [Some(u64::from(value)), None, None, None],
            Refusal::BufferTooSmall { needed, available } => [
                Some(needed as u64),
                Some(available as u64),
                None,
                None,
            ],
            Refusal::PayloadLength {
                command,
                expected,
                found,
            } => [
                Some(u64::from(command)),
                Some(expected as u64),
                Some(found as u64),
                None,
            ],
            Refusal::Foreign {
                maker0,
                maker1,
                maker2,
                model,
            } => [
                Some(u64::from(maker0)),
                Some(u64::from(maker1)),
                Some(u64::from(maker2)),
                Some(u64::from(model)),
            ],
        }
    }
}
