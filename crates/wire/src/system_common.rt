// System common messages, and the writer that the Rust lacks.
ghost use Rattle.std.specs.Prelude.{◌≡◌, ◌+◌, length};
ghost use Rattle.refusal.specs.Outcome.{Writes};
ghost use Rattle.wire.specs.Status.{data_length};
ghost use Rattle.wire.specs.SystemCommon.{common_status, common_status_byte, common_message, common_in_range, common, common_write};

use refusal::Refusal;

// The system common messages that a record names.
#[derive(Clone, Copy, Debug, PartialEq, Eq)]
pub enum SystemCommon {
    TimeCodeQuarterFrame(u8),
    SongPosition(u16),
    SongSelect(u8),
    TuneRequest,
}

impl SystemCommon {
    // The message of a status byte and its data; what the message does not take is not read. The three bytes stay three: a struct would be made of them
    // and taken apart again.
    pub fn from_bytes(status: u8, first: u8, second: u8) -> Option<SystemCommon>
        ensures { result ≡ common_message status first second }
    {
        let a = first % 128;
        let b = second % 128;
        match status {
            0xF1 => Some(SystemCommon::TimeCodeQuarterFrame(a)),
            0xF2 => Some(SystemCommon::SongPosition(crate::bend(a, b))),
            0xF3 => Some(SystemCommon::SongSelect(a)),
            0xF6 => Some(SystemCommon::TuneRequest),
            _ => None,
        }
    }
}

// Their status bytes: F1, F2, F3 and F6.
#[derive(Clone, Copy, Debug, PartialEq, Eq)]
pub enum CommonStatus {
    TimeCodeQuarterFrame,
    SongPosition,
    SongSelect,
    TuneRequest,
}

impl CommonStatus {
    pub fn from_status(status: u8) -> Option<CommonStatus>
        ensures { result ≡ common_status status }
    {
        match status {
            0xF1 => Some(CommonStatus::TimeCodeQuarterFrame),
            0xF2 => Some(CommonStatus::SongPosition),
            0xF3 => Some(CommonStatus::SongSelect),
            0xF6 => Some(CommonStatus::TuneRequest),
            _ => None,
        }
    }

    pub fn to_status(self) -> u8
        ensures { result ≡ common_status_byte self }
    {
        match self {
            CommonStatus::TimeCodeQuarterFrame => 0xF1,
            CommonStatus::SongPosition => 0xF2,
            CommonStatus::SongSelect => 0xF3,
            CommonStatus::TuneRequest => 0xF6,
        }
    }

    // Is the value one that the message can carry? A tune request carries none and passes over it.
    fn carries(self, value: u16) -> bool
        ensures { result ≡ common_in_range (common self value) }
    {
        match self {
            CommonStatus::TimeCodeQuarterFrame => value <= 127,
            CommonStatus::SongPosition => value <= 16383,
            CommonStatus::SongSelect => value <= 127,
            CommonStatus::TuneRequest => true,
        }
    }

    // How many bytes the message takes.
    pub fn encoded_len(self) -> usize
        ensures { result ≡ 1 + data_length (common_status_byte self) }
    {
        match self {
            CommonStatus::TimeCodeQuarterFrame | CommonStatus::SongSelect => 2,
            CommonStatus::SongPosition => 3,
            CommonStatus::TuneRequest => 1,
        }
    }

    // Writes the message with a value, status byte first. Refuses 21, tested before the value is narrowed, then 14. Casts narrow it, as From does not.
    pub fn encode_into(self, value: u16, out: &mut [u8]) -> Result<usize, Refusal>
        ensures { Writes (common_write self value (length out.old)) result out.old out.new }
    {
        if !self.carries(value) {
            return Err(Refusal::ValueTooLarge(value));
        }
        let bytes = [
            self.to_status(),
            (value % 128) as u8,
            (value / 128 % 128) as u8,
        ];
        crate::put_short(bytes, self.encoded_len(), out)
    }
}
