// A refusal as text: the trade's word for it, and its details.
use refusal::Refusal;
use std::fmt;

// The trade's word in the table.
pub fn word(refusal: Refusal) -> &'static str {
    match refusal {
        Refusal::Unframed => "Unframed",
        Refusal::NotSevenBit(_) => "NotSevenBit",
        Refusal::ShortFrame(_) => "ShortFrame",
        Refusal::Foreign { .. } => "Foreign",
        Refusal::InvalidDeviceId(_) => "InvalidDeviceId",
        Refusal::UnknownCommand(_) => "UnknownCommand",
        Refusal::PayloadLength { .. } => "PayloadLength",
        Refusal::UnsupportedProtocolVersion(_) => "UnsupportedProtocolVersion",
        Refusal::BankOutOfRange(_) => "BankOutOfRange",
        Refusal::ProgramOutOfRange(_) => "ProgramOutOfRange",
        Refusal::PatternOutOfRange(_) => "PatternOutOfRange",
        Refusal::InvalidInterface(_) => "InvalidInterface",
        Refusal::PackedRunLength(_) => "PackedRunLength",
        Refusal::BufferTooSmall { .. } => "BufferTooSmall",
        Refusal::NotAnInquiryRequest => "NotAnInquiryRequest",
        Refusal::NotAnInquiryResponse => "NotAnInquiryResponse",
        Refusal::ChannelOutOfRange(_) => "ChannelOutOfRange",
        Refusal::SysExInterrupted => "SysExInterrupted",
        Refusal::SysExTooLong(_) => "SysExTooLong",
        Refusal::BadStore => "BadStore",
        Refusal::ValueTooLarge(_) => "ValueTooLarge",
        Refusal::LengthOverflow => "LengthOverflow",
    }
}

// The details in the table's order, each behind a space.
#[derive(Clone, Copy)]
pub struct Details(pub Refusal);

impl fmt::Display for Details {
    fn fmt<W: fmt::Write>(&self, f: &mut fmt::Formatter<W>) -> fmt::Result {
        for detail in self.0.details() {
            if let Some(value) = detail {
                write!(f, " {value}")?;
            }
        }
        Ok(())
    }
}
