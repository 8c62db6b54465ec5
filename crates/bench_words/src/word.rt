// The bench's words.
use crate::arguments::Arguments;
use crate::said::{ok, ok_or_none};
use crate::{streams, sysex, wires};
use command::Command;
use ids::{Bank, DeviceId, Interface, PatternNumber, ProgramNumber, ProtocolVersion};
use refusal::{OfByte, Refusal};
use text::Text;
use wire::{Channel, ChannelMessage, Realtime};

// A word that begins a request.
#[derive(Clone, Copy, PartialEq, Eq, PartialOrd, Ord)]
pub enum Word {
    Bank,
    Program,
    Pattern,
    Version,
    Device,
    Channel,
    Interface,
    Command,
    RawLen,
    DataLen,
    Realtime,
    PackedLen,
    UnpackedLen,
    Pack,
    Unpack,
    Chan,
    Feed,
    Chunks,
    Frame,
    FrameWrite,
    ReadBack,
    InquiryRequest,
    InquiryReply,
    WriteRequest,
    WriteReply,
}

impl Word {
    // The bench's words, in the order in which they are told.
    pub const ALL: [Word; 25] = [
        Word::Bank,
        Word::Program,
        Word::Pattern,
        Word::Version,
        Word::Device,
        Word::Channel,
        Word::Interface,
        Word::Command,
        Word::RawLen,
        Word::DataLen,
        Word::Realtime,
        Word::PackedLen,
        Word::UnpackedLen,
        Word::Pack,
        Word::Unpack,
        Word::Chan,
        Word::Feed,
        Word::Chunks,
        Word::Frame,
        Word::FrameWrite,
        Word::ReadBack,
        Word::InquiryRequest,
        Word::InquiryReply,
        Word::WriteRequest,
        Word::WriteReply,
    ];

    // The word as it stands in a request.
    pub fn name(self) -> &'static str {
        match self {
            Word::Bank => "bank",
            Word::Program => "program",
            Word::Pattern => "pattern",
            Word::Version => "version",
            Word::Device => "device",
            Word::Channel => "channel",
            Word::Interface => "interface",
            Word::Command => "command",
            Word::RawLen => "rawlen",
            Word::DataLen => "datalen",
            Word::Realtime => "rt",
            Word::PackedLen => "plen",
            Word::UnpackedLen => "ulen",
            Word::Pack => "pack",
            Word::Unpack => "unpack",
            Word::Chan => "chan",
            Word::Feed => "feed",
            Word::Chunks => "chunks",
            Word::Frame => "frame",
            Word::FrameWrite => "fwrite",
            Word::ReadBack => "readback",
            Word::InquiryRequest => "ireq",
            Word::InquiryReply => "irep",
            Word::WriteRequest => "wreq",
            Word::WriteReply => "wrep",
        }
    }

    // The bench's word of a name.
    pub fn of(name: &[u8]) -> Option<Word> {
        Word::ALL
            .into_iter()
            .find(|word| word.name().as_bytes() == name)
    }

    // What the word says to its arguments.
    pub(crate) fn answer<const N: usize>(
        self,
        ask: Arguments<'_>,
        answer: &mut Text<N>,
    ) -> Result<(), Refusal> {
        match self {
            Word::Bank => small::<Bank, N>(ask, answer),
            Word::Program => small::<ProgramNumber, N>(ask, answer),
            Word::Pattern => small::<PatternNumber, N>(ask, answer),
            Word::Version => small::<ProtocolVersion, N>(ask, answer),
            Word::Device => small::<DeviceId, N>(ask, answer),
            Word::Channel => small::<Channel, N>(ask, answer),
            Word::Interface => small::<Interface, N>(ask, answer),
            Word::Command => small::<Command, N>(ask, answer),
            Word::RawLen => raw_len(ask, answer),
            Word::DataLen => data_len(ask, answer),
            Word::Realtime => realtime(ask, answer),
            Word::PackedLen => wires::length(ask, answer, packed::packed_len),
            Word::UnpackedLen => wires::length(ask, answer, packed::unpacked_len),
            Word::Pack => wires::turned(ask, answer, packed::packing::pack_into),
            Word::Unpack => wires::turned(ask, answer, packed::unpacking::unpack_into),
            Word::Chan => wires::channel_message(ask, answer),
            Word::Feed => streams::feed(ask, answer),
            Word::Chunks => streams::chunks(ask, answer),
            Word::Frame => sysex::frame(ask, answer),
            Word::FrameWrite => sysex::frame_write(ask, answer),
            Word::ReadBack => sysex::read_back(ask, answer),
            Word::InquiryRequest => wires::inquiry_request(ask, answer),
            Word::InquiryReply => wires::inquiry_reply(ask, answer),
            Word::WriteRequest => wires::write_request(ask, answer),
            Word::WriteReply => wires::write_reply(ask, answer),
        }
    }
}

// A byte read as a small number or a name, and written back.
fn small<T: OfByte, const N: usize>(
    mut ask: Arguments<'_>,
    answer: &mut Text<N>,
) -> Result<(), Refusal> {
    ok(answer, T::from_byte(ask.byte())?.to_byte());
    Ok(())
}

fn raw_len<const N: usize>(mut ask: Arguments<'_>, answer: &mut Text<N>) -> Result<(), Refusal> {
    ok(
        answer,
        ProtocolVersion::from_byte(ask.byte())?.program_data_len(),
    );
    Ok(())
}

fn data_len<const N: usize>(mut ask: Arguments<'_>, answer: &mut Text<N>) -> Result<(), Refusal> {
    ok_or_none(answer, ChannelMessage::data_len_for(ask.byte()));
    Ok(())
}

fn realtime<const N: usize>(mut ask: Arguments<'_>, answer: &mut Text<N>) -> Result<(), Refusal> {
    ok_or_none(
        answer,
        Realtime::from_status(ask.byte()).map(|message| message.to_status()),
    );
    Ok(())
}
