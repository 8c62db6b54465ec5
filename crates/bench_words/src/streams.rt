// The words of the decoder, from a fresh one each time.
use crate::arguments::{Arguments, MOST_BYTES};
use decoder::{Decoder, MAX_SYSEX_LEN, Report};
use decoder_in_place::Taken;
use refusal::{OfByte, Refusal};
use std::fmt;
use text::{Hex, Text};
use wire::{Channel, ChannelMessage, SystemCommon};

// A report as the bench writes it. A frame is the front of the store.
#[derive(Clone, Copy)]
struct BenchReport<'a> {
    store: &'a [u8],
    report: Report,
}

impl fmt::Display for BenchReport<'_> {
    fn fmt<W: fmt::Write>(&self, f: &mut fmt::Formatter<W>) -> fmt::Result {
        match self.report {
            Report::Channel { channel, message } => tell_channel(f, channel, message),
            Report::SysEx(len) => {
                let frame = Hex {
                    bytes: text::front(self.store, len),
                    behind: "",
                };
                write!(f, "x{frame}")
            }
            Report::Common(SystemCommon::TimeCodeQuarterFrame(value)) => write!(f, "mf1,{value}"),
            Report::Common(SystemCommon::SongPosition(value)) => write!(f, "mf2,{value}"),
            Report::Common(SystemCommon::SongSelect(value)) => write!(f, "mf3,{value}"),
            Report::Common(SystemCommon::TuneRequest) => f.write_str("mf6"),
            Report::Realtime(message) => write!(f, "r{:02x}", message.to_status()),
            Report::SysExInterrupted => f.write_str("e18"),
            Report::SysExTooLong(limit) => write!(f, "e19,{limit}"),
        }
    }
}

fn tell_channel<W: fmt::Write>(
    f: &mut fmt::Formatter<W>,
    channel: Channel,
    message: ChannelMessage,
) -> fmt::Result {
    let status = message.status_nibble() | channel.to_byte();
    write!(f, "c{status:02x}")?;
    match message {
        ChannelMessage::NoteOff {
            key: first,
            velocity: second,
        }
        | ChannelMessage::NoteOn {
            key: first,
            velocity: second,
        }
        | ChannelMessage::PolyKeyPressure {
            key: first,
            pressure: second,
        }
        | ChannelMessage::ControlChange {
            controller: first,
            value: second,
        } => write!(f, ",{first},{second}"),
        ChannelMessage::ProgramChange { program: only }
        | ChannelMessage::ChannelPressure { pressure: only } => write!(f, ",{only}"),
        ChannelMessage::PitchBend { value } => write!(f, ",{value}"),
    }
}

// How far a stream has come: the decoder and its store, and the place of the next byte where places are asked for.
#[derive(Clone, Copy)]
struct Stream {
    state: Decoder,
    store: [u8; MAX_SYSEX_LEN],
    place: Option<u64>,
}

impl Stream {
    fn new(place: Option<u64>) -> Stream {
        Stream {
            state: Decoder::new(),
            store: [0xAA; MAX_SYSEX_LEN],
            place,
        }
    }

    // Calls until all bytes are used, and then answers true; it stops where a call is refused. Places are u64, to
    // which no From leads from usize. The monitor has this loop too: what it does with a report differs, and one function
    // for both, with a closure for it, would be as long.
    fn take<const N: usize>(&mut self, bytes: &[u8], answer: &mut Text<N>) -> bool {
        let mut rest = bytes;
        while let Some((taken, next)) = decoder_in_place::feed_front(
            &mut self.state,
            &mut self.store,
            rest,
        ) {
            self.place = self
                .place
                .map(|place| place.wrapping_add(taken.used as u64));
            self.tell_all(taken, answer);
            rest = next;
        }
        rest.is_empty()
    }

    // The reports of one call.
    fn tell_all<const N: usize>(&self, taken: Taken, answer: &mut Text<N>) {
        if taken.interrupted {
            self.tell(Report::SysExInterrupted, answer);
        }
        if let Some(report) = taken.report {
            self.tell(report, answer);
        }
    }

    // A report, behind the place of the byte that gave it.
    fn tell<const N: usize>(&self, report: Report, answer: &mut Text<N>) {
        let told = BenchReport {
            store: &self.store,
            report,
        };
        match self.place {
            Some(next) => write!(answer, " {}:{told}", next.wrapping_sub(1)),
            None => write!(answer, " {told}"),
        }
    }
}

// A mark that no recorded answer has, where bytes were left over.
fn end<const N: usize>(answer: &mut Text<N>, all_used: bool) {
    if !all_used {
        answer.put_byte(b'!');
    }
}

pub fn feed<const N: usize>(mut ask: Arguments<'_>, answer: &mut Text<N>) -> Result<(), Refusal> {
    let mut room = [0; MOST_BYTES];
    let bytes = ask.bytes(&mut room);
    let mut stream = Stream::new(Some(0));
    answer.put_str("ok");
    let all_used = stream.take(bytes, answer);
    end(answer, all_used);
    write!(answer, " open={}", u8::from(stream.state.in_sysex));
    Ok(())
}

// The bytes in pieces of the sizes that are listed, from the first size again behind the last. A size is cast, since no From leads from u64 to
// usize.
pub fn chunks<const N: usize>(mut ask: Arguments<'_>, answer: &mut Text<N>) -> Result<(), Refusal> {
    let mut sizes = ask.numbers();
    let mut room = [0; MOST_BYTES];
    let bytes = ask.bytes(&mut room);
    let mut stream = Stream::new(None);
    let mut all_used = true;
    let mut rest: &[u8] = bytes;
    answer.put_str("ok");
    for _ in 0..65536 {
        if rest.is_empty() {
            break;
        }
        let size = sizes.next() as usize;
        let (piece, next) = rest.split_at(rest.len().min(size));
        all_used &= stream.take(piece, answer);
        rest = next;
    }
    end(answer, all_used && rest.is_empty());
    Ok(())
}
