// What a report says, in words that a technician reads.
#![tactic(auto)]

mod frame;
mod short;

use decoder::Report;
use text::Text;
use wire::Realtime;

// How wide the place is, and where a line's words begin.
const PLACE_WIDTH: usize = 10;

const WORDS_COLUMN: usize = 42;

// A line; the longest takes some 160 bytes.
pub type Line = Text<256>;

// A label and a number.
fn put_labelled(line: &mut Line, label: &str, number: impl Into<u64> + Drop) {
    line.put_str(label);
    line.put_decimal(number.into());
}

// Bytes in hexadecimal, with a space behind each.
fn put_spaced(line: &mut Line, bytes: &[u8]) {
    for byte in bytes {
        line.put_hex(*byte);
        line.put_byte(b' ');
    }
}

// A message's bytes: up to ten whole, of more the first eight and the last.
fn put_message_bytes(line: &mut Line, bytes: &[u8]) {
    match bytes.last() {
        Some(last) if 10 < bytes.len() => {
            put_spaced(line, text::front(bytes, 8));
            line.put_str(".. ");
            line.put_hex(*last);
        }
        _ => put_spaced(line, bytes),
    }
}

// A report's words. A frame is the front of the store.
fn put_words(line: &mut Line, store: &[u8], report: Report) {
    match report {
        Report::SysEx(len) => frame::put_words(line, text::front(store, len)),
        Report::SysExInterrupted => {
            line.put_str("damage: 18 SysExInterrupted, a frame broken off and dropped");
        }
        Report::SysExTooLong(limit) => {
            put_labelled(
                line,
                "damage: 19 SysExTooLong, a frame beyond ",
                limit as u64,
            );
            line.put_str(" bytes dropped");
        }
        Report::Channel { channel, message } => short::put_channel(line, channel, message),
        Report::Common(message) => short::put_common(line, message),
        Report::Realtime(message) => line.put_str(short::realtime_words(message)),
    }
}

// The line of a report: the place of the byte that gave it, the message's bytes, and its words.
pub fn line(place: u64, store: &[u8], report: Report) -> Line {
    let mut room = [0u8; 3];
    let mut line = Line::new();
    line.put_decimal(place);
    line.pad(PLACE_WIDTH);
    match report {
        Report::SysEx(len) => put_message_bytes(&mut line, text::front(store, len)),
        _ => put_message_bytes(&mut line, short::encode(report, &mut room)),
    }
    line.pad(WORDS_COLUMN);
    put_words(&mut line, store, report);
    line
}

// Is it clock or active sensing, the two that fill a capture?
pub fn is_steady(report: Report) -> bool {
    matches!(
        report,
        Report::Realtime(Realtime::Clock | Realtime::ActiveSensing)
    )
}
