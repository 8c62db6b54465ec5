// One byte: its class, the message that it completes, and what a step gives back.
ghost use Rattle.std.specs.Prelude.{◌≡◌, false};
ghost use Rattle.wire.specs.RealTime.{realtime_of};
ghost use Rattle.decoder.specs.Step.{class_of, message_report, common_report, realtime_report, kept, silent, reporting, too_long, interrupting};
ghost use Rattle.decoder.specs.Call.{reports};

use crate::{Class, Decoder, MAX_SYSEX_LEN, Report, Stepped};
use wire::{Channel, ChannelMessage, Realtime, SystemCommon};

// Data bytes, of which a frame is full, are told first: a `match` tests its single values ahead of its ranges.
#[tactic(auto, unfolding(crate::specs::Step::class_of))]
pub fn class_of(byte: u8) -> Class
    ensures { result ≡ class_of byte }
{
    if byte < 0x80 {
        return Class::Data;
    }
    match byte {
        0x80..0xF0 => Class::Held,
        0xF0 => Class::Start,
        0xF1..0xF4 => Class::Held,
        0xF4..0xF6 => Class::Undefined,
        0xF6 => Class::Tune,
        0xF7 => Class::End,
        _ => Class::Realtime,
    }
}

// A channel status stays in force after its message, another does not.
pub fn kept(status: u8) -> Option<u8>
    ensures { result ≡ kept status }
{
    match status {
        0x80..0xF0 => Some(status),
        _ => None,
    }
}

// The message of a status byte and its data bytes. The three bytes stay three: a struct would be made of them and taken apart again.
pub fn message_report(status: u8, first: u8, second: u8) -> Option<Report>
    ensures { result ≡ message_report status first second }
{
    match ChannelMessage::from_bytes(status, first, second) {
        Some(message) => Some(Report::Channel {
            channel: Channel(status % 16),
            message,
        }),
        None => SystemCommon::from_bytes(status, first, second).map(|message| {
            Report::Common(message)
        }),
    }
}

pub fn realtime(byte: u8) -> Option<Report>
    ensures { result ≡ realtime_report (realtime_of byte) }
{
    Realtime::from_status(byte).map(|message| Report::Realtime(message))
}

// A step that breaks off no frame.
pub fn uninterrupted(state: Decoder, report: Option<Report>) -> Stepped
    ensures { result ≡ record { state = state; interrupted = false; report = report } }
{
    Stepped {
        state,
        interrupted: false,
        report,
    }
}

pub fn silent(state: Decoder) -> Stepped
    ensures { result ≡ silent state }
{
    uninterrupted(state, None)
}

pub fn reporting(state: Decoder, report: Report) -> Stepped
    ensures { result ≡ reporting state report }
{
    uninterrupted(state, Some(report))
}

// A byte beyond the limit drops the frame.
pub fn too_long(state: Decoder) -> Stepped
    ensures { result ≡ too_long state }
{
    reporting(state.cleared(), Report::SysExTooLong(MAX_SYSEX_LEN))
}

// A status byte below F7 breaks off an open frame.
pub fn interrupting(state: Decoder, next: Decoder, report: Option<Report>) -> Stepped
    ensures { result ≡ interrupting state next report }
{
    Stepped {
        state: next,
        interrupted: state.in_sysex,
        report,
    }
}

// Does a byte report anything?
pub fn reports(done: Stepped) -> bool
    ensures { result ≡ reports done }
{
    done.interrupted || done.report.is_some()
}
