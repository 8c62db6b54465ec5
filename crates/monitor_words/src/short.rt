// Channel, system common and real-time messages.
use crate::{Line, put_labelled};
use decoder::Report;
use held_keys::Effect;
use refusal::Refusal;
use wire::{Channel, ChannelMessage, CommonStatus, Realtime, SystemCommon};

// The bytes of a message of one to three, written to the front of a buffer; none for any other report.
pub fn encode(report: Report, room: &mut [u8]) -> &[u8] {
    let written = match report {
        Report::Channel { channel, message } => message.encode_into(channel, room),
        Report::Common(message) => encode_common(message, room),
        Report::Realtime(message) => message.encode_into(room),
        Report::SysEx(_) | Report::SysExInterrupted | Report::SysExTooLong(_) => Ok(0),
    };
    text::front(room, written.unwrap_or(0))
}

fn encode_common(message: SystemCommon, bytes: &mut [u8]) -> Result<usize, Refusal> {
    let (status, value) = match message {
        SystemCommon::TimeCodeQuarterFrame(value) => (
            CommonStatus::TimeCodeQuarterFrame,
            u16::from(value),
        ),
        SystemCommon::SongPosition(value) => (CommonStatus::SongPosition, value),
        SystemCommon::SongSelect(value) => (CommonStatus::SongSelect, u16::from(value)),
        SystemCommon::TuneRequest => (CommonStatus::TuneRequest, 0),
    };
    status.encode_into(value, bytes)
}

// The name of a channel message.
fn name(message: ChannelMessage) -> &'static str {
    match message {
        ChannelMessage::NoteOff { .. } => "note off",
        ChannelMessage::NoteOn { .. } => "note on",
        ChannelMessage::PolyKeyPressure { .. } => "key pressure",
        ChannelMessage::ControlChange { .. } => "control change",
        ChannelMessage::ProgramChange { .. } => "program change",
        ChannelMessage::ChannelPressure { .. } => "channel pressure",
        ChannelMessage::PitchBend { .. } => "pitch bend",
    }
}

// Both data bytes, each behind its label.
fn put_two(line: &mut Line, label: &str, first: u8, then: &str, second: u8) {
    put_labelled(line, label, first);
    put_labelled(line, then, second);
}

// A channel message, its channel and its data.
pub fn put_channel(line: &mut Line, channel: Channel, message: ChannelMessage) {
    line.put_str(name(message));
    put_labelled(line, ", channel ", channel.number());
    match message {
        ChannelMessage::NoteOff { key, velocity } => {
            put_two(line, ", key ", key, ", velocity ", velocity);
        }
        ChannelMessage::NoteOn { key, velocity } => {
            put_two(line, ", key ", key, ", velocity ", velocity);
            // One with velocity 0 releases its key.
            if let Effect::Release(_) = held_keys::effect_of(message) {
                line.put_str(", releases the key");
            }
        }
        ChannelMessage::PolyKeyPressure { key, pressure } => {
            put_two(line, ", key ", key, ", pressure ", pressure);
        }
        ChannelMessage::ControlChange { controller, value } => {
            put_two(line, ", controller ", controller, ", value ", value);
        }
        ChannelMessage::ProgramChange { program } => {
            put_labelled(line, ", program ", program);
        }
        ChannelMessage::ChannelPressure { pressure } => {
            put_labelled(line, ", pressure ", pressure);
        }
        ChannelMessage::PitchBend { value } => put_labelled(line, ", value ", value),
    }
}

pub fn put_common(line: &mut Line, message: SystemCommon) {
    match message {
        SystemCommon::TimeCodeQuarterFrame(value) => {
            put_labelled(line, "time code quarter frame ", value);
        }
        SystemCommon::SongPosition(value) => {
            put_labelled(line, "song position ", value);
        }
        SystemCommon::SongSelect(value) => put_labelled(line, "song select ", value),
        SystemCommon::TuneRequest => line.put_str("tune request"),
    }
}

pub fn realtime_words(message: Realtime) -> &'static str {
    match message {
        Realtime::Clock => "clock",
        Realtime::Start => "start",
        Realtime::Continue => "continue",
        Realtime::Stop => "stop",
        Realtime::ActiveSensing => "active sensing",
        Realtime::SystemReset => "system reset",
    }
}
