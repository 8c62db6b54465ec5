// The C entry points of the writer that leaves out status bytes. Its state crosses as RUNNING_LEN bytes that the caller keeps.
#![tactic(auto)]

ghost use Rattle.std.specs.Prelude.{◌≡◌, length};
ghost use Rattle.refusal.specs.Outcome.{gives};
ghost use Rattle.running_status.specs.StateBytes.{running_bytes};
ghost use Rattle.wire.specs.ChannelMessage.{channel_kind};
ghost use Rattle.wire.specs.SystemCommon.{common_status};
ghost use Rattle.wire.specs.RealTime.{realtime_of};
ghost use Rattle.host_answer.specs.Answer.{answer_of, Sends};
ghost use Rattle.host_running_status.specs.Running.{channel_named, common_named, realtime_named, running_fresh, plain_named, frame_named, HandedSent};

use host_answer::Answer;
use refusal::Refusal;
use running_status::Emitted;
use running_status::bytes::{RUNNING_LEN, put_running, read_running};
use wire::{Channel, ChannelMessage, CommonStatus, Realtime};

// Writes the state none, with no running status. Refuses 20 for any other length than RUNNING_LEN.
pub fn dm_running_fresh(state: &mut [u8]) -> Answer
    ensures { Sends (running_fresh state.old) result state.old state.new }
{
    if state.len() != RUNNING_LEN {
        return Answer::from(Refusal::BadStore);
    }
    put_running(None, state);
    Answer::from(Ok(RUNNING_LEN))
}

// Writes a channel message by its status nibble, its channel and its data, without its status byte where that is the running status. Refuses 20 for the
// state, NO_RECORD for a nibble that no message has, then 17, 14.
pub fn dm_running_channel(
    state: &mut [u8],
    nibble: u8,
    channel: u8,
    a: u16,
    b: u8,
    out: &mut [u8],
) -> Answer
    ensures { HandedSent (plain_named (channel_named (channel_kind nibble a b) channel)) result state.old state.new out.old out.new }
{
    let Some(running) = read_running(state) else {
        return Answer::from(Refusal::BadStore);
    };
    let Some(message) = ChannelMessage::from_nibble(nibble, a, b) else {
        return host_answer::no_record();
    };
    match running_status::write_channel(running, Channel(channel), message, out) {
        Ok(emitted) => sent(emitted, state),
        Err(e) => Answer::from(e),
    }
}

// Writes a system common message by its status byte; a tune request's value is not looked at. Refuses 20 for the state, NO_RECORD for another byte, then
// 21, 14.
pub fn dm_running_common(state: &mut [u8], status: u8, value: u16, out: &mut [u8]) -> Answer
    ensures { HandedSent (plain_named (common_named (common_status status) value)) result state.old state.new out.old out.new }
{
    let Some(running) = read_running(state) else {
        return Answer::from(Refusal::BadStore);
    };
    let Some(kind) = CommonStatus::from_status(status) else {
        return host_answer::no_record();
    };
    match running_status::write_common(running, kind, value, out) {
        Ok(emitted) => sent(emitted, state),
        Err(e) => Answer::from(e),
    }
}

// Writes a real-time message. Refuses 20 for the state, NO_RECORD for a byte that is none, then 14.
pub fn dm_running_realtime(state: &mut [u8], byte: u8, out: &mut [u8]) -> Answer
    ensures { HandedSent (plain_named (realtime_named (realtime_of byte))) result state.old state.new out.old out.new }
{
    let Some(running) = read_running(state) else {
        return Answer::from(Refusal::BadStore);
    };
    let Some(message) = Realtime::from_status(byte) else {
        return host_answer::no_record();
    };
    match running_status::write_realtime(running, message, out) {
        Ok(emitted) => sent(emitted, state),
        Err(e) => Answer::from(e),
    }
}

// Writes a frame, given as its bytes from F0 to F7. Refuses 20 for the state, then 1, 2, 19, 14.
pub fn dm_running_frame(state: &mut [u8], frame: &[u8], out: &mut [u8]) -> Answer
    ensures { HandedSent (frame_named frame.now) result state.old state.new out.old out.new }
{
    let Some(running) = read_running(state) else {
        return Answer::from(Refusal::BadStore);
    };
    match running_status::write_frame(running, frame, out) {
        Ok(emitted) => sent(emitted, state),
        Err(e) => Answer::from(e),
    }
}

// Stores the state behind what was written, and answers its count.
fn sent(emitted: Emitted, state: &mut [u8]) -> Answer
    requires { length state.old ≡ 2 }
    ensures { (result ≡ answer_of (gives emitted.count)) × (state.new ≡ running_bytes emitted.state) }
{
    put_running(emitted.state, state);
    Answer::from(Ok(emitted.count))
}
