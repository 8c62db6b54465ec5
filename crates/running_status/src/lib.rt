// Running status on the way out: one message after another, with the state between them going in and out. The status byte of a channel message is left
// out where it is the running status.
#![tactic(auto)]

ghost use Rattle.std.specs.Prelude.{◌≡◌};
ghost use Rattle.refusal.specs.Outcome.{answered, gives};
ghost use Rattle.running_status.specs.declared.Outgoing.TheVariants as o;
ghost use Rattle.running_status.specs.RunningStatus.{is_running, when_frame, plain, frame_bytes, Emits};

pub mod bytes;

use decoder::MAX_SYSEX_LEN;
use refusal::{OfByte, Refusal};
use wire::{Channel, ChannelMessage, CommonStatus, Realtime};

// A message that is no frame: a system common one by its status and its value.
#[derive(Clone, Copy, Debug, PartialEq, Eq)]
pub enum Outgoing {
    Channel {
        channel: Channel,
        message: ChannelMessage,
    },
    Common {
        status: CommonStatus,
        value: u16,
    },
    Realtime(Realtime),
}

// What a call wrote: how many bytes, and the running status behind them, which the next call gets. Behind a refusal the next call gets what this one
// got.
#[derive(Clone, Copy, Debug, PartialEq, Eq)]
pub struct Emitted {
    pub count: usize,
    pub state: Option<u8>,
}

// Is it a state of the writer? That is none, or a status byte 80 to EF.
pub fn is_running(state: Option<u8>) -> bool
    ensures { result ≡ is_running state }
{
    match state {
        None => true,
        Some(0x80..0xF0) => true,
        Some(_) => false,
    }
}

// Writes a message that is no frame. Refuses 20 for the state, then 17 or 21, then 14.
pub fn write(state: Option<u8>, message: Outgoing, out: &mut [u8]) -> Result<Emitted, Refusal>
    ensures { Emits state (plain message) result out.old out.new }
{
    match message {
        Outgoing::Channel { channel, message } => write_channel(state, channel, message, out),
        Outgoing::Common { status, value } => write_common(state, status, value, out),
        Outgoing::Realtime(message) => write_realtime(state, message, out),
    }
}

// Writes a channel message, without its status byte where that is the running status. Refuses 20 for the state, then 17, then 14.
pub fn write_channel(
    state: Option<u8>,
    channel: Channel,
    message: ChannelMessage,
    out: &mut [u8],
) -> Result<Emitted, Refusal>
    ensures { Emits state (plain (o.Channel channel message)) result out.old out.new }
{
    if !is_running(state) {
        return Err(Refusal::BadStore);
    }
    Channel::from_byte(channel.0)?;
    let status = message.status_nibble() + channel.0;
    let [first, second] = message.data_bytes();
    let len = message.encoded_len();
    let count = match state {
        Some(running) if running == status => wire::put_short([first, second, 0], len - 1, out)?,
        _ => wire::put_short([status, first, second], len, out)?,
    };
    Ok(Emitted {
        count,
        state: Some(status),
    })
}

// Writes a system common message, which clears the running status. Refuses 20 for the state, then 21, then 14.
pub fn write_common(
    state: Option<u8>,
    status: CommonStatus,
    value: u16,
    out: &mut [u8],
) -> Result<Emitted, Refusal>
    ensures { Emits state (plain (o.Common status value)) result out.old out.new }
{
    if !is_running(state) {
        return Err(Refusal::BadStore);
    }
    let count = status.encode_into(value, out)?;
    Ok(Emitted { count, state: None })
}

// Writes a real-time message, which leaves the running status. Refuses 20 for the state, then 14.
pub fn write_realtime(
    state: Option<u8>,
    message: Realtime,
    out: &mut [u8],
) -> Result<Emitted, Refusal>
    ensures { Emits state (plain (o.Realtime message)) result out.old out.new }
{
    if !is_running(state) {
        return Err(Refusal::BadStore);
    }
    let count = message.encode_into(out)?;
    Ok(Emitted { count, state })
}

// Writes a frame, which is given as its bytes from F0 to F7. Refuses 20 for the state, then 1, 2, then 19 beyond the frame limit, then 14.
pub fn write_frame(state: Option<u8>, frame: &[u8], out: &mut [u8]) -> Result<Emitted, Refusal>
    ensures { Emits state (frame_bytes frame.now) result out.old out.new }
{
    if !is_running(state) {
        return Err(Refusal::BadStore);
    }
    check_frame(frame)?;
    let count = refusal::room(frame.len(), out.len())?;
    octets::copies::copy_into(frame, out);
    Ok(Emitted { count, state: None })
}

// Refuses what is no frame: 1, 2, then 19 beyond the frame limit.
#[tactic(auto, using(decoder::proofs::Limit::limit_is))]
fn check_frame(frame: &[u8]) -> Result<(), Refusal>
    ensures { answered result ≡ when_frame frame.now (gives tt) }
{
    if !framing::is_framed(frame) {
        return Err(Refusal::Unframed);
    }
    if let Some(byte) = framing::first_high(&frame[1..frame.len() - 1]) {
        return Err(Refusal::NotSevenBit(byte));
    }
    if MAX_SYSEX_LEN < frame.len() {
        return Err(Refusal::SysExTooLong(MAX_SYSEX_LEN));
    }
    Ok(())
}
