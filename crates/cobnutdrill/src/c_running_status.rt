// Exports dm_running_fresh, dm_running_channel, dm_running_common, dm_running_realtime and dm_running_frame, the entry points of the writer that leaves
// out status bytes.
ghost use Rattle.std.specs.Prelude.{◌≡◌};
ghost use Rattle.wire.specs.ChannelMessage.{channel_kind};
ghost use Rattle.wire.specs.SystemCommon.{common_status};
ghost use Rattle.wire.specs.RealTime.{realtime_of};
ghost use Rattle.host_answer.specs.Answer.{Sends};
ghost use Rattle.host_running_status.specs.Running.{channel_named, common_named, realtime_named, running_fresh, plain_named, frame_named, HandedSent};

use host_answer::Answer;

// Writes the state none, with no running status. Refuses 20 for any other length than RUNNING_LEN.
#[unsafe(no_mangle)]
pub extern "C" fn dm_running_fresh(state: &mut [u8]) -> Answer
    ensures { Sends (running_fresh state.old) result state.old state.new }
{
    host_running_status::dm_running_fresh(state)
}

// Writes a channel message by its status nibble, its channel and its data, without its status byte where that is the running status. Refuses 20 for the
// state, NO_RECORD for a nibble that no message has, then 17, 14.
#[unsafe(no_mangle)]
pub extern "C" fn dm_running_channel(
    state: &mut [u8],
    nibble: u8,
    channel: u8,
    a: u16,
    b: u8,
    out: &mut [u8],
) -> Answer
    ensures { HandedSent (plain_named (channel_named (channel_kind nibble a b) channel)) result state.old state.new out.old out.new }
{
    host_running_status::dm_running_channel(state, nibble, channel, a, b, out)
}

// Writes a system common message by its status byte; a tune request's value is not looked at. Refuses 20 for the state, NO_RECORD for another byte, then
// 21, 14.
#[unsafe(no_mangle)]
pub extern "C" fn dm_running_common(
    state: &mut [u8],
    status: u8,
    value: u16,
    out: &mut [u8],
) -> Answer
    ensures { HandedSent (plain_named (common_named (common_status status) value)) result state.old state.new out.old out.new }
{
    host_running_status::dm_running_common(state, status, value, out)
}

// Writes a real-time message. Refuses 20 for the state, NO_RECORD for a byte that is none, then 14.
#[unsafe(no_mangle)]
pub extern "C" fn dm_running_realtime(state: &mut [u8], byte: u8, out: &mut [u8]) -> Answer
    ensures { HandedSent (plain_named (realtime_named (realtime_of byte))) result state.old state.new out.old out.new }
{
    host_running_status::dm_running_realtime(state, byte, out)
}

// Writes a frame, given as its bytes from F0 to F7. Refuses 20 for the state, then 1, 2, 19, 14.
#[unsafe(no_mangle)]
pub extern "C" fn dm_running_frame(state: &mut [u8], frame: &[u8], out: &mut [u8]) -> Answer
    ensures { HandedSent (frame_named frame.now) result state.old state.new out.old out.new }
{
    host_running_status::dm_running_frame(state, frame, out)
}
