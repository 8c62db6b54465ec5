// Exports dm_data_len, dm_realtime, dm_channel_write, dm_common_write, dm_realtime_write and dm_channel, the entry points of channels and of
// channel, common and real-time messages.
ghost use Rattle.std.specs.Prelude.{◌≡◌};
ghost use Rattle.refusal.specs.Outcome.{gives, and_then};
ghost use Rattle.wire.specs.Channel.{channel_of};
ghost use Rattle.host_answer.specs.Answer.{answer_of};
ghost use Rattle.wire.specs.ChannelMessage.{channel_data_length};
ghost use Rattle.wire.specs.SystemCommon.{common_status};
ghost use Rattle.wire.specs.RealTime.{realtime_of};
ghost use Rattle.wire.specs.ChannelMessage.{channel_kind};
ghost use Rattle.host_wire.specs.Messages.{length_answer, realtime_answer, ChannelSent, CommonSent, RealtimeSent};

use host_answer::Answer;

// How many data bytes follow a channel status byte; NO_RECORD for any other byte.
#[unsafe(no_mangle)]
pub extern "C" fn dm_data_len(status: u8) -> Answer
    ensures { result ≡ length_answer (channel_data_length status) }
{
    host_wire::dm_data_len(status)
}

// The byte of a real-time message; NO_RECORD for any other byte.
#[unsafe(no_mangle)]
pub extern "C" fn dm_realtime(byte: u8) -> Answer
    ensures { result ≡ realtime_answer (realtime_of byte) }
{
    host_wire::dm_realtime(byte)
}

// Writes a channel message by its status nibble, its channel and its data. NO_RECORD for a nibble that no message has; then refuses 17, 14.
#[unsafe(no_mangle)]
pub extern "C" fn dm_channel_write(nibble: u8, channel: u8, a: u16, b: u8, out: &mut [u8]) -> Answer
    ensures { ChannelSent (channel_kind nibble a b) channel result out.old out.new }
{
    host_wire::dm_channel_write(nibble, channel, a, b, out)
}

// Writes a system common message by its status byte; a tune request's value is not looked at. NO_RECORD for another byte; then refuses 21, 14.
#[unsafe(no_mangle)]
pub extern "C" fn dm_common_write(status: u8, value: u16, out: &mut [u8]) -> Answer
    ensures { CommonSent (common_status status) value result out.old out.new }
{
    host_wire::dm_common_write(status, value, out)
}

// Writes a real-time message. NO_RECORD for a byte that is none; then refuses 14.
#[unsafe(no_mangle)]
pub extern "C" fn dm_realtime_write(byte: u8, out: &mut [u8]) -> Answer
    ensures { RealtimeSent (realtime_of byte) result out.old out.new }
{
    host_wire::dm_realtime_write(byte, out)
}

// 0 to 15. Refuses 17.
#[unsafe(no_mangle)]
pub extern "C" fn dm_channel(byte: u8) -> Answer
    ensures { result ≡ answer_of (and_then (channel_of byte) (λ x. gives x.0)) }
{
    host_wire::dm_channel(byte)
}
