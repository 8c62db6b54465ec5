// The C entry points of channel, system common and real-time messages on the wire.
#![tactic(auto)]

ghost use Rattle.std.specs.Prelude.{◌≡◌, length};
ghost use Rattle.refusal.specs.Outcome.{gives, and_then};
ghost use Rattle.wire.specs.Channel.{channel_of};
ghost use Rattle.host_answer.specs.Answer.{answer_of};
ghost use Rattle.wire.specs.ChannelMessage.{channel_data_length};
ghost use Rattle.wire.specs.SystemCommon.{common_status};
ghost use Rattle.wire.specs.RealTime.{realtime_of};
ghost use Rattle.wire.specs.ChannelMessage.{channel_kind};
ghost use Rattle.host_wire.specs.Messages.{length_answer, realtime_answer, ChannelSent, CommonSent, RealtimeSent};

use host_answer::Answer;
use wire::{Channel, ChannelMessage, CommonStatus, Realtime};

// How many data bytes follow a channel status byte; NO_RECORD for any other byte.
pub fn dm_data_len(status: u8) -> Answer
    ensures { result ≡ length_answer (channel_data_length status) }
{
    ChannelMessage::data_len_for(status).map_or(
        host_answer::no_record(),
        |len| Answer::from(Ok(len)),
    )
}

// The byte of a real-time message; NO_RECORD for any other byte.
pub fn dm_realtime(byte: u8) -> Answer
    ensures { result ≡ realtime_answer (realtime_of byte) }
{
    Realtime::from_status(byte).map_or(
        host_answer::no_record(),
        |message| host_answer::done(u64::from(message.to_status())),
    )
}

// Writes a channel message by its status nibble, its channel and its data. NO_RECORD for a nibble that no message has; then refuses 17, 14.
pub fn dm_channel_write(nibble: u8, channel: u8, a: u16, b: u8, out: &mut [u8]) -> Answer
    ensures { ChannelSent (channel_kind nibble a b) channel result out.old out.new }
{
    match ChannelMessage::from_nibble(nibble, a, b) {
        Some(message) => Answer::from(message.encode_into(Channel(channel), out)),
        None => host_answer::no_record(),
    }
}

// Writes a system common message by its status byte; a tune request's value is not looked at. NO_RECORD for another byte; then refuses 21, 14.
pub fn dm_common_write(status: u8, value: u16, out: &mut [u8]) -> Answer
    ensures { CommonSent (common_status status) value result out.old out.new }
{
    match CommonStatus::from_status(status) {
        Some(kind) => Answer::from(kind.encode_into(value, out)),
        None => host_answer::no_record(),
    }
}

// Writes a real-time message. NO_RECORD for a byte that is none; then refuses 14.
pub fn dm_realtime_write(byte: u8, out: &mut [u8]) -> Answer
    ensures { RealtimeSent (realtime_of byte) result out.old out.new }
{
    match Realtime::from_status(byte) {
        Some(message) => Answer::from(message.encode_into(out)),
        None => host_answer::no_record(),
    }
}

// 0 to 15. Refuses 17.
pub fn dm_channel(byte: u8) -> Answer
    ensures { result ≡ answer_of (and_then (channel_of byte) (λ x. gives x.0)) }
{
    host_answer::read_byte::<Channel>(byte)
}
