// Exports dm_feed, dm_capacity, dm_fresh, dm_reset and dm_in_sysex, the entry points of the stream decoder.
ghost use Rattle.std.specs.Prelude.{◌≡◌};
ghost use Rattle.decoder.specs.State.{limit, fresh};
ghost use Rattle.host_answer.specs.Answer.{answer_of, Sends};
ghost use Rattle.stream.specs.Feed.{feed_call, StreamFed};
ghost use Rattle.host_stream.specs.Kept.{state_write, reset_write, open_of};

use host_answer::Answer;
use stream::FedAnswer;

// Takes bytes until the first that reports. state and store are lent at every call as the last one left them. Refuses 20, and then uses and writes
// nothing.
#[unsafe(no_mangle)]
pub extern "C" fn dm_feed(state: &mut [u8], store: &mut [u8], bytes: &[u8]) -> FedAnswer
    ensures { StreamFed (feed_call state.old store.old bytes.now) result state.old state.new store.old store.new }
{
    host_stream::dm_feed(state, store, bytes)
}

// The frame limit.
#[unsafe(no_mangle)]
pub extern "C" fn dm_capacity() -> u64
    ensures { result ≡ limit }
{
    host_stream::dm_capacity()
}

// Writes a fresh state. Refuses 20 for any other length than STATE_LEN.
#[unsafe(no_mangle)]
pub extern "C" fn dm_fresh(state: &mut [u8]) -> Answer
    ensures { Sends (state_write fresh state.old) result state.old state.new }
{
    host_stream::dm_fresh(state)
}

// Closes the frame and clears status and pending data, whatever the bytes hold. Refuses 20 for any other length than STATE_LEN.
#[unsafe(no_mangle)]
pub extern "C" fn dm_reset(state: &mut [u8]) -> Answer
    ensures { Sends (reset_write state.old) result state.old state.new }
{
    host_stream::dm_reset(state)
}

// 1 while a frame is open, else 0. Refuses 20 for bytes that are no state.
#[unsafe(no_mangle)]
pub extern "C" fn dm_in_sysex(state: &[u8]) -> Answer
    ensures { result ≡ answer_of (open_of state.now) }
{
    host_stream::dm_in_sysex(state)
}
