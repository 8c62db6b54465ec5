// The C entry points of the stream decoder. Its state crosses as STATE_LEN bytes that the caller keeps, and its store as bytes that the caller
// lends at every call.
#![tactic(auto)]

ghost use Rattle.std.specs.Prelude.{◌≡◌};
ghost use Rattle.decoder.specs.State.{limit, fresh};
ghost use Rattle.host_answer.specs.Answer.{answer_of, Sends};
ghost use Rattle.stream.specs.Feed.{feed_call, StreamFed};
ghost use Rattle.host_stream.specs.Kept.{state_write, reset_write, open_of};

use decoder::Decoder;
use host_answer::Answer;
use refusal::Refusal;
use stream::{FedAnswer, STATE_LEN, state};

// Takes bytes until the first that reports. state and store are lent at every call as the last one left them. Refuses 20, and then uses and writes
// nothing.
pub fn dm_feed(state: &mut [u8], store: &mut [u8], bytes: &[u8]) -> FedAnswer
    ensures { StreamFed (feed_call state.old store.old bytes.now) result state.old state.new store.old store.new }
{
    stream::feed(state, store, bytes)
}

// The frame limit: a cast, since no From leads from usize to u64.
#[tactic(auto, unfolding(decoder::specs::State::limit))]
pub fn dm_capacity() -> u64
    ensures { result ≡ limit }
{
    decoder::MAX_SYSEX_LEN as u64
}

// Writes a fresh state. Refuses 20 for any other length than STATE_LEN.
pub fn dm_fresh(state: &mut [u8]) -> Answer
    ensures { Sends (state_write fresh state.old) result state.old state.new }
{
    let Some(bytes) = state.as_mut_array::<STATE_LEN>() else {
        return Answer::from(Refusal::BadStore);
    };
    state::put_state(Decoder::new(), bytes);
    Answer::from(Ok(STATE_LEN))
}

// Closes the frame and clears status and pending data, whatever the bytes hold. Refuses 20 for any other length than STATE_LEN.
pub fn dm_reset(state: &mut [u8]) -> Answer
    ensures { Sends (reset_write state.old) result state.old state.new }
{
    let Some(bytes) = state.as_mut_array::<STATE_LEN>() else {
        return Answer::from(Refusal::BadStore);
    };
    state::put_state(state::state_of(bytes).reset(), bytes);
    Answer::from(Ok(STATE_LEN))
}

// 1 while a frame is open, else 0. Refuses 20 for bytes that are no state.
pub fn dm_in_sysex(state: &[u8]) -> Answer
    ensures { result ≡ answer_of (open_of state.now) }
{
    match state.as_array::<STATE_LEN>() {
        Some(bytes) if state::is_state(bytes) => {
            host_answer::done(u64::from(state::state_of(bytes).in_sysex()))
        }
        _ => Answer::from(Refusal::BadStore),
    }
}
