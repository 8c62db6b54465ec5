// The stream decoder that every host runs: `Decoder::feed` on a state kept as STATE_LEN bytes, with the store lent, answered in plain numbers.
// A call reads the state as numbers once. Outside a frame it goes by the status in force, what is pending and the first data byte; in a frame
// it moves whole runs of data bytes to the store. It writes back the frame's length, or what waits and the data bytes.
#![tactic(auto)]

ghost use Rattle.stream.specs.Feed.{feed_call, StreamFed};

mod answer;
mod frame;
mod numbers;
mod outside;
pub mod state;

use decoder::MAX_SYSEX_LEN;

// Bytes of a state: the frame flag, the frame's length so far (eight bytes, low byte first), the status flag, the status, how many data bytes
// are pending, and the two data bytes.
pub const STATE_LEN: usize = 14;

// What a call did, in numbers for C. number: 0, or 20 where the state or the store is refused and nothing was used. used: how many bytes. interrupted: 1 where
// report 18 comes first. kind: the report of the last byte used, and its numbers.
#[repr(C)]
#[derive(Clone, Copy, Debug, PartialEq, Eq)]
pub struct FedAnswer {
    pub number: u64,
    pub used: u64,
    pub interrupted: u64,
    pub kind: u64,
    pub status: u64,
    pub first: u64,
    pub second: u64,
}

// The kinds of reports: none; a channel message by its status byte and data (a bend is one number); a frame, the first so many bytes of the
// store; a system common message by its status byte and value; a real-time byte; 19 by its number, where 18 is told by the flag ahead.
pub const NOTHING: u64 = 0;

pub const CHANNEL: u64 = 1;

pub const SYSEX: u64 = 2;

pub const COMMON: u64 = 3;

pub const REALTIME: u64 = 4;

// A call whose state and store have the lengths that they should. The frame's length is cast, since no From leads from u32 to usize.
// State and store stay two, as C lends them; in a struct each would stand a reference further away.
fn feed_lent(
    state: &mut [u8; STATE_LEN],
    store: &mut [u8; MAX_SYSEX_LEN],
    bytes: &[u8],
) -> FedAnswer
    ensures { StreamFed (feed_call state.old store.old bytes.now) result state.old state.new store.old store.new }
{
    let front = numbers::four_at(state, 0);
    let above = numbers::four_at(state, 4);
    let middle = numbers::four_at(state, 8);
    let first = state[12];
    if !numbers::takes(front, above, middle, first) {
        return answer::refused();
    }
    outside::walk((front / 256) as usize, middle, first, state, store, bytes)
}

// Takes bytes until the first that reports. state and store are lent at every call as the last one left them. Refuses 20, and then uses and
// writes nothing.
pub fn feed(state: &mut [u8], store: &mut [u8], bytes: &[u8]) -> FedAnswer
    ensures { StreamFed (feed_call state.old store.old bytes.now) result state.old state.new store.old store.new }
{
    let Some(store) = store.first_chunk_mut() else {
        return answer::refused();
    };
    let Some(state) = state.as_mut_array() else {
        return answer::refused();
    };
    feed_lent(state, store, bytes)
}
