// A call in an open frame: runs of data bytes are moved to the store whole, and the byte behind a run is looked at alone.
ghost use Rattle.std.specs.Prelude.{◌≡◌, ◌≤◌, ◌<◌, length, drop};
ghost use Rattle.octets.specs.quick.Data.{data_run};
ghost use Rattle.decoder.specs.State.{limit};
ghost use Rattle.decoder.specs.Call.{walk, further};
ghost use Rattle.stream.specs.quick.Bytes.{open_state};
ghost use Rattle.stream.specs.quick.Going.{Numbered, Answers, MiddleFree, Copied, RunMoved};

use crate::{FedAnswer, STATE_LEN, answer, numbers};
use decoder::MAX_SYSEX_LEN;
use octets::words::{TOPS, WORD, put_word, word_at};

// Copies data bytes to the front of a buffer by whole words, until a word has another byte. Answers how many.
// `data_run` and then one copy was tried, and is slower for runs below 50 bytes: 6.8 ns for 10 bytes, where this takes 4.9.
// The two slices stay two: a struct would be made of them and taken apart again.
fn moved_words(from: &[u8], to: &mut [u8]) -> usize
    requires { length from.now ≤ length to.old }
    ensures { Copied result from.now to.old to.new }
{
    let words = from.len() / WORD;
    for w in 0..words {
        let at = w * WORD;
        let word = word_at(from, at);
        if word & TOPS != 0 {
            return at;
        }
        put_word(word, to, at);
    }
    words * WORD
}

// Copies the data bytes ahead of the first other byte to the front of a buffer. Answers how many. The two slices stay two: a struct would be made of them and taken apart again.
#[tactic(auto, using(octets::proofs::data_bytes::Runs::run_ends, octets::proofs::data_bytes::Runs::run_no_longer))]
fn moved_run(from: &[u8], to: &mut [u8]) -> usize
    requires { length from.now ≤ length to.old }
    ensures { Copied result from.now to.old to.new × (result ≡ data_run from.now) }
{
    for i in moved_words(from, to)..from.len() {
        let byte = from[i];
        if 0x80 <= byte {
            return i;
        }
        to[i] = byte;
    }
    from.len()
}

// Moves the data bytes behind the used ones to the store, as far as they go and the frame has room. Answers how many.
#[tactic(auto, using(decoder::proofs::Limit::limit_is))]
fn moved(at: usize, used: usize, store: &mut [u8; MAX_SYSEX_LEN], bytes: &[u8]) -> usize
    requires { (at ≤ limit) × (used ≤ length bytes.now) }
    ensures { RunMoved at used result store.old store.new bytes.now }
{
    let most = (MAX_SYSEX_LEN - at).min(bytes.len() - used);
    moved_run(&bytes[used..used + most], &mut store[at..])
}

// A byte below F8 behind a run, in a frame of so many bytes. A status byte 80 to F6 breaks the frame off: 18, then what it does itself. F7 ends it,
// within the limit; a data byte has no room left. State and store stay two, as C lends them; in a struct each would stand a reference further away.
#[tactic(auto, using(decoder::proofs::Limit::limit_is))]
fn ends(
    byte: u8,
    at: usize,
    used: usize,
    state: &mut [u8; STATE_LEN],
    store: &mut [u8; MAX_SYSEX_LEN],
) -> FedAnswer
    requires { MiddleFree state.old × (at ≤ limit) × (byte < 0xF8) × (byte < 0x80 → limit ≤ at) }
    ensures { Answers (open_state at state.old) store.old byte used result state.new store.new }
{
    if byte == 0xF0 {
        store[0] = byte;
        numbers::put_open(1, state);
        return answer::interrupted(used);
    }
    numbers::put_closed(state);
    match byte {
        0xF7 if at < MAX_SYSEX_LEN => {
            store[at] = byte;
            answer::frame(at + 1, used)
        }
        0x80..0xF4 => {
            numbers::put_middle(numbers::held_number(byte), state);
            answer::interrupted(used)
        }
        0xF4..0xF6 => answer::interrupted(used),
        0xF6 => answer::interrupted_by_tune(used),
        _ => answer::frame_too_long(used),
    }
}

// The rest of a call, behind the bytes used so far, in an open frame of so many bytes. The index is counted by hand, since a run is moved at once.
// State and store stay two, as C lends them; in a struct each would stand a reference further away.
#[tactic(auto, using(decoder::proofs::Limit::limit_is))]
pub fn read(
    start: usize,
    from: usize,
    state: &mut [u8; STATE_LEN],
    store: &mut [u8; MAX_SYSEX_LEN],
    bytes: &[u8],
) -> FedAnswer
    requires { MiddleFree state.old × (start ≤ limit) × (from ≤ length bytes.now) }
    ensures { Numbered (further from (walk (open_state start state.old) store.old (drop from bytes.now))) result state.new store.new }
{
    let mut at = start;
    let mut used = from;
    loop {
        let run = moved(at, used, store, bytes);
        at += run;
        used += run;
        if used == bytes.len() {
            numbers::put_open(at, state);
            return answer::quiet(used);
        }
        let byte = bytes[used];
        used += 1;
        if byte < 0xF8 {
            return ends(byte, at, used, state, store);
        }
        if answer::is_realtime(byte) {
            numbers::put_open(at, state);
            return answer::realtime(byte, used);
        }
    }
}
