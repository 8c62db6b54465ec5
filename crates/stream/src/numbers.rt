// A state's bytes as three numbers of four bytes each and the data bytes, read once at the start of a call.
ghost use Rattle.std.specs.Prelude.{◌≡◌, ◌+◌, ◌*◌, ◌≤◌, ◌<◌, eqb};
ghost use Rattle.octets.specs.quick.Words.{put_word};
ghost use Rattle.wire.specs.Status.{data_length};
ghost use Rattle.decoder.specs.State.{limit};
ghost use Rattle.stream.specs.quick.Bytes.{four_at, held_number, status_in, put_middle, put_waiting, open_taken, waiting_taken, taken};

use crate::STATE_LEN;
use decoder::MAX_SYSEX_LEN;
use octets::words;

// One pending data byte in the third number.
pub const PENDING: u32 = 0x100_0000;

// Four bytes from a place on as a number, low byte first: one load. At 0 stand the frame flag and the length's low bytes; at 4 its high bytes, which
// are 0 in a state that a call takes; at 8 its highest byte, the status flag, the status, and how many data bytes are pending.
pub fn four_at(state: &[u8; STATE_LEN], at: usize) -> u32
    requires { at + 4 ≤ 14 }
    ensures { result ≡ four_at state.now at }
{
    let mut four = [0; 4];
    four.copy_from_slice(&state[at..at + 4]);
    u32::from_le_bytes(four)
}

// The number of a status with nothing pending.
pub fn held_number(status: u8) -> u32
    ensures { result ≡ held_number status }
{
    0x100 + 0x1_0000 * u32::from(status)
}

// The status in the number of what waits, 0 for none: a cast, since From does not narrow.
pub fn status_in(middle: u32) -> u8
    ensures { result ≡ status_in middle }
{
    (middle / 0x1_0000 % 256) as u8
}

// Stores the four bytes behind the first eight: one store.
pub fn put_middle(word: u32, state: &mut [u8; STATE_LEN])
    ensures { state.new ≡ put_middle word state.old }
{
    state[8..12].copy_from_slice(&word.to_le_bytes());
}

// What waits outside a frame, and the first data byte. The two stay two: they lie apart in the state.
pub fn put_waiting(word: u32, first: u8, state: &mut [u8; STATE_LEN])
    ensures { state.new ≡ put_waiting word first state.old }
{
    put_middle(word, state);
    state[12] = first;
}

// An open frame of so many bytes: a cast, since no From leads from usize to u64.
#[tactic(auto, using(decoder::proofs::Limit::limit_is))]
pub fn put_open(len: usize, state: &mut [u8; STATE_LEN])
    requires { len < 4_294_967_296 }
    ensures { state.new ≡ put_word (1 + 256 * len) state.old 0 }
{
    words::put_word(1 + 256 * len as u64, state, 0);
}

// No frame.
pub fn put_closed(state: &mut [u8; STATE_LEN])
    ensures { state.new ≡ put_word 0 state.old 0 }
{
    words::put_word(0, state, 0);
}

// Is this an open frame's first number, its length within the limit? A cast makes it usize, to which no From leads from u32.
#[tactic(auto, unfolding(decoder::specs::State::limit))]
fn takes_open(front: u32) -> bool
    ensures { result ≡ open_taken front }
{
    let len = (front / 256) as usize;
    front % 256 == 1 && 1 <= len && len <= MAX_SYSEX_LEN
}

// Does a status take one data byte? `wire::data_len(status) == 1` was tried, and is slower: 5.0 ns a byte of whole notes, where this takes 4.4.
#[tactic(auto, unfolding(wire::specs::Status::data_length))]
pub fn takes_one(status: u8) -> bool
    ensures { result ≡ eqb (data_length status) 1 }
{
    0xC0 <= status && (status < 0xE0 || status == 0xF1 || status == 0xF3)
}

// Is this what a status and what is pending under it leave in the third number? What waits and the first data byte stay two: they lie apart in the state.
fn takes_waiting(middle: u32, first: u8) -> bool
    ensures { result ≡ waiting_taken middle first }
{
    let takes = wire::data_len(status_in(middle));
    let have = middle / PENDING;
    middle % 0x1_0000 == 0x100
        && 0 < takes
        && (have == 0 || have == 1 && first <= 127 && takes == 2)
}

// Does a call take the state that these numbers say? What waits and the first data byte stay two: they lie apart in the state.
pub fn takes(front: u32, above: u32, middle: u32, first: u8) -> bool
    ensures { result ≡ taken front above middle first }
{
    above == 0
        && match (front, middle) {
            (0, 0) => true,
            (0, _) => takes_waiting(middle, first),
            (_, 0) => takes_open(front),
            _ => false,
        }
}
