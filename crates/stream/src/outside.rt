// A call outside a frame. The status in force and what is pending are one number, as the state has them in its bytes 8 to 11.
ghost use Rattle.std.specs.Prelude.{◌≡◌, false, ◌<◌, get_or};
ghost use Rattle.decoder.specs.Step.{message_report, completed};
ghost use Rattle.decoder.specs.Call.{walk};
ghost use Rattle.stream.specs.State.{state_of, encoded};
ghost use Rattle.stream.specs.Reports.{numbers_of};
ghost use Rattle.stream.specs.quick.Bytes.{status_in};
ghost use Rattle.stream.specs.quick.Going.{Numbered, Under, FrontFree, Ready};

use crate::numbers::PENDING;
use crate::{FedAnswer, STATE_LEN, answer, frame, numbers};
use decoder::MAX_SYSEX_LEN;
use octets::data_bytes::data_run;

// The only data byte of a message, under the status that this number says. A channel status stays in force, F1 and F3 do not.
fn ends_one(held: u32, only: u8, used: usize, state: &mut [u8; STATE_LEN]) -> FedAnswer
    requires { FrontFree state.old × Under held 1 × (only < 0x80) }
    ensures { (result ≡ numbers_of used false (message_report (status_in held) only 0)) × (state.new ≡ encoded (completed (status_in held) only (get_or state.old 13 0))) }
{
    let status = numbers::status_in(held);
    if status < 0xF0 {
        numbers::put_waiting(held, only, state);
        return answer::channel(status, u64::from(only), 0, used);
    }
    numbers::put_waiting(0, only, state);
    answer::system_common(status, u64::from(only), used)
}

// The second data byte of a message: the two of a bend and of a position are one number. F2 does not stay in force.
fn ends_two(held: u32, first: u8, second: u8, used: usize, state: &mut [u8; STATE_LEN]) -> FedAnswer
    requires { FrontFree state.old × Under held 2 × (first < 0x80) × (second < 0x80) }
    ensures { (result ≡ numbers_of used false (message_report (status_in held) first second)) × (state.new ≡ encoded (completed (status_in held) first second)) }
{
    let status = numbers::status_in(held);
    state[13] = second;
    if status < 0xC0 {
        numbers::put_waiting(held, first, state);
        return answer::channel(status, u64::from(first), u64::from(second), used);
    }
    let value = u64::from(wire::bend(first, second));
    if status < 0xF0 {
        numbers::put_waiting(held, first, state);
        return answer::channel(status, value, 0, used);
    }
    numbers::put_waiting(0, first, state);
    answer::system_common(status, value, used)
}

// A call on a state that it takes: in an open frame of so many bytes, or outside one (0) with what waits there and the first data byte. The two
// are numbers as the state's bytes have them; a type for each would be made and taken apart at every call. F0 goes over to
// the frame. The index is counted by hand, because a run of data bytes and the two of a message are taken at once. One match for all bytes was tried,
// and is slower: it tests single values ahead of ranges, and notes under one running status take 1.15 of the original's time.
// State and store stay two, as C lends them; in a struct each would stand a reference further away.
pub fn walk(
    mut at: usize,
    mut middle: u32,
    mut first: u8,
    state: &mut [u8; STATE_LEN],
    store: &mut [u8; MAX_SYSEX_LEN],
    bytes: &[u8],
) -> FedAnswer
    requires { Ready at middle first state.old }
    ensures { Numbered (walk (state_of state.old) store.old bytes.now) result state.new store.new }
{
    let mut i = 0;
    while at == 0 {
        if i == bytes.len() {
            numbers::put_waiting(middle, first, state);
            return answer::quiet(i);
        }
        let byte = bytes[i];
        i += 1;
        if byte < 0x80 {
            if middle == 0 {
                i += data_run(&bytes[i..]);
            } else if PENDING <= middle {
                return ends_two(middle - PENDING, first, byte, i, state);
            } else if numbers::takes_one(numbers::status_in(middle)) {
                return ends_one(middle, byte, i, state);
            } else if i < bytes.len() && bytes[i] < 0x80 {
                return ends_two(middle, byte, bytes[i], i + 1, state);
            } else {
                first = byte;
                middle += PENDING;
            }
        } else if byte < 0xF0 {
            middle = numbers::held_number(byte);
        } else if answer::is_realtime(byte) {
            numbers::put_waiting(middle, first, state);
            return answer::realtime(byte, i);
        } else {
            match byte {
                0xF0 => {
                    store[0] = byte;
                    numbers::put_waiting(0, first, state);
                    at = 1;
                }
                0xF1..0xF4 => middle = numbers::held_number(byte),
                0xF6 => {
                    numbers::put_waiting(0, first, state);
                    return answer::tune(i);
                }
                0xF4..0xF8 => middle = 0,
                _ => {}
            }
        }
    }
    frame::read(at, i, state, store, bytes)
}
