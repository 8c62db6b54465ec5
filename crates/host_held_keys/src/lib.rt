// The C entry points of the held keys. The record crosses as HELD_LEN bytes that the caller keeps; every content of them is a record.
#![tactic(auto)]

ghost use Rattle.std.specs.Prelude.{◌≡◌};
ghost use Rattle.host_answer.specs.Answer.{answer_of, Sends};
ghost use Rattle.wire.specs.ChannelMessage.{channel_kind};
ghost use Rattle.host_held_keys.specs.Held.{fresh_write, HeldSent, count_in, first_in};

use held_keys::bytes::HELD_LEN;
use host_answer::Answer;
use refusal::Refusal;
use wire::{Channel, ChannelMessage};

// The first held key, in numbers for C. number: 0, or 20. found: 1 where a key is held, and then its channel and key.
#[repr(C)]
#[derive(Clone, Copy, Debug, Default, PartialEq, Eq)]
pub struct HeldAnswer {
    pub number: u64,
    pub found: u64,
    pub channel: u64,
    pub key: u64,
}

// Writes a record in which no key is held. Refuses 20 for any other length than HELD_LEN.
pub fn dm_held_fresh(keys: &mut [u8]) -> Answer
    ensures { Sends (fresh_write keys.old) result keys.old keys.new }
{
    let Some(bytes) = keys.as_mut_array::<HELD_LEN>() else {
        return Answer::from(Refusal::BadStore);
    };
    held_keys::bytes::put_keys(held_keys::new(), bytes);
    Answer::from(Ok(HELD_LEN))
}

// Applies a channel message. nibble: its status with 0 for the channel, 80 to E0. a: a bend's whole value, else the first data byte, in its low eight bits. b: the
// second data byte of a message other than a bend. Refuses 20 for the length, NO_RECORD for a nibble that no record names, 17; then nothing is changed.
pub fn dm_held_apply(keys: &mut [u8], nibble: u8, channel: u8, a: u16, b: u8) -> Answer
    ensures { HeldSent (channel_kind nibble a b) channel result keys.old keys.new }
{
    let Some(bytes) = keys.as_mut_array::<HELD_LEN>() else {
        return Answer::from(Refusal::BadStore);
    };
    let Some(message) = ChannelMessage::from_nibble(nibble, a, b) else {
        return host_answer::no_record();
    };
    let mut record = held_keys::bytes::keys_of(bytes);
    match held_keys::apply(&mut record, Channel(channel), message) {
        Err(e) => Answer::from(e),
        Ok(()) => {
            held_keys::bytes::put_keys(record, bytes);
            host_answer::done(0)
        }
    }
}

// How many keys are held on a channel. Refuses 20 for the length, 17.
pub fn dm_held_count(keys: &[u8], channel: u8) -> Answer
    ensures { result ≡ answer_of (count_in keys.now channel) }
{
    let Some(bytes) = keys.as_array::<HELD_LEN>() else {
        return Answer::from(Refusal::BadStore);
    };
    Answer::from(held_keys::count_held(held_keys::bytes::keys_of(bytes), Channel(channel)))
}

// The held key on the lowest channel, and there the lowest key. Refuses 20 for the length. The two are cast, since no From leads from usize to u64.
pub fn dm_held_first(keys: &[u8]) -> HeldAnswer
    ensures { result ≡ first_in keys.now }
{
    let Some(bytes) = keys.as_array::<HELD_LEN>() else {
        return HeldAnswer {
            number: Answer::from(Refusal::BadStore).number,
            ..HeldAnswer::default()
        };
    };
    match held_keys::first_held(held_keys::bytes::keys_of(bytes)) {
        Some((channel, key)) => HeldAnswer {
            number: 0,
            found: 1,
            channel: channel as u64,
            key: key as u64,
        },
        None => HeldAnswer::default(),
    }
}
