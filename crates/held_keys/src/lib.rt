// Which keys are held down on which channel.
#![tactic(auto)]

ghost use Rattle.std.specs.Prelude.{◌≡◌, ◌<◌};
ghost use Rattle.refusal.specs.Outcome.{answered};
ghost use Rattle.held_keys.specs.HeldKeys.{bit, effect_of, key_told, key_answer, count_on, first_held};
ghost use Rattle.held_keys.specs.Record.{no_keys, record_after};

pub mod bytes;

use refusal::{OfByte, Refusal};
use wire::{Channel, ChannelMessage};

// For each of 16 channels two words, a bit for each of 128 keys: key k is bit k % 64 of word k / 64.
pub type HeldKeys = [[u64; 2]; 16];

// What a message does to its key.
#[derive(Clone, Copy, Debug, PartialEq, Eq)]
pub enum Effect {
    Hold(u8),
    Release(u8),
    // what a message of every other kind does: an effect too, so no Option of the two
    Nothing,
}

// A record in which no key is held.
pub fn new() -> HeldKeys
    ensures { result ≡ no_keys }
{
    [[0; 2]; 16]
}

// A note on with velocity 1 to 127 holds its key; a note off, and a note on with velocity 0, release it. Seven bits of key and velocity count.
pub fn effect_of(message: ChannelMessage) -> Effect
    ensures { result ≡ effect_of message }
{
    match message {
        ChannelMessage::NoteOn { key, velocity } if velocity % 128 != 0 => Effect::Hold(key % 128),
        ChannelMessage::NoteOn { key, .. } | ChannelMessage::NoteOff { key, .. } => {
            Effect::Release(key % 128)
        }
        _ => Effect::Nothing,
    }
}

// Is a bit set?
fn bit_set(word: u64, at: usize) -> bool
    requires { at < 64 }
    ensures { result ≡ bit word at }
{
    (word >> at) & 1 == 1
}

// The record after a message on a channel that there is.
fn changed(mut keys: HeldKeys, at: usize, message: ChannelMessage) -> HeldKeys
    requires { at < 16 }
    ensures { result ≡ record_after keys at message }
{
    match effect_of(message) {
        Effect::Hold(key) => keys[at][usize::from(key / 64)] |= 1 << (key % 64),
        Effect::Release(key) => keys[at][usize::from(key / 64)] &= !(1 << (key % 64)),
        Effect::Nothing => {}
    }
    keys
}

// A message applied to the record where it lies. Refuses 17; then nothing is changed.
pub fn apply(keys: &mut HeldKeys, channel: Channel, message: ChannelMessage) -> Result<(), Refusal>
    ensures { (key_told result ≡ key_answer channel.0) × (keys.new ≡ record_after keys.old channel.0 message) }
{
    Channel::from_byte(channel.0)?;
    *keys = changed(*keys, usize::from(channel.0), message);
    Ok(())
}

// The record after a message on a channel; as it was for a channel of 16 or more.
pub fn applied(mut keys: HeldKeys, channel: Channel, message: ChannelMessage) -> HeldKeys
    ensures { result ≡ record_after keys channel.0 message }
{
    // A refusal changes nothing.
    let _ = apply(&mut keys, channel, message);
    keys
}

// How many keys are held on a channel: a cast, since no From leads from u32 to usize. Refuses 17.
pub fn count_held(keys: HeldKeys, channel: Channel) -> Result<usize, Refusal>
    ensures { answered result ≡ count_on keys channel.0 }
{
    match keys.get(usize::from(channel.0)) {
        Some([low, high]) => Ok((low.count_ones() + high.count_ones()) as usize),
        None => Err(Refusal::ChannelOutOfRange(channel.0)),
    }
}

// The held key on the lowest channel, and there the lowest key.
#[tactic(auto, using(crate::proofs::First::passed_key, crate::proofs::First::found_key, crate::proofs::First::found_none), unfolding(crate::specs::HeldKeys::is_held))]
pub fn first_held(keys: HeldKeys) -> Option<(usize, usize)>
    ensures { result ≡ first_held keys }
{
    let mut found = None;
    'channels: for channel in 0..16 {
        for key in 0..128 {
            if bit_set(keys[channel][key / 64], key % 64) {
                found = Some((channel, key));
                break 'channels;
            }
        }
    }
    found
}
