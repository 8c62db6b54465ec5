// Exports dm_held_fresh, dm_held_apply, dm_held_count and dm_held_first, the entry points of the held-key record.
ghost use Rattle.std.specs.Prelude.{◌≡◌};
ghost use Rattle.host_answer.specs.Answer.{answer_of, Sends};
ghost use Rattle.wire.specs.ChannelMessage.{channel_kind};
ghost use Rattle.host_held_keys.specs.Held.{fresh_write, HeldSent, count_in, first_in};

use host_answer::Answer;
use host_held_keys::HeldAnswer;

// Writes a record in which no key is held. Refuses 20 for any other length than HELD_LEN.
#[unsafe(no_mangle)]
pub extern "C" fn dm_held_fresh(keys: &mut [u8]) -> Answer
    ensures { Sends (fresh_write keys.old) result keys.old keys.new }
{
    host_held_keys::dm_held_fresh(keys)
}

// Applies a channel message. nibble: its status with 0 for the channel, 80 to E0. a: a bend's whole value, else the first data byte, in its low eight bits. b: the
// second data byte of a message other than a bend. Refuses 20 for the length, NO_RECORD for a nibble that no record names, 17; then nothing is changed.
#[unsafe(no_mangle)]
pub extern "C" fn dm_held_apply(keys: &mut [u8], nibble: u8, channel: u8, a: u16, b: u8) -> Answer
    ensures { HeldSent (channel_kind nibble a b) channel result keys.old keys.new }
{
    host_held_keys::dm_held_apply(keys, nibble, channel, a, b)
}

// How many keys are held on a channel. Refuses 20 for the length, 17.
#[unsafe(no_mangle)]
pub extern "C" fn dm_held_count(keys: &[u8], channel: u8) -> Answer
    ensures { result ≡ answer_of (count_in keys.now channel) }
{
    host_held_keys::dm_held_count(keys, channel)
}

// The held key on the lowest channel, and there the lowest key. Refuses 20 for the length.
#[unsafe(no_mangle)]
pub extern "C" fn dm_held_first(keys: &[u8]) -> HeldAnswer
    ensures { result ≡ first_in keys.now }
{
    host_held_keys::dm_held_first(keys)
}
