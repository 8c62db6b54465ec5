// The held keys as HELD_LEN bytes that the caller keeps: 16 bytes for each channel, and key k of channel c is bit k % 8 of byte 16 * c + k / 8.
// Every content of so many bytes is a record.
ghost use Rattle.std.specs.Prelude.{◌≡◌};
ghost use Rattle.held_keys.specs.HeldBytes.{keys_of, bytes_of_keys};

use crate::HeldKeys;
use octets::words::{put_word, word_at};

pub const HELD_LEN: usize = 256;

// The record that the bytes say.
#[tactic(auto, using(crate::proofs::bytes::Filled::channel_stored, crate::proofs::bytes::Filled::channels_all))]
pub fn keys_of(bytes: &[u8; HELD_LEN]) -> HeldKeys
    ensures { result ≡ keys_of bytes.now }
{
    let mut keys = [[0; 2]; 16];
    for channel in 0..16 {
        keys[channel] = [
            word_at(bytes, 16 * channel),
            word_at(bytes, 16 * channel + 8),
        ];
    }
    keys
}

// Writes a record's bytes.
#[tactic(auto, using(crate::proofs::bytes::Filled::word_filled))]
pub fn put_keys(keys: HeldKeys, bytes: &mut [u8; HELD_LEN])
    ensures { bytes.new ≡ bytes_of_keys keys }
{
    for i in 0..32 {
        put_word(keys[i / 2][i % 2], bytes, 8 * i);
    }
}
