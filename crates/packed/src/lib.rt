// Eight-bit data in seven-bit bytes, seven raw bytes in eight on the wire: how long each is.
// What is awkward: a last group that is not full may be sent padded or cut short, and a padded run does not say how many raw bytes were meant. We
// write padded runs and read both; who reads a dump knows its raw length from the command and the version.
#![tactic(auto)]

ghost use Rattle.std.specs.Prelude.{◌≡◌};
ghost use Rattle.refusal.specs.Outcome.{answered};
ghost use Rattle.packed.specs.Packed.{packed_length_of, unpacked_length_of};

pub mod packing;
pub mod unpacking;

use refusal::Refusal;

// Raw bytes in a group, and the bytes that it takes on the wire.
pub const RAW_GROUP: usize = 7;

pub const PACKED_GROUP: usize = 8;

// How many bytes pack_into writes for so many raw bytes; 22 where that is more than a usize holds.
pub fn packed_len(raw_len: usize) -> Result<usize, Refusal>
    ensures { answered result ≡ packed_length_of raw_len }
{
    raw_len
        .div_ceil(RAW_GROUP)
        .checked_mul(PACKED_GROUP)
        .ok_or(Refusal::LengthOverflow)
}

// How many raw bytes a packed run of so many bytes holds; 13 where its last group has no data byte.
pub fn unpacked_len(packed_len: usize) -> Result<usize, Refusal>
    ensures { answered result ≡ unpacked_length_of packed_len }
{
    let whole = packed_len / PACKED_GROUP;
    let rest = packed_len % PACKED_GROUP;
    if rest == 1 {
        return Err(Refusal::PackedRunLength(packed_len));
    }
    Ok(RAW_GROUP * whole + rest.saturating_sub(1))
}
