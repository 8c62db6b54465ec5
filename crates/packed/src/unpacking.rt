// Unpacks packed runs: the raw bytes again.
ghost use Rattle.std.specs.Prelude.{◌≡◌, ◌+◌, ◌*◌, ◌/◌, ◌%◌, ◌^◌, ◌≤◌, ◌<◌, length};
ghost use Rattle.laws.specs.Tabulate.{tab};
ghost use Rattle.laws.specs.Window.{window};
ghost use Rattle.refusal.specs.Outcome.{Writes};
ghost use Rattle.packed.specs.Packed.{raw_byte, unpacked_byte, unpack_write};

use crate::{PACKED_GROUP, RAW_GROUP};
use refusal::Refusal;

// A data byte's seven bits under bit i of the top bits.
fn top_bit_back(byte: u8, high: u8, i: usize) -> u8
    requires { i < 7 }
    ensures { result ≡ byte % 128 + 128 * (high / 2 ^ i % 2) }
{
    (byte & 0x7F) | (((high >> i) & 1) << 7)
}

// One group's first raw bytes, count of them, from the group at a place of run to a place of out.
fn unpack_group(run: &[u8], at: usize, count: usize, out: &mut [u8], to: usize)
    requires { (count ≤ 7) × (at + count < length run.now) × (to + count ≤ length out.old) }
    ensures { out.new ≡ window out.old to (tab (raw_byte run.now at) count) }
{
    let high = run[at];
    for i in 0..count {
        out[to + i] = top_bit_back(run[at + 1 + i], high, i);
    }
}

// Unpacks the whole groups of run to the front of out, which has the room.
fn unpack_groups(run: &[u8], whole: usize, out: &mut [u8])
    requires { (8 * whole ≤ length run.now) × (7 * whole ≤ length out.old) }
    ensures { out.new ≡ window out.old 0 (tab (unpacked_byte run.now) (7 * whole)) }
{
    for g in 0..whole {
        unpack_group(run, PACKED_GROUP * g, RAW_GROUP, out, RAW_GROUP * g);
    }
}

// Unpacks run into out and answers how many raw bytes it wrote. Refuses 13, then 14.
pub fn unpack_into(run: &[u8], out: &mut [u8]) -> Result<usize, Refusal>
    ensures { Writes (unpack_write run.now (length out.old)) result out.old out.new }
{
    let needed = crate::unpacked_len(run.len())?;
    refusal::room(needed, out.len())?;
    let whole = run.len() / PACKED_GROUP;
    unpack_groups(run, whole, out);
    if RAW_GROUP * whole < needed {
        unpack_group(
            run,
            PACKED_GROUP * whole,
            needed - RAW_GROUP * whole,
            out,
            RAW_GROUP * whole,
        );
    }
    Ok(needed)
}
