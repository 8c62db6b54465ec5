// Exports dm_packed_len, dm_unpacked_len, dm_pack and dm_unpack, the entry points of packed runs.
ghost use Rattle.std.specs.Prelude.{◌≡◌, length};
ghost use Rattle.packed.specs.Packed.{packed_length_of, unpacked_length_of, pack_write, unpack_write};
ghost use Rattle.host_answer.specs.Answer.{answer_of, Sends};

use host_answer::Answer;

// How many bytes so many raw bytes take. Refuses 22.
#[unsafe(no_mangle)]
pub extern "C" fn dm_packed_len(n: usize) -> Answer
    ensures { result ≡ answer_of (packed_length_of n) }
{
    host_packed::dm_packed_len(n)
}

// How many raw bytes a run of so many bytes holds. Refuses 13.
#[unsafe(no_mangle)]
pub extern "C" fn dm_unpacked_len(n: usize) -> Answer
    ensures { result ≡ answer_of (unpacked_length_of n) }
{
    host_packed::dm_unpacked_len(n)
}

// Packs raw into out, the last group filled with 00. Refuses 22, 14.
#[unsafe(no_mangle)]
pub extern "C" fn dm_pack(raw: &[u8], out: &mut [u8]) -> Answer
    ensures { Sends (pack_write raw.now (length out.old)) result out.old out.new }
{
    host_packed::dm_pack(raw, out)
}

// Unpacks run into out; top bits of its data bytes are not looked at. Refuses 13, 14.
#[unsafe(no_mangle)]
pub extern "C" fn dm_unpack(run: &[u8], out: &mut [u8]) -> Answer
    ensures { Sends (unpack_write run.now (length out.old)) result out.old out.new }
{
    host_packed::dm_unpack(run, out)
}
