// Copies of bytes, sixteen at a time. The library's copy of as many bytes as a slice has is a call of memmove, and this asks a host for none.
ghost use Rattle.std.specs.Prelude.{◌≡◌, ◌++◌, ◌*◌, ◌/◌, ◌≤◌, length, take, drop};

// Bytes in a chunk.
const CHUNK: usize = 16;

// Copies the whole chunks. By way of an array each is one load and one store; from slice to slice it would be tested whether the two overlap.
#[tactic(auto, using(crate::proofs::copies::Copies::chunk_copied))]
fn copy_chunks(from: &[u8], to: &mut [u8])
    requires { length from.now ≤ length to.old }
    ensures { to.new ≡ take (length from.now / 16 * 16) from.now ++ drop (length from.now / 16 * 16) to.old }
{
    for c in 0..from.len() / CHUNK {
        let at = c * CHUNK;
        let mut chunk = [0; CHUNK];
        chunk.copy_from_slice(&from[at..at + CHUNK]);
        to[at..at + CHUNK].copy_from_slice(&chunk);
    }
}

// Copies what stands behind the whole chunks, which are copied.
fn copy_rest(from: &[u8], to: &mut [u8])
    requires { (length from.now ≤ length to.old) × (take (length from.now / 16 * 16) to.old ≡ take (length from.now / 16 * 16) from.now) }
    ensures { to.new ≡ from.now ++ drop (length from.now) to.old }
{
    for i in from.len() / CHUNK * CHUNK..from.len() {
        to[i] = from[i];
    }
}

// Copies bytes to the front of a buffer that has the room. The two slices stay two: a struct would be made of them and taken apart again.
pub fn copy_into(from: &[u8], to: &mut [u8])
    requires { length from.now ≤ length to.old }
    ensures { to.new ≡ from.now ++ drop (length from.now) to.old }
{
    copy_chunks(from, to);
    copy_rest(from, to);
}
