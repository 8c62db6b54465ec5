// Room in a lent buffer, and bytes put to its front.
ghost use Rattle.std.specs.Prelude.{◌≡◌, [], ◌∷◌, leb, length};
ghost use Rattle.refusal.specs.Outcome.{answered, gives, unless, with_room, Writes};

use crate::Refusal;

// Refuses 14 where more bytes are needed than there are.
pub fn room(needed: usize, available: usize) -> Result<usize, Refusal>
    ensures { answered result ≡ unless (leb needed available) 14 (needed ∷ available ∷ []) (gives needed) }
{
    if needed <= available {
        Ok(needed)
    } else {
        Err(Refusal::BufferTooSmall { needed, available })
    }
}

// Puts bytes to the front of a buffer. Refuses 14.
pub fn put(bytes: &[u8], out: &mut [u8]) -> Result<usize, Refusal>
    ensures { Writes (with_room (length out.old) bytes.now) result out.old out.new }
{
    let len = room(bytes.len(), out.len())?;
    out[..len].copy_from_slice(bytes);
    Ok(len)
}
