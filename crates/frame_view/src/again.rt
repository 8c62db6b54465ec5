// A frame read and written again: what the reader gives is handed to the writer, with the run where it lies in the caller's bytes.
ghost use Rattle.std.specs.Prelude.{length};
ghost use Rattle.refusal.specs.Outcome.{Writes};
ghost use Rattle.frame_view.specs.Again.{written_again};

use crate::frame::Frame;
use refusal::Refusal;

// Reads a frame and writes it again. Refuses as the reader does, then as the writer does.
pub fn write_again(bytes: &[u8], out: &mut [u8]) -> Result<usize, Refusal>
    ensures { Writes (written_again bytes.now (length out.old)) result out.old out.new }
{
    Frame::parse(bytes)?.encode_into(out)
}
