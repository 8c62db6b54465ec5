// A frame whose packed run lies in the caller's bytes: thin calls over the reader and the writer.
ghost use Rattle.std.specs.Prelude.{◌≡◌, length, IfOk};
ghost use Rattle.refusal.specs.Outcome.{Writes};
ghost use Rattle.frame_reader.specs.Reader.{parsed, RunLent};
ghost use Rattle.frame_writer.specs.Writer.{frame_write};
ghost use Rattle.frame_view.specs.View.{with_run, said, said_by};

use ids::DeviceId;
use message::Head;
use refusal::Refusal;

// Whom the frame is for, what it says, and its packed run where it lies.
#[derive(Clone, Copy)]
pub struct Frame<'a> {
    pub device: DeviceId,
    pub head: Head,
    pub run: &'a [u8],
}

impl<'a> Frame<'a> {
    // What the reader said and the run, as one frame.
    pub fn with_run(said: message::FrameHead, run: &'a [u8]) -> Frame<'a>
        ensures { result ≡ with_run said run.entry }
    {
        Frame {
            device: said.device,
            head: said.head,
            run,
        }
    }

    // Reads a frame, its run inside the bytes; empty where the frame has none. Refuses 1, 2, 3, 4, 5, 6, then by its
    // payload: 7, 8, 7 or 13 for the run, 12, 9, 11.
    pub fn parse(bytes: &'a [u8]) -> Result<Frame<'a>, Refusal>
        ensures says { said_by result ≡ parsed bytes.now }
        ensures run { IfOk result (λ frame. RunLent bytes.entry frame.run) }
    {
        let said = frame_reader::parse(bytes)?;
        Ok(Frame::with_run(said, frame_reader::run_of(bytes)))
    }

    // Writes the frame, with the run from where it lies. Refuses 5, 8, 12, 9, 10, 11, 22, 14, 2.
    pub fn encode_into(self, out: &mut [u8]) -> Result<usize, Refusal>
        ensures { Writes (frame_write (said self.entry) self.entry.run.now (length out.old)) result out.old out.new }
    {
        let said = message::FrameHead {
            device: self.device,
            head: self.head,
        };
        frame_writer::encode_into(said, self.run, out)
    }
}
