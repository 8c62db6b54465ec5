// Writes a frame, F0 to F7, from a message or from plain fields, beside the caller's packed run.
#![tactic(auto)]

ghost use Rattle.std.specs.Prelude.{◌≡◌, ◌++◌, ◌+◌, ◌≤◌, length, drop};
ghost use Rattle.laws.specs.Choice.{pick};
ghost use Rattle.ids.specs.Device.{device_byte};
ghost use Rattle.command.specs.Command.{code_of};
ghost use Rattle.framing.specs.Framing.{first_high};
ghost use Rattle.command.specs.Payload.{carries_run};
ghost use Rattle.refusal.specs.Outcome.{Writes, answered};
ghost use Rattle.frame_writer.specs.Writer.{length_for, head_length, header, row, frame_write, record_write, fields_write, seven_bit_write};

use command::Command;
use ids::DeviceId;
use message::{Fields, FrameHead, Head};
use refusal::{OfByte, Refusal};

// Bytes ahead of the payload, and with the closing F7.
pub const HEADER_LEN: usize = 7;

pub const OVERHEAD_LEN: usize = 8;

// How many bytes of a run are written: none where the command has no run.
fn own_len(command: Command, run_len: usize) -> usize
    ensures { result ≡ pick (carries_run command) run_len 0 }
{
    if command.carries_run() { run_len } else { 0 }
}

// The length of a frame with so many bytes ahead of a run of so many; 22 where that is more than a usize holds.
fn frame_len(command: Command, prefix_len: usize, run_len: usize) -> Result<usize, Refusal>
    requires { prefix_len ≤ 5 }
    ensures { answered result ≡ length_for command prefix_len run_len }
{
    let fixed = OVERHEAD_LEN + prefix_len;
    fixed
        .checked_add(own_len(command, run_len))
        .ok_or(Refusal::LengthOverflow)
}

// How many bytes a message takes beside a run of so many bytes; it looks at no field. Refuses 22.
pub fn encoded_len(head: Head, run_len: usize) -> Result<usize, Refusal>
    ensures { answered result ≡ head_length head run_len }
{
    let command = head.command();
    let prefix = message::prefix::prefix_of(command, head.to_fields());
    frame_len(command, prefix.len, run_len)
}

// F0, the maker, the model, the device and the command.
fn put_header(device: u8, code: u8, out: &mut [u8])
    requires { 7 ≤ length out.old }
    ensures { out.new ≡ header device code ++ drop 7 out.old }
{
    let ours = framing::MAKER_AND_MODEL;
    let header = [
        framing::SYSEX_START,
        ours[0],
        ours[1],
        ours[2],
        ours[3],
        device,
        code,
    ];
    octets::copies::copy_into(&header, out);
}

// A frame whose fields were tested: whom it is for, its command, and its payload as prefix and run.
#[derive(Clone, Copy)]
struct Parts<'a> {
    device: DeviceId,
    command: Command,
    prefix: &'a [u8],
    run: &'a [u8],
}

impl Parts<'_> {
    // Puts the whole frame to the front of a buffer that has the room.
    fn put(self, out: &mut [u8])
        requires { 8 + (length self.prefix.now + length self.run.now) ≤ length out.old }
        ensures { out.new ≡ row (device_byte self.entry.device) (code_of self.entry.command) self.entry.prefix.now self.entry.run.now ++ drop (8 + (length self.entry.prefix.now + length self.entry.run.now)) out.old }
    {
        put_header(self.device.to_byte(), self.command.to_byte(), out);
        octets::copies::copy_into(self.prefix, &mut out[7..]);
        let at = 7 + self.prefix.len();
        octets::copies::copy_into(self.run, &mut out[at..]);
        let end = at + self.run.len();
        out[end] = framing::SYSEX_END;
    }

    // The first byte of 80 or above in prefix and run.
    #[tactic(auto, using(framing::proofs::Bytes::high_first, framing::proofs::Bytes::high_append))]
    fn first_high(self) -> Option<u8>
        ensures { result ≡ first_high (self.entry.prefix.now ++ self.entry.run.now) }
    {
        framing::first_high(self.prefix).or_else(|| framing::first_high(self.run))
    }

    // Into a buffer that has the room: 2, or the frame's bytes.
    #[tactic(auto, using(crate::proofs::Answers::seven_refused, crate::proofs::Answers::seven_written))]
    fn put_seven_bit(self, out: &mut [u8]) -> Result<usize, Refusal>
        requires { 8 + (length self.prefix.now + length self.run.now) ≤ length out.old }
        ensures { Writes (seven_bit_write self.entry.device self.entry.command self.entry.prefix.now self.entry.run.now) result out.old out.new }
    {
        match self.first_high() {
            Some(byte) => Err(Refusal::NotSevenBit(byte)),
            None => {
                self.put(out);
                Ok(OVERHEAD_LEN + self.prefix.len() + self.run.len())
            }
        }
    }
}

// Behind device and command: fields 8, 12, 9, 10, 11 in wire order, length 22, room 14, then 2.
// Command and fields stay two, since the two in one are a Head.
fn write_fields(
    device: DeviceId,
    command: Command,
    fields: Fields,
    run: &[u8],
    out: &mut [u8],
) -> Result<usize, Refusal>
    ensures { Writes (fields_write device command fields run.now (length out.old)) result out.old out.new }
{
    message::prefix::check(command, fields)?;
    let prefix = message::prefix::prefix_of(command, fields);
    let needed = frame_len(command, prefix.len, run.len())?;
    refusal::room(needed, out.len())?;
    let own = own_len(command, run.len());
    let parts = Parts {
        device,
        command,
        prefix: &prefix.bytes[..prefix.len],
        run: &run[..own],
    };
    parts.put_seven_bit(out)
}

// Writes a message beside its run. Refuses 5, then 8, 12, 9, 10, 11 in wire order, 22, 14, 2; it looks at no run length.
pub fn encode_into(frame: FrameHead, run: &[u8], out: &mut [u8]) -> Result<usize, Refusal>
    ensures { Writes (frame_write frame run.now (length out.old)) result out.old out.new }
{
    framing::device_byte(frame.device)?;
    write_fields(
        frame.device,
        frame.head.command(),
        frame.head.to_fields(),
        run,
        out,
    )
}

// Writes plain fields beside a run. Refuses 5, 6, then 8, 12, 9, 10, 11 in wire order, 22, 14, 2.
pub fn write_record(
    device: DeviceId,
    command: u8,
    fields: Fields,
    run: &[u8],
    out: &mut [u8],
) -> Result<usize, Refusal>
    ensures { Writes (record_write device command fields run.now (length out.old)) result out.old out.new }
{
    framing::device_byte(device)?;
    let known = Command::from_byte(command)?;
    write_fields(device, known, fields, run, out)
}
