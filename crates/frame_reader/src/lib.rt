// Reads a frame, F0 to F7: whom it is for, what it says, and where its packed run lies.
#![tactic(auto)]

ghost use Rattle.refusal.specs.Outcome.{answered};
ghost use Rattle.std.specs.Prelude.{◌≡◌, ◌+◌, ◌-◌, ◌≤◌, length};
ghost use Rattle.laws.specs.Choice.{pick};
ghost use Rattle.command.specs.Payload.{carries_run};
ghost use Rattle.message.specs.Prefix.{field_list};
ghost use Rattle.frame_reader.specs.Reader.{read_header, read_record, read_located, place_in, parsed, RunLent};

pub mod payload;

use command::Command;
use ids::DeviceId;
use message::{Fields, FrameHead, Head};
use refusal::{OfByte, Refusal};

// What a frame says as plain fields; its run lies beside it, in the caller's bytes.
#[derive(Clone, Copy, Debug, PartialEq, Eq)]
pub struct Record {
    pub device: DeviceId,
    pub command: Command,
    pub fields: Fields,
}

// Where a packed run lies in the caller's bytes; both 0 where there is none, as the C interface has it.
#[derive(Clone, Copy, Debug, PartialEq, Eq)]
pub struct Place {
    pub start: usize,
    pub len: usize,
}

// A frame that was read, and where its run lies.
#[derive(Clone, Copy, Debug, PartialEq, Eq)]
pub struct Located {
    pub frame: Record,
    pub run: Place,
}

// What is tested behind framing and high bytes: refusal 3 for the length, 4 for maker and model, 5 for the device, 6 for the command, then the payload's.
#[tactic(auto, using(crate::proofs::Parts::payload_part))]
fn read_header(bytes: &[u8]) -> Result<Record, Refusal>
    ensures { answered result ≡ read_header bytes.now }
{
    let len = bytes.len();
    if len < 8 {
        return Err(Refusal::ShortFrame(len));
    }
    let ours = framing::MAKER_AND_MODEL;
    if !framing::same_bytes(&bytes[1..5], &ours) {
        return Err(Refusal::Foreign {
            maker0: bytes[1],
            maker1: bytes[2],
            maker2: bytes[3],
            model: bytes[4],
        });
    }
    let device = DeviceId::from_byte(bytes[5])?;
    let command = Command::from_byte(bytes[6])?;
    let fields = crate::payload::read_payload(command, &bytes[7..len - 1])?;
    Ok(Record {
        device,
        command,
        fields,
    })
}

// The frame as plain fields. Refuses 1, 2, 3, 4, 5, 6, then by its payload: 7, 8, 7 or 13 for the run, 12, 9, 11.
#[tactic(auto, using(crate::proofs::Parts::body_part), unfolding(crate::specs::Reader::read_record))]
pub fn read_record(bytes: &[u8]) -> Result<Record, Refusal>
    ensures { answered result ≡ read_record bytes.now }
{
    if !framing::is_framed(bytes) {
        return Err(Refusal::Unframed);
    }
    match framing::first_high(&bytes[1..bytes.len() - 1]) {
        Some(byte) => Err(Refusal::NotSevenBit(byte)),
        None => read_header(bytes),
    }
}

// The frame's device and message.
pub fn parse(bytes: &[u8]) -> Result<FrameHead, Refusal>
    ensures { answered result ≡ parsed bytes.now }
{
    let Record {
        device,
        command,
        fields,
    } = read_record(bytes)?;
    Ok(FrameHead {
        device,
        head: Head::from_tested(command, fields),
    })
}

// Where the run of an accepted frame of so many bytes lies: behind the header's seven bytes and the prefix, up to the closing F7.
fn locate_run(frame: Record, len: usize) -> Place
    requires { 8 + length (field_list frame.command frame.fields.has_pattern) ≤ len }
    ensures { (result.start ≡ place_in frame) × (result.len ≡ pick (carries_run frame.command) (len - 1 - place_in frame) 0) }
{
    if !frame.command.carries_run() {
        return Place { start: 0, len: 0 };
    }
    let start = 7 + message::prefix::prefix_of(frame.command, frame.fields).len;
    Place {
        start,
        len: len - 1 - start,
    }
}

// The frame as plain fields, and where its run lies. Refuses 1, 2, 3, 4, 5, 6, then by its payload: 7, 8, 7 or 13 for the run, 12, 9, 11.
#[tactic(auto, using(crate::proofs::RunPlace::prefix_fits))]
pub fn read_located(bytes: &[u8]) -> Result<Located, Refusal>
    ensures { answered result ≡ read_located bytes.now }
{
    let frame = read_record(bytes)?;
    let run = locate_run(frame, bytes.len());
    Ok(Located { frame, run })
}

// The frame's packed run, where it lies; empty for a frame that is refused or has none.
pub fn run_of(bytes: &[u8]) -> &[u8]
    ensures { RunLent bytes.entry result }
{
    match read_located(bytes) {
        Err(_) => &bytes[0..0],
        Ok(read) => &bytes[read.run.start..read.run.start + read.run.len],
    }
}
