// The C entry points of frames: read, measured and written.
#![tactic(auto)]

ghost use Rattle.frame_reader.specs.Reader.{read_record};
ghost use Rattle.host_answer.specs.Answer.{answer_of, no_record};
ghost use Rattle.host_frames.specs.Frames.{frame_numbers, read_answer};
ghost use Rattle.host_frames.specs.Sent.{fields_from, length_asked, pattern_flag_fits, FrameSent};
ghost use Rattle.laws.specs.Choice.{pick};
ghost use Rattle.refusal.specs.Outcome.{answered, and_then, refusal};
ghost use Rattle.command.specs.Command.{command_of};
ghost use Rattle.message.specs.Head.{head_from};
ghost use Rattle.frame_writer.specs.Writer.{head_length};
ghost use Rattle.std.specs.Prelude.{[], ◌≡◌};

use command::Command;
use frame_reader::{Located, Record};
use host_answer::Answer;
use message::{Fields, Head};
use refusal::{OfByte, Refusal};

// What a frame says, in numbers for C. number: 0 where it is read, else document 01's number with its details, and 0 behind them. everyone: 1 for device byte 7F, and
// then unit is 0. What the command lacks is 0. run_start, run_len: where the packed run lies in the caller's bytes; both 0 where the command has none.
#[repr(C)]
#[derive(Clone, Copy, Debug, Default, PartialEq, Eq)]
pub struct ReadAnswer {
    pub number: u64,
    pub detail0: u64,
    pub detail1: u64,
    pub detail2: u64,
    pub detail3: u64,
    pub everyone: u64,
    pub unit: u64,
    pub command: u64,
    pub free: u64,
    pub version: u64,
    pub bank: u64,
    pub program: u64,
    pub last: u64,
    pub pattern: u64,
    pub has_pattern: u64,
    pub interface: u64,
    pub rx: u64,
    pub tx: u64,
    pub run_start: u64,
    pub run_len: u64,
}

// A frame that was read. The run's two are cast, since no From leads from usize to u64.
impl From<Located> for ReadAnswer {
    ghost from_gives = { λ read answer. answer ≡ frame_numbers read.frame.device read.frame.command read.frame.fields read.run.start read.run.len };

    fn from(read: Located) -> ReadAnswer {
        let Located { frame, run } = read;
        let Record {
            device,
            command,
            fields,
        } = frame;
        ReadAnswer {
            number: 0,
            detail0: 0,
            detail1: 0,
            detail2: 0,
            detail3: 0,
            everyone: host_answer::everyone_of(device),
            unit: host_answer::unit_of(device),
            command: u64::from(command.to_byte()),
            free: u64::from(fields.free),
            version: u64::from(fields.version),
            bank: u64::from(fields.bank),
            program: u64::from(fields.program),
            last: u64::from(fields.last),
            pattern: u64::from(fields.pattern),
            has_pattern: u64::from(fields.has_pattern),
            interface: u64::from(fields.interface),
            rx: u64::from(fields.rx),
            tx: u64::from(fields.tx),
            run_start: run.start as u64,
            run_len: run.len as u64,
        }
    }
}

// A frame that was refused, with the refusal's details.
impl From<Refusal> for ReadAnswer {
    ghost from_gives = { λ e answer. answer ≡ read_answer (refusal e) [] };

    fn from(e: Refusal) -> ReadAnswer {
        let why = Answer::from(e);
        ReadAnswer {
            number: why.number,
            detail0: why.detail0,
            detail1: why.detail1,
            detail2: why.detail2,
            detail3: why.detail3,
            ..ReadAnswer::default()
        }
    }
}

// Reads a frame, F0 to F7. Refuses 1, 2, 3, 4, 5, 6, then by its payload: 7, 8, 7 or 13 for the run, 12, 9, 11.
// Behind 2 no program byte is out of range.
pub fn dm_frame_read(bytes: &[u8]) -> ReadAnswer
    ensures { result ≡ read_answer (read_record bytes.now) bytes.now }
{
    match frame_reader::read_located(bytes) {
        Ok(read) => ReadAnswer::from(read),
        Err(e) => ReadAnswer::from(e),
    }
}

// Whether has_pattern can be written for this command: 08 takes 0 or 1; other commands lack the field, so that any value does.
fn pattern_flag_fits(command: u8, has_pattern: u8) -> bool
    ensures { result ≡ pattern_flag_fits command has_pattern }
{
    has_pattern <= 1 || command != Command::UserPatternDumpResponse.to_byte()
}

// The length of a message of this command. Refuses 6, 22.
fn measured(command: u8, fields: Fields, run_len: usize) -> Result<usize, Refusal>
    ensures { answered result ≡ and_then (command_of command) (λ k. head_length (head_from k fields) run_len) }
{
    let known = Command::from_byte(command)?;
    frame_writer::encoded_len(Head::from_tested(known, fields), run_len)
}

// How many bytes a message of this command takes beside a run of so many; has_pattern says whether a pattern dump names its pattern, and is looked
// at for command 08 alone. It looks at no other field. NO_RECORD, ahead of every refusal, for command 08 with has_pattern above 1; then refuses 6, 22.
#[tactic(auto, using(crate::proofs::Named::measured_is_asked))]
pub fn dm_frame_len(command: u8, has_pattern: u8, run_len: usize) -> Answer
    ensures { result ≡ pick (pattern_flag_fits command has_pattern) (answer_of (length_asked command has_pattern run_len)) no_record }
{
    if !pattern_flag_fits(command, has_pattern) {
        return host_answer::no_record();
    }
    let fields = Fields {
        has_pattern: has_pattern == 1,
        ..Fields::BLANK
    };
    Answer::from(measured(command, fields, run_len))
}

// Writes a frame. NO_RECORD, ahead of every refusal, for everyone above 1 and for command 08 with has_pattern above 1, which no other command
// looks at; then refuses 5, 6, the fields that the command has in wire order (8, 12, 9, 10, 11), 22, 14, 2. It looks at no run length.
pub fn dm_frame_write(
    everyone: u8,
    unit: u8,
    command: u8,
    free: u8,
    version: u8,
    bank: u8,
    program: u8,
    last: u8,
    pattern: u8,
    has_pattern: u8,
    interface: u8,
    rx: u8,
    tx: u8,
    run: &[u8],
    out: &mut [u8],
) -> Answer
    ensures { FrameSent everyone unit command has_pattern (fields_from free version bank program last pattern has_pattern interface rx tx) run.now result out.old out.new }
{
    let Some(device) = host_answer::device_named(everyone, unit) else {
        return host_answer::no_record();
    };
    if !pattern_flag_fits(command, has_pattern) {
        return host_answer::no_record();
    }
    let fields = Fields {
        free,
        version,
        bank,
        program,
        last,
        pattern,
        has_pattern: has_pattern == 1,
        interface,
        rx,
        tx,
    };
    Answer::from(frame_writer::write_record(device, command, fields, run, out))
}
