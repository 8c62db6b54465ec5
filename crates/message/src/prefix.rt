// The payload bytes ahead of a run: to fields, from fields, and their ranges.
ghost use Rattle.std.specs.Prelude.{◌≡◌, length};
ghost use Rattle.refusal.specs.Outcome.{answered};
ghost use Rattle.message.specs.Prefix.{fields_at, prefix_of, checked_fields};
ghost use Rattle.message.specs.quick.Prefix.{Padded, small_checked};

use crate::fields::{
    Fields, dump_fields, free_fields, notify_fields, pattern_fields, request_fields,
};
use command::Command;
use ids::{Bank, Interface, PatternNumber, ProgramNumber, ProtocolVersion};
use refusal::{OfByte, Refusal};

// The most bytes that stand ahead of a run.
pub const PREFIX_MAX: usize = 5;

// The first len of these bytes are a payload's bytes ahead of its run; the rest are 0. (A length beside an array: memory is fixed.)
#[derive(Clone, Copy, Debug, PartialEq, Eq)]
pub struct Prefix {
    pub len: usize,
    pub bytes: [u8; PREFIX_MAX],
}

// The fields of a payload by the first five of its bytes, with a pattern's number or without.
pub fn fields_at(command: Command, bytes: [u8; PREFIX_MAX], numbered: bool) -> Fields
    ensures { result ≡ fields_at command numbered bytes }
{
    let [a, b, d, e, f] = bytes;
    match command {
        Command::ControlAppNotifyRequest => free_fields(a),
        Command::ProgramDumpRequest | Command::SingleProgramNameDumpRequest => request_fields(
            a, b, 0, 0,
        ),
        Command::SingleUserPatternDumpRequest => request_fields(0, 0, 0, a),
        Command::ProgramBankDumpRequest => request_fields(a, b, d, 0),
        Command::BankProgramNamesDumpRequest => request_fields(a, 0, 0, 0),
        Command::EditBufferDumpRequest
        | Command::GlobalParameterDumpRequest
        | Command::EditBufferPatternDumpRequest
        | Command::CalibrationDataDumpRequest
        | Command::ChordMemoryDumpRequest
        | Command::PolyChordMemoryDumpRequest => request_fields(0, 0, 0, 0),
        Command::ProgramDumpResponse => dump_fields(a, b, d),
        Command::BankProgramNamesDumpResponse | Command::SingleProgramNameDumpResponse =>
            dump_fields(a, b, 0),
        Command::EditBufferDumpResponse
        | Command::GlobalParameterDumpResponse
        | Command::CalibrationDataDumpResponse
        | Command::ChordMemoryDumpResponse
        | Command::PolyChordMemoryDumpResponse => dump_fields(a, 0, 0),
        Command::UserPatternDumpResponse => pattern_fields(a, b, numbered),
        Command::ControlAppNotifyResponse => notify_fields(a, b, d, e, f),
    }
}

fn padded(len: usize, bytes: [u8; PREFIX_MAX]) -> Prefix
    ensures { (result.len ≡ len) × (result.bytes ≡ bytes) }
{
    Prefix { len, bytes }
}

// The payload bytes ahead of the run, from the fields that the command has. Command and fields stay two, since the two in one are a Head.
pub fn prefix_of(command: Command, fields: Fields) -> Prefix
    ensures { Padded (prefix_of command fields) result.len result.bytes }
{
    let Fields {
        version,
        bank,
        program,
        pattern,
        ..
    } = fields;
    match command {
        Command::ControlAppNotifyRequest => padded(1, [fields.free, 0, 0, 0, 0]),
        Command::ProgramDumpRequest | Command::SingleProgramNameDumpRequest => padded(
            2,
            [bank, program, 0, 0, 0],
        ),
        Command::SingleUserPatternDumpRequest => padded(1, [pattern, 0, 0, 0, 0]),
        Command::ProgramBankDumpRequest => padded(3, [bank, program, fields.last, 0, 0]),
        Command::BankProgramNamesDumpRequest => padded(1, [bank, 0, 0, 0, 0]),
        Command::EditBufferDumpRequest
        | Command::GlobalParameterDumpRequest
        | Command::EditBufferPatternDumpRequest
        | Command::CalibrationDataDumpRequest
        | Command::ChordMemoryDumpRequest
        | Command::PolyChordMemoryDumpRequest => padded(0, [0, 0, 0, 0, 0]),
        Command::ProgramDumpResponse => padded(3, [version, bank, program, 0, 0]),
        Command::BankProgramNamesDumpResponse | Command::SingleProgramNameDumpResponse => padded(
            2,
            [version, bank, 0, 0, 0],
        ),
        Command::UserPatternDumpResponse if fields.has_pattern => padded(
            2,
            [version, pattern, 0, 0, 0],
        ),
        Command::UserPatternDumpResponse
        | Command::EditBufferDumpResponse
        | Command::GlobalParameterDumpResponse
        | Command::CalibrationDataDumpResponse
        | Command::ChordMemoryDumpResponse
        | Command::PolyChordMemoryDumpResponse => padded(1, [version, 0, 0, 0, 0]),
        Command::ControlAppNotifyResponse => padded(
            5,
            [fields.rx, fields.tx, fields.interface, bank, program],
        ),
    }
}

// Interface 12, bank 9, program and last program 10, pattern 11; a field that is lacking is 0 and passes.
pub fn check_small(fields: Fields) -> Result<Fields, Refusal>
    ensures { answered result ≡ small_checked fields }
{
    Interface::from_byte(fields.interface)?;
    Bank::from_byte(fields.bank)?;
    ProgramNumber::from_byte(fields.program)?;
    ProgramNumber::from_byte(fields.last)?;
    PatternNumber::from_byte(fields.pattern)?;
    Ok(fields)
}

// The fields that a command has, in wire order: the version first, 8, then the others. What the command lacks comes back as 0.
// Command and fields stay two, since the two in one are a Head.
pub fn check(command: Command, fields: Fields) -> Result<Fields, Refusal>
    ensures { answered result ≡ checked_fields command fields }
{
    let own = fields_at(
        command,
        prefix_of(command, fields).bytes,
        fields.has_pattern,
    );
    if command.carries_run() {
        ProtocolVersion::from_byte(own.version)?;
    }
    check_small(own)
}
