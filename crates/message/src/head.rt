// The 22 messages, as records with the types of their fields.
ghost use Rattle.refusal.specs.Outcome.{answered};
ghost use Rattle.std.specs.Prelude.{◌≡◌};
ghost use Rattle.message.specs.Head.{pattern_at, command_of_head, fields_of, head_from, version_of_head, record_frame};

use crate::fields::{
    Fields, dump_fields, free_fields, notify_fields, pattern_fields, request_fields,
};
use crate::prefix::check;
use command::Command;
use ids::{Bank, DeviceId, Interface, PatternNumber, ProgramNumber, ProtocolVersion};
use refusal::{OfByte, Refusal};

// What a frame says, but for its packed run.
#[derive(Clone, Copy, Debug, PartialEq, Eq)]
pub enum Head {
    // 00: tells the synthesizer that a control application is there
    ControlAppNotifyRequest {
        reserved: u8,
    },
    // 01: asks for a stored program
    ProgramDumpRequest {
        bank: Bank,
        program: ProgramNumber,
    },
    // 02: a stored program
    ProgramDumpResponse {
        version: ProtocolVersion,
        bank: Bank,
        program: ProgramNumber,
    },
    // 03: asks for the edit buffer
    EditBufferDumpRequest,
    // 04: the edit buffer
    EditBufferDumpResponse {
        version: ProtocolVersion,
    },
    // 05: asks for the global settings
    GlobalParameterDumpRequest,
    // 06: the global settings
    GlobalParameterDumpResponse {
        version: ProtocolVersion,
    },
    // 07: asks for a user pattern
    SingleUserPatternDumpRequest {
        pattern: PatternNumber,
    },
    // 08: a user pattern with its number, or the one being edited
    UserPatternDumpResponse {
        version: ProtocolVersion,
        pattern: Option<PatternNumber>,
    },
    // 09: asks for the programs from first to last
    ProgramBankDumpRequest {
        bank: Bank,
        first: ProgramNumber,
        last: ProgramNumber,
    },
    // 0A: asks for the names in a bank
    BankProgramNamesDumpRequest {
        bank: Bank,
    },
    // 0B: the 128 names of a bank
    BankProgramNamesDumpResponse {
        version: ProtocolVersion,
        bank: Bank,
    },
    // 0C: asks for one name
    SingleProgramNameDumpRequest {
        bank: Bank,
        program: ProgramNumber,
    },
    // 0D: one name; it does not say which
    SingleProgramNameDumpResponse {
        version: ProtocolVersion,
        bank: Bank,
    },
    // 0E: asks for the pattern being edited
    EditBufferPatternDumpRequest,
    // 10: answers a control application
    ControlAppNotifyResponse {
        rx_channel: u8,
        tx_channel: u8,
        interface: Interface,
        bank: Bank,
        program: ProgramNumber,
    },
    // 11: asks for the calibration
    CalibrationDataDumpRequest,
    // 12: the calibration
    CalibrationDataDumpResponse {
        version: ProtocolVersion,
    },
    // 1B: asks for the chord memory
    ChordMemoryDumpRequest,
    // 1C: the chord memory
    ChordMemoryDumpResponse {
        version: ProtocolVersion,
    },
    // 1D: asks for the poly chord memory
    PolyChordMemoryDumpRequest,
    // 1E: the poly chord memory
    PolyChordMemoryDumpResponse {
        version: ProtocolVersion,
    },
}

// Whom a frame is for, and what it says.
#[derive(Clone, Copy, Debug, PartialEq, Eq)]
pub struct FrameHead {
    pub device: DeviceId,
    pub head: Head,
}

impl Head {
    // The command that the message goes under.
    pub fn command(self) -> Command
        ensures { result ≡ command_of_head self }
    {
        match self {
            Head::ControlAppNotifyRequest { .. } => Command::ControlAppNotifyRequest,
            Head::ProgramDumpRequest { .. } => Command::ProgramDumpRequest,
            Head::ProgramDumpResponse { .. } => Command::ProgramDumpResponse,
            Head::EditBufferDumpRequest => Command::EditBufferDumpRequest,
            Head::EditBufferDumpResponse { .. } => Command::EditBufferDumpResponse,
            Head::GlobalParameterDumpRequest => Command::GlobalParameterDumpRequest,
            Head::GlobalParameterDumpResponse { .. } => Command::GlobalParameterDumpResponse,
            Head::SingleUserPatternDumpRequest { .. } => Command::SingleUserPatternDumpRequest,
            Head::UserPatternDumpResponse { .. } => Command::UserPatternDumpResponse,
            Head::ProgramBankDumpRequest { .. } => Command::ProgramBankDumpRequest,
            Head::BankProgramNamesDumpRequest { .. } => Command::BankProgramNamesDumpRequest,
            Head::BankProgramNamesDumpResponse { .. } => Command::BankProgramNamesDumpResponse,
            Head::SingleProgramNameDumpRequest { .. } => Command::SingleProgramNameDumpRequest,
            Head::SingleProgramNameDumpResponse { .. } => Command::SingleProgramNameDumpResponse,
            Head::EditBufferPatternDumpRequest => Command::EditBufferPatternDumpRequest,
            Head::ControlAppNotifyResponse { .. } => Command::ControlAppNotifyResponse,
            Head::CalibrationDataDumpRequest => Command::CalibrationDataDumpRequest,
            Head::CalibrationDataDumpResponse { .. } => Command::CalibrationDataDumpResponse,
            Head::ChordMemoryDumpRequest => Command::ChordMemoryDumpRequest,
            Head::ChordMemoryDumpResponse { .. } => Command::ChordMemoryDumpResponse,
            Head::PolyChordMemoryDumpRequest => Command::PolyChordMemoryDumpRequest,
            Head::PolyChordMemoryDumpResponse { .. } => Command::PolyChordMemoryDumpResponse,
        }
    }

    // The message as plain numbers.
    pub fn to_fields(self) -> Fields
        ensures { result ≡ fields_of self }
    {
        match self {
            Head::ControlAppNotifyRequest { reserved } => free_fields(reserved),
            Head::ProgramDumpRequest { bank, program }
            | Head::SingleProgramNameDumpRequest { bank, program } => request_fields(
                bank.0, program.0, 0, 0,
            ),
            Head::SingleUserPatternDumpRequest { pattern } => request_fields(0, 0, 0, pattern.0),
            Head::ProgramBankDumpRequest { bank, first, last } => request_fields(
                bank.0, first.0, last.0, 0,
            ),
            Head::BankProgramNamesDumpRequest { bank } => request_fields(bank.0, 0, 0, 0),
            Head::EditBufferDumpRequest
            | Head::GlobalParameterDumpRequest
            | Head::EditBufferPatternDumpRequest
            | Head::CalibrationDataDumpRequest
            | Head::ChordMemoryDumpRequest
            | Head::PolyChordMemoryDumpRequest => request_fields(0, 0, 0, 0),
            Head::ProgramDumpResponse {
                version,
                bank,
                program,
            } => dump_fields(version.0, bank.0, program.0),
            Head::BankProgramNamesDumpResponse { version, bank }
            | Head::SingleProgramNameDumpResponse { version, bank } => dump_fields(
                version.0, bank.0, 0,
            ),
            Head::EditBufferDumpResponse { version }
            | Head::GlobalParameterDumpResponse { version }
            | Head::CalibrationDataDumpResponse { version }
            | Head::ChordMemoryDumpResponse { version }
            | Head::PolyChordMemoryDumpResponse { version } => dump_fields(version.0, 0, 0),
            Head::UserPatternDumpResponse {
                version,
                pattern: Some(number),
            } => pattern_fields(version.0, number.0, true),
            Head::UserPatternDumpResponse {
                version,
                pattern: None,
            } => pattern_fields(version.0, 0, false),
            Head::ControlAppNotifyResponse {
                rx_channel,
                tx_channel,
                interface,
                bank,
                program,
            } => notify_fields(
                rx_channel,
                tx_channel,
                interface.to_byte(),
                bank.0,
                program.0,
            ),
        }
    }

    // The message of a command and its fields, which were tested before; a field that the command lacks is passed over.
    // Command and fields stay two, since the two in one are a Head.
    pub fn from_tested(command: Command, fields: Fields) -> Head
        ensures { result ≡ head_from command fields }
    {
        match command {
            Command::ControlAppNotifyRequest => Head::ControlAppNotifyRequest {
                reserved: fields.free,
            },
            Command::ProgramDumpRequest => Head::ProgramDumpRequest {
                bank: Bank(fields.bank),
                program: ProgramNumber(fields.program),
            },
            Command::ProgramDumpResponse => Head::ProgramDumpResponse {
                version: ProtocolVersion(fields.version),
                bank: Bank(fields.bank),
                program: ProgramNumber(fields.program),
            },
            Command::EditBufferDumpRequest => Head::EditBufferDumpRequest,
            Command::EditBufferDumpResponse => Head::EditBufferDumpResponse {
                version: ProtocolVersion(fields.version),
            },
            Command::GlobalParameterDumpRequest => Head::GlobalParameterDumpRequest,
            Command::GlobalParameterDumpResponse => Head::GlobalParameterDumpResponse {
                version: ProtocolVersion(fields.version),
            },
            Command::SingleUserPatternDumpRequest => Head::SingleUserPatternDumpRequest {
                pattern: PatternNumber(fields.pattern),
            },
            Command::UserPatternDumpResponse => Head::UserPatternDumpResponse {
                version: ProtocolVersion(fields.version),
                pattern: tested_pattern(fields.has_pattern, fields.pattern),
            },
            Command::ProgramBankDumpRequest => Head::ProgramBankDumpRequest {
                bank: Bank(fields.bank),
                first: ProgramNumber(fields.program),
                last: ProgramNumber(fields.last),
            },
            Command::BankProgramNamesDumpRequest => Head::BankProgramNamesDumpRequest {
                bank: Bank(fields.bank),
            },
            Command::BankProgramNamesDumpResponse => Head::BankProgramNamesDumpResponse {
                version: ProtocolVersion(fields.version),
                bank: Bank(fields.bank),
            },
            Command::SingleProgramNameDumpRequest => Head::SingleProgramNameDumpRequest {
                bank: Bank(fields.bank),
                program: ProgramNumber(fields.program),
            },
            Command::SingleProgramNameDumpResponse => Head::SingleProgramNameDumpResponse {
                version: ProtocolVersion(fields.version),
                bank: Bank(fields.bank),
            },
            Command::EditBufferPatternDumpRequest => Head::EditBufferPatternDumpRequest,
            Command::ControlAppNotifyResponse => Head::ControlAppNotifyResponse {
                rx_channel: fields.rx,
                tx_channel: fields.tx,
                interface: Interface::from_tested(fields.interface),
                bank: Bank(fields.bank),
                program: ProgramNumber(fields.program),
            },
            Command::CalibrationDataDumpRequest => Head::CalibrationDataDumpRequest,
            Command::CalibrationDataDumpResponse => Head::CalibrationDataDumpResponse {
                version: ProtocolVersion(fields.version),
            },
            Command::ChordMemoryDumpRequest => Head::ChordMemoryDumpRequest,
            Command::ChordMemoryDumpResponse => Head::ChordMemoryDumpResponse {
                version: ProtocolVersion(fields.version),
            },
            Command::PolyChordMemoryDumpRequest => Head::PolyChordMemoryDumpRequest,
            Command::PolyChordMemoryDumpResponse => Head::PolyChordMemoryDumpResponse {
                version: ProtocolVersion(fields.version),
            },
        }
    }

    // The protocol version, for the messages that carry one.
    pub fn version(self) -> Option<ProtocolVersion>
        ensures { result ≡ version_of_head self }
    {
        self.command()
            .carries_run()
            .then_some(ProtocolVersion(self.to_fields().version))
    }
}

fn tested_pattern(has: bool, number: u8) -> Option<PatternNumber>
    ensures { result ≡ pattern_at has number }
{
    has.then_some(PatternNumber(number))
}

// The frame of plain numbers. Refuses 5, 6, then 8, 12, 9, 10, 11 in wire order.
pub fn from_record(device: DeviceId, command: u8, fields: Fields) -> Result<FrameHead, Refusal>
    ensures { answered result ≡ record_frame device command fields }
{
    framing::device_byte(device)?;
    let known = Command::from_byte(command)?;
    let own = check(known, fields)?;
    Ok(FrameHead {
        device,
        head: Head::from_tested(known, own),
    })
}
