// The 22 commands of a frame, and the table of their payloads.
#![tactic(auto)]

ghost use Rattle.std.specs.Prelude.{◌≡◌};
ghost use Rattle.command.specs.Command.{code_of, commands, command_of};
ghost use Rattle.command.specs.Laws.{read_code};
ghost use Rattle.command.specs.Payload.{carries_run, direction_of, row_of, raw_length_for};

use ids::ProtocolVersion;
use refusal::{OfByte, Refusal};

// Which way a message travels.
#[derive(Clone, Copy, Debug, PartialEq, Eq)]
pub enum Direction {
    // from a host to the synthesizer
    ToDevice,
    // from the synthesizer to a host
    FromDevice,
}

#[derive(Clone, Copy, Debug, PartialEq, Eq)]
pub enum Command {
    // 00: tells the synthesizer that a control application is there
    ControlAppNotifyRequest,
    // 01: asks for a stored program
    ProgramDumpRequest,
    // 02: a stored program
    ProgramDumpResponse,
    // 03: asks for the edit buffer
    EditBufferDumpRequest,
    // 04: the edit buffer
    EditBufferDumpResponse,
    // 05: asks for the global settings
    GlobalParameterDumpRequest,
    // 06: the global settings
    GlobalParameterDumpResponse,
    // 07: asks for a user pattern
    SingleUserPatternDumpRequest,
    // 08: a user pattern, or the one being edited
    UserPatternDumpResponse,
    // 09: asks for a range of programs
    ProgramBankDumpRequest,
    // 0A: asks for the names in a bank
    BankProgramNamesDumpRequest,
    // 0B: the 128 names of a bank
    BankProgramNamesDumpResponse,
    // 0C: asks for one name
    SingleProgramNameDumpRequest,
    // 0D: one name
    SingleProgramNameDumpResponse,
    // 0E: asks for the pattern being edited
    EditBufferPatternDumpRequest,
    // 10: answers a control application
    ControlAppNotifyResponse,
    // 11: asks for the calibration
    CalibrationDataDumpRequest,
    // 12: the calibration
    CalibrationDataDumpResponse,
    // 1B: asks for the chord memory
    ChordMemoryDumpRequest,
    // 1C: the chord memory
    ChordMemoryDumpResponse,
    // 1D: asks for the poly chord memory
    PolyChordMemoryDumpRequest,
    // 1E: the poly chord memory
    PolyChordMemoryDumpResponse,
}

// A command's code, how many payload bytes stand ahead of its packed run (all of them where it has none), and how many raw bytes the
// run holds: 0 where the version decides, where any number may stand, and where there is no run. A pattern's number is not counted.
// A raw length of 0 has three meanings, since the paper asks for a table of three numbers.
#[derive(Clone, Copy, Debug, PartialEq, Eq)]
pub struct Row {
    pub code: u8,
    pub prefix_len: usize,
    pub raw_len: usize,
}

// The raw bytes of a pattern, which the reader also tells a pattern's number by.
pub const PATTERN_RAW_LEN: usize = 65;

// Rows that look alike stay written out: they are data, the paper's table.
pub static COMMANDS: [Row; 22] = [
    Row {
        code: 0x00,
        prefix_len: 1,
        raw_len: 0,
    },
    Row {
        code: 0x01,
        prefix_len: 2,
        raw_len: 0,
    },
    Row {
        code: 0x02,
        prefix_len: 3,
        raw_len: 0,
    },
    Row {
        code: 0x03,
        prefix_len: 0,
        raw_len: 0,
    },
    Row {
        code: 0x04,
        prefix_len: 1,
        raw_len: 0,
    },
    Row {
        code: 0x05,
        prefix_len: 0,
        raw_len: 0,
    },
    Row {
        code: 0x06,
        prefix_len: 1,
        raw_len: 45,
    },
    Row {
        code: 0x07,
        prefix_len: 1,
        raw_len: 0,
    },
    Row {
        code: 0x08,
        prefix_len: 1,
        raw_len: PATTERN_RAW_LEN,
    },
    Row {
        code: 0x09,
        prefix_len: 3,
        raw_len: 0,
    },
    Row {
        code: 0x0A,
        prefix_len: 1,
        raw_len: 0,
    },
    Row {
        code: 0x0B,
        prefix_len: 2,
        raw_len: 2048,
    },
    Row {
        code: 0x0C,
        prefix_len: 2,
        raw_len: 0,
    },
    Row {
        code: 0x0D,
        prefix_len: 2,
        raw_len: 16,
    },
    Row {
        code: 0x0E,
        prefix_len: 0,
        raw_len: 0,
    },
    Row {
        code: 0x10,
        prefix_len: 5,
        raw_len: 0,
    },
    Row {
        code: 0x11,
        prefix_len: 0,
        raw_len: 0,
    },
    Row {
        code: 0x12,
        prefix_len: 1,
        raw_len: 0,
    },
    Row {
        code: 0x1B,
        prefix_len: 0,
        raw_len: 0,
    },
    Row {
        code: 0x1C,
        prefix_len: 1,
        raw_len: 26,
    },
    Row {
        code: 0x1D,
        prefix_len: 0,
        raw_len: 0,
    },
    Row {
        code: 0x1E,
        prefix_len: 1,
        raw_len: 512,
    },
];

impl Command {
    // Every command, by rising code.
    pub const ALL: [Command; 22] = [
        Command::ControlAppNotifyRequest,
        Command::ProgramDumpRequest,
        Command::ProgramDumpResponse,
        Command::EditBufferDumpRequest,
        Command::EditBufferDumpResponse,
        Command::GlobalParameterDumpRequest,
        Command::GlobalParameterDumpResponse,
        Command::SingleUserPatternDumpRequest,
        Command::UserPatternDumpResponse,
        Command::ProgramBankDumpRequest,
        Command::BankProgramNamesDumpRequest,
        Command::BankProgramNamesDumpResponse,
        Command::SingleProgramNameDumpRequest,
        Command::SingleProgramNameDumpResponse,
        Command::EditBufferPatternDumpRequest,
        Command::ControlAppNotifyResponse,
        Command::CalibrationDataDumpRequest,
        Command::CalibrationDataDumpResponse,
        Command::ChordMemoryDumpRequest,
        Command::ChordMemoryDumpResponse,
        Command::PolyChordMemoryDumpRequest,
        Command::PolyChordMemoryDumpResponse,
    ];

    // The dumps and the answer to a control application come from the synthesizer.
    pub fn direction(self) -> Direction
        ensures { result ≡ direction_of self }
    {
        if self.carries_run() || self == Command::ControlAppNotifyResponse {
            Direction::FromDevice
        } else {
            Direction::ToDevice
        }
    }

    // Does a message of this command end with a packed run?
    pub fn carries_run(self) -> bool
        ensures { result ≡ carries_run self }
    {
        match self {
            Command::ProgramDumpResponse
            | Command::EditBufferDumpResponse
            | Command::GlobalParameterDumpResponse
            | Command::UserPatternDumpResponse
            | Command::BankProgramNamesDumpResponse
            | Command::SingleProgramNameDumpResponse
            | Command::CalibrationDataDumpResponse
            | Command::ChordMemoryDumpResponse
            | Command::PolyChordMemoryDumpResponse => true,
            _ => false,
        }
    }

    // The command's row of the table, at its own number, which a cast alone tells.
    pub fn table_row(self) -> Row
        ensures { result ≡ row_of self }
    {
        COMMANDS[self as usize]
    }
}

impl OfByte for Command {
    ghost of_byte = { command_of };

    ghost byte_of = { code_of };

    // Refuses 6 with the byte. A match beside the table, since a row of COMMANDS tells no command, and a search would compare up to 22 codes.
    fn from_byte(byte: u8) -> Result<Command, Refusal> {
        match byte {
            0x00 => Ok(Command::ControlAppNotifyRequest),
            0x01 => Ok(Command::ProgramDumpRequest),
            0x02 => Ok(Command::ProgramDumpResponse),
            0x03 => Ok(Command::EditBufferDumpRequest),
            0x04 => Ok(Command::EditBufferDumpResponse),
            0x05 => Ok(Command::GlobalParameterDumpRequest),
            0x06 => Ok(Command::GlobalParameterDumpResponse),
            0x07 => Ok(Command::SingleUserPatternDumpRequest),
            0x08 => Ok(Command::UserPatternDumpResponse),
            0x09 => Ok(Command::ProgramBankDumpRequest),
            0x0A => Ok(Command::BankProgramNamesDumpRequest),
            0x0B => Ok(Command::BankProgramNamesDumpResponse),
            0x0C => Ok(Command::SingleProgramNameDumpRequest),
            0x0D => Ok(Command::SingleProgramNameDumpResponse),
            0x0E => Ok(Command::EditBufferPatternDumpRequest),
            0x10 => Ok(Command::ControlAppNotifyResponse),
            0x11 => Ok(Command::CalibrationDataDumpRequest),
            0x12 => Ok(Command::CalibrationDataDumpResponse),
            0x1B => Ok(Command::ChordMemoryDumpRequest),
            0x1C => Ok(Command::ChordMemoryDumpResponse),
            0x1D => Ok(Command::PolyChordMemoryDumpRequest),
            0x1E => Ok(Command::PolyChordMemoryDumpResponse),
            _ => Err(Refusal::UnknownCommand(byte)),
        }
    }

    fn to_byte(self) -> u8 {
        self.table_row().code
    }

    ghost same_byte = { λ b x. read_code commands b x };
}

// How many raw bytes a dump of this command and version names: the version decides for programs, the table for the others.
pub fn raw_len(command: Command, version: ProtocolVersion) -> usize
    ensures { result ≡ raw_length_for command version.0 }
{
    match command {
        Command::ProgramDumpResponse | Command::EditBufferDumpResponse =>
            version.program_data_len(),
        _ => command.table_row().raw_len,
    }
}
