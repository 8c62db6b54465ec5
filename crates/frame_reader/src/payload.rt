// Reads the payload of a frame: which run lengths are accepted, and the fields ahead of the run. Two things are awkward. No byte says whether a
// pattern dump names its pattern: the payload's length alone tells. And in 0B and 0D both bytes ahead of the run must be there before the version is
// tested; in every other dump only the version itself.
ghost use Rattle.refusal.specs.Outcome.{answered};
ghost use Rattle.std.specs.Prelude.{◌≡◌, true, false, get_or, length};
ghost use Rattle.command.specs.Command.{code_of};
ghost use Rattle.refusal.specs.declared.Refusal.TheVariants as r;
ghost use Rattle.command.specs.Payload as y;
ghost use Rattle.command.specs.Payload.{carries_run};
ghost use Rattle.message.specs.Prefix.{field_fits, fields_at};
ghost use Rattle.frame_reader.specs.Payload.{accepted, numbered_by, early, read_short, read_dump, read_run, read_payload};

use command::{Command, PATTERN_RAW_LEN};
use ids::ProtocolVersion;
use message::Fields;
use refusal::{OfByte, Refusal};

// Does a run of so many bytes hold the raw bytes, and less than a group more?
pub fn holds(run_len: usize, raw_len: usize) -> bool
    ensures { result ≡ accepted raw_len run_len }
{
    match packed::unpacked_len(run_len) {
        Err(_) => false,
        Ok(held) => raw_len <= held && held - raw_len < packed::RAW_GROUP,
    }
}

// Does a pattern dump's payload of so many bytes name the pattern? Only where it cannot be read without a number.
pub fn is_numbered(found: usize) -> bool
    ensures { result ≡ numbered_by found }
{
    2 <= found && !holds(found - 1, PATTERN_RAW_LEN) && holds(found - 2, PATTERN_RAW_LEN)
}

// How many bytes must be there before the version is looked at.
fn early_len(command: Command) -> usize
    ensures { result ≡ early command }
{
    match command {
        Command::BankProgramNamesDumpResponse | Command::SingleProgramNameDumpResponse => 2,
        _ => 1,
    }
}

// A payload and the command that it stands behind.
#[derive(Clone, Copy)]
struct CommandPayload<'a> {
    command: Command,
    bytes: &'a [u8],
}

impl CommandPayload<'_> {
    // The fields at its front.
    fn fields(self, numbered: bool) -> Fields
        ensures { result ≡ fields_at self.entry.command numbered self.entry.bytes.now }
    {
        let bytes = [
            octets::byte_at(self.bytes, 0),
            octets::byte_at(self.bytes, 1),
            octets::byte_at(self.bytes, 2),
            octets::byte_at(self.bytes, 3),
            octets::byte_at(self.bytes, 4),
        ];
        message::prefix::fields_at(self.command, bytes, numbered)
    }

    // 7: it has another length than expected.
    fn wrong_length(self, expected: usize) -> Refusal
        ensures { result ≡ r.PayloadLength (code_of self.entry.command) expected (length self.entry.bytes.now) }
    {
        Refusal::PayloadLength {
            command: self.command.to_byte(),
            expected,
            found: self.bytes.len(),
        }
    }

    // Without a run: refusal 7 for the length, then those of the fields.
    fn read_short(self) -> Result<Fields, Refusal>
        requires { carries_run self.command ≡ false }
        ensures { answered result ≡ read_short self.entry.command self.entry.bytes.now }
    {
        let expected = self.command.table_row().prefix_len;
        if self.bytes.len() != expected {
            return Err(self.wrong_length(expected));
        }
        message::prefix::check_small(self.fields(false))
    }

    // Behind its version: refusal 7 for the rest of the prefix, 7 or 13 for the run's length, then those of the other fields.
    fn read_run(self, version: ProtocolVersion) -> Result<Fields, Refusal>
        requires { field_fits y.version (get_or self.bytes.now 0 0) ≡ true }
        ensures { answered result ≡ read_run self.entry.command version.0 self.entry.bytes.now }
    {
        let prefix = self.command.table_row().prefix_len;
        let found = self.bytes.len();
        if found < prefix {
            return Err(self.wrong_length(prefix));
        }
        let run_len = found - prefix;
        if self.command == Command::CalibrationDataDumpResponse {
            packed::unpacked_len(run_len)?;
            return message::prefix::check_small(self.fields(false));
        }
        let raw_len = command::raw_len(self.command, version);
        if holds(run_len, raw_len) {
            return message::prefix::check_small(self.fields(false));
        }
        if self.command == Command::UserPatternDumpResponse && is_numbered(found) {
            return message::prefix::check_small(self.fields(true));
        }
        let expected = prefix + packed::PACKED_GROUP * ((raw_len + 6) / packed::RAW_GROUP);
        Err(self.wrong_length(expected))
    }

    // With a run: refusal 7 where the version is missing, 8 for the version, then those of what stands behind it.
    fn read_dump(self) -> Result<Fields, Refusal>
        ensures { answered result ≡ read_dump self.entry.command self.entry.bytes.now }
    {
        if self.bytes.len() < early_len(self.command) {
            return Err(self.wrong_length(self.command.table_row().prefix_len));
        }
        let version = ProtocolVersion::from_byte(self.bytes[0])?;
        self.read_run(version)
    }
}

// A payload as its command describes it: a dump or a short one.
pub fn read_payload(command: Command, payload: &[u8]) -> Result<Fields, Refusal>
    ensures { answered result ≡ read_payload command payload.now }
{
    let of_command = CommandPayload {
        command,
        bytes: payload,
    };
    if command.carries_run() {
        of_command.read_dump()
    } else {
        of_command.read_short()
    }
}
