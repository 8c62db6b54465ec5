// Frames, identity requests and replies, and why a frame is refused.
use crate::{Line, put_labelled};
use command::Command;
use ids::{Bank, DeviceId, ProgramNumber};
use inquiry::identity::NON_REALTIME;
use inquiry::{Identity, Version};
use message::{FrameHead, Head};
use refusal::{OfByte, Refusal};
use text::refusals::word;

// What a frame says, as the frame reader and the inquiry's readers have it.
pub fn put_words(line: &mut Line, bytes: &[u8]) {
    if bytes.get(1) == Some(&NON_REALTIME) {
        return put_universal(line, bytes);
    }
    match frame_reader::parse(bytes) {
        Ok(frame) => put_frame(line, frame, frame_reader::run_of(bytes).len()),
        Err(e) => put_refused(line, e),
    }
}

// The number, the trade's word and the details.
fn put_refused(line: &mut Line, refusal: Refusal) {
    put_labelled(line, "refused: ", refusal.number());
    line.put_byte(b' ');
    line.put_str(word(refusal));
    for detail in refusal.details() {
        if let Some(value) = detail {
            put_labelled(line, " ", value);
        }
    }
}

fn put_device(line: &mut Line, device: DeviceId) {
    match device {
        DeviceId::Unit(unit) => put_labelled(line, "unit ", unit),
        DeviceId::Broadcast => line.put_str("everyone"),
    }
}

// The command, its version where it has one, the device, the fields, and how long the run is where there is one. A length is cast, since no From
// leads from usize to u64.
fn put_frame(line: &mut Line, frame: FrameHead, run_len: usize) {
    let head = frame.head;
    let version = head.version();
    line.put_str(command_name(head.command()));
    if let Some(version) = version {
        put_labelled(line, ", version ", version.to_byte());
    }
    line.put_str(", to ");
    put_device(line, frame.device);
    put_fields(line, head);
    if version.is_some() {
        put_labelled(line, ", ", run_len as u64);
        line.put_str(" packed bytes");
    }
}

fn command_name(command: Command) -> &'static str {
    match command {
        Command::ControlAppNotifyRequest => "control application request",
        Command::ProgramDumpRequest => "program dump request",
        Command::ProgramDumpResponse => "program dump",
        Command::EditBufferDumpRequest => "edit buffer dump request",
        Command::EditBufferDumpResponse => "edit buffer dump",
        Command::GlobalParameterDumpRequest => "global parameter dump request",
        Command::GlobalParameterDumpResponse => "global parameter dump",
        Command::SingleUserPatternDumpRequest => "user pattern dump request",
        Command::UserPatternDumpResponse => "user pattern dump",
        Command::ProgramBankDumpRequest => "program bank dump request",
        Command::BankProgramNamesDumpRequest => "bank names request",
        Command::BankProgramNamesDumpResponse => "bank names",
        Command::SingleProgramNameDumpRequest => "program name request",
        Command::SingleProgramNameDumpResponse => "program name",
        Command::EditBufferPatternDumpRequest => "edit buffer pattern dump request",
        Command::ControlAppNotifyResponse => "control application reply",
        Command::CalibrationDataDumpRequest => "calibration dump request",
        Command::CalibrationDataDumpResponse => "calibration dump",
        Command::ChordMemoryDumpRequest => "chord memory dump request",
        Command::ChordMemoryDumpResponse => "chord memory dump",
        Command::PolyChordMemoryDumpRequest => "poly chord memory dump request",
        Command::PolyChordMemoryDumpResponse => "poly chord memory dump",
    }
}

// A bank and a program of it, each behind a comma.
fn put_in_bank(line: &mut Line, bank: Bank, program: ProgramNumber) {
    put_labelled(line, ", bank ", bank.to_byte());
    put_labelled(line, ", program ", program.to_byte());
}

// A message's fields but for the version, each behind a comma.
fn put_fields(line: &mut Line, head: Head) {
    match head {
        Head::ControlAppNotifyRequest { reserved } => put_labelled(line, ", free byte ", reserved),
        Head::ProgramDumpRequest { bank, program }
        | Head::SingleProgramNameDumpRequest { bank, program }
        | Head::ProgramDumpResponse { bank, program, .. } => put_in_bank(line, bank, program),
        Head::ProgramBankDumpRequest { bank, first, last } => {
            put_in_bank(line, bank, first);
            put_labelled(line, " to ", last.to_byte());
        }
        Head::BankProgramNamesDumpRequest { bank }
        | Head::BankProgramNamesDumpResponse { bank, .. }
        | Head::SingleProgramNameDumpResponse { bank, .. } => {
            put_labelled(line, ", bank ", bank.to_byte());
        }
        Head::SingleUserPatternDumpRequest { pattern }
        | Head::UserPatternDumpResponse {
            pattern: Some(pattern),
            ..
        } => put_labelled(line, ", pattern ", pattern.to_byte()),
        Head::ControlAppNotifyResponse {
            rx_channel,
            tx_channel,
            interface,
            bank,
            program,
        } => {
            put_in_bank(line, bank, program);
            put_labelled(line, ", receives on ", rx_channel);
            put_labelled(line, ", sends on ", tx_channel);
            put_labelled(line, ", interface ", interface.to_byte());
        }
        _ => (),
    }
}

// A universal message: an identity request, or else it has to be a reply.
fn put_universal(line: &mut Line, bytes: &[u8]) {
    match inquiry::request::parse_request(bytes) {
        Ok(device) => {
            line.put_str("identity request to ");
            put_device(line, device);
        }
        Err(Refusal::NotAnInquiryRequest) => match inquiry::reply::parse_reply(bytes) {
            Ok(identity) => put_identity(line, identity),
            Err(e) => put_refused(line, e),
        },
        Err(e) => put_refused(line, e),
    }
}

fn put_identity(line: &mut Line, identity: Identity) {
    line.put_str("identity reply of ");
    put_device(line, identity.device);
    put_version(line, ", firmware ", identity.firmware);
    put_version(line, ", voices ", identity.voice);
}

// A version with a dot between its numbers.
fn put_version(line: &mut Line, label: &str, version: Version) {
    put_labelled(line, label, version.major);
    put_labelled(line, ".", version.minor);
}
