// What an entry point answers in plain numbers: done with a value, refused with document 01's number and details, or no record.
#![tactic(auto)]

ghost use Rattle.std.specs.Prelude.{◌≡◌};
ghost use Rattle.refusal.specs.Outcome.{gives, and_then, answered, refusal};
ghost use Rattle.host_answer.specs.Answer.{answer_of, no_record};
ghost use Rattle.host_answer.specs.Device.{device_from, device_named, everyone_of, unit_of};

use ids::DeviceId;
use refusal::{OfByte, Refusal};

// What every call answers, in numbers for C. number: 0 where it is done, document 01's number where it is refused, and NO_RECORD where no record names
// what was asked. value: the number or count that was asked for, 0 unless it is done. details: those of the refusal, in the
// table's order, 0 behind the last.
#[repr(C)]
#[derive(Clone, Copy, Debug, PartialEq, Eq)]
pub struct Answer {
    pub number: u64,
    pub value: u64,
    pub detail0: u64,
    pub detail1: u64,
    pub detail2: u64,
    pub detail3: u64,
}

// The answer's number for a kind that no record names.
pub const NO_RECORD: u64 = 255;

// Done, with a value.
pub fn done(value: u64) -> Answer
    ensures { result ≡ answer_of (gives value) }
{
    Answer {
        number: 0,
        value,
        detail0: 0,
        detail1: 0,
        detail2: 0,
        detail3: 0,
    }
}

// No record names what was asked.
pub fn no_record() -> Answer
    ensures { result ≡ no_record }
{
    Answer {
        number: NO_RECORD,
        ..done(0)
    }
}

// A refusal, with its details.
impl From<Refusal> for Answer {
    ghost from_gives = { λ e answer. answer ≡ answer_of (refusal e) };

    fn from(e: Refusal) -> Answer {
        let [first, second, third, fourth] = e.details();
        Answer {
            number: u64::from(e.number()),
            value: 0,
            detail0: first.unwrap_or(0),
            detail1: second.unwrap_or(0),
            detail2: third.unwrap_or(0),
            detail3: fourth.unwrap_or(0),
        }
    }
}

// A count, or a refusal. The count is cast, since no From leads from usize to u64.
impl From<Result<usize, Refusal>> for Answer {
    ghost from_gives = { λ counted answer. answer ≡ answer_of (answered counted) };

    fn from(counted: Result<usize, Refusal>) -> Answer {
        match counted {
            Ok(n) => done(n as u64),
            Err(e) => Answer::from(e),
        }
    }
}

// The number that a byte is read as, or the refusal.
pub fn read_byte<T: OfByte>(byte: u8) -> Answer
    ensures { result ≡ answer_of (and_then (T.of_byte byte) (λ x. gives (T.byte_of x))) }
{
    match T::from_byte(byte) {
        Ok(read) => done(u64::from(read.to_byte())),
        Err(e) => Answer::from(e),
    }
}

// A device from its two numbers, everyone, 0 or 1, and the unit: they stay two because C has them so.
pub fn device_from(everyone: u8, unit: u8) -> DeviceId
    ensures { result ≡ device_from everyone unit }
{
    if everyone == 0 {
        return DeviceId::Unit(unit);
    }
    DeviceId::Broadcast
}

// The device that everyone and unit name, and none for everyone above 1, which no record has. C hands the two on as two numbers, so they stay apart.
pub fn device_named(everyone: u8, unit: u8) -> Option<DeviceId>
    ensures { result ≡ device_named everyone unit }
{
    if 1 < everyone {
        return None;
    }
    Some(device_from(everyone, unit))
}

// Whether a device is everyone, as a number.
pub fn everyone_of(device: DeviceId) -> u64
    ensures { result ≡ everyone_of device }
{
    match device {
        DeviceId::Unit(_) => 0,
        DeviceId::Broadcast => 1,
    }
}

// The unit of a device; 0 for everyone.
pub fn unit_of(device: DeviceId) -> u64
    ensures { result ≡ unit_of device }
{
    match device {
        DeviceId::Unit(unit) => u64::from(unit),
        DeviceId::Broadcast => 0,
    }
}
