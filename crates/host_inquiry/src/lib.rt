// The C entry points of the device inquiry.
#![tactic(auto)]

ghost use Rattle.std.specs.Prelude.{◌≡◌, leb, length};
ghost use Rattle.host_answer.specs.Answer.{SendsIf};
ghost use Rattle.refusal.specs.Outcome.{gives, refusal};
ghost use Rattle.inquiry.specs.Request.{read_request};
ghost use Rattle.inquiry.specs.Reply.{read_reply, reply_write};
ghost use Rattle.host_inquiry.specs.Identity.{request_answer, reply_answer, identity_from, RequestSent};

use host_answer::Answer;
use ids::DeviceId;
use inquiry::{Identity, Version};
use refusal::Refusal;

// What a request tells, in numbers for C. number: 0 where it is read, else document 01's number with its detail, and 0 behind them. everyone: 1 where it asks every
// unit, and then unit is 0.
#[repr(C)]
#[derive(Clone, Copy, Debug, Default, PartialEq, Eq)]
pub struct RequestAnswer {
    pub number: u64,
    pub detail0: u64,
    pub everyone: u64,
    pub unit: u64,
}

// What a reply tells, in numbers for C. number: 0 for one that was read, and for a refusal document 01's, its detail next to it and 0 in all the rest. everyone: 1
// for device byte 7F, and then unit is 0. major, minor: the firmware's version. voice_major, voice_minor: the two voice bytes.
#[repr(C)]
#[derive(Clone, Copy, Debug, Default, PartialEq, Eq)]
pub struct ReplyAnswer {
    pub number: u64,
    pub detail0: u64,
    pub everyone: u64,
    pub unit: u64,
    pub major: u64,
    pub minor: u64,
    pub voice_major: u64,
    pub voice_minor: u64,
}

// A request that was read: the device that it asks.
impl From<DeviceId> for RequestAnswer {
    ghost from_gives = { λ asked answer. answer ≡ request_answer (gives asked) };

    fn from(asked: DeviceId) -> RequestAnswer {
        RequestAnswer {
            number: 0,
            detail0: 0,
            everyone: host_answer::everyone_of(asked),
            unit: host_answer::unit_of(asked),
        }
    }
}

// A request that was refused, with the refusal's detail.
impl From<Refusal> for RequestAnswer {
    ghost from_gives = { λ e answer. answer ≡ request_answer (refusal e) };

    fn from(e: Refusal) -> RequestAnswer {
        let why = Answer::from(e);
        RequestAnswer {
            number: why.number,
            detail0: why.detail0,
            ..RequestAnswer::default()
        }
    }
}

// A reply that was read: the identity that it tells.
impl From<Identity> for ReplyAnswer {
    ghost from_gives = { λ identity answer. answer ≡ reply_answer (gives identity) };

    fn from(identity: Identity) -> ReplyAnswer {
        ReplyAnswer {
            number: 0,
            detail0: 0,
            everyone: host_answer::everyone_of(identity.device),
            unit: host_answer::unit_of(identity.device),
            major: u64::from(identity.firmware.major),
            minor: u64::from(identity.firmware.minor),
            voice_major: u64::from(identity.voice.major),
            voice_minor: u64::from(identity.voice.minor),
        }
    }
}

// A reply that was refused, with the refusal's detail.
impl From<Refusal> for ReplyAnswer {
    ghost from_gives = { λ e answer. answer ≡ reply_answer (refusal e) };

    fn from(e: Refusal) -> ReplyAnswer {
        let why = Answer::from(e);
        ReplyAnswer {
            number: why.number,
            detail0: why.detail0,
            ..ReplyAnswer::default()
        }
    }
}

// Reads an identity request: which device it asks. Refuses 1, 15, 5.
pub fn dm_request_read(bytes: &[u8]) -> RequestAnswer
    ensures { result ≡ request_answer (read_request bytes.now) }
{
    match inquiry::request::parse_request(bytes) {
        Ok(asked) => RequestAnswer::from(asked),
        Err(e) => RequestAnswer::from(e),
    }
}

// Reads an identity reply: which device tells it, and its versions. Refuses 1, 16, 5.
pub fn dm_reply_read(bytes: &[u8]) -> ReplyAnswer
    ensures { result ≡ reply_answer (read_reply bytes.now) }
{
    match inquiry::reply::parse_reply(bytes) {
        Ok(identity) => ReplyAnswer::from(identity),
        Err(e) => ReplyAnswer::from(e),
    }
}

// Writes a request. NO_RECORD for everyone above 1; then refuses 5, 14.
pub fn dm_request_write(everyone: u8, unit: u8, out: &mut [u8]) -> Answer
    ensures { RequestSent everyone unit result out.old out.new }
{
    let Some(device) = host_answer::device_named(everyone, unit) else {
        return host_answer::no_record();
    };
    Answer::from(inquiry::request::request_into(device, out))
}

// Writes a reply. NO_RECORD for everyone above 1; then refuses 5, 14.
pub fn dm_reply_write(
    everyone: u8,
    unit: u8,
    major: u8,
    minor: u8,
    voice_major: u8,
    voice_minor: u8,
    out: &mut [u8],
) -> Answer
    ensures { SendsIf (leb everyone 1) (reply_write (identity_from everyone unit major minor voice_major voice_minor) (length out.old)) result out.old out.new }
{
    let Some(device) = host_answer::device_named(everyone, unit) else {
        return host_answer::no_record();
    };
    let identity = Identity {
        device,
        firmware: Version { major, minor },
        voice: Version {
            major: voice_major,
            minor: voice_minor,
        },
    };
    Answer::from(inquiry::reply::reply_into(identity, out))
}
