// The universal device inquiry's reply.
ghost use Rattle.std.specs.Prelude.{◌≡◌, length};
ghost use Rattle.refusal.specs.Outcome.{answered, Writes};
ghost use Rattle.inquiry.specs.Reply.{read_reply, reply_write};

use crate::identity::{Identity, NON_REALTIME, Version};
use framing::MAKER_AND_MODEL;
use refusal::Refusal;

pub const REPLY_LEN: usize = 17;

// What stands behind the device, ahead of the versions.
const SHAPE: [u8; 9] = [
    0x06,
    0x02,
    MAKER_AND_MODEL[0],
    MAKER_AND_MODEL[1],
    MAKER_AND_MODEL[2],
    MAKER_AND_MODEL[3],
    0x00,
    0x01,
    0x00,
];

// The identity that a reply tells; voice bytes of 80 and above pass. Refuses 1, 16, 5.
#[tactic(auto, using(crate::proofs::Replies::device_first))]
pub fn parse_reply(bytes: &[u8]) -> Result<Identity, Refusal>
    ensures { answered result ≡ read_reply bytes.now }
{
    let device = crate::device_in(bytes, REPLY_LEN, &SHAPE, Refusal::NotAnInquiryResponse)?;
    Ok(Identity {
        device,
        firmware: Version::from_packed(octets::byte_at(bytes, 12)),
        voice: Version {
            major: octets::byte_at(bytes, 14),
            minor: octets::byte_at(bytes, 15),
        },
    })
}

// Writes a reply, 00 in the free byte. Refuses 5, then 14.
pub fn reply_into(identity: Identity, out: &mut [u8]) -> Result<usize, Refusal>
    ensures { Writes (reply_write identity (length out.old)) result out.old out.new }
{
    let byte = framing::device_byte(identity.device)?;
    let free = 0x00;
    let bytes = [
        framing::SYSEX_START,
        NON_REALTIME,
        byte,
        SHAPE[0],
        SHAPE[1],
        SHAPE[2],
        SHAPE[3],
        SHAPE[4],
        SHAPE[5],
        SHAPE[6],
        SHAPE[7],
        SHAPE[8],
        identity.firmware.to_packed(),
        free,
        identity.voice.major,
        identity.voice.minor,
        framing::SYSEX_END,
    ];
    refusal::put(&bytes, out)
}
