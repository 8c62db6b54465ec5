// The identity inquiry that every MIDI maker shares: a request is six bytes and names only a device; a reply says that a DeepMind
// answers, and with which firmware. Rule 2 does not hold here: voice bytes of 80 and above pass. And a reply that is read and written again may
// be other bytes: the writer masks the firmware and puts 00 in the free byte.
#![tactic(auto)]

ghost use Rattle.std.specs.Prelude.{◌≡◌, ◌+◌, ◌≤◌, get_or, length};
ghost use Rattle.refusal.specs.Outcome.{answered, unless};
ghost use Rattle.refusal.specs.Refusal.{number_of, values_of};
ghost use Rattle.ids.specs.Device.{device_of};
ghost use Rattle.framing.specs.Framing.{when_framed};
ghost use Rattle.inquiry.specs.Shape.{has_shape};

pub mod identity;
pub mod reply;
pub mod request;

use identity::NON_REALTIME;
pub use identity::{Identity, Version};
use ids::DeviceId;
use refusal::{OfByte, Refusal};

// The device of a framed message that is len long and has the shape behind its device. Refuses 1, then any other message by otherwise, then 5 for the
// device.
fn device_in(
    bytes: &[u8],
    len: usize,
    shape: &[u8],
    otherwise: Refusal,
) -> Result<DeviceId, Refusal>
    requires { 3 + length shape.now ≤ len }
    ensures { answered result ≡ when_framed bytes.now (unless (has_shape len shape.now bytes.now) (number_of otherwise) (values_of otherwise) (device_of (get_or bytes.now 2 0))) }
{
    if !framing::is_framed(bytes) {
        return Err(Refusal::Unframed);
    }
    let has_shape = bytes.len() == len
        && bytes[1] == NON_REALTIME
        && framing::same_bytes(&bytes[3..3 + shape.len()], shape);
    if !has_shape {
        return Err(otherwise);
    }
    DeviceId::from_byte(octets::byte_at(bytes, 2))
}
