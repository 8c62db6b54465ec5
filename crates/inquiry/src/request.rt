// The universal device inquiry's request.
ghost use Rattle.std.specs.Prelude.{◌≡◌, length};
ghost use Rattle.refusal.specs.Outcome.{answered, Writes};
ghost use Rattle.inquiry.specs.Request.{read_request, request_write};

use crate::identity::NON_REALTIME;
use ids::DeviceId;
use refusal::Refusal;

pub const REQUEST_LEN: usize = 6;

// What stands behind the device.
const SHAPE: [u8; 2] = [0x06, 0x01];

// The device that a request asks. Refuses 1, 15, 5.
pub fn parse_request(bytes: &[u8]) -> Result<DeviceId, Refusal>
    ensures { answered result ≡ read_request bytes.now }
{
    crate::device_in(bytes, REQUEST_LEN, &SHAPE, Refusal::NotAnInquiryRequest)
}

// Writes a request. Refuses 5, then 14.
pub fn request_into(device: DeviceId, out: &mut [u8]) -> Result<usize, Refusal>
    ensures { Writes (request_write device (length out.old)) result out.old out.new }
{
    let byte = framing::device_byte(device)?;
    let [general, request] = SHAPE;
    let bytes = [
        framing::SYSEX_START,
        NON_REALTIME,
        byte,
        general,
        request,
        framing::SYSEX_END,
    ];
    refusal::put(&bytes, out)
}
