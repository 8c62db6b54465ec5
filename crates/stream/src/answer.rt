// What a call answers, by the report of the last byte that it used.
ghost use Rattle.std.specs.Prelude.{◌≡◌, true, false, None, Some};
ghost use Rattle.wire.specs.declared.system_common.SystemCommon.TheVariants as y;
ghost use Rattle.wire.specs.RealTime.{realtime_of};
ghost use Rattle.decoder.specs.State.{limit};
ghost use Rattle.decoder.specs.Step.{realtime_report};
ghost use Rattle.decoder.specs.declared.Report.TheVariants as r;
ghost use Rattle.stream.specs.Reports.{numbers_of};
ghost use Rattle.stream.specs.Feed.{refused_feed};
ghost use Rattle.stream.specs.quick.Bytes.{is_realtime};

use crate::{CHANNEL, COMMON, FedAnswer, NOTHING, REALTIME, SYSEX};
use decoder::MAX_SYSEX_LEN;

// An answer by its numbers, with no report 18 ahead. The count of used bytes is cast, since no From leads from usize to u64.
fn from_numbers(used: usize, kind: u64, status: u64, first: u64, second: u64) -> FedAnswer
    ensures { result ≡ record { number = 0; used = used; interrupted = 0; kind = kind; status = status; first = first; second = second } }
{
    FedAnswer {
        number: 0,
        used: used as u64,
        interrupted: 0,
        kind,
        status,
        first,
        second,
    }
}

// No report.
pub fn quiet(used: usize) -> FedAnswer
    ensures { result ≡ numbers_of used false None }
{
    from_numbers(used, NOTHING, 0, 0, 0)
}

// Nothing used and nothing reported: 20.
pub fn refused() -> FedAnswer
    ensures { result ≡ refused_feed 20 }
{
    FedAnswer {
        number: 20,
        ..quiet(0)
    }
}

// Is the byte a real-time message? F9 and FD are none.
pub fn is_realtime(byte: u8) -> bool
    ensures { result ≡ is_realtime byte }
{
    matches!(byte, 0xF8 | 0xFA..0xFD | 0xFE..)
}

// A real-time message.
pub fn realtime(byte: u8, used: usize) -> FedAnswer
    requires { is_realtime byte ≡ true }
    ensures { result ≡ numbers_of used false (realtime_report (realtime_of byte)) }
{
    from_numbers(used, REALTIME, u64::from(byte), 0, 0)
}

// A tune request.
pub fn tune(used: usize) -> FedAnswer
    ensures { result ≡ numbers_of used false (Some (r.Common y.TuneRequest)) }
{
    from_numbers(used, COMMON, 0xF6, 0, 0)
}

// A channel message, by its numbers.
pub fn channel(status: u8, first: u64, second: u64, used: usize) -> FedAnswer
    ensures { result ≡ record { number = 0; used = used; interrupted = 0; kind = 1; status = status; first = first; second = second } }
{
    from_numbers(used, CHANNEL, u64::from(status), first, second)
}

// A system common message with data.
pub fn system_common(status: u8, value: u64, used: usize) -> FedAnswer
    ensures { result ≡ record { number = 0; used = used; interrupted = 0; kind = 3; status = status; first = value; second = 0 } }
{
    from_numbers(used, COMMON, u64::from(status), value, 0)
}

// A frame of so many bytes: a cast, since no From leads from usize to u64.
pub fn frame(len: usize, used: usize) -> FedAnswer
    ensures { result ≡ numbers_of used false (Some (r.SysEx len)) }
{
    from_numbers(used, SYSEX, 0, len as u64, 0)
}

// Report 19 for a frame beyond the limit, with the limit: a cast, since no From leads from usize to u64.
#[tactic(auto, unfolding(decoder::specs::State::limit))]
pub fn frame_too_long(used: usize) -> FedAnswer
    ensures { result ≡ numbers_of used false (Some (r.SysExTooLong limit)) }
{
    from_numbers(used, 19, 0, MAX_SYSEX_LEN as u64, 0)
}

// Report 18 and no other: an open frame was broken off.
pub fn interrupted(used: usize) -> FedAnswer
    ensures { result ≡ numbers_of used true None }
{
    FedAnswer {
        interrupted: 1,
        ..quiet(used)
    }
}

// Report 18, since an open frame was broken off, and then a tune request.
pub fn interrupted_by_tune(used: usize) -> FedAnswer
    ensures { result ≡ numbers_of used true (Some (r.Common y.TuneRequest)) }
{
    FedAnswer {
        interrupted: 1,
        ..tune(used)
    }
}
