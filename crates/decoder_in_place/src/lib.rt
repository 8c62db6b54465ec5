// The decoder with its state changed in place: calls over those that take the state by value, and one call with what is left of a piece.
#![tactic(auto)]

ghost use Rattle.std.specs.Prelude.{◌≡◌};
ghost use Rattle.decoder.specs.State.{reset};
ghost use Rattle.decoder.specs.Call.{call};
ghost use Rattle.decoder_in_place.specs.InPlace.{FeedsInPlace, FeedsFront};

use decoder::{Decoder, Report};
use refusal::Refusal;

// What a call did: the bytes that it used, and the reports of the last of them. The flag stands beside the report, since a struct of the
// two would put each definition that names them one field further away.
#[derive(Clone, Copy, Debug, PartialEq, Eq)]
pub struct Taken {
    pub used: usize,
    pub interrupted: bool,
    pub report: Option<Report>,
}

// Takes bytes until the first that reports, and leaves the state for the next call behind the reference. Refuses 20.
pub fn feed(state: &mut Decoder, store: &mut [u8], bytes: &[u8]) -> Result<Taken, Refusal>
    ensures { FeedsInPlace (call state.old store.old bytes.now) result state.old state.new store.old store.new }
{
    let fed = state.feed(store, bytes)?;
    *state = fed.state;
    Ok(Taken {
        used: fed.used,
        interrupted: fed.interrupted,
        report: fed.report,
    })
}

// One call with what is left of a piece: what it did, and what is left behind the bytes that it used. None where the call is refused, and where nothing
// is left.
pub fn feed_front<'a>(
    state: &mut Decoder,
    store: &mut [u8],
    rest: &'a [u8],
) -> Option<(Taken, &'a [u8])>
    ensures { FeedsFront (call state.old store.old rest.now) result rest.entry state.old state.new store.old store.new }
{
    if rest.is_empty() {
        return None;
    }
    let taken = feed(state, store, rest).ok()?;
    let left = &rest[taken.used..];
    Some((taken, left))
}

// Forgets the open frame, the status and pending data. Takes any state.
pub fn reset(state: &mut Decoder)
    ensures { state.new ≡ reset state.old }
{
    *state = state.reset();
}
