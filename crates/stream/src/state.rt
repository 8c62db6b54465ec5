// A decoder's state as STATE_LEN bytes, for the calls that write it fresh, reset it and ask it.
ghost use Rattle.std.specs.Prelude.{◌≡◌};
ghost use Rattle.stream.specs.State.{is_state, state_of, encoded};

use crate::STATE_LEN;
use decoder::Decoder;
use octets::{flag_of, words};

// Are these bytes a state's? There are STATE_LEN, both flags are 0 or 1, and no status stands without its flag. Whether the
// state is sound is the decoder's question.
pub fn is_state(state: &[u8]) -> bool
    ensures { result ≡ is_state state.now }
{
    state.len() == STATE_LEN && state[0] <= 1 && state[9] <= 1 && (state[9] == 1 || state[10] == 0)
}

// The state that the bytes say. The length is cast, since no From leads from u64 to usize.
pub fn state_of(state: &[u8; STATE_LEN]) -> Decoder
    ensures { result ≡ state_of state.now }
{
    Decoder {
        in_sysex: state[0] == 1,
        len: words::word_at(state, 1) as usize,
        status: (state[9] == 1).then_some(state[10]),
        have: state[11],
        data0: state[12],
        data1: state[13],
    }
}

// Stores a state's bytes. The length is cast, since no From leads from usize to u64.
pub fn put_state(d: Decoder, state: &mut [u8; STATE_LEN])
    ensures { state.new ≡ encoded d }
{
    state[0] = flag_of(d.in_sysex);
    words::put_word(d.len as u64, state, 1);
    state[9] = flag_of(d.status.is_some());
    state[10] = d.status.unwrap_or(0);
    state[11] = d.have;
    state[12] = d.data0;
    state[13] = d.data1;
}
