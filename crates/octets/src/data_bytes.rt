// Runs of data bytes, eight at a time: how far one goes.
ghost use Rattle.std.specs.Prelude.{◌≡◌, ◌≤◌};
ghost use Rattle.octets.specs.quick.Data.{data_run, all_data};

use crate::words::{TOPS, WORD, join};

// How many bytes at the front are seen to be data bytes by whole words.
#[tactic(auto, using(crate::proofs::data_bytes::Words::chunk_more))]
fn data_words(bytes: &[u8]) -> usize
    ensures { result ≤ data_run bytes.now }
{
    let (words, _) = bytes.as_chunks::<WORD>();
    for (w, eight) in words.iter().enumerate() {
        if join(*eight) & TOPS != 0 {
            return w * WORD;
        }
    }
    words.len() * WORD
}

// How many data bytes stand ahead of the first other byte.
// `position` was tried, and looks at one byte a turn: 12 ns for 24 bytes and 122 ns for 242, where this takes 4 and 16.
#[tactic(auto, using(crate::proofs::data_bytes::Runs::run_no_longer, crate::proofs::data_bytes::Runs::run_more, crate::proofs::data_bytes::Runs::run_ends))]
pub fn data_run(bytes: &[u8]) -> usize
    ensures { result ≡ data_run bytes.now }
{
    for i in data_words(bytes)..bytes.len() {
        if 0x80 <= bytes[i] {
            return i;
        }
    }
    bytes.len()
}

// Is every byte a data byte? It looks at all of them at once, many a turn; data_run stops at the first other byte.
// `is_ascii` was tried, and is slower in framing's first_high: 14 ns for a run of 300 bytes, where this takes 11.
#[tactic(auto, using(crate::proofs::data_bytes::Words::seen_more))]
pub fn all_data(bytes: &[u8]) -> bool
    ensures { result ≡ all_data bytes.now }
{
    let mut all: u8 = 0;
    for byte in bytes {
        all |= *byte;
    }
    all < 0x80
}
