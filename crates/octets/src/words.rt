// Eight bytes as one word: joined, read from a place and stored there.
ghost use Rattle.std.specs.Prelude.{◌≡◌, ◌+◌, ◌≤◌, length};
ghost use Rattle.octets.specs.quick.Words.{word_at, put_word};

// Bytes in a word.
pub const WORD: usize = 8;

// The top bits of all eight bytes of a word.
pub const TOPS: u64 = 0x8080_8080_8080_8080;

// Eight bytes joined to a word, the first lowest.
pub fn join(bytes: [u8; WORD]) -> u64
    ensures { result ≡ word_at bytes 0 }
{
    u64::from_le_bytes(bytes)
}

// The eight bytes from a place on as a word: one load, in a function of its own.
pub fn word_at(bytes: &[u8], at: usize) -> u64
    requires { at + 8 ≤ length bytes.now }
    ensures { result ≡ word_at bytes.now at }
{
    let mut eight = [0; WORD];
    eight.copy_from_slice(&bytes[at..at + WORD]);
    join(eight)
}

// Stores a word's eight bytes from a place on: one store.
#[tactic(auto, using(crate::proofs::words::Words::word_put))]
pub fn put_word(word: u64, to: &mut [u8], at: usize)
    requires { at + 8 ≤ length to.old }
    ensures { to.new ≡ put_word word to.old at }
{
    to[at..at + WORD].copy_from_slice(&word.to_le_bytes());
}
