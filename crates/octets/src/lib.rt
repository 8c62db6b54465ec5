// The byte at a place, a flag as a byte, whole words, runs of data bytes, copies: what everything above needs, said once.
#![tactic(auto)]

ghost use Rattle.std.specs.Prelude.{◌≡◌, get_or};
ghost use Rattle.laws.specs.Choice.{flag};

pub mod copies;
pub mod data_bytes;
pub mod words;

// A flag as a byte.
pub fn flag_of(b: bool) -> u8
    ensures { result ≡ flag b }
{
    u8::from(b)
}

// The byte at a place, and 0 behind the last.
pub fn byte_at(bytes: &[u8], at: usize) -> u8
    ensures { result ≡ get_or bytes.now at 0 }
{
    bytes.get(at).copied().unwrap_or(0)
}
