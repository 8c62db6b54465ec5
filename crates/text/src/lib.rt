// Bytes, refusals and failures as text, for the programs on a host.
#![tactic(auto)]

ghost use Rattle.std.specs.Prelude.{◌≡◌, [], ◌∷◌, ◌++◌, ◌-◌, ◌/◌, ◌%◌, ◌≤◌, length, take, replicate};
ghost use Rattle.io.specs.Digits.{hex_digit_ascii};
ghost use Rattle.text.specs.Text.{shown, PutsDecimal};

pub mod failures;
pub mod refusals;

use std::fmt;

// Text in a room of its own. What has no room is left out, so that no call here fails or needs memory.
#[derive(Clone, Copy)]
pub struct Text<const N: usize> {
    room: [u8; N],
    len: usize,
}

impl<const N: usize> Text<N> {
    // Not inlined, so that a caller's stack holds the room once.
    #[inline(never)]
    pub fn new() -> Text<N>
        ensures { shown result ≡ [] }
    {
        Text {
            room: [0; N],
            len: 0,
        }
    }

    pub fn as_bytes(&self) -> &[u8]
        ensures { result.now ≡ shown self.now }
    {
        front(&self.room, self.len)
    }

    pub fn clear(&mut self)
        ensures { shown self.new ≡ [] }
    {
        self.len = 0;
    }

    // One byte, where it has room.
    pub fn put_byte(&mut self, byte: u8)
        ensures { shown self.new ≡ take N (shown self.old ++ byte ∷ []) }
    {
        let at = self.len;
        let room = &mut self.room[..];
        if at < room.len() {
            room[at] = byte;
            self.len = at + 1;
        }
    }

    // As many of the bytes as have room.
    pub fn put_bytes(&mut self, bytes: &[u8])
        ensures { shown self.new ≡ take N (shown self.old ++ bytes.now) }
    {
        for byte in bytes {
            self.put_byte(*byte);
        }
    }

    pub fn put_str(&mut self, words: &str)
        ensures { shown self.new ≡ take N (shown self.old ++ words.now) }
    {
        self.put_bytes(words.as_bytes());
    }

    // A number in decimal digits.
    pub fn put_decimal(&mut self, n: u64)
        ensures { PutsDecimal N n (shown self.old) (shown self.new) }
    {
        let mut digits = [0; 20];
        let count = io::decimal(n, &mut digits);
        self.put_bytes(&digits[..count]);
    }

    // A byte as two hexadecimal digits.
    #[tactic(auto, using(crate::proofs::Room::room_again))]
    pub fn put_hex(&mut self, byte: u8)
        ensures { shown self.new ≡ take N (shown self.old ++ hex_digit_ascii (byte / 16) ∷ hex_digit_ascii (byte % 16) ∷ []) }
    {
        self.put_bytes(&[hex_digit(byte / 16), hex_digit(byte % 16)]);
    }

    // Spaces up to a column.
    pub fn pad(&mut self, column: usize)
        ensures { shown self.new ≡ take N (shown self.old ++ replicate (column - length (shown self.old)) 32) }
    {
        for _ in 0..column.saturating_sub(self.as_bytes().len()) {
            self.put_byte(b' ');
        }
    }

    // What a value displays; `write!` calls this.
    pub fn write_fmt<D: fmt::Display + Drop>(&mut self, value: D) {
        let _ = fmt::Write::write(self, value);
    }
}

impl<const N: usize> fmt::Write for Text<N> {
    ghost write_str_gives = { λ t bytes later. shown later ≡ take N (shown t ++ bytes) };

    fn write_str(&mut self, words: &str) -> fmt::Result {
        self.put_str(words);
        Ok(())
    }
}

// The digit of a number below 16.
fn hex_digit(n: u8) -> u8
    requires { n ≤ 15 }
    ensures { result ≡ hex_digit_ascii n }
{
    if n < 10 { b'0' + n } else { b'a' + n - 10 }
}

// Bytes as two hexadecimal digits each, and behind each byte the same text.
#[derive(Clone, Copy)]
pub struct Hex<'a> {
    pub bytes: &'a [u8],
    pub behind: &'a str,
}

impl fmt::Display for Hex<'_> {
    fn fmt<W: fmt::Write>(&self, f: &mut fmt::Formatter<W>) -> fmt::Result {
        let behind = self.behind;
        for byte in self.bytes {
            write!(f, "{byte:02x}{behind}")?;
        }
        Ok(())
    }
}

// The first bytes, so many or all.
pub fn front(bytes: &[u8], count: usize) -> &[u8]
    ensures { result.now ≡ take count bytes.now }
{
    bytes.get(..count).unwrap_or(bytes)
}

// What stands ahead of the first byte of a value and what stands behind it, where there is one.
pub fn split_once(bytes: &[u8], mark: u8) -> Option<(&[u8], &[u8])> {
    let at = bytes.iter().position(|byte| *byte == mark)?;
    Some((&bytes[..at], &bytes[at + 1..]))
}
