// A request taken apart: words stand between single spaces, numbers are decimal, bytes are plain hexadecimal, `-` for none.
ghost use Rattle.std.specs.Prelude.{◌≤◌, length};

use ids::DeviceId;

// So many bytes are read of one word at most.
pub const MOST_BYTES: usize = 4096;

// Numbers with commas between them, from the first again behind the last.
#[derive(Clone, Copy)]
pub struct Numbers<'a> {
    all: &'a [u8],
    rest: &'a [u8],
}

impl Numbers<'_> {
    pub fn next(&mut self) -> u64 {
        let (number, rest) = text::split_once(self.rest, b',').unwrap_or((self.rest, self.all));
        self.rest = rest;
        number_of(number)
    }
}

// What is left of a request. Each call reads a value at its front, up to where the value ends, and goes on behind the next space.
#[derive(Clone, Copy)]
pub struct Arguments<'a> {
    pub rest: &'a [u8],
}

impl<'a> Arguments<'a> {
    // What stands at the front, up to the end of the request.
    fn front(&mut self) -> &'a [u8] {
        let all = self.rest;
        self.rest = text::split_once(all, b' ').map_or(Default::default(), |(_, behind)| behind);
        all
    }

    pub fn number(&mut self) -> u64 {
        number_of(self.front())
    }

    pub fn byte(&mut self) -> u8 {
        byte_of(self.front())
    }

    // `all`, or a unit such as `u0`.
    pub fn device(&mut self) -> DeviceId {
        match self.front() {
            [] | [b'a', ..] => DeviceId::Broadcast,
            [_, unit @ ..] => DeviceId::Unit(byte_of(unit)),
        }
    }

    // The bytes, put to the front of a room; what has no room is left out.
    pub fn bytes<'b>(&mut self, room: &'b mut [u8]) -> &'b mut [u8]
        ensures { length result.now ≤ length room.old }
    {
        let (pairs, _) = self.front().as_chunks::<2>();
        let mut count = 0;
        for pair in pairs {
            match paired(*pair) {
                Some(byte) if count < room.len() => room[count] = byte,
                _ => break,
            }
            count += 1;
        }
        let end = count.min(room.len());
        &mut room[..end]
    }

    pub fn numbers(&mut self) -> Numbers<'a> {
        let front = self.front();
        let all = text::split_once(front, b' ').map_or(front, |(word, _)| word);
        Numbers { all, rest: all }
    }
}

// The number at the front of a text.
fn number_of(text: &[u8]) -> u64 {
    text.iter()
        .map_while(|byte| char::from(*byte).to_digit(10))
        .fold(0, appended)
}

// One decimal digit more; no recorded number is longer than a u64.
fn appended(n: u64, digit: u32) -> u64 {
    match n.checked_mul(10) {
        Some(tens) => tens.wrapping_add(u64::from(digit)),
        None => n,
    }
}

// A number's low byte: a cast, since From does not narrow.
fn byte_of(text: &[u8]) -> u8 {
    (number_of(text) % 256) as u8
}

// The byte of two hexadecimal digits: 0 where only the first is one, none where it is not.
fn paired([high, low]: [u8; 2]) -> Option<u8> {
    let high = hex_digit(high)?;
    Some(hex_digit(low).map_or(0, |low| (high << 4) | low))
}

fn hex_digit(byte: u8) -> Option<u8> {
    match byte {
        b'0'..=b'9' => Some(byte - b'0'),
        b'a'..=b'f' => Some(byte - b'a' + 10),
        _ => None,
    }
}
