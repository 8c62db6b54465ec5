// Packed runs, channel messages and identity: the words of bytes.
use crate::arguments::{Arguments, MOST_BYTES};
use crate::said::{ok, wrote};
use inquiry::{Identity, Version};
use refusal::{OfByte, Refusal};
use text::Text;
use wire::{Channel, ChannelMessage};

// A length made of a length. It is cast, since no From leads from u64 to usize.
pub fn length<F: FnOnce(usize) -> Result<usize, Refusal>, const N: usize>(
    mut ask: Arguments<'_>,
    answer: &mut Text<N>,
    of: F,
) -> Result<(), Refusal>
    requires { F.IsAlwaysCallable of }
{
    ok(answer, of(ask.number() as usize)?);
    Ok(())
}

// What a writer answers that is lent the bytes that stand next.
pub fn written<F: FnOnce(&mut [u8]) -> Result<usize, Refusal>, const N: usize>(
    mut ask: Arguments<'_>,
    answer: &mut Text<N>,
    write: F,
) -> Result<(), Refusal>
    requires { F.IsAlwaysCallable write }
{
    let mut room = [0; MOST_BYTES];
    let lent = ask.bytes(&mut room);
    let count = write(lent);
    wrote(answer, count, lent);
    Ok(())
}

// What a writer makes of bytes.
pub fn turned<F: FnOnce(&[u8], &mut [u8]) -> Result<usize, Refusal>, const N: usize>(
    mut ask: Arguments<'_>,
    answer: &mut Text<N>,
    write: F,
) -> Result<(), Refusal>
    requires { F.IsAlwaysCallable write }
{
    let mut room = [0; MOST_BYTES];
    let bytes = ask.bytes(&mut room);
    written(ask, answer, |lent| write(bytes, lent))
}

// The message of a nibble and its data, on a channel. The first number is a bend's value, and a nibble of no other message makes a bend. The value
// is cast, since From does not narrow.
pub fn channel_message<const N: usize>(
    mut ask: Arguments<'_>,
    answer: &mut Text<N>,
) -> Result<(), Refusal> {
    let nibble = ask.byte();
    let channel = Channel(ask.byte());
    let value = (ask.number() % 65536) as u16;
    let message = ChannelMessage::from_nibble(nibble, value, ask.byte()).unwrap_or(
        ChannelMessage::PitchBend { value },
    );
    written(ask, answer, |lent| message.encode_into(channel, lent))
}

pub fn inquiry_request<const N: usize>(
    mut ask: Arguments<'_>,
    answer: &mut Text<N>,
) -> Result<(), Refusal> {
    let mut room = [0; MOST_BYTES];
    let bytes = ask.bytes(&mut room);
    let device = inquiry::request::parse_request(bytes)?;
    ok(answer, device.to_byte());
    Ok(())
}

pub fn inquiry_reply<const N: usize>(
    mut ask: Arguments<'_>,
    answer: &mut Text<N>,
) -> Result<(), Refusal> {
    let mut room = [0; MOST_BYTES];
    let bytes = ask.bytes(&mut room);
    let Identity {
        device,
        firmware,
        voice,
    } = inquiry::reply::parse_reply(bytes)?;
    write!(
        answer,
        "ok dev={} fw={}.{} voice={},{}",
        device.to_byte(),
        firmware.major,
        firmware.minor,
        voice.major,
        voice.minor
    );
    Ok(())
}

pub fn write_request<const N: usize>(
    mut ask: Arguments<'_>,
    answer: &mut Text<N>,
) -> Result<(), Refusal> {
    let device = ask.device();
    written(
        ask,
        answer,
        |lent| inquiry::request::request_into(device, lent),
    )
}

pub fn write_reply<const N: usize>(
    mut ask: Arguments<'_>,
    answer: &mut Text<N>,
) -> Result<(), Refusal> {
    let device = ask.device();
    let firmware = version(&mut ask);
    let voice = version(&mut ask);
    let identity = Identity {
        device,
        firmware,
        voice,
    };
    written(
        ask,
        answer,
        |lent| inquiry::reply::reply_into(identity, lent),
    )
}

fn version(ask: &mut Arguments<'_>) -> Version {
    let major = ask.byte();
    let minor = ask.byte();
    Version { major, minor }
}
