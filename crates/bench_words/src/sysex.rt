// The words of frames.
use crate::arguments::{Arguments, MOST_BYTES};
use crate::said::Listed;
use crate::wires;
use ids::DeviceId;
use message::Fields;
use refusal::{OfByte, Refusal};
use text::Text;

// Every field by its name, then the run; a mark that no recorded answer has, where the frame is not written again as the same bytes.
fn read<const N: usize>(bytes: &[u8], answer: &mut Text<N>) -> Result<(), Refusal> {
    let frame = frame_reader::parse(bytes)?;
    let device = frame.device;
    let head = frame.head;
    let fields = head.to_fields();
    write!(
        answer,
        "ok dev={} cmd={} free={} ver={} bank={} prog={} last={} pat={} has={} ifc={} rx={} tx={} run={}{}",
        device.to_byte(),
        head.command().to_byte(),
        fields.free,
        fields.version,
        fields.bank,
        fields.program,
        fields.last,
        fields.pattern,
        u8::from(fields.has_pattern),
        fields.interface,
        fields.rx,
        fields.tx,
        Listed(frame_reader::run_of(bytes)),
        if stays(bytes) { "" } else { "!" }
    );
    Ok(())
}

// Is a frame that the reader takes the same bytes when it is written again?
fn stays(bytes: &[u8]) -> bool {
    let mut space = [0u8; MOST_BYTES];
    match frame_view::again::write_again(bytes, &mut space) {
        Ok(count) => text::front(&space, count) == bytes,
        Err(_) => false,
    }
}

pub fn frame<const N: usize>(mut ask: Arguments<'_>, answer: &mut Text<N>) -> Result<(), Refusal> {
    let mut room = [0; MOST_BYTES];
    let bytes = ask.bytes(&mut room);
    read(bytes, answer)
}

// A record as the words `fwrite` and `readback` list it; its run stands behind it.
#[derive(Clone, Copy)]
struct Listing {
    device: DeviceId,
    command: u8,
    fields: Fields,
}

fn listed(ask: &mut Arguments<'_>) -> Listing {
    let device = ask.device();
    let command = ask.byte();
    let fields = Fields {
        free: ask.byte(),
        version: ask.byte(),
        bank: ask.byte(),
        program: ask.byte(),
        last: ask.byte(),
        pattern: ask.byte(),
        has_pattern: ask.byte() == 1,
        interface: ask.byte(),
        rx: ask.byte(),
        tx: ask.byte(),
    };
    Listing {
        device,
        command,
        fields,
    }
}

// By the writer of plain fields.
pub fn frame_write<const N: usize>(
    mut ask: Arguments<'_>,
    answer: &mut Text<N>,
) -> Result<(), Refusal> {
    let Listing {
        device,
        command,
        fields,
    } = listed(&mut ask);
    let mut room = [0; MOST_BYTES];
    let run = ask.bytes(&mut room);
    wires::written(ask, answer, |lent| {
        frame_writer::write_record(device, command, fields, run, lent)
    })
}

// By the writer of messages, to the front of a buffer with room for every frame; what was written is read.
pub fn read_back<const N: usize>(
    mut ask: Arguments<'_>,
    answer: &mut Text<N>,
) -> Result<(), Refusal> {
    let record = listed(&mut ask);
    let mut room = [0; MOST_BYTES];
    let run = ask.bytes(&mut room);
    let mut space = [0u8; MOST_BYTES];
    let frame = message::head::from_record(record.device, record.command, record.fields)?;
    let count = frame_writer::encode_into(frame, run, &mut space)?;
    read(text::front(&space, count), answer)
}
