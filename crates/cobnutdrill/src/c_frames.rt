// Exports dm_frame_read, dm_frame_len and dm_frame_write, the entry points of frames.
ghost use Rattle.frame_reader.specs.Reader.{read_record};
ghost use Rattle.host_answer.specs.Answer.{answer_of, no_record};
ghost use Rattle.host_frames.specs.Frames.{read_answer};
ghost use Rattle.host_frames.specs.Sent.{fields_from, length_asked, pattern_flag_fits, FrameSent};
ghost use Rattle.laws.specs.Choice.{pick};
ghost use Rattle.std.specs.Prelude.{◌≡◌};

use host_answer::Answer;
use host_frames::ReadAnswer;

// Reads a frame, F0 to F7. Refuses 1, 2, 3, 4, 5, 6, then by its payload: 7, 8, 7 or 13 for the run, 12, 9, 11.
// Behind 2 no program byte is out of range.
#[unsafe(no_mangle)]
pub extern "C" fn dm_frame_read(bytes: &[u8]) -> ReadAnswer
    ensures { result ≡ read_answer (read_record bytes.now) bytes.now }
{
    host_frames::dm_frame_read(bytes)
}

// How many bytes a message of this command takes beside a run of so many; has_pattern says whether a pattern dump names its pattern, and is looked
// at for command 08 alone. It looks at no other field. NO_RECORD, ahead of every refusal, for command 08 with has_pattern above 1; then refuses 6, 22.
#[unsafe(no_mangle)]
pub extern "C" fn dm_frame_len(command: u8, has_pattern: u8, run_len: usize) -> Answer
    ensures { result ≡ pick (pattern_flag_fits command has_pattern) (answer_of (length_asked command has_pattern run_len)) no_record }
{
    host_frames::dm_frame_len(command, has_pattern, run_len)
}

// Writes a frame. NO_RECORD, ahead of every refusal, for everyone above 1 and for command 08 with has_pattern above 1, which no other command
// looks at; then refuses 5, 6, the fields that the command has in wire order (8, 12, 9, 10, 11), 22, 14, 2. It looks at no run length.
#[unsafe(no_mangle)]
pub extern "C" fn dm_frame_write(
    everyone: u8,
    unit: u8,
    command: u8,
    free: u8,
    version: u8,
    bank: u8,
    program: u8,
    last: u8,
    pattern: u8,
    has_pattern: u8,
    interface: u8,
    rx: u8,
    tx: u8,
    run: &[u8],
    out: &mut [u8],
) -> Answer
    ensures { FrameSent everyone unit command has_pattern (fields_from free version bank program last pattern has_pattern interface rx tx) run.now result out.old out.new }
{
    host_frames::dm_frame_write(
        everyone,
        unit,
        command,
        free,
        version,
        bank,
        program,
        last,
        pattern,
        has_pattern,
        interface,
        rx,
        tx,
        run,
        out,
    )
}
