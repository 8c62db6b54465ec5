// Exports dm_request_read, dm_reply_read, dm_request_write and dm_reply_write, the entry points of identity requests and replies.
ghost use Rattle.std.specs.Prelude.{◌≡◌, leb, length};
ghost use Rattle.host_answer.specs.Answer.{SendsIf};
ghost use Rattle.inquiry.specs.Request.{read_request};
ghost use Rattle.inquiry.specs.Reply.{read_reply, reply_write};
ghost use Rattle.host_inquiry.specs.Identity.{request_answer, reply_answer, identity_from, RequestSent};

use host_answer::Answer;
use host_inquiry::{ReplyAnswer, RequestAnswer};

// Reads a request for an identity. Refuses 1, 15, 5.
#[unsafe(no_mangle)]
pub extern "C" fn dm_request_read(bytes: &[u8]) -> RequestAnswer
    ensures { result ≡ request_answer (read_request bytes.now) }
{
    host_inquiry::dm_request_read(bytes)
}

// Reads a reply that tells an identity. Refuses 1, 16, 5.
#[unsafe(no_mangle)]
pub extern "C" fn dm_reply_read(bytes: &[u8]) -> ReplyAnswer
    ensures { result ≡ reply_answer (read_reply bytes.now) }
{
    host_inquiry::dm_reply_read(bytes)
}

// Writes a request. NO_RECORD for everyone above 1; then refuses 5, 14.
#[unsafe(no_mangle)]
pub extern "C" fn dm_request_write(everyone: u8, unit: u8, out: &mut [u8]) -> Answer
    ensures { RequestSent everyone unit result out.old out.new }
{
    host_inquiry::dm_request_write(everyone, unit, out)
}

// Writes a reply. NO_RECORD for everyone above 1; then refuses 5, 14.
#[unsafe(no_mangle)]
pub extern "C" fn dm_reply_write(
    everyone: u8,
    unit: u8,
    major: u8,
    minor: u8,
    voice_major: u8,
    voice_minor: u8,
    out: &mut [u8],
) -> Answer
    ensures { SendsIf (leb everyone 1) (reply_write (identity_from everyone unit major minor voice_major voice_minor) (length out.old)) result out.old out.new }
{
    host_inquiry::dm_reply_write(everyone, unit, major, minor, voice_major, voice_minor, out)
}
