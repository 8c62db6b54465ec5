// Exports dm_command, the entry point of the 22 command bytes.
ghost use Rattle.std.specs.Prelude.{◌≡◌};
ghost use Rattle.refusal.specs.Outcome.{gives, and_then};
ghost use Rattle.command.specs.Command.{command_of, code_of};
ghost use Rattle.host_answer.specs.Answer.{answer_of};

use host_answer::Answer;

// One of the 22 command bytes. Refuses 6.
#[unsafe(no_mangle)]
pub extern "C" fn dm_command(byte: u8) -> Answer
    ensures { result ≡ answer_of (and_then (command_of byte) (λ x. gives (code_of x))) }
{
    host_command::dm_command(byte)
}
