// The C entry point of commands.
#![tactic(auto)]

ghost use Rattle.std.specs.Prelude.{◌≡◌};
ghost use Rattle.refusal.specs.Outcome.{gives, and_then};
ghost use Rattle.command.specs.Command.{command_of, code_of};
ghost use Rattle.host_answer.specs.Answer.{answer_of};

use command::Command;
use host_answer::Answer;

// One of the 22 command bytes. Refuses 6.
pub fn dm_command(byte: u8) -> Answer
    ensures { result ≡ answer_of (and_then (command_of byte) (λ x. gives (code_of x))) }
{
    host_answer::read_byte::<Command>(byte)
}
