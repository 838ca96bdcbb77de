// The operations of a list of commands, by their numbers.
ghost use Rattle.std.specs.Prelude.{◌≡◌};
ghost use Rattle.sew_commands.specs.Commands.{command_of, sew_second};

use link_run::links::Link;
use map_betas::error::Refusal;
use sew_operations::operations::Operation;

// What a command asks for: a link or an unlink, a sew or an unsew.
#[derive(Clone, Copy, Debug, PartialEq, Eq)]
pub enum Command {
    Links(Link),
    Sews(Operation),
}

// The command of an operation's number; a number that stands for none is refused.
impl TryFrom<u32> for Command {
    type Error = Refusal;

    ghost try_from_gives = { λ operation command. command ≡ command_of operation };

    fn try_from(operation: u32) -> Result<Command, Refusal> {
        match operation {
            1 => Ok(Command::Links(Link::OneLink)),
            2 => Ok(Command::Links(Link::TwoLink)),
            3 => Ok(Command::Links(Link::ThreeLink)),
            4 => Ok(Command::Sews(Operation::OneSew)),
            5 => Ok(Command::Sews(Operation::TwoSew)),
            6 => Ok(Command::Links(Link::OneUnlink)),
            7 => Ok(Command::Links(Link::TwoUnlink)),
            8 => Ok(Command::Links(Link::ThreeUnlink)),
            9 => Ok(Command::Sews(Operation::OneUnsew)),
            10 => Ok(Command::Sews(Operation::TwoUnsew)),
            11 => Ok(Command::Sews(Operation::ThreeUnsew)),
            _ => Err(Refusal::BadCommand(operation)),
        }
    }
}

// The second dart that a sew looks at: an unsew has none, and its first stands in.
pub fn sew_second(operation: Operation, ld: u32, rd: u32) -> u32
    ensures { result ≡ sew_second operation ld rd }
{
    if matches!(operation, Operation::OneSew | Operation::TwoSew) {
        rd
    } else {
        ld
    }
}
