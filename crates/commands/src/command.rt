// The closed list of commands.
ghost use Rattle.std.specs.Prelude.{◌≡◌};
ghost use Rattle.std.specs.Option.{ok_or};
ghost use Rattle.refusal.specs.Refusals.{range_error};
ghost use Rattle.commands.specs.Commands.{command_number, command_of};

use refusal::RangeError;

#[derive(Clone, Copy, PartialEq, Eq, Debug)]
pub enum Command {
    SessionRequest = 0x10,
    SessionStart = 0x11,
    TerminateRequest = 0x30,
    TerminateResponse = 0x31,
    ManageKeysRequest = 0x40,
    ManageKeysResponse = 0x41,
}

impl Command {
    // By `as` and a name, like those of the other closed lists.
    pub fn number(self) -> u8
        ensures { result ≡ command_number self }
    {
        self as u8
    }
}

// The command of an octet, if it is on the list. No generic search: a trait with all values and their numbers would say each list again.
impl TryFrom<u8> for Command {
    type Error = RangeError;

    ghost try_from_gives = { λ n r. r ≡ ok_or (command_of n) range_error };

    fn try_from(number: u8) -> Result<Command, RangeError> {
        match number {
            0x10 => Ok(Command::SessionRequest),
            0x11 => Ok(Command::SessionStart),
            0x30 => Ok(Command::TerminateRequest),
            0x31 => Ok(Command::TerminateResponse),
            0x40 => Ok(Command::ManageKeysRequest),
            0x41 => Ok(Command::ManageKeysResponse),
            _ => Err(RangeError),
        }
    }
}
