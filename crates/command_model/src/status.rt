//! How a run of the program ended.

ghost use Rattle.std.specs.Prelude.{◌≡◌};
ghost use Rattle.std.specs.Process.{exit_status};
ghost use Rattle.command_model.specs.Status.{number_of};
ghost use Rattle.command_model.specs.declared.status.Status.TheVariants.{NoMemory};

use std::process::ExitCode;
use term_store::NoMemory;

/// How a run of the program ended.
#[derive(Clone, Copy, Debug, PartialEq, Eq)]
pub enum Status {
    /// The command was carried out.
    Ok,
    /// A step was refused.
    Refused,
    /// The words are no command.
    Usage,
    /// The program text is too long, is no program or does not load.
    BadProgram,
    /// The script, goal or input is too long or is none.
    BadScript,
    /// A file was not loaded.
    ShelfFault,
    /// The input was not read.
    InputFault,
    /// The output was not written.
    SinkFault,
    /// There was no memory.
    NoMemory,
    /// The budget was spent and a further move was left.
    BudgetSpent,
}

impl Status {
    /// The number with which the program ends, 0 to 9.
    pub fn number(self) -> u8
        ensures { result ≡ number_of self }
    {
        match self {
            Status::Ok => 0,
            Status::Refused => 1,
            Status::Usage => 2,
            Status::BadProgram => 3,
            Status::BadScript => 4,
            Status::ShelfFault => 5,
            Status::InputFault => 6,
            Status::SinkFault => 7,
            Status::NoMemory => 8,
            Status::BudgetSpent => 9,
        }
    }

    /// The exit code of the program, which is the status's number.
    pub fn exit_code(self) -> ExitCode
        ensures value { exit_status result ≡ number_of self }
    {
        ExitCode::from(self.number())
    }
}

// Want of memory before the words of a command are there ends the program as it does later.
impl From<NoMemory> for Status {
    ghost from_gives = { λ _ status. status ≡ NoMemory };

    fn from(_error: NoMemory) -> Status {
        Status::NoMemory
    }
}
