//! The command that words mean.

ghost use Rattle.std.specs.Prelude.{◌≡◌, Some, None, IfSome, IfNone};
ghost use Rattle.command_model.specs.Command.{command_of};
ghost use Rattle.map_main.specs.Endings.{named};

use super::words::Words;

/// The names of a program file and of a script file.
#[derive(Clone, Copy)]
pub struct TwoFiles<'a> {
    pub program: &'a str,
    pub script: &'a str,
}

/// What words mean.
#[derive(Clone, Copy)]
pub enum Command<'a> {
    /// Writes the program that the script makes of the program.
    Replay(TwoFiles<'a>),
    /// Writes the script with all certificates written out.
    Fill(TwoFiles<'a>),
}

impl Words {
    /// The command that the words mean, if they mean one.
    pub(crate) fn command(&self) -> Option<Command<'_>>
        ensures means { IfSome result (λ c. command_of self.now ≡ Some (named c)) }
        ensures none { IfNone result (command_of self.now ≡ None) }
    {
        if self.len() != 4 {
            return None;
        }
        let files = TwoFiles {
            program: self.get(2)?,
            script: self.get(3)?,
        };
        match self.get(1)? {
            "replay" => Some(Command::Replay(files)),
            "fill" => Some(Command::Fill(files)),
            _ => None,
        }
    }
}
