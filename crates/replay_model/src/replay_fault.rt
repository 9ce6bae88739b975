use clause_loader::LoadFault;
use map_model::Refusal;
use text_fault::TextFault;
use thiserror::Error;

/// Why a script was not applied to a program: the first of these, in this order, that holds.
#[derive(Debug, Drop, Error)]
pub enum ReplayFault {
    /// The text of the program is not in its form: its first fault.
    #[error("the text of the program is not in its form: {0}")]
    Program(TextFault),
    /// A clause of the program is refused.
    #[error("a clause of the program is refused: {0:?}")]
    Load(LoadFault),
    /// The text of the script is not in its form: its first fault.
    #[error("the text of the script is not in its form: {0}")]
    Script(TextFault),
    /// The step of this number, from 1, is refused.
    #[error("step {0} is refused: {1:?}")]
    Refused(u32, Refusal),
    /// Memory ran out.
    #[error("memory ran out")]
    NoMemory,
}
