ghost use Rattle.std.specs.Prelude.{◌≡◌};
ghost use Rattle.map_state.specs.Faults.{refusal_of};

use clause_store::ClauseFault;
use map_model::Refusal;

/// The refusal of a step whose new clause has this fault. A row of a new clause has no number, so its overflow is told
/// with 0.
pub fn refusal_of(fault: ClauseFault) -> Refusal
    ensures { result ≡ refusal_of fault }
{
    match fault {
        ClauseFault::Overflow => Refusal::Overflow(0),
        ClauseFault::TooLarge(limit) => Refusal::TooLarge(limit),
        ClauseFault::NoMemory => Refusal::NoMemory,
    }
}
