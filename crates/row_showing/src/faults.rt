//! The refusals that tell why nothing was shown.

ghost use Rattle.std.specs.Prelude.{◌≡◌, IfOk, IfErr};
ghost use Rattle.map_model.specs.declared.refusal.Refusal.TheVariants.{NoMemory};
ghost use Rattle.map_model.specs.Showing.{refusal_of};

use clp_model::Limit;
use entail_find::FindFault;
use farkas_check::Cert;
use map_model::Refusal;
use std::alloc::Global;

/// The refusal where the finder came to no answer for the row at this place.
pub(crate) fn refusal_of(place: u32, fault: FindFault) -> Refusal
    ensures { result ≡ refusal_of place fault }
{
    match fault {
        FindFault::Overflow => Refusal::Overflow(place),
        FindFault::TooLong => Refusal::TooLarge(Limit::Chain),
        FindFault::NoMemory => Refusal::NoMemory,
    }
}

/// An equal certificate.
pub(crate) fn copied(alloc: Global, certificate: &Cert) -> Result<Cert, Refusal>
    ensures value { IfOk result (λ c. c ≡ certificate.now) }
    ensures fault { IfErr result (λ e. e ≡ Refusal.NoMemory) }
{
    match certificate.copy(alloc) {
        Ok(copy) => Ok(copy),
        Err(_) => Err(Refusal::NoMemory),
    }
}
