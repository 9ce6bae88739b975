//! What holds of every accepted replay: the headline. There is no code here: each law is the contract of an empty
//! function.
#![tactic(auto)]

ghost use Rattle.std.specs.Prelude.{◌≡◌, ◌<◌, ◌^◌, ℕ, List, length, Ok};
ghost use Rattle.map_model.specs.State.{State as S};
ghost use Rattle.replay_model.specs.Replay.{replayed, output};
ghost use Rattle.replay_model.specs.Headline.{KeepsProvability};

/// What is printed of an accepted replay is a program that proves what the input program proves, and of the predicates that
/// the script defines what the input program proves with the definitions, where both texts have fewer than 2^32 bytes.
pub fn replay_keeps_provability()
    ensures { (p s : List ℕ) (t : S) → length p < 2 ^ 32 → length s < 2 ^ 32 → replayed p s ≡ Ok t → KeepsProvability p s (output t) }
{}
