//! Classes of places, each named by its least place. A place knows another one of its class that is not greater.

ghost use Rattle.std.specs.Prelude.{◌≡◌, ◌≢◌, ◌⊎◌, ℕ, ◌+◌, ◌<◌, length};
ghost use Rattle.unify_closure.specs.Classes.{root, AreParents, HaveSameRoots, HaveJoined, own};

/// The least place of a place's class. Each second place on the way then knows a nearer one.
pub(crate) fn find(parents: &mut Vec<usize>, place: usize) -> usize
    requires parents { AreParents parents.old.items }
    requires within { place < length parents.old.items }
    ensures parents { AreParents parents.new.items }
    ensures same { HaveSameRoots parents.old.items parents.new.items }
    ensures own { own parents.new.items ≡ own parents.old.items }
    ensures value { result ≡ root parents.old.items place }
    ensures within { result < length parents.old.items }
{
    let mut at = place;
    while parents[at] != at {
        let next = parents[parents[at]];
        parents[at] = next;
        at = next;
    }
    at
}

/// One class of two.
pub(crate) fn join(parents: &mut Vec<usize>, a: usize, b: usize) -> usize
    requires parents { AreParents parents.old.items }
    requires a_within { a < length parents.old.items }
    requires b_within { b < length parents.old.items }
    requires a_root { root parents.old.items a ≡ a }
    requires b_root { root parents.old.items b ≡ b }
    requires apart { a ≢ b }
    ensures parents { AreParents parents.new.items }
    ensures joined { HaveJoined parents.old.items parents.new.items a b result }
    ensures own { own parents.new.items + 1 ≡ own parents.old.items }
{
    if a < b {
        parents[b] = a;
        a
    } else {
        parents[a] = b;
        b
    }
}
