//! Laws of the chain that finds certificates: what it shows is shown, what it does not find is not there, and it ends
//! past a limit only where a turn passes it. There is no code here: each law is the contract of an empty function.
#![tactic(auto)]

ghost use Rattle.std.specs.Prelude.{ℕ, suc, List, All, length, pos, ◌≡◌};
ghost use Rattle.clp_model.specs.Values.{Valuation};
ghost use Rattle.clp_model.specs.Clauses.{Row, RowHolds};
ghost use Rattle.clp_model.specs.declared.sort.Rel.TheVariants.{Eq};
ghost use Rattle.linear_model.specs.Forms.{IsRising};
ghost use Rattle.linear_model.specs.Certificates.{Entails, Shows, ShowsFalse};
ghost use Rattle.linear_model.specs.Items.{Item, turn, kept};
ghost use Rattle.linear_model.specs.Chain.{NotEntailed, Shown, least_variable, chain, begun, begun_with, signed, part_of};
ghost use Rattle.chain_laws.specs.Laws.{RisingRows, RisingItems, IsLeast, HaveMultipliers, Reaches, OutcomeIsExact, TurnsSuffice, GoesByTurns, VariablesRise, HalfNotFound};

/// What the chain shows is shown, of an inequality and of falsehood, with one multiplier for each row.
pub fn what_is_found_is_shown()
    ensures target { (rows : List Row) (target : Row) (i : Item) → ¬ (target.rel ≡ Eq) → chain (begun_with rows target) ≡ Shown i → Shows rows target (part_of (signed i)) }
    ensures falsehood { (rows : List Row) (i : Item) → chain (begun rows) ≡ Shown i → ShowsFalse rows (record { k = pos 0; m = signed i }) }
    ensures target_count { (rows : List Row) (target : Row) (i : Item) → ¬ (target.rel ≡ Eq) → chain (begun_with rows target) ≡ Shown i → length (part_of (signed i)).m ≡ length rows }
    ensures falsehood_count { (rows : List Row) (i : Item) → chain (begun rows) ≡ Shown i → length (signed i) ≡ length rows }
{}

/// Where the chain finds nothing, the rows do not entail the inequality, nor the equation that it is a half of;
/// without a target, some valuation makes all rows hold.
pub fn what_is_not_found_is_not_entailed()
    ensures target { (rows : List Row) (target : Row) → ¬ (target.rel ≡ Eq) → RisingRows rows → IsRising target.pairs → chain (begun_with rows target) ≡ NotEntailed → ¬ Entails rows target }
    ensures half { HalfNotFound }
    ensures falsehood { (rows : List Row) → RisingRows rows → chain (begun rows) ≡ NotEntailed → (u : Valuation) × All (RowHolds u) rows }
{}

/// Each turn eliminates the least variable that occurs, so that the variables of the turns rise.
pub fn each_turn_takes_the_least_variable()
    ensures least { (items : List Item) → RisingItems items → IsLeast items (least_variable items) }
    ensures variables_rise { VariablesRise }
{}

/// A chain has each outcome exactly where it reaches items at which it ends so: past a limit only where a turn passes
/// it. The count of turns is no bound: more than there are coefficients at the start change nothing.
pub fn each_outcome_is_exact()
    ensures outcome { OutcomeIsExact }
    ensures turns_suffice { TurnsSuffice }
    ensures goes_by_turns { GoesByTurns }
{}

/// Along a chain the variables of each row rise, and each item has as many multipliers as at the start, where it has one
/// for each row and one for the target.
pub fn items_keep_their_form()
    ensures start_rises { (rows : List Row) → RisingRows rows → RisingItems (begun rows) }
    ensures start_with_rises { (rows : List Row) (target : Row) → RisingRows rows → IsRising target.pairs → RisingItems (begun_with rows target) }
    ensures start_counts { (rows : List Row) → HaveMultipliers (length rows) (begun rows) }
    ensures start_with_counts { (rows : List Row) (target : Row) → HaveMultipliers (suc (length rows)) (begun_with rows target) }
    ensures turn_rises { (x : ℕ) (items : List Item) → RisingItems items → RisingItems (turn x items) }
    ensures kept_rises { (items : List Item) → RisingItems items → RisingItems (kept items) }
    ensures chain_rises { (items later : List Item) → Reaches items later → RisingItems items → RisingItems later }
    ensures turn_keeps_count { (n x : ℕ) (items : List Item) → HaveMultipliers n items → HaveMultipliers n (turn x items) }
    ensures kept_keeps_count { (n : ℕ) (items : List Item) → HaveMultipliers n items → HaveMultipliers n (kept items) }
    ensures chain_keeps_count { (n : ℕ) (items later : List Item) → Reaches items later → HaveMultipliers n items → HaveMultipliers n later }
{}
