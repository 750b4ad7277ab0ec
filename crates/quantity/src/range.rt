// The refusal where a temperature misses its range, by whose temperature it is and by the end that it misses.
ghost use Rattle.std.specs.Prelude.{◌≡◌};
ghost use Rattle.quantity.specs.Range.{refusal_at_end};

use crate::refusal::Refusal;

/// Whose temperature, or whose reading, is looked at. So the refusal tells which sensor of the pair it was.
#[derive(Clone, Copy, Debug, PartialEq, Eq)]
pub enum Role {
    /// one that is asked for by itself; it has the refusals of the supply
    Alone,
    /// that of the supply (flow pipe)
    Supply,
    /// that of the return
    Return,
}

/// The end of the range 0.00 to 180.00 °C that a temperature, or a reading, misses.
#[derive(Clone, Copy, Debug, PartialEq, Eq)]
pub enum End {
    /// below 0.00 °C, as with a short in the leads
    Low,
    /// above 180.00 °C, as with a broken lead
    High,
}

/// The refusal of a missed end: below the range 32 for the supply or a temperature by itself, and 33 for the return; above it 70 and 71
/// (docs/FORMAT.md, "Which samples are accepted").
#[tactic(auto, unfolding(crate::specs::Range::refusal_at_end))]
pub fn end_refusal(role: Role, end: End) -> Refusal
    ensures { result ≡ refusal_at_end role end }
{
    match (role, end) {
        (Role::Alone | Role::Supply, End::Low) => Refusal::SupplyBelowRange,
        (Role::Return, End::Low) => Refusal::ReturnBelowRange,
        (Role::Alone | Role::Supply, End::High) => Refusal::SupplyAboveRange,
        (Role::Return, End::High) => Refusal::ReturnAboveRange,
    }
}
