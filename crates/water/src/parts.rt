// The floor of a product's quotient, where the product passes 64 bits.
ghost use Rattle.std.specs.Prelude.{◌≡◌, ◌*◌, ◌/◌, ◌^◌, ◌<◌};

// k × a / b from the quotient and the remainder of a by b, so that no number on the way passes 64 bits.
#[tactic(auto, using(quantity::proofs::Floors::by_parts))]
pub(crate) fn scaled_quotient(k: u64, a: u64, b: u64) -> u64
    requires { (0 < b) × (k * b < 2 ^ 64) × (k * a < 2 ^ 64 * b) }
    ensures { result ≡ k * a / b }
{
    k * (a / b) + k * (a % b) / b
}
