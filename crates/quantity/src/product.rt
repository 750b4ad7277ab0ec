// Comparison of two products of 64-bit numbers by their full 128 bits.
ghost use Rattle.std.specs.Prelude.{◌≡◌, ◌*◌, ltb};

/// Whether a × b is less than c × d, in exact numbers: no product wraps, whatever the four are. Nothing is refused.
pub fn product_less(a: u64, b: u64, c: u64, d: u64) -> bool
    ensures { result ≡ ltb (a * b) (c * d) }
{
    u128::from(a) * u128::from(b) < u128::from(c) * u128::from(d)
}
