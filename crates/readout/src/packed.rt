// Packed decimal: written into any count of bytes, and read from nine at most, whose 18 digits fit 64 bits.
ghost use Rattle.std.specs.Prelude.{◌≡◌, ◌≤◌, cond, length, None, Some};
ghost use Rattle.readout.specs.Packed.{digits_in, packed, some_above_nine, unpacked};

// Fills part with the lowest digits of x, two in each byte.
pub(crate) fn put_packed(part: &mut [u8], x: u64)
    ensures { part.new ≡ packed (length part.old) x }
{
    let mut rest = x;
    for byte in part.iter_mut() {
        *byte = (rest % 10 + 16 * (rest / 10 % 10)) as u8;
        rest /= 100;
    }
}

// The number that bytes say, or none where a digit is above nine. It goes from the last byte, which has the highest digits.
pub(crate) fn unpacked(bytes: &[u8]) -> Option<u64>
    requires { length bytes.now ≤ 9 }
    ensures { result ≡ cond (some_above_nine (digits_in bytes.now)) None (Some (unpacked bytes.now)) }
{
    let mut number: u64 = 0;
    for byte in bytes.iter().rev() {
        let (high, low) = (byte / 16, byte % 16);
        if 9 < high || 9 < low {
            return None;
        }
        number = number * 100 + u64::from(high * 10 + low);
    }
    Some(number)
}
