// The fields of a line, which commas part, and the numbers in them.

// The numbers behind the k-th comma and those that follow it; 0 where there is no such comma.
pub(crate) fn numbers<const N: usize>(line: &[u8], k: usize) -> [u64; N] {
    let mut numbers = [0; N];
    let fields = line.split(|byte| *byte == b',').skip(k);
    for (number, field) in numbers.iter_mut().zip(fields) {
        *number = field.iter().fold(0, |value, byte| with_digit(value, *byte));
    }
    numbers
}

// The number behind the k-th comma.
pub(crate) fn number(line: &[u8], k: usize) -> u64 {
    numbers::<1>(line, k)[0]
}

// The bytes behind the k-th comma, its last field: all up to the line's end; none where there is no such comma.
pub(crate) fn last_field(line: &[u8], k: usize) -> &[u8] {
    line.splitn(k.saturating_add(1), |byte| *byte == b',')
        .nth(k)
        .unwrap_or_default()
}

// A number with one decimal digit more; 0 where 64 bits do not hold it, or where the byte is no digit. So a number begins anew behind each byte that is
// no digit, and every field has one.
fn with_digit(value: u64, byte: u8) -> u64 {
    match byte {
        b'0'..=b'9' => value
            .checked_mul(10)
            .and_then(|tens| tens.checked_add(u64::from(byte - b'0')))
            .unwrap_or(0),
        _ => 0,
    }
}
