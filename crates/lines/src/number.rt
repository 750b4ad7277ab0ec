// One number of a line, read and written: 1 to 18 digits, with no 0 in front of others (docs/FORMAT.md, "Bytes, lines and numbers").
ghost use Rattle.std.specs.Prelude.{◌≡◌, ◌++◌, ◌∷◌, ◌+◌, ◌≤◌, length, drop};
ghost use Rattle.buffer.specs.Front.{put_front};
ghost use Rattle.lines.specs.Bytes.{comma};
ghost use Rattle.lines.specs.Number.{decimal, most_digits64};
ghost use Rattle.lines.specs.Inside.Parts.{Digits, number_at, field_at, last_digits};

// The most digits of a number.
const MOST_DIGITS: usize = 18;

// One digit more is looked at, to see that a number is too long. So many digits fit into 64 bits.
const LOOKED_AT: usize = MOST_DIGITS + 1;

// The smallest number that has more digits, 10 to the power of MOST_DIGITS: it cannot be written.
pub(crate) const LEAST_LONG: u64 = 1000000000000000000;

// A number and how many bytes it takes.
#[derive(Clone, Copy, Debug, PartialEq, Eq)]
pub(crate) struct Number {
    pub value: u64,
    pub size: usize,
}

// The comma at the front of part and the number after it; none where one of the two is not there.
#[tactic(auto, using(crate::proofs::FieldLaws::by_front))]
pub(crate) fn read_field(part: &[u8]) -> Option<Number>
    ensures { result ≡ field_at part.now }
{
    let [b',', digits @ ..] = part else {
        return None;
    };
    let number = read_number(digits)?;
    Some(Number {
        value: number.value,
        size: number.size + 1,
    })
}

// The number at the front of part, up to the first byte that is no digit.
#[tactic(auto, using(crate::proofs::Runs::looking))]
fn read_number(part: &[u8]) -> Option<Number>
    ensures { result ≡ number_at part.now }
{
    let most = part.len().min(LOOKED_AT);
    let mut value: u64 = 0;
    for (n, b) in part[..most].iter().enumerate() {
        if !b.is_ascii_digit() {
            return checked_number(part, value, n);
        }
        value = value * 10 + u64::from(b - b'0');
    }
    checked_number(part, value, most)
}

// The n digits at the front of part, which say value, if they are a number's text.
#[tactic(auto, using(crate::proofs::Runs::by_digits))]
fn checked_number(part: &[u8], value: u64, n: usize) -> Option<Number>
    requires { Digits part.now value n }
    ensures { result ≡ number_at part.now }
{
    if n == 0 || MOST_DIGITS < n || (1 < n && part[0] == b'0') {
        return None;
    }
    Some(Number { value, size: n })
}

// How many digits x has.
#[tactic(auto, using(crate::proofs::Decimals::by_power))]
pub(crate) fn width(x: u64) -> usize
    ensures counted { result ≡ length (decimal x) }
    ensures within { result ≤ most_digits64 }
{
    match x.checked_ilog10() {
        Some(power) => power as usize + 1,
        None => 1,
    }
}

// Puts a comma and x at the front of part, and answers how many bytes that takes.
#[tactic(auto, using(crate::proofs::Puts::put_field))]
pub(crate) fn put_field(part: &mut [u8], x: u64) -> usize
    requires { length (comma ∷ decimal x) ≤ length part.old }
    ensures { (result ≡ length (comma ∷ decimal x)) × (part.new ≡ put_front part.old (comma ∷ decimal x)) }
{
    let n = width(x);
    put_digits(&mut part[1..], n, x);
    part[0] = b',';
    n + 1
}

// Puts the last k digits of x at the front of part, the last one first. The loop counts the places down, so that its invariant can name the digits
// that are written already.
#[tactic(auto, unfolding(crate::specs::Inside::Parts::last_digits))]
fn put_digits(part: &mut [u8], k: usize, x: u64)
    requires { k ≤ length part.old }
    ensures { part.new ≡ last_digits k x ++ drop k part.old }
{
    let mut rest = x;
    for i in (0..k).rev() {
        part[i] = b'0' + (rest % 10) as u8;
        rest /= 10;
    }
}
