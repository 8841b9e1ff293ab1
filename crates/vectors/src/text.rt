// A line's words, and the numbers and byte strings that they spell.
ghost use Rattle.std.specs.Prelude.{◌<◌, ◌≤◌, IfSome, length};

// What follows the first word and its blank.
pub(crate) fn rest(s: &[u8]) -> &[u8] {
    match s.iter().position(|byte| *byte == b' ') {
        Some(blank) => &s[blank + 1..],
        None => &[],
    }
}

// The decimal number that s starts with; it ends before a digit that would take it past 64 bits.
// By hand: std's `parse` takes a whole string, and answers nothing where it does not fit.
pub(crate) fn number(s: &[u8]) -> u64 {
    let mut n: u64 = 0;
    for byte in s {
        let Some(more) = with_digit(n, *byte) else {
            break;
        };
        n = more;
    }
    n
}

// The number with one digit more.
fn with_digit(n: u64, digit: u8) -> Option<u64> {
    let digit = char::from(digit).to_digit(10)?;
    n.checked_mul(10)?.checked_add(u64::from(digit))
}

// The value of a hexadecimal digit in lower case.
// By hand: `to_digit(16)` takes capital letters too.
fn hex_digit(byte: u8) -> Option<u8>
    ensures { IfSome result (λ digit. digit < 16) }
{
    match byte {
        b'0'..=b'9' => Some(byte - b'0'),
        b'a'..=b'f' => Some(byte - b'a' + 10),
        _ => None,
    }
}

// The byte of two hexadecimal digits.
fn hex_byte(digits: &[u8]) -> Option<u8> {
    let [high, low] = digits else {
        return None;
    };
    Some(16 * hex_digit(*high)? + hex_digit(*low)?)
}

// Puts the bytes that s starts with, in hexadecimal, at the start of out: none in "-".
pub(crate) fn bytes<'a>(s: &[u8], out: &'a mut [u8]) -> &'a [u8]
    ensures { length result.now ≤ length out.old }
{
    let mut pairs = s.chunks_exact(2);
    for (n, place) in out.iter_mut().enumerate() {
        let Some(byte) = pairs.next().and_then(hex_byte) else {
            return &out[..n];
        };
        *place = byte;
    }
    out
}
