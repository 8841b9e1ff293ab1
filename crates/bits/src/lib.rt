// Fields of bits in bytes, most significant bit first.
#![tactic(auto)]

ghost use Rattle.std.specs.Prelude.{◌≡◌, ◌+◌, ◌*◌, ◌/◌, ◌%◌, ◌^◌, ◌≤◌, ◌<◌, length, replicate};
ghost use Rattle.bits.specs.Field.{Bytes, field, within, put_field, served, taken_of, number_of, field_fits, wrote_field, widest};
ghost use Rattle.bits.specs.Around.{Around};

// The widest field that is served.
pub const WIDEST: usize = 57;

pub fn wide(x: u8) -> usize
    ensures { result ≡ x }
{
    usize::from(x)
}

fn trim(n: u64, behind: usize, width: usize) -> u64
    requires { (behind < 64) × (width < 64) }
    ensures { result ≡ n / 2 ^ behind % 2 ^ width }
{
    (n >> behind) % (1 << width)
}

// Of a number the width digits above the last `behind`.
#[tactic(auto, using(crate::proofs::Digits::none_beyond, crate::proofs::Digits::all_within))]
pub fn part(n: u64, behind: usize, width: usize) -> u64
    ensures { result ≡ n / 2 ^ behind % 2 ^ width }
{
    if 64 <= behind {
        return 0;
    }
    if 64 <= width {
        return n >> behind;
    }
    trim(n, behind, width)
}

// Puts every byte to v.
pub fn fill(s: &mut [u8], v: u8)
    ensures { s.new ≡ replicate (length s.old) v }
{
    s.fill(v);
}

// Whether the width bits from bit at are all there. Counts in bytes, since at + width can be past the largest usize.
pub fn holds(s: &[u8], at: usize, width: usize) -> bool
    ensures { result ≡ within s.now at width }
{
    at / 8 + width / 8 + (at % 8 + width % 8 + 7) / 8 <= s.len()
}

fn serves(s: &[u8], at: usize, width: usize) -> bool
    ensures { result ≡ served s.now at width }
{
    width <= WIDEST && holds(s, at, width)
}

// The number in the bytes. A loop: `from_be_bytes` takes eight of them, and there may be fewer.
#[tactic(auto, using(crate::proofs::Laws::no_field, crate::proofs::Laws::few_bytes, crate::proofs::Laws::field_more))]
fn gather(bytes: &[u8]) -> u64
    requires { length bytes.now ≤ 8 }
    ensures { result ≡ field bytes.now 0 (8 * length bytes.now) }
{
    let mut n: u64 = 0;
    for byte in bytes {
        n = 256 * n + u64::from(*byte);
    }
    n
}

// `Around` and the number's width go down one line of calls: a type of bytes, bit and width would be no plainer.
// The bits of `count` bytes that stand behind a field of them.
fn behind(count: usize, at: usize, width: usize) -> usize
    requires { Around 0 count at width }
    ensures { (result < 64) × (at + width + result ≡ 8 * count) }
{
    8 * count - at - width
}

// The first of eight bytes in which the field is.
fn first_of(len: usize, at: usize, width: usize) -> usize
    requires { (8 ≤ len) × (1 ≤ width) × (width ≤ widest) × (at + width ≤ 8 * len) }
    ensures { (result + 8 ≤ len) × Around result 8 at width }
{
    (at / 8).min(len - 8)
}

// The number in the field, from the bytes around it.
#[tactic(auto, using(crate::proofs::Laws::part_at))]
fn found_in(bytes: &[u8], at: usize, width: usize) -> u64
    requires { Around 0 (length bytes.now) at width }
    ensures { result ≡ field bytes.now at width }
{
    trim(gather(bytes), behind(bytes.len(), at, width), width)
}

// Eight bytes are gathered, and all where there are fewer: eight that are known to be there are read at once.
#[tactic(auto, using(crate::proofs::Laws::no_field, crate::proofs::Laws::field_between))]
fn found(s: &[u8], at: usize, width: usize) -> u64
    requires { (width ≤ widest) × (at + width ≤ 8 * length s.now) }
    ensures { result ≡ field s.now at width }
{
    if width == 0 {
        return 0;
    }
    if s.len() < 8 {
        return found_in(s, at, width);
    }
    let first = first_of(s.len(), at, width);
    found_in(&s[first..first + 8], at - 8 * first, width)
}

// The number in the width bits from bit at; nothing where they go past the end or the width is not served.
pub fn read(s: &[u8], at: usize, width: usize) -> Option<u64>
    ensures { result ≡ taken_of s.now at width }
{
    if serves(s, at, width) {
        Some(found(s, at, width))
    } else {
        None
    }
}

// The number in the field, and 0 where nothing is found.
// 0 and no Option: its clause reads it by `number_of`, which is 0 of nothing.
pub fn number(s: &[u8], at: usize, width: usize) -> u64
    ensures { result ≡ number_of (taken_of s.now at width) }
{
    read(s, at, width).unwrap_or(0)
}

// Puts the bytes to the number.
#[tactic(auto, using(crate::proofs::Laws::put_all))]
fn scatter(bytes: &mut [u8], n: u64)
    requires { (length bytes.old ≤ 8) × Bytes bytes.old }
    ensures { bytes.new ≡ put_field bytes.old 0 (8 * length bytes.old) n }
{
    bytes.copy_from_slice(&n.to_be_bytes()[8 - bytes.len()..]);
}

// Writes the number to the field, in the bytes around it: its old digits are taken away, and the new ones added.
fn put_in(bytes: &mut [u8], at: usize, width: usize, number: u64)
    requires around { Around 0 (length bytes.old) at width }
    requires number_bound { number < 2 ^ width }
    ensures { bytes.new ≡ put_field bytes.old at width number }
{
    let behind = behind(bytes.len(), at, width);
    let n = gather(bytes);
    let old = trim(n, behind, width);
    scatter(bytes, n - (old << behind) + (number << behind));
}

// Out of line, so that the copy of bytes whose number is not known costs those of eight nothing.
#[cold]
#[inline(never)]
fn put_few(bytes: &mut [u8], at: usize, width: usize, number: u64)
    requires around { Around 0 (length bytes.old) at width }
    requires number_bound { number < 2 ^ width }
    ensures { bytes.new ≡ put_field bytes.old at width number }
{
    put_in(bytes, at, width, number);
}

#[tactic(auto, using(crate::proofs::Laws::put_none, crate::proofs::Laws::put_between))]
fn put(s: &mut [u8], at: usize, width: usize, number: u64)
    requires { (width ≤ widest) × (at + width ≤ 8 * length s.old) × (number < 2 ^ width) }
    ensures { s.new ≡ put_field s.old at width number }
{
    if width == 0 {
        return;
    }
    if s.len() < 8 {
        put_few(s, at, width, number);
        return;
    }
    let first = first_of(s.len(), at, width);
    put_in(&mut s[first..first + 8], at - 8 * first, width, number);
}

// Writes the number to the width bits from bit at, and says so; where it cannot, the bytes stay as they are.
// A bool and no Option: its clause `value` is `field_fits`.
pub fn write(s: &mut [u8], at: usize, width: usize, number: u64) -> bool
    ensures value { result ≡ field_fits s.old at width number }
    ensures s_after { s.new ≡ wrote_field s.old at width number }
{
    if !serves(s, at, width) {
        return false;
    }
    if number >> width != 0 {
        return false;
    }
    put(s, at, width, number);
    true
}
