// Words and numbers, laid into a lent buffer from a place on; the reply is the place after them. Past the end of the buffer there
// is one place: it says that something did not fit.
#![tactic(auto)]

ghost use Rattle.std.specs.Prelude.{suc, ◌≤◌, ◌≡◌, [], ◌∷◌, length};
ghost use Rattle.rules.specs.Text.{decimal, spaced, line, laid, place_after};

// The most digits of a number.
const DIGITS: usize = 20;

// The place past the end and no Option: its clause `value` reads it by `place_after`, which has that place.
#[tactic(auto, using(crate::proofs::Placed::placed))]
pub fn put(lent: &mut [u8], at: usize, word: &[u8]) -> usize
    ensures value { result ≡ place_after (length lent.old) at word.now }
    ensures lent_after { lent.new ≡ laid lent.old at word.now }
{
    if at > lent.len() {
        return lent.len() + 1;
    }
    let room = lent.len() - at;
    if word.len() > room {
        lent[at..].copy_from_slice(&word[..room]);
        return lent.len() + 1;
    }
    let end = at + word.len();
    lent[at..end].copy_from_slice(word);
    end
}

// The digits of n, laid at the end of the row.
// Digits by hand: the clauses here and in `put_number` are `decimal` and `laid`, which say the text of document 01.
// A digit is below 10, so `as` loses nothing.
// By the place, where the answer starts: of what goes through `iter_mut().rev()` a proof knows nothing.
fn digits(n: u64, row: &mut [u8; DIGITS]) -> &[u8]
    ensures { result.now ≡ decimal n }
{
    let mut rest = n;
    for at in (0..DIGITS).rev() {
        row[at] = b'0' + (rest % 10) as u8;
        rest /= 10;
        if rest == 0 {
            return &row[at..];
        }
    }
    unreachable!()
}

// A blank and a number. The place that `put` answers is handed on as it is, one past the end where something does not fit.
fn put_number(lent: &mut [u8], at: usize, n: u64) -> usize
    ensures value { result ≡ place_after (length lent.old) at (spaced (n ∷ [])) }
    ensures lent_after { lent.new ≡ laid lent.old at (spaced (n ∷ [])) }
{
    let mut row = [0; DIGITS];
    let blank = put(lent, at, b" ");
    put(lent, blank, digits(n, &mut row))
}

// `at`'s bound goes down one line of calls: a type of buffer and place would change what `put` and `put_line` take.
fn put_numbers(lent: &mut [u8], at: usize, numbers: &[u64]) -> usize
    requires { at ≤ suc (length lent.old) }
    ensures value { result ≡ place_after (length lent.old) at (spaced numbers.now) }
    ensures lent_after { lent.new ≡ laid lent.old at (spaced numbers.now) }
{
    let mut end = at;
    for number in numbers {
        end = put_number(lent, end, *number);
    }
    end
}

// A word, each number after a blank, and a newline.
// The place past the end and no Option, as in `put`: its clause `value` reads it by `place_after`.
pub fn put_line(lent: &mut [u8], at: usize, word: &[u8], numbers: &[u64]) -> usize
    ensures value { result ≡ place_after (length lent.old) at (line word.now numbers.now) }
    ensures lent_after { lent.new ≡ laid lent.old at (line word.now numbers.now) }
{
    let named = put(lent, at, word);
    let end = put_numbers(lent, named, numbers);
    put(lent, end, b"\n")
}
