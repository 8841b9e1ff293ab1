// The label roll: the whole roll is tested, then a channel's label is handed back as a part of the caller's own roll.
// Between usize and u64, of 64 bits each, `as` stands: there is no From, and `try_from` would answer an Err that cannot come.
#![tactic(auto)]

ghost use Rattle.std.specs.Prelude.{◌≡◌};
ghost use Rattle.std.specs.Bool.{then_some};
ghost use Rattle.std.specs.List.{list_all};
ghost use Rattle.rules.specs.Words.{between};
ghost use Rattle.rules.specs.Replies.{label_reply};
ghost use Rattle.rules.specs.Roll.{labels, behind, length_at, sound_at, sound_labels, sound_roll, ask_label};
ghost use Rattle.rules.specs.Roll.{stretch, stretch_start};
ghost use Rattle.roll.specs.Place.{from};

use rules::{Refusal, Stretch, Table};

// The longest label.
const LABEL_MOST: usize = 24;

// Whether each byte is from 32 to 126.
fn printable(label: &[u8]) -> bool
    ensures { result ≡ list_all (λ byte. between 32 byte 126) label.now }
{
    label.iter().all(|byte| (32..=126).contains(byte))
}

// Where the label ends whose length byte stands at `at`; nothing where it has a fault.
fn end_from(roll: &[u8], at: usize) -> Option<usize>
    ensures { result ≡ then_some (sound_at roll.now at) (behind roll.now at) }
{
    let count = bits::wide(*roll.get(at)?);
    if !(1..=LABEL_MOST).contains(&count) {
        return None;
    }
    let end = at + 1 + count;
    let label = roll.get(at + 1..end)?;
    printable(label).then_some(end)
}

// Where the first n labels end; nothing where one of them has a fault.
fn end_of(roll: &[u8], n: usize) -> Option<usize>
    ensures { result ≡ then_some (sound_labels roll.now n) (length_at roll.now n) }
{
    let mut at = 1;
    // A loop: by `try_fold`, which was tried, the goal does not close.
    for _ in 0..n {
        at = end_from(roll, at)?;
    }
    Some(at)
}

// How many labels a sound roll has.
fn count_of(roll: &[u8]) -> Option<usize>
    ensures { result ≡ then_some (sound_roll roll.now) (labels roll.now) }
{
    let count = bits::wide(*roll.first()?);
    if !(1..=Table::CHANNELS_MOST).contains(&count) {
        return None;
    }
    let end = end_of(roll, count)?;
    (end == roll.len()).then_some(count)
}

// Asking for a label, by any number: 21, then 22.
pub fn ask(roll: &[u8], number: u64) -> Result<Stretch, Refusal>
    ensures { label_reply result ≡ ask_label roll.now number }
{
    let count = count_of(roll).ok_or(Refusal::Roll)?;
    let number = number as usize;
    if count <= number {
        return Err(Refusal::NotInRoll);
    }
    // No label of a sound roll has a fault.
    let at = end_of(roll, number).unwrap();
    Ok(Stretch {
        start: at + 1,
        length: bits::wide(roll[at]),
    })
}

// The label itself, as the part of the lent roll that holds it; on a refusal an empty part at the roll's start.
// An empty part and no Result: its clauses `value` and `place` are of a part of the roll.
pub fn label(roll: &[u8], number: u64) -> &[u8]
    ensures value { result.now ≡ stretch (ask_label roll.now number) roll.now }
    ensures place { result.ref_ptr ≡ from roll.entry.ref_ptr (stretch_start (ask_label roll.now number)) }
{
    match ask(roll, number) {
        Ok(Stretch { start, length }) => &roll[start..start + length],
        Err(_) => &roll[..0],
    }
}
