// The text of a table's judgement, as document 01 has it printed. A count becomes a number by `as`: no From goes from usize to
// u64, and `try_from` would answer an Err that cannot come.
#![tactic(auto)]

ghost use Rattle.std.specs.Prelude.{suc, ◌≤◌, ◌≡◌, length, IfOk};
ghost use Rattle.rules.specs.Replies.{refusal_number, refusal_place};
ghost use Rattle.rules.specs.Numbers.{wires_most, channels_most};
ghost use Rattle.rules.specs.Text.{refused_text, text, Put, text_written, text_left};
ghost use Rattle.text.specs.Rows.{wires_text, channels_text, bounded_text, verdict_text};

use rules::{Bounded, Refusal, Table};

// What stands in every byte that is not the text's.
// Private in each of three crates: a shared one would be a public constant of a lower crate.
const NO_TEXT: u8 = 255;

// The bounds of the counts and of `at` go down one line of calls, from `verdict` on: a type in between would be no plainer. The
// place that `words` answers is handed on as it is, one past the end where something does not fit.
// For each wire a line with its number, backlog and delay.
// Not one loop with `put_channels`: over an iterator and a closure, it would need a relation to what that yields, and two proofs.
fn put_wires(lent: &mut [u8], at: usize, bounded: &Bounded) -> usize
    requires at_bound { at ≤ suc (length lent.old) }
    requires in_wires { bounded.now.table.wires ≤ wires_most }
    ensures { Put lent.old at (wires_text bounded.now) result lent.new }
{
    let mut end = at;
    let wires = &bounded.figures.wire[..bounded.table.wires];
    for (i, wire) in wires.iter().enumerate() {
        let numbers = [i as u64, wire.backlog, wire.delay];
        end = words::put_line(lent, end, b"link", &numbers);
    }
    end
}

// For each channel a line with its number, end-to-end delay and deadline.
fn put_channels(lent: &mut [u8], at: usize, bounded: &Bounded) -> usize
    requires at_bound { at ≤ suc (length lent.old) }
    requires in_channels { bounded.now.table.channels ≤ channels_most }
    ensures { Put lent.old at (channels_text bounded.now) result lent.new }
{
    let mut end = at;
    let ends = &bounded.figures.end[..bounded.table.channels];
    let channels = &bounded.table.channel[..bounded.table.channels];
    for (k, (delay, channel)) in ends.iter().zip(channels).enumerate() {
        let numbers = [k as u64, *delay, u64::from(channel.deadline)];
        end = words::put_line(lent, end, b"channel", &numbers);
    }
    end
}

fn put_accepted(lent: &mut [u8], bounded: &Bounded) -> usize
    requires in_wires { bounded.now.table.wires ≤ wires_most }
    requires in_channels { bounded.now.table.channels ≤ channels_most }
    ensures { Put lent.old 0 (bounded_text bounded.now) result lent.new }
{
    let counts = [bounded.table.wires as u64, bounded.table.channels as u64];
    let head = words::put_line(lent, 0, b"accepted", &counts);
    let links = put_wires(lent, head, bounded);
    put_channels(lent, links, bounded)
}

fn put_refused(lent: &mut [u8], refusal: Refusal) -> usize
    ensures { Put lent.old 0 (refused_text (refusal_number refusal) (refusal_place refusal)) result lent.new }
{
    let number = refusal.number();
    let place = refusal.place() as u64;
    words::put_line(lent, 0, b"refused", &[number, place])
}

// What is printed.
fn verdict(table: &[u8]) -> Result<Bounded, Refusal>
    ensures value { verdict_text result ≡ text table.now }
    ensures within { IfOk result (λ b. (b.table.wires ≤ wires_most) × (b.table.channels ≤ channels_most)) }
{
    let mut sheet = [0; Table::SHEET_LONGEST];
    judge::judge(table, &mut sheet)?;
    bounds::bounds(table)
}

fn put_text(table: &[u8], lent: &mut [u8]) -> usize
    ensures { Put lent.old 0 (text table.now) result lent.new }
{
    match verdict(table) {
        Ok(bounded) => put_accepted(lent, &bounded),
        Err(refusal) => put_refused(lent, refusal),
    }
}

// The text's length; nothing where the lent buffer is shorter.
pub fn write(table: &[u8], lent: &mut [u8]) -> Option<usize>
    ensures value { result ≡ text_written (text table.now) (length lent.old) }
    ensures lent_after { lent.new ≡ text_left (text table.now) (length lent.old) }
{
    bits::fill(lent, NO_TEXT);
    let end = put_text(table, lent);
    if end > lent.len() {
        bits::fill(lent, NO_TEXT);
        return None;
    }
    Some(end)
}
