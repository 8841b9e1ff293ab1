// Judging a table: its bounds, 14, 15, and the sheet.
#![tactic(auto)]

ghost use Rattle.std.specs.Prelude.{◌≡◌, length, IfOk, position};
ghost use Rattle.rules.specs.Replies.{judging_reply, Answered};
ghost use Rattle.rules.specs.Table.{View};
ghost use Rattle.rules.specs.Judgement.{deadline_tests, judge as judged, buffer};
ghost use Rattle.judge.specs.Stages.{BoundsOf, is_late, ends_of};

use rules::{Bounded, Refusal};

// What stands in every byte that is not the sheet's.
// Private in each of three crates: a shared one would be a public constant of a lower crate.
const NO_SHEET: u8 = 255;

// The lowest channel whose end-to-end delay is over its deadline.
// Shaped as test 12 in `bounds`: a function for both would be a public one, with an answer for arrays that are no table's.
fn late(bounded: &Bounded) -> Option<usize>
    ensures { result ≡ position is_late (ends_of bounded.now) }
{
    let channels = bounded.table.channel.iter().take(bounded.table.channels);
    channels
        .zip(&bounded.figures.end)
        .position(|(channel, end)| u64::from(channel.deadline) < *end)
}

// Test 14.
fn in_time(bounded: &Bounded) -> Result<(), Refusal>
    ensures { (t : View) → BoundsOf t bounded.now → Answered (deadline_tests t) result }
{
    match late(bounded) {
        Some(channel) => Err(Refusal::Deadline(channel)),
        None => Ok(()),
    }
}

// The judgement, and the sheet where it accepts. Where it refuses, the buffer may hold anything.
fn accept(table: &[u8], sheet: &mut [u8]) -> Result<usize, Refusal>
    ensures result_value { judging_reply result ≡ judged table.now (length sheet.old) }
    ensures sheet_after { IfOk result (λ n. sheet.new ≡ buffer table.now (length sheet.old)) }
{
    // By reference: what `?` takes out of a Result is one more table on the stack.
    let bounds = bounds::bounds(table);
    match &bounds {
        Ok(bounded) => {
            in_time(bounded)?;
            // By name, so that a wrong program can change it alone.
            let length = sheet::write(
                sheet,
                bounded.table.wires,
                bounded.table.channels,
                &bounded.figures,
            )
            .ok_or(Refusal::Buffer)?;
            Ok(length)
        }
        Err(refusal) => Err(*refusal),
    }
}

// Every refusal fills the whole lent buffer.
pub fn judge(table: &[u8], sheet: &mut [u8]) -> Result<usize, Refusal>
    ensures result_value { judging_reply result ≡ judged table.now (length sheet.old) }
    ensures sheet_after { sheet.new ≡ buffer table.now (length sheet.old) }
{
    let answer = accept(table, sheet);
    if answer.is_err() {
        bits::fill(sheet, NO_SHEET);
    }
    answer
}
