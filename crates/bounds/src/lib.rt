// The bounds of a table: tests 12 and 13 after 1 to 11, and the figures of every wire and channel. What was read is not at hand
// after reading: the contracts of the private functions hold for every view that their table can have been read from. `IsRead`
// stands in three of them, down one line of calls: a type around a Table that holds it would be no plainer.
#![tactic(auto)]

mod filing;
mod walking;

ghost use Rattle.std.specs.Prelude.{◌≡◌, IfOk, OnOk};
ghost use Rattle.rules.specs.Replies.{reading_reply, Answered};
ghost use Rattle.rules.specs.Table.{View, view_of};
ghost use Rattle.rules.specs.Decoded.{table_of, figures_of, no_figures};
ghost use Rattle.rules.specs.Judgement.{load_tests, bounds_tests, bounding};
ghost use Rattle.bounds.specs.Stages.{IsRead, AsRead};

use crate::filing::{Filed, Filing};
use rules::{Bounded, Figures, Refusal, Table};

// What is filed goes by the wire's number, as in `walk`.
// 12: the lowest wire that is over rate × H. Its shape is that of test 14 in `judge`; a function for both would be a public one,
// with an answer for arrays that are no table's.
#[tactic(auto, using(crate::proofs::Read::wires_fit))]
fn none_over(filing: &Filing) -> Result<(), Refusal>
    requires { IsRead filing.now.table.now }
    ensures { (t : View) → AsRead t filing.now.table.now → Answered (load_tests t) result }
{
    let Filing { table, under } = filing;
    for (w, wire) in table.wire[..table.wires].iter().enumerate() {
        if wire.rate * table.hyper < under[w].load {
            return Err(Refusal::Load(w));
        }
    }
    Ok(())
}

// 12 over all wires, then 13 over all wires, each lowest number first. Out of line, so that what is filed leaves the stack.
#[inline(never)]
fn work_out(table: &Table, figures: &mut Figures) -> Result<(), Refusal>
    requires as_read { IsRead table.now }
    requires none { figures.old ≡ no_figures }
    ensures answered { (t : View) → AsRead t table.now → Answered (bounds_tests t) result }
    ensures figures_value { (t : View) → AsRead t table.now → OnOk result (figures.new ≡ figures_of t) }
{
    let mut under = [Filed::none(); Table::WIRES_MOST];
    filing::file(table, &mut under);
    let filing = Filing {
        table,
        under: &under,
    };
    none_over(&filing)?;
    walking::walk(&filing, figures)
}

// Out of line, so that the copies leave the stack.
#[inline(never)]
fn both(table: &Table, figures: &Figures) -> Result<Bounded, Refusal>
    ensures { result ≡ Ok (record { table = table.now; figures = figures.now }) }
{
    Ok(Bounded {
        table: *table,
        figures: *figures,
    })
}

pub fn bounds(table: &[u8]) -> Result<Bounded, Refusal>
    ensures answer_value { reading_reply result ≡ bounding table.now }
    ensures table_value { IfOk result (λ b. b.table ≡ table_of (view_of table.now)) }
    ensures figures_value { IfOk result (λ b. b.figures ≡ figures_of (view_of table.now)) }
{
    // By reference: what `?` takes out of a Result is one more table on the stack.
    let read = table::read(table);
    match &read {
        Ok(table) => {
            let mut figures = walking::no_figures();
            work_out(table, &mut figures)?;
            both(table, &figures)
        }
        Err(refusal) => Err(*refusal),
    }
}
