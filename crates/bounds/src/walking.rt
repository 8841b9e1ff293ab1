// The figures of every wire and channel, wire by wire.
ghost use Rattle.std.specs.Prelude.{◌≡◌, ℕ, ◌+◌, ◌*◌, ◌^◌, ◌≤◌, ◌<◌, OnOk};
ghost use Rattle.rules.specs.Words.{total, up, only};
ghost use Rattle.rules.specs.Replies.{Answered};
ghost use Rattle.rules.specs.Price.{full_frame};
ghost use Rattle.rules.specs.Table.{View};
ghost use Rattle.rules.specs.Judgement.{room_tests};
ghost use Rattle.rules.specs.Decoded.{figures_of, no_figures};
ghost use Rattle.bounds.specs.Filed.{carries};
ghost use Rattle.bounds.specs.Stages.{shares, Priced, Gathers, Spare, Raised, ToWalk};

use crate::filing::{Filed, Filing};
use rules::{Figures, Refusal, Table, WireFigures};

pub(crate) fn no_figures() -> Figures
    ensures { result ≡ no_figures }
{
    let wire = WireFigures {
        backlog: 0,
        delay: 0,
    };
    Figures {
        wire: [wire; Table::WIRES_MOST],
        end: [0; Table::CHANNELS_MOST],
    }
}

// Of each channel its price; by its number, since nothing is known of what goes through a zip of `iter_mut`.
fn prices(table: &Table, price: &mut [u64; Table::CHANNELS_MOST])
    ensures { Priced table.now price.new }
{
    for (k, channel) in table.channel.iter().enumerate() {
        price[k] = u64::from(channel.price);
    }
}

// C × H + C × (H / P) × J
fn share(price: u64, times: u32, hyper: u64, jitter: u64) -> u64
    requires part_fits { price * times < 2 ^ 64 }
    requires share_fits { price * hyper + price * times * jitter < 2 ^ 64 }
    ensures { result ≡ price * hyper + price * times * jitter }
{
    price * hyper + price * u64::from(times) * jitter
}

// The burst of a wire, times H: the shares of its channels.
fn burst(
    table: &Table,
    filed: &Filed,
    price: &[u64; Table::CHANNELS_MOST],
    jitter: &[u64; Table::CHANNELS_MOST],
) -> u64
    requires priced { Priced table.now price.now }
    requires gathers { Gathers table.now filed.now jitter.now }
    ensures { result ≡ shares table.now filed.now jitter.now }
{
    let mut sum = 0;
    for k in filed.channels() {
        let k = bits::wide(*k);
        sum += share(price[k], table.channel[k].times, table.hyper, jitter[k]);
    }
    sum
}

// What is known so far of each of these channels, its jitter or its delay, is raised.
fn raise(channels: &[u8], by: u64, known: &mut [u64; Table::CHANNELS_MOST])
    requires { Spare channels.now by known.old }
    ensures { Raised channels.now by known.old known.new }
{
    for k in channels {
        known[bits::wide(*k)] += by;
    }
}

// backlog / rate, rounded up
fn slots(backlog: u64, rate: u64) -> u64
    requires { 1 ≤ rate }
    ensures { result ≡ up backlog rate }
{
    backlog.div_ceil(rate)
}

// Wires in ascending order, so that the jitter of each of a wire's channels is known when it is worked out; up to the first
// that fails 13, so that every delay before it fits 24 bits. The figures are worked out in place: a Result with them in it, and
// what `?` takes out of it, would each be one more on the stack.
#[tactic(auto, using(crate::proofs::Read::wires_fit))]
pub(crate) fn walk(filing: &Filing, figures: &mut Figures) -> Result<(), Refusal>
    requires to_walk { (t : View) × ToWalk t filing.now.table.now }
    requires none { figures.old ≡ no_figures }
    ensures answered { (t : View) → ToWalk t filing.now.table.now → Answered (room_tests t) result }
    ensures figures_value { (t : View) → ToWalk t filing.now.table.now → OnOk result (figures.new ≡ figures_of t) }
{
    let Filing { table, under } = filing;
    // Working arrays are document 01's form for this place.
    let mut price = [0u64; Table::CHANNELS_MOST];
    let mut jitter = [0u64; Table::CHANNELS_MOST];
    prices(table, &mut price);
    // What is filed and the figures go by the wire's number: a zip of all three would hide them in tuples.
    for (w, wire) in table.wire[..table.wires].iter().enumerate() {
        let filed = &under[w];
        let own = burst(table, filed, &price, &jitter) / table.hyper;
        let backlog = own + filed.hold(wire.rate);
        if u64::from(wire.room) < backlog {
            return Err(Refusal::Room(w));
        }
        let delay = slots(backlog, wire.rate);
        figures.wire[w] = WireFigures { backlog, delay };
        let channels = filed.channels();
        raise(channels, delay.saturating_sub(1), &mut jitter);
        raise(channels, delay + u64::from(wire.prop), &mut figures.end);
    }
    Ok(())
}
