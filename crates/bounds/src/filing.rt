// Channels filed under the wires of their routes, so that each wire's are at hand when it is worked out.
ghost use Rattle.std.specs.Prelude.{◌≡◌, ℕ, ◌+◌, ◌*◌, ◌^◌, ◌≤◌, ◌<◌, take, replicate};
ghost use Rattle.rules.specs.Words.{up, only};
ghost use Rattle.rules.specs.Numbers.{wires_most, channels_most};
ghost use Rattle.rules.specs.Table.{View};
ghost use Rattle.bounds.specs.Filed.{no_filed, filed_with, carries, ahead};
ghost use Rattle.bounds.specs.Stages.{IsRead, AsRead, FiledBelow, ToFile};

use rules::{Channel, Row, Table};

// Of a wire the channels whose routes have it, in ascending order, of which there are `count`; their load; and whether one of
// these routes begins with it.
// There is no heap, so the list is an array with its count beside it.
#[derive(Clone, Copy)]
pub(crate) struct Filed {
    list: [u8; Table::CHANNELS_MOST],
    count: usize,
    pub(crate) load: u64,
    first: bool,
}

impl Filed {
    pub(crate) fn none() -> Filed
        ensures { result ≡ no_filed }
    {
        Filed {
            list: [0; Table::CHANNELS_MOST],
            count: 0,
            load: 0,
            first: false,
        }
    }

    fn add(&mut self, channel: u8, part: u64)
        requires { (self.old.count < channels_most) × (self.old.load + part < 2 ^ 64) }
        ensures { self.new ≡ filed_with self.old channel part }
    {
        self.list[self.count] = channel;
        self.count += 1;
        self.load += part;
    }

    pub(crate) fn channels(&self) -> &[u8]
        requires { self.now.count ≤ channels_most }
        ensures { result.now ≡ take self.now.count self.now.list }
    {
        &self.list[..self.count]
    }

    // The bytes of full frames that K goes by.
    fn ahead(&self) -> u64
        ensures { result ≡ ahead self.now }
    {
        if self.first {
            2 * Row::FULL_FRAME
        } else {
            Row::FULL_FRAME
        }
    }

    // rate × K, on a wire that carries channels
    pub(crate) fn hold(&self, rate: u64) -> u64
        requires { (1 ≤ rate) × (rate ≤ 100) }
        ensures { result ≡ only (carries self.now) (rate * up (ahead self.now) rate) }
    {
        if self.count == 0 {
            return 0;
        }
        rate * self.ahead().div_ceil(rate)
    }
}

// k is below 128: `as` loses nothing, and `try_from` would answer an Err that cannot come.
// Channel k is filed under each wire of its route, which takes on its part of the load; the first of them is marked.
#[tactic(auto, using(crate::proofs::Read::hops_fit))]
fn file_channel(k: usize, channel: &Channel, filed: &mut [Filed; Table::WIRES_MOST])
    requires { (t : View) × ToFile t k channel.now filed.old }
    ensures { (t : View) → ToFile t k channel.now filed.old → FiledBelow t (k + 1) filed.new }
{
    let part = u64::from(channel.price) * u64::from(channel.times);
    for w in &channel.route[..bits::wide(channel.hops)] {
        filed[bits::wide(*w)].add(k as u8, part);
    }
    filed[bits::wide(channel.route[0])].first = true;
}

#[tactic(auto, using(crate::proofs::Read::channels_fit))]
pub(crate) fn file(table: &Table, under: &mut [Filed; Table::WIRES_MOST])
    requires as_read { IsRead table.now }
    requires none { under.old ≡ replicate wires_most no_filed }
    ensures { (t : View) → AsRead t table.now → FiledBelow t t.channels under.new }
{
    for (k, channel) in table.channel[..table.channels].iter().enumerate() {
        file_channel(k, channel, under);
    }
}

// A table, and its channels filed under the wires of their routes: beside it, since nothing is filed in what only was read.
#[derive(Drop)]
pub(crate) struct Filing<'a> {
    pub(crate) table: &'a Table,
    pub(crate) under: &'a [Filed; Table::WIRES_MOST],
    ghost all: { (t : View) → AsRead t table.now → FiledBelow t t.channels under.now },
}
