// Reading a table: tests 1 to 11 in one pass, each field read once.
// Between usize and u64, both of 64 bits, there is no From: there `as` stands, and where a field is narrower than what it was
// read as; it loses nothing.
#![tactic(auto)]

ghost use Rattle.std.specs.Prelude.{◌≡◌, ◌*◌, ◌+◌, ◌≤◌, ◌<◌, length, replicate, IfOk, OnOk};
ghost use Rattle.rules.specs.Numbers.{wires_most, channels_most, hop_bits, hops_most, table_longest};
ghost use Rattle.rules.specs.Words.{entries};
ghost use Rattle.rules.specs.Replies.{Reply, reading_reply, each, after, Answered};
ghost use Rattle.rules.specs.Table.{view_of, hyper_of, route_at, channel_at, end_of};
ghost use Rattle.rules.specs.Channel.{route_tests};
ghost use Rattle.rules.specs.Reading.{head_tests, wire_tests, record_tests, channel_tests, filling_tests, reading};
ghost use Rattle.rules.specs.Decoded.{column, no_wire, wire_of, no_channel, channel_of, table_of, no_table};
ghost use Rattle.table.specs.Stages.{HeadRead, hops_left, FixedRead, ChannelRead, ChannelsEnd};

use rules::{Channel, Refusal, Table, Wire};

// Of a record's fixed bits those up to its deadline, and of these the ones behind its framing.
const SENT_BITS: usize = Table::FRAMING_BITS + BEHIND_FRAMING;

const BEHIND_FRAMING: usize = Table::PAYLOAD_BITS + Table::PERIOD_BITS;

// What stands past a table's wires, and past its channels.
const NO_WIRE: Wire = Wire {
    rate: 0,
    prop: 0,
    room: 0,
};

const NO_CHANNEL: Channel = Channel {
    price: 0,
    times: 0,
    deadline: 0,
    hops: 0,
    route: [0; Table::HOPS_MOST],
};

#[derive(Clone, Copy)]
struct Head {
    hyper: u64,
    wires: usize,
    channels: usize,
}

// The three header fields are read whole before 2, 3, 4.
fn head_of(s: &[u8]) -> Result<Head, Refusal>
    ensures answered { Answered (head_tests s.now) result }
    ensures told { IfOk result (λ r. HeadRead s.now r) }
{
    if !bits::holds(s, 0, Table::HEAD_BITS) {
        return Err(Refusal::CutShort);
    }
    let hyper = bits::number(s, 0, Table::HYPER_BITS);
    let wires = bits::number(s, Table::HYPER_BITS, Table::WIRES_BITS) as usize;
    let channels = bits::number(
        s,
        Table::HYPER_BITS + Table::WIRES_BITS,
        Table::CHANNELS_BITS,
    ) as usize;
    if !(1..=Table::HYPER_MOST as u64).contains(&hyper) {
        return Err(Refusal::Hyperperiod);
    }
    if !(1..=Table::WIRES_MOST).contains(&wires) {
        return Err(Refusal::Wires);
    }
    if !(1..=Table::CHANNELS_MOST).contains(&channels) {
        return Err(Refusal::Channels);
    }
    Ok(Head {
        hyper,
        wires,
        channels,
    })
}

// A wire's record is read whole before 5.
fn wire_of(s: &[u8], w: usize) -> Result<Wire, Refusal>
    requires { w < wires_most }
    ensures answered { Answered (wire_tests s.now w) result }
    ensures told { IfOk result (λ r. r ≡ wire_of (view_of s.now) w) }
{
    let at = Table::HEAD_BITS + Table::WIRE_BITS * w;
    if !bits::holds(s, at, Table::WIRE_BITS) {
        return Err(Refusal::CutShort);
    }
    let record = bits::number(s, at, Table::WIRE_BITS);
    let code = bits::part(
        record,
        Table::PROP_BITS + Table::ROOM_BITS,
        Table::RATE_BITS,
    );
    // No code has the rate 0.
    let rate = framing::rate(code);
    if rate == 0 {
        return Err(Refusal::RateCode(w));
    }
    Ok(Wire {
        rate,
        prop: bits::part(record, Table::ROOM_BITS, Table::PROP_BITS) as u32,
        room: bits::part(record, 0, Table::ROOM_BITS) as u32,
    })
}

// Into the first n places.
fn wires_of(s: &[u8], n: usize, wires: &mut [Wire; Table::WIRES_MOST]) -> Result<(), Refusal>
    requires most { n ≤ wires_most }
    requires none { wires.old ≡ replicate wires_most no_wire }
    ensures answered { Answered (each (wire_tests s.now) 0 n) result }
    ensures told { OnOk result (wires.new ≡ column no_wire wires_most n (wire_of (view_of s.now))) }
{
    for (w, wire) in wires[..n].iter_mut().enumerate() {
        *wire = wire_of(s, w)?;
    }
    Ok(())
}

// Channel c's fixed bits, from bit at, are read whole before 6, 7, 8; then its route's bits have to be there.
fn fixed_of(s: &[u8], hyper: u64, c: usize, at: usize) -> Result<Channel, Refusal>
    requires hyper_value { hyper ≡ hyper_of s.now }
    requires at_bound { at ≤ 8 * table_longest }
    ensures answered { (rest : Reply) → record_tests s.now c at rest ≡ after result (hops_left s.now c at rest) }
    ensures told { IfOk result (λ r. FixedRead s.now at r) }
{
    if !bits::holds(s, at, Table::FIXED_BITS) {
        return Err(Refusal::CutShort);
    }
    let sent = bits::number(s, at, SENT_BITS);
    let due = bits::number(s, at + SENT_BITS, Table::DEADLINE_BITS + Table::HOPS_BITS);
    let payload = bits::part(sent, Table::PERIOD_BITS, Table::PAYLOAD_BITS);
    let period = bits::part(sent, 0, Table::PERIOD_BITS);
    let hops = bits::part(due, 0, Table::HOPS_BITS) as usize;
    if payload == 0 {
        return Err(Refusal::Payload(c));
    }
    if period == 0 || hyper % period != 0 {
        return Err(Refusal::Period(c));
    }
    if !(1..=Table::HOPS_MOST).contains(&hops) {
        return Err(Refusal::Hops(c));
    }
    if !bits::holds(s, at + Table::FIXED_BITS, Table::HOP_BITS * hops) {
        return Err(Refusal::CutShort);
    }
    let framing = bits::part(sent, BEHIND_FRAMING, Table::FRAMING_BITS);
    // Never refused: the framing is one bit, and the payload not 0.
    let price = framing::price(framing, payload)?;
    let deadline = bits::part(due, Table::HOPS_BITS, Table::DEADLINE_BITS);
    Ok(Channel {
        price: price as u32,
        times: (hyper / period) as u32,
        deadline: deadline as u32,
        hops: hops as u8,
        ..NO_CHANNEL
    })
}

// Into the first places; the bit at which the last of them ends. The search over channels and hops ends at the first fault; 9 and
// 10 are tested hop by hop. Nested loops that are left by a label are the form that document 01 names for this place.
fn channels_of(
    s: &[u8],
    head: Head,
    channels: &mut [Channel; Table::CHANNELS_MOST],
) -> Result<usize, Refusal>
    requires head_read { HeadRead s.now head }
    requires none { channels.old ≡ replicate channels_most no_channel }
    ensures answered { Answered (each (channel_tests s.now) 0 head.channels) result }
    ensures told { OnOk result (channels.new ≡ column no_channel channels_most head.channels (channel_of (view_of s.now))) }
    ensures end { IfOk result (λ end. ChannelsEnd s.now head.channels end) }
{
    let mut found = Ok(());
    let mut end = Table::HEAD_BITS + Table::WIRE_BITS * head.wires;
    'search: for (c, channel) in channels[..head.channels].iter_mut().enumerate() {
        let fixed = fixed_of(s, head.hyper, c, end)?;
        let at = end + Table::FIXED_BITS;
        let hops = usize::from(fixed.hops);
        let wires = bits::number(s, at, Table::HOP_BITS * hops);
        let mut route = NO_CHANNEL.route;
        let mut least = 0;
        for (i, hop) in route[..hops].iter_mut().enumerate() {
            let wire = bits::part(wires, Table::HOP_BITS * (hops - 1 - i), Table::HOP_BITS);
            if head.wires as u64 <= wire {
                found = Err(Refusal::RouteWire(c));
                break 'search;
            }
            if wire < least {
                found = Err(Refusal::RouteOrder(c));
                break 'search;
            }
            *hop = wire as u8;
            least = wire + 1;
        }
        *channel = Channel { route, ..fixed };
        end = at + Table::HOP_BITS * hops;
    }
    found?;
    Ok(end)
}

// 11: a further byte, or a filling bit not 0.
fn filling_of(s: &[u8], end: usize) -> Result<(), Refusal>
    requires end_value { end ≡ end_of s.now }
    requires end_bound { (end ≤ 8 * table_longest) × (end ≤ 8 * length s.now) }
    ensures { Answered (filling_tests s.now) result }
{
    if end.div_ceil(8) < s.len() || bits::number(s, end, 8 * s.len() - end) != 0 {
        return Err(Refusal::Further);
    }
    Ok(())
}

// No table: all 0. What reading starts from.
pub fn none() -> Table
    ensures { result ≡ no_table }
{
    Table {
        hyper: 0,
        wires: 0,
        channels: 0,
        wire: [NO_WIRE; Table::WIRES_MOST],
        channel: [NO_CHANNEL; Table::CHANNELS_MOST],
    }
}

// Header, wires, channels, filling. Out of line, so that the table as it is filled leaves the stack.
#[inline(never)]
pub fn read(s: &[u8]) -> Result<Table, Refusal>
    ensures answer_value { reading_reply result ≡ reading s.now }
    ensures table_value { IfOk result (λ t. t ≡ table_of (view_of s.now)) }
{
    let head = head_of(s)?;
    let mut table = none();
    table.hyper = head.hyper;
    table.wires = head.wires;
    table.channels = head.channels;
    wires_of(s, head.wires, &mut table.wire)?;
    let end = channels_of(s, head, &mut table.channel)?;
    filling_of(s, end)?;
    Ok(table)
}
