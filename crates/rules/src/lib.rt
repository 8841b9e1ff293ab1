// Document 01's types: its refusals, the rows of framings, the table with its constants, and the figures.
#![tactic(auto)]

ghost use Rattle.std.specs.Prelude.{◌≡◌, Some};
ghost use Rattle.rules.specs.Numbers.{numbers};
ghost use Rattle.rules.specs.Replies.{refusal_number, refusal_place, refusal_text};

use std::error::Error;
use std::fmt;

// One row of the table of framings: the most data that a frame holds, its overhead, the least data.
#[derive(Clone, Copy)]
pub struct Row {
    pub most: u64,
    pub overhead: u64,
    pub least: u64,
}

// Bytes on the wire of a full frame, and of the smallest.
impl Row {
    pub const FULL_FRAME: u64 = 1_542;

    pub const SMALL_FRAME: u64 = 88;
}

// Document 01's refusals, in the order of their numbers, each with its place where that is not 0: a wire or a channel.
#[derive(Clone, Copy, Debug, PartialEq, Eq)]
pub enum Refusal {
    CutShort,
    Hyperperiod,
    Wires,
    Channels,
    RateCode(usize),
    Payload(usize),
    Period(usize),
    Hops(usize),
    RouteWire(usize),
    RouteOrder(usize),
    Further,
    Load(usize),
    Room(usize),
    Deadline(usize),
    Buffer,
    SheetLength,
    SheetCount,
    SheetFilling,
    NotInSheet,
    Framing,
    Roll,
    NotInRoll,
}

impl Refusal {
    pub fn number(self) -> u64
        ensures { result ≡ refusal_number self }
    {
        match self {
            Refusal::CutShort => 1,
            Refusal::Hyperperiod => 2,
            Refusal::Wires => 3,
            Refusal::Channels => 4,
            Refusal::RateCode(_) => 5,
            Refusal::Payload(_) => 6,
            Refusal::Period(_) => 7,
            Refusal::Hops(_) => 8,
            Refusal::RouteWire(_) => 9,
            Refusal::RouteOrder(_) => 10,
            Refusal::Further => 11,
            Refusal::Load(_) => 12,
            Refusal::Room(_) => 13,
            Refusal::Deadline(_) => 14,
            Refusal::Buffer => 15,
            Refusal::SheetLength => 16,
            Refusal::SheetCount => 17,
            Refusal::SheetFilling => 18,
            Refusal::NotInSheet => 19,
            Refusal::Framing => 20,
            Refusal::Roll => 21,
            Refusal::NotInRoll => 22,
        }
    }

    pub fn place(self) -> usize
        ensures { result ≡ refusal_place self }
    {
        match self {
            Refusal::RateCode(wire) | Refusal::Load(wire) | Refusal::Room(wire) => wire,
            Refusal::Payload(channel)
            | Refusal::Period(channel)
            | Refusal::Hops(channel)
            | Refusal::RouteWire(channel)
            | Refusal::RouteOrder(channel)
            | Refusal::Deadline(channel) => channel,
            _ => 0,
        }
    }
}

// Its number and its place.
impl fmt::Display for Refusal {
    ghost output = { λ refusal. Some (refusal_text refusal) };

    fn fmt<W: fmt::Write>(&self, f: &mut fmt::Formatter<W>) -> fmt::Result {
        write!(f, "{} {}", self.number(), self.place())
    }
}

impl Error for Refusal {}

// Of a wire what a table says of it. Narrow but for the rate: a Table is copied where it is handed on, on a stack that is kept
// short.
#[derive(Clone, Copy)]
pub struct Wire {
    pub rate: u64,
    pub prop: u32,
    pub room: u32,
}

// Of a channel its price, H / period, deadline, hops, and the wires of its route, with 0 past its hops.
// There is no heap, so the route is an array with its count, `hops`, beside it.
#[derive(Clone, Copy)]
pub struct Channel {
    pub price: u32,
    pub times: u32,
    pub deadline: u32,
    pub hops: u8,
    pub route: [u8; Table::HOPS_MOST],
}

// A table as read. What stands past its wires and channels is 0.
// There is no heap, so each array stands with its count, `wires` or `channels`, beside it.
#[derive(Clone, Copy)]
pub struct Table {
    pub hyper: u64,
    pub wires: usize,
    pub channels: usize,
    pub wire: [Wire; Table::WIRES_MOST],
    pub channel: [Channel; Table::CHANNELS_MOST],
}

// Of a wire what is worked out.
#[derive(Clone, Copy)]
pub struct WireFigures {
    pub backlog: u64,
    pub delay: u64,
}

// Of each wire its figures, of each channel its end-to-end delay, and 0 past them.
#[derive(Clone, Copy)]
pub struct Figures {
    pub wire: [WireFigures; Table::WIRES_MOST],
    pub end: [u64; Table::CHANNELS_MOST],
}

// What working out the bounds leaves: the table and its figures. They go by the same numbers, and stay two: `sheet::write` takes
// figures without a table.
#[derive(Clone, Copy)]
pub struct Bounded {
    pub table: Table,
    pub figures: Figures,
}

// Where a label starts in its roll, and its length.
#[derive(Clone, Copy)]
pub struct Stretch {
    pub start: usize,
    pub length: usize,
}

impl Table {
    pub const SLOT_NS: usize = 80;

    pub const HYPER_BITS: usize = 24;

    pub const HYPER_MOST: usize = 12_500_000;

    pub const WIRES_BITS: usize = 7;

    pub const WIRES_MOST: usize = 64;

    pub const CHANNELS_BITS: usize = 8;

    pub const CHANNELS_MOST: usize = 128;

    pub const HEAD_BITS: usize = Table::HYPER_BITS + Table::WIRES_BITS + Table::CHANNELS_BITS;

    pub const RATE_BITS: usize = 2;

    pub const PROP_BITS: usize = 10;

    pub const ROOM_BITS: usize = 24;

    pub const WIRE_BITS: usize = Table::RATE_BITS + Table::PROP_BITS + Table::ROOM_BITS;

    pub const FRAMING_BITS: usize = 1;

    pub const PAYLOAD_BITS: usize = 16;

    pub const PAYLOAD_MOST: usize = 65_535;

    pub const PERIOD_BITS: usize = 24;

    pub const DEADLINE_BITS: usize = 24;

    pub const HOPS_BITS: usize = 4;

    pub const HOPS_MOST: usize = 8;

    pub const ROUTES_MOST: usize = Table::CHANNELS_MOST * Table::HOPS_MOST;

    pub const FIXED_BITS: usize = Table::FRAMING_BITS
        + Table::PAYLOAD_BITS
        + Table::PERIOD_BITS
        + Table::DEADLINE_BITS
        + Table::HOPS_BITS;

    pub const HOP_BITS: usize = 6;

    pub const LONGEST: usize = 2_165;

    pub const SHEET_HEAD_BITS: usize = Table::WIRES_BITS + Table::CHANNELS_BITS;

    pub const BACKLOG_BITS: usize = 24;

    pub const DELAY_BITS: usize = 24;

    pub const FIGURES_BITS: usize = Table::BACKLOG_BITS + Table::DELAY_BITS;

    pub const END_BITS: usize = 28;

    pub const SHEET_LONGEST: usize = 834;

    pub const TEXT_ENOUGH: usize = 5_520;
}

// The constants above, each tied to its number in the definitions.
pub fn constants() -> [usize; 30]
    ensures { result ≡ numbers }
{
    [
        Table::SLOT_NS,
        Table::HYPER_BITS,
        Table::HYPER_MOST,
        Table::WIRES_BITS,
        Table::WIRES_MOST,
        Table::CHANNELS_BITS,
        Table::CHANNELS_MOST,
        Table::HEAD_BITS,
        Table::RATE_BITS,
        Table::PROP_BITS,
        Table::ROOM_BITS,
        Table::WIRE_BITS,
        Table::FRAMING_BITS,
        Table::PAYLOAD_BITS,
        Table::PAYLOAD_MOST,
        Table::PERIOD_BITS,
        Table::DEADLINE_BITS,
        Table::HOPS_BITS,
        Table::HOPS_MOST,
        Table::ROUTES_MOST,
        Table::FIXED_BITS,
        Table::HOP_BITS,
        Table::LONGEST,
        Table::SHEET_HEAD_BITS,
        Table::BACKLOG_BITS,
        Table::DELAY_BITS,
        Table::FIGURES_BITS,
        Table::END_BITS,
        Table::SHEET_LONGEST,
        Table::TEXT_ENOUGH,
    ]
}
