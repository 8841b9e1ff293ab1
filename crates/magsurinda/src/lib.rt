// The C face (magsurinda_c exports it): each reply in 64 bits.
// Between usize and u64, of 64 bits each, `as` stands: there is no From, and `try_from` would answer an Err that cannot come.
#![tactic(auto)]

ghost use Rattle.std.specs.Prelude.{◌≡◌, ◌+◌, ◌*◌, ◌^◌, ◌<◌, length};
ghost use Rattle.rules.specs.Judgement.{judge as judge_of, buffer};
ghost use Rattle.rules.specs.Numbers.{requests};
ghost use Rattle.rules.specs.Price.{ask_price};
ghost use Rattle.rules.specs.Replies.{refusal_number, refusal_place};
ghost use Rattle.rules.specs.Sheet.{ask_wire, ask_channel};
ghost use Rattle.rules.specs.Roll.{ask_label};
ghost use Rattle.magsurinda.specs.Packed.{packing, packed, only, figures, stretch};

use rules::{Refusal, Stretch, WireFigures};

// One of a refusal's number, of its place, of a wire's backlog, and of a label's start.
const NUMBER: u64 = 1 << 56;

const PLACE: u64 = 1 << 48;

const BACKLOG: u64 = 1 << 24;

const START: u64 = 1 << 16;

fn pack_refusal(refusal: Refusal) -> u64
    requires { (refusal_number refusal < 2 ^ 8) × (refusal_place refusal < 2 ^ 8) }
    ensures { result ≡ packing (refusal_number refusal) (refusal_place refusal) 0 }
{
    refusal.number() * NUMBER + refusal.place() as u64 * PLACE
}

fn pack_wire(wire: WireFigures) -> u64
    requires { (wire.backlog < 2 ^ 24) × (wire.delay < 2 ^ 24) }
    ensures { result ≡ wire.backlog * 2 ^ 24 + wire.delay }
{
    wire.backlog * BACKLOG + wire.delay
}

fn pack_label(label: Stretch) -> u64
    requires { (label.start < 2 ^ 16) × (label.length < 2 ^ 16) }
    ensures { result ≡ label.start * 2 ^ 16 + label.length }
{
    label.start as u64 * START + label.length as u64
}

pub fn magsurinda_judge(table: &[u8], sheet: &mut [u8]) -> u64
    ensures value { result ≡ packed only (judge_of table.now (length sheet.old)) }
    ensures sheet_after { sheet.new ≡ buffer table.now (length sheet.old) }
{
    judge::judge(table, sheet).map_or_else(pack_refusal, |length| length as u64)
}

pub fn magsurinda_price(framing: u64, payload: u64) -> u64
    ensures { result ≡ packed only (ask_price framing payload) }
{
    framing::price(framing, payload).unwrap_or_else(pack_refusal)
}

pub fn magsurinda_ask_wire(sheet: &[u8], wire: u64) -> u64
    ensures { result ≡ packed figures (ask_wire sheet.now wire) }
{
    sheet::ask_wire(sheet, wire).map_or_else(pack_refusal, pack_wire)
}

pub fn magsurinda_ask_channel(sheet: &[u8], channel: u64) -> u64
    ensures { result ≡ packed only (ask_channel sheet.now channel) }
{
    sheet::ask_channel(sheet, channel).unwrap_or_else(pack_refusal)
}

pub fn magsurinda_label(roll: &[u8], number: u64) -> u64
    ensures { result ≡ packed stretch (ask_label roll.now number) }
{
    roll::ask(roll, number).map_or_else(pack_refusal, pack_label)
}

// Bit k is set where request Q-k is in.
pub fn magsurinda_requests() -> u64
    ensures { result ≡ requests }
{
    (1 << 2) + (1 << 4)
}
