// The price of a message, and the rates of wires.
// Between usize and u64, of 64 bits each, `as` stands: there is no From, and `try_from` would answer an Err that cannot come.
#![tactic(auto)]

ghost use Rattle.std.specs.Prelude.{◌≡◌, ◌≤◌, ◌<◌, get_or};
ghost use Rattle.rules.specs.Numbers.{rates, payload_most};
ghost use Rattle.rules.specs.Replies.{pricing_reply};
ghost use Rattle.rules.specs.Price.{row_of, last_bytes, price as price_of, ask_price};
ghost use Rattle.framing.specs.Named.{Named, framing_number};

use rules::{Refusal, Row, Table};

// The table of framings: plain; with IP and UDP.
const PLAIN: Row = Row {
    most: 1492,
    overhead: 50,
    least: 38,
};

const UDP: Row = Row {
    most: 1464,
    overhead: 78,
    least: 10,
};

// By rate code.
const RATES: [u64; 3] = [1, 10, 100];

#[derive(Clone, Copy)]
enum Framing {
    Plain,
    Udp,
}

impl Framing {
    fn row(self) -> Row
        ensures { result ≡ row_of (framing_number self) }
    {
        match self {
            Framing::Plain => PLAIN,
            Framing::Udp => UDP,
        }
    }
}

impl TryFrom<u64> for Framing {
    type Error = Refusal;

    ghost try_from_gives = { Named };

    fn try_from(number: u64) -> Result<Framing, Refusal> {
        match number {
            0 => Ok(Framing::Plain),
            1 => Ok(Framing::Udp),
            _ => Err(Refusal::Framing),
        }
    }
}

// The rate in bytes a slot of a rate code, and 0 where the code has none.
// 0 and no Option: its clause reads it as `get_or rates code 0`.
pub fn rate(code: u64) -> u64
    ensures { result ≡ get_or rates code 0 }
{
    RATES.get(code as usize).copied().unwrap_or(0)
}

// The frame that a remainder adds.
#[tactic(auto, unfolding(rules::specs::Price::last_bytes))]
fn last_bytes(row: Row, rest: u64) -> u64
    requires { (rest ≤ 65535) × (row.overhead ≤ 65535) }
    ensures { result ≡ last_bytes row rest }
{
    if rest == 0 {
        0
    } else if row.least <= rest {
        rest + row.overhead
    } else {
        Row::SMALL_FRAME
    }
}

// Asking a price, of any two numbers: refusal 20, then 6.
pub fn price(framing: u64, payload: u64) -> Result<u64, Refusal>
    ensures { pricing_reply result ≡ ask_price framing payload }
{
    let row = Framing::try_from(framing)?.row();
    if !(1..=Table::PAYLOAD_MOST as u64).contains(&payload) {
        return Err(Refusal::Payload(0));
    }
    Ok(payload / row.most * Row::FULL_FRAME + last_bytes(row, payload % row.most))
}
