// What C links: each export is the function of magsurinda of the same name, with the same clauses.
// The twins stay: C links a static library, and the laws of one reply need a library.
#![tactic(auto)]

ghost use Rattle.std.specs.Prelude.{◌≡◌, length};
ghost use Rattle.rules.specs.Judgement.{judge as judge_of, buffer};
ghost use Rattle.rules.specs.Numbers.{requests};
ghost use Rattle.rules.specs.Price.{ask_price};
ghost use Rattle.rules.specs.Sheet.{ask_wire, ask_channel};
ghost use Rattle.rules.specs.Roll.{ask_label};
ghost use Rattle.magsurinda.specs.Packed.{packed, only, figures, stretch};

#[unsafe(no_mangle)]
pub extern "C" fn magsurinda_judge(table: &[u8], sheet: &mut [u8]) -> u64
    ensures value { result ≡ packed only (judge_of table.now (length sheet.old)) }
    ensures sheet_after { sheet.new ≡ buffer table.now (length sheet.old) }
{
    magsurinda::magsurinda_judge(table, sheet)
}

#[unsafe(no_mangle)]
pub extern "C" fn magsurinda_price(framing: u64, payload: u64) -> u64
    ensures { result ≡ packed only (ask_price framing payload) }
{
    magsurinda::magsurinda_price(framing, payload)
}

#[unsafe(no_mangle)]
pub extern "C" fn magsurinda_ask_wire(sheet: &[u8], wire: u64) -> u64
    ensures { result ≡ packed figures (ask_wire sheet.now wire) }
{
    magsurinda::magsurinda_ask_wire(sheet, wire)
}

#[unsafe(no_mangle)]
pub extern "C" fn magsurinda_ask_channel(sheet: &[u8], channel: u64) -> u64
    ensures { result ≡ packed only (ask_channel sheet.now channel) }
{
    magsurinda::magsurinda_ask_channel(sheet, channel)
}

#[unsafe(no_mangle)]
pub extern "C" fn magsurinda_label(roll: &[u8], number: u64) -> u64
    ensures { result ≡ packed stretch (ask_label roll.now number) }
{
    magsurinda::magsurinda_label(roll, number)
}

// Bit k is set where request Q-k is in.
#[unsafe(no_mangle)]
pub extern "C" fn magsurinda_requests() -> u64
    ensures { result ≡ requests }
{
    magsurinda::magsurinda_requests()
}
