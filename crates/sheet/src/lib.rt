// The sheet: writing it into a lent buffer, and asking any byte string for a wire or a channel of the sheet that it may be.
// Between usize and u64, of 64 bits each, `as` stands: there is no From, and `try_from` would answer an Err that cannot come.
#![tactic(auto)]

ghost use Rattle.std.specs.Prelude.{◌≡◌, ◌&&◌, true, ℕ, ◌*◌, ◌^◌, ◌≤◌, ◌<◌, length, IfOk, IfSome, is_some, ltb};
ghost use Rattle.std.specs.List.{list_all};
ghost use Rattle.rules.specs.Numbers.{wires_most, channels_most, backlog_bits, delay_bits, end_bits};
ghost use Rattle.rules.specs.Words.{between, entries};
ghost use Rattle.rules.specs.Replies.{Reply, after, wire_reply, channel_reply};
ghost use Rattle.rules.specs.Sheet.{figures_at, end_at, sheet_length};
ghost use Rattle.rules.specs.Sheet.{fits, with_head, with_channels, written_of, wrote_sheet};
ghost use Rattle.rules.specs.Sheet.{sheet_wires, sheet_channels, sheet_tests, ask_wire, ask_channel};
ghost use Rattle.sheet.specs.Writing.{backlogs, delays, wires_put, sheet_for};

use rules::{Figures, Refusal, Table, WireFigures};

const BYTE_BITS: usize = 8;

// What stands in every byte that is not the sheet's.
// Private in each of three crates: a shared one would be a public constant of a lower crate.
const NO_SHEET: u8 = 255;

// The bytes that hold the counts.
const HEAD_BYTES: usize = 2;

// Where a wire's figures start.
#[tactic(auto, unfolding(rules::specs::Sheet::figures_at))]
fn figures_at(wire: usize) -> usize
    requires { wire ≤ wires_most }
    ensures { result ≡ figures_at wire }
{
    Table::SHEET_HEAD_BITS + Table::FIGURES_BITS * wire
}

// The wires and channels that a sheet is of, each in its range.
#[derive(Clone, Copy)]
struct Counts {
    wires: usize,
    channels: usize,
    ghost in_range: { (1 ≤ wires) × (wires ≤ wires_most) × (1 ≤ channels) × (channels ≤ channels_most) },
}

impl Counts {
    // Nothing where a count is out of its range.
    fn new(wires: usize, channels: usize) -> Option<Counts>
        ensures answer { is_some result ≡ (between 1 wires wires_most && between 1 channels channels_most) }
        ensures counts { IfSome result (λ n. (n.wires ≡ wires) × (n.channels ≡ channels)) }
    {
        if (1..=Table::WIRES_MOST).contains(&wires)
            && (1..=Table::CHANNELS_MOST).contains(&channels)
        {
            Some(Counts { wires, channels })
        } else {
            None
        }
    }

    // Where a channel's delay starts, after the figures of all wires.
    #[tactic(auto, unfolding(rules::specs::Sheet::figures_at, rules::specs::Sheet::end_at))]
    fn end_at(self, channel: usize) -> usize
        requires { channel ≤ channels_most }
        ensures { result ≡ end_at self.wires channel }
    {
        figures_at(self.wires) + Table::END_BITS * channel
    }

    // The sheet's bytes.
    #[tactic(auto, unfolding(rules::specs::Sheet::sheet_length))]
    fn length(self) -> usize
        ensures { result ≡ sheet_length self.wires self.channels }
    {
        self.end_at(self.channels).div_ceil(BYTE_BITS)
    }

    // What a sheet's head says, where the tests before 19 pass.
    fn read(sheet: &[u8]) -> Result<Counts, Refusal>
        ensures tests { (rest : Reply) → sheet_tests sheet.now rest ≡ after result rest }
        ensures counts { IfOk result (λ n. (n.wires ≡ sheet_wires sheet.now) × (n.channels ≡ sheet_channels sheet.now)) }
    {
        if sheet.len() < HEAD_BYTES {
            return Err(Refusal::SheetLength);
        }
        let wires = bits::number(sheet, 0, Table::WIRES_BITS) as usize;
        let channels = bits::number(sheet, Table::WIRES_BITS, Table::CHANNELS_BITS) as usize;
        let counts = Counts::new(wires, channels).ok_or(Refusal::SheetCount)?;
        if sheet.len() != counts.length() {
            return Err(Refusal::SheetLength);
        }
        let end = counts.end_at(counts.channels);
        if bits::number(sheet, end, BYTE_BITS * sheet.len() - end) != 0 {
            return Err(Refusal::SheetFilling);
        }
        Ok(counts)
    }
}

// Whether each wire's figures fit their fields.
// Not one function with `ends_fit`: the two differ in what they look at.
fn wires_fit(figures: &[WireFigures]) -> bool
    ensures { result ≡ list_all (λ x. ltb x.backlog (2 ^ backlog_bits) && ltb x.delay (2 ^ delay_bits)) figures.now }
{
    figures.iter().all(|wire| {
        wire.backlog < 1 << Table::BACKLOG_BITS && wire.delay < 1 << Table::DELAY_BITS
    })
}

// Whether each channel's delay fits its field.
fn ends_fit(end: &[u64]) -> bool
    ensures { result ≡ list_all (λ x. ltb x (2 ^ end_bits)) end.now }
{
    end.iter().all(|delay| *delay < 1 << Table::END_BITS)
}

// Whether all figures fit.
fn fit(counts: Counts, figures: &Figures) -> bool
    ensures { result ≡ fits counts.wires counts.channels figures.now }
{
    let wire = &figures.wire[..counts.wires];
    let end = &figures.end[..counts.channels];
    wires_fit(wire) && ends_fit(end)
}

fn put_head(sheet: &mut [u8], counts: Counts)
    requires { figures_at 0 ≤ 8 * length sheet.old }
    ensures { sheet.new ≡ with_head counts.wires counts.channels sheet.old }
{
    bits::write(sheet, 0, Table::WIRES_BITS, counts.wires as u64);
    bits::write(
        sheet,
        Table::WIRES_BITS,
        Table::CHANNELS_BITS,
        counts.channels as u64,
    );
}

fn put_wires(sheet: &mut [u8], figures: &[WireFigures])
    requires inside { (length figures.now ≤ wires_most) × (figures_at (length figures.now) ≤ 8 * length sheet.old) }
    requires backlog_fits { (w : ℕ) → w < length figures.now → backlogs figures.now w < 2 ^ backlog_bits }
    requires delay_fits { (w : ℕ) → w < length figures.now → delays figures.now w < 2 ^ delay_bits }
    ensures { sheet.new ≡ wires_put figures.now sheet.old }
{
    for (w, wire) in figures.iter().enumerate() {
        let at = figures_at(w);
        bits::write(sheet, at, Table::BACKLOG_BITS, wire.backlog);
        bits::write(
            sheet,
            at + Table::BACKLOG_BITS,
            Table::DELAY_BITS,
            wire.delay,
        );
    }
}

fn put_channels(sheet: &mut [u8], counts: Counts, end: &[u64])
    requires inside { (length end.now ≤ channels_most) × (end_at counts.wires (length end.now) ≤ 8 * length sheet.old) }
    requires end_fits { (k : ℕ) → k < length end.now → entries end.now k < 2 ^ end_bits }
    ensures { sheet.new ≡ with_channels counts.wires (entries end.now) (length end.now) sheet.old }
{
    for (k, delay) in end.iter().enumerate() {
        bits::write(sheet, counts.end_at(k), Table::END_BITS, *delay);
    }
}

// The sheet of figures that fit, into as many bytes as it has.
fn put(sheet: &mut [u8], counts: Counts, figures: &Figures)
    requires fit { fits counts.wires counts.channels figures.now ≡ true }
    requires whole { length sheet.old ≡ sheet_length counts.wires counts.channels }
    ensures { sheet.new ≡ sheet_for counts.wires counts.channels figures.now }
{
    bits::fill(sheet, 0);
    put_head(sheet, counts);
    put_wires(sheet, &figures.wire[..counts.wires]);
    put_channels(sheet, counts, &figures.end[..counts.channels]);
}

// Three parameters and no struct: the clauses are of any counts and figures, in range or not.
// The sheet of these figures, and 255 in every byte after it; 255 alone, and no length, where something does not fit.
pub fn write(sheet: &mut [u8], wires: usize, channels: usize, figures: &Figures) -> Option<usize>
    ensures value { result ≡ written_of wires channels figures.now (length sheet.old) }
    ensures sheet_after { sheet.new ≡ wrote_sheet wires channels figures.now (length sheet.old) }
{
    bits::fill(sheet, NO_SHEET);
    let counts = Counts::new(wires, channels)?;
    let length = counts.length();
    if sheet.len() < length || !fit(counts, figures) {
        return None;
    }
    put(&mut sheet[..length], counts, figures);
    Some(length)
}

// Its backlog and delay, or the refusal.
pub fn ask_wire(sheet: &[u8], wire: u64) -> Result<WireFigures, Refusal>
    ensures { wire_reply result ≡ ask_wire sheet.now wire }
{
    let counts = Counts::read(sheet)?;
    if counts.wires as u64 <= wire {
        return Err(Refusal::NotInSheet);
    }
    let at = figures_at(wire as usize);
    let next = at + Table::BACKLOG_BITS;
    let backlog = bits::number(sheet, at, Table::BACKLOG_BITS);
    let delay = bits::number(sheet, next, Table::DELAY_BITS);
    Ok(WireFigures { backlog, delay })
}

// Its end-to-end delay, or the refusal.
pub fn ask_channel(sheet: &[u8], channel: u64) -> Result<u64, Refusal>
    ensures { channel_reply result ≡ ask_channel sheet.now channel }
{
    let counts = Counts::read(sheet)?;
    if counts.channels as u64 <= channel {
        return Err(Refusal::NotInSheet);
    }
    let at = counts.end_at(channel as usize);
    Ok(bits::number(sheet, at, Table::END_BITS))
}
