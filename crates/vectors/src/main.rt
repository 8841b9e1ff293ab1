// Runs vectors over the proved crates. Of each line of standard input, a case, it writes the reply as it stands after the
// line's `->`, which it never reads.
// Between usize and u64, of 64 bits each, `as` stands: there is no From, and `try_from` would answer an Err that cannot come.
#![tactic(auto)]

use console::{Found, Lines, print, print_number};
use rules::Refusal;
use std::io::{Stderr, Stdin, Stdout};

mod text;

// A line of so many bytes or more is too long.
const LINE_MOST: usize = 32_768;

// No line holds a longer byte string.
const BYTES_MOST: usize = 16_384;

// The letter and the numbers of what was granted, or R and the refusal.
fn reply<const N: usize>(output: &mut Stdout, letter: &[u8], answer: Result<[u64; N], Refusal>) {
    match answer {
        Ok(numbers) => {
            print(output, letter);
            for number in numbers {
                print_number(output, number);
            }
        }
        Err(refusal) => {
            print(output, b"R");
            print_number(output, refusal.number());
            print_number(output, refusal.place() as u64);
        }
    }
}

fn price(output: &mut Stdout, framing: u64, payload: u64) {
    let price = framing::price(framing, payload).map(|bytes| [bytes]);
    reply(output, b"V", price);
}

// The reply, and the lent buffer afterwards. It is lent full of 85, which is neither a refusal's filling nor zeros.
fn judged(output: &mut Stdout, table: &[u8], lent: u64) {
    let mut buffer = [85u8; BYTES_MOST];
    let Some(sheet) = buffer.get_mut(..lent as usize) else {
        print(output, b"lent too long");
        return;
    };
    let length = judge::judge(table, sheet).map(|length| [length as u64]);
    reply(output, b"A", length);
    print(output, b" ");
    console::print_hex(output, sheet);
}

fn wire(output: &mut Stdout, sheet: &[u8], index: u64) {
    let figures = sheet::ask_wire(sheet, index).map(|wire| [wire.backlog, wire.delay]);
    reply(output, b"V", figures);
}

fn channel(output: &mut Stdout, sheet: &[u8], index: u64) {
    let delay = sheet::ask_channel(sheet, index).map(|delay| [delay]);
    reply(output, b"V", delay);
}

// Where the stretch starts and ends: within the roll, which the reply's contract does not say by itself.
fn label(output: &mut Stdout, roll: &[u8], number: u64) {
    let stretch = roll::ask(roll, number).map(|label| {
        let end = label.start.saturating_add(label.length);
        [label.start as u64, end as u64]
    });
    reply(output, b"V", stretch);
}

// BYTES NUMBER, and what is asked of them.
fn of_bytes<F: FnOnce(&mut Stdout, &[u8], u64)>(output: &mut Stdout, words: &[u8], asked: F)
    requires { F.IsAlwaysCallable asked }
{
    let mut space = [0u8; BYTES_MOST];
    let bytes = text::bytes(words, &mut space);
    asked(output, bytes, text::number(text::rest(words)));
}

// KIND, then but for a price and a label the layout 1, then what is asked of.
fn case(output: &mut Stdout, line: &[u8]) {
    let words = text::rest(line);
    match line.first() {
        Some(b'P') => price(output, text::number(words), text::number(text::rest(words))),
        Some(b'N') => of_bytes(output, words, label),
        Some(b'J') => of_bytes(output, text::rest(words), judged),
        Some(b'W') => of_bytes(output, text::rest(words), wire),
        Some(b'C') => of_bytes(output, text::rest(words), channel),
        _ => print(output, b"no such case"),
    }
    print(output, b"\n");
}

// Nothing says that the input ends: the turns do, after longer than any machine runs.
fn cases(mut input: Stdin, mut output: Stdout, errors: Stderr, buffer: &mut [u8]) {
    let mut lines = Lines::new();
    for _ in 0..u64::MAX {
        match lines.next(&mut input, buffer) {
            Ok(Found::Line { start, end }) => case(&mut output, &buffer[start..end]),
            Ok(Found::TooLong) => print(&mut output, b"line too long\n"),
            Ok(Found::Nothing) => {}
            Ok(Found::End) => return,
            Err(_) => {
                console::complain(errors, b"vectors: standard input cannot be read\n");
                return;
            }
        }
    }
}

fn main(rt: HostRuntime) {
    let mut buffer = [0u8; LINE_MOST];
    cases(rt.stdin(), rt.stdout(), rt.stderr(), &mut buffer);
}
