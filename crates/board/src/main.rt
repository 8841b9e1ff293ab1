// Judges the table on standard input and writes document 01's text: one read of the input, one write of the text.
#![tactic(auto)]

use rules::Table;
use std::io::{Stderr, Stdout};

// A longer table has the reply of its first 2,166 bytes.
const ENOUGH: usize = Table::LONGEST + 1;

fn show(mut output: Stdout, errors: Stderr, table: &[u8]) {
    let mut said = [0u8; Table::TEXT_ENOUGH];
    let Some(length) = text::write(table, &mut said) else {
        console::complain(errors, b"board: the text is too long\n");
        return;
    };
    if !console::write(&mut output, &said[..length]) {
        console::complain(errors, b"board: standard output cannot be written\n");
    }
}

fn main(rt: HostRuntime) {
    let mut bytes = [0u8; ENOUGH];
    let Ok(n) = console::read_whole(&mut rt.stdin(), &mut bytes) else {
        console::complain(rt.stderr(), b"board: standard input cannot be read\n");
        return;
    };
    show(rt.stdout(), rt.stderr(), &bytes[..n]);
}
