// Input, whole or line by line, through a buffer that the caller lends; and words and numbers as output.
#![tactic(auto)]

ghost use Rattle.std.specs.Prelude.{ℕ, ◌<◌, ◌≤◌, ◌≡◌, OnErr, get_or, length};
ghost use Rattle.std.specs.Bool.{OnTrue};
ghost use Rattle.std.specs.Io.KnownBytes.{Appends};
ghost use Rattle.console.specs.Reading.{LineIn, Within, nothing_read};

use std::io;
use std::io::{Read, Stderr, Write};
use std::ops::Range;

// Reads until nothing is left or the buffer is full: so many bytes, at the start of the buffer.
pub fn read_whole<R: Read>(input: &mut R, buffer: &mut [u8]) -> io::Result<usize>
    ensures { Within result buffer.new }
{
    let mut n = 0;
    // By hand: of std's methods `read_exact` loses the count where the input ends early, and the others read into a heap.
    while n < buffer.len() {
        let more = input.read(&mut buffer[n..])?;
        if more == 0 {
            break;
        }
        n += more;
    }
    Ok(n)
}

// Where the first byte `stop` stands, or the end.
// The end and no Option: its clauses `within` and `found` are of that place.
pub fn find(bytes: &[u8], stop: u8) -> usize
    ensures within { result ≤ length bytes.now }
    ensures before { (k : ℕ) → k < result → get_or bytes.now k 0 ≡ stop → ⊥ }
    ensures found { result < length bytes.now → get_or bytes.now result 0 ≡ stop }
{
    bytes
        .iter()
        .position(|byte| *byte == stop)
        .unwrap_or(bytes.len())
}

// What a turn found.
#[derive(Clone, Copy, Debug, PartialEq, Eq)]
pub enum Found {
    // The places of a line in the buffer, without its newline; the last line need not have one. A slice in their place would
    // go on borrowing the buffer, and `LineIn` could not say what stands there after the call; a Range would not be Copy.
    Line { start: usize, end: usize },
    // A line that does not fit the buffer, and is passed over.
    TooLong,
    // Nothing yet.
    Nothing,
    End,
}

// What was read and not yet handed out stands at from..to of the buffer.
#[derive(Clone, Copy, Default)]
pub struct Lines {
    pub from: usize,
    pub to: usize,
    // It goes on with a line that is too long. A fact on its own, as `ended` is: they rule no other field.
    pub cut: bool,
    // Nothing comes after it.
    pub ended: bool,
}

impl Lines {
    // Before the first line.
    pub fn new() -> Lines
        ensures { result ≡ nothing_read }
    {
        Lines::default()
    }

    // The next line, with at most one read, so that there may be nothing yet. A place outside the buffer counts as its end.
    pub fn next<R: Read>(&mut self, input: &mut R, buffer: &mut [u8]) -> io::Result<Found>
        ensures line { LineIn result buffer.new }
        ensures failed { OnErr result (self.new ≡ nothing_read) }
    {
        let to = self.to.min(buffer.len());
        let from = self.from.min(to);
        let end = from + find(&buffer[from..to], b'\n');
        if end < to {
            let found = if self.cut {
                Found::Nothing
            } else {
                Found::Line { start: from, end }
            };
            *self = Lines {
                from: end + 1,
                to,
                cut: false,
                ended: self.ended,
            };
            return Ok(found);
        }
        if self.ended {
            *self = Lines::new();
            return Ok(Found::Line {
                start: from,
                end: to,
            });
        }
        if self.cut {
            return self.read_on(input, buffer, to..to);
        }
        if end - from == buffer.len() {
            *self = Lines {
                cut: true,
                ..Lines::new()
            };
            return Ok(Found::TooLong);
        }
        self.read_on(input, buffer, from..to)
    }

    // Moves the rest of a line to the start of the buffer, and reads behind it. A read that fails leaves nothing of it.
    fn read_on<R: Read>(
        &mut self,
        input: &mut R,
        buffer: &mut [u8],
        rest: Range<usize>,
    ) -> io::Result<Found>
        requires { (rest.start ≤ rest.end) × (rest.end ≤ length buffer.old) }
        ensures line { LineIn result buffer.new }
        ensures failed { OnErr result (self.new ≡ nothing_read) }
    {
        let cut = self.cut;
        *self = Lines::new();
        let kept = rest.len();
        buffer.copy_within(rest, 0);
        let more = input.read(&mut buffer[kept..])?;
        let to = kept + more;
        if to == 0 {
            return Ok(Found::End);
        }
        let ended = more == 0;
        *self = Lines {
            from: 0,
            to,
            cut,
            ended,
        };
        Ok(Found::Nothing)
    }
}

// Whether all of it was written.
// A bool and no Result: its clause is an `OnTrue`.
pub fn write<W: Write>(output: &mut W, text: &[u8]) -> bool
    ensures { OnTrue result (Appends (W.contents output.old) (W.contents output.new) text.now) }
{
    output.write_all(text).is_ok()
}

// It lets the reply go, as the three below do: docs/CONTRACTS.md names them, and says so.
pub fn print<W: Write>(output: &mut W, text: &[u8]) {
    write(output, text);
}

// A blank and a number.
pub fn print_number<W: Write>(output: &mut W, n: u64) {
    let _ = write!(output, " {n}");
}

// Bytes in hexadecimal, or "-" where there are none.
pub fn print_hex<W: Write>(output: &mut W, bytes: &[u8]) {
    if bytes.is_empty() {
        print(output, b"-");
    }
    for byte in bytes {
        let _ = write!(output, "{byte:02x}");
    }
}

pub fn complain(mut errors: Stderr, text: &[u8]) {
    write(&mut errors, text);
}
