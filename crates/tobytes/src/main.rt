#![tactic(auto)]

// Reads an event file in the readable form on standard input and writes its bytes. The text may have any length: it is read in pieces.
// The first line that is not in the form is named on standard error: the bytes of all lines before it go out, and nothing after them.
// In whatever pieces a text comes, the bytes that go out are its (`Ran`). The contracts say what is read and what goes out where a reader's and a writer's bytes
// are known (`RanOver`); of standard input and output no contract can: each turn's contract says what it hands over.
ghost use Rattle.std.specs.Prelude.{◌≡◌, ◌≤◌, length, take};
ghost use Rattle.pieces.specs.Streams.{AppendsFront};
ghost use Rattle.tobytes.specs.Results.{RanOver, Turned, between, complaint, goes_on, is_bad, line_end, sent_all, start};

use output::Writer;
use pieces::{Stage, Streams, Unsent};
use std::io::{Read, Stderr, Stdin, Stdout, Write};

// A piece of the text, and its bytes: a byte of text is at most four bytes of a record.
const PIECE: usize = 65536;

const BYTES: usize = 4 * PIECE;

// What a piece leaves: how many bytes at the front of the buffer are not yet read, how many lines are, whether all were in the form, whether their bytes went
// out, and whether nothing more came.
// Kept as flags: `Pieced` tells `form` and `last`, `RanOver` tells `sent`, also where the bytes did not go out. No heap, so `held` counts bytes of a buffer.
#[derive(Clone, Copy)]
struct Left {
    held: usize,
    read: u64,
    form: bool,
    sent: bool,
    last: bool,
}

// A text that is read as long as its lines are in the form: a piece of it, the bytes of that, and what is left.
#[derive(Drop)]
struct Lines {
    text: [u8; PIECE],
    bytes: [u8; BYTES],
    left: Left,
}

impl Lines {
    fn new() -> Lines
        ensures { result.left ≡ start }
    {
        Lines {
            text: [0; PIECE],
            bytes: [0; BYTES],
            left: Left {
                held: 0,
                read: 0,
                form: true,
                sent: true,
                last: false,
            },
        }
    }

    // Whether a line is not in the form: one that was read, or one that the buffer can't hold.
    #[tactic(auto, unfolding(crate::specs::Results::is_bad))]
    fn is_bad(&self) -> bool
        ensures { result ≡ is_bad self.now.left (length self.now.text) }
    {
        !self.left.form || (self.left.sent && !self.left.last && self.text.len() <= self.left.held)
    }
}

// Where the lines of a piece end that are read.
// Kept: whether the input has ended is a value that goes on changing, and two functions chosen by it are no plainer.
fn line_end(piece: &[u8], last: bool) -> usize
    ensures { (result ≡ line_end last piece.now) × (result ≤ length piece.now) }
{
    if last {
        piece.len()
    } else {
        parsing::whole_lines(piece)
    }
}

impl Stage for Lines {
    ghost follows = { λ s. goes_on s.left (length s.text) };

    ghost sent = { λ s. s.left.sent };

    ghost Turn = { λ s t new out. Turned (between s.text s.left) (between t.text t.left) new out };

    // Whether a piece follows.
    #[tactic(auto, unfolding(crate::specs::Results::goes_on))]
    fn goes_on(&self) -> bool {
        self.left.sent && self.left.form && !self.left.last && self.left.held < self.text.len()
    }

    // Reads a piece behind the bytes that are held, and its lines, and writes their bytes.
    fn turn<R: Read, W: Write, E: Write>(&mut self, streams: &mut Streams<'_, R, W, E>) {
        let have = self.left.held;
        let n = streams.refill(&mut self.text, have);
        let last = n <= have;
        let end = line_end(&self.text[..n], last);
        let lines = parsing::read_text(&self.text[..end], &mut self.bytes);
        let sent = streams.flush(&self.bytes, lines.good).is_ok();
        self.left = Left {
            held: pieces::shift(&mut self.text, end, n),
            read: self.left.read.wrapping_add(lines.lines),
            form: lines.ok,
            sent,
            last,
        };
    }

    ghost follows_sent = { λ s e. sent_all s.left (length s.text) e };
}

// Reads piece by piece, as long as lines are in the form. `RanOver` is said of this program's text, `run` of any.
fn put_lines<R: Read, W: Write, E: Write>(lines: &mut Lines, streams: &mut Streams<'_, R, W, E>)
    requires { lines.old.left ≡ start }
    ensures { RanOver (R.remaining streams.old.input) (R.remaining streams.new.input) (W.contents streams.old.output) (W.contents streams.new.output)
        lines.old.text lines.new.text lines.new.left }
{
    pieces::run(lines, streams);
}

// The message that a line is not in the form. Answers its length.
fn put_complaint(out: &mut [u8; 64], line: u64) -> usize
    ensures { (take result out.new ≡ complaint line) × (result ≤ 64) }
{
    let mut writer = Writer::new(out, 0);
    writer.put_all(b"line ");
    writer.put_decimal(line);
    writer.put_all(b" is not in the form\n");
    writer.cursor.at
}

// Says so.
// Kept: `complaint` of specs/ tells the bytes, at most 64; the library's formatter tells none, and no heap holds a String.
fn complain<E: Write>(errors: &mut E, line: u64) -> Result<(), Unsent>
    ensures { AppendsFront (E.contents errors.old) (E.contents errors.new) (complaint line) }
{
    let mut out = [0u8; 64];
    let n = put_complaint(&mut out, line);
    pieces::write_all(errors, &out[..n])
}

fn main(rt: HostRuntime) {
    let mut streams: Streams<'_, Stdin, Stdout, Stderr> = Streams {
        input: rt.stdin(),
        output: rt.stdout(),
        errors: rt.stderr(),
        name: b"tobytes",
    };
    let mut lines = Lines::new();
    put_lines(&mut lines, &mut streams);
    if lines.is_bad() {
        let _ = complain(&mut streams.errors, lines.left.read.wrapping_add(1));
    }
}
