#![tactic(auto)]

// Reads an event file on standard input and writes it in the readable form. The file may have any length: it is read in pieces.
// In whatever pieces a file comes, the text that goes out is its (`Ran`). The contracts say what is read and what goes out where a reader's and a writer's bytes
// are known (`RanOver`); of standard input and output no contract can: each turn's contract says what it hands over.
ghost use Rattle.std.specs.Prelude.{◌≡◌, ◌&&◌, true, take, OnOk};
ghost use Rattle.events.specs.Whole.{record_length};
ghost use Rattle.totext.specs.Results.{Numbered, RanOver, RestedOver, Turned, between, goes_on, is_left, may_come, rest, sent_all, start};
ghost use Rattle.undo.proofs.Laws.{and_true};

use output::Writer;
use pieces::{Stage, Streams, Unsent};
use std::io::{Read, Stderr, Stdin, Stdout, Write};

// A piece of the file, and its text: a byte is at most 32 bytes of text.
const PIECE: usize = 4096;

const TEXT: usize = 32 * PIECE;

// What a piece leaves: how many bytes at the front of the buffer are no whole record, whether a whole record may still come, whether its lines went out,
// and whether nothing more came.
// Kept as flags: `Pieced` tells `more` and `last`, `RanOver` tells `sent`, also where the lines did not go out. No heap, so `held` counts bytes of a buffer.
#[derive(Clone, Copy)]
struct Left {
    held: usize,
    more: bool,
    sent: bool,
    last: bool,
}

// A file that is written as long as its records are whole: a piece of it, the text of that, and what is left.
#[derive(Drop)]
struct Records {
    file: [u8; PIECE],
    text: [u8; TEXT],
    left: Left,
}

impl Records {
    fn new() -> Records
        ensures { result.left ≡ start }
    {
        Records {
            file: [0; PIECE],
            text: [0; TEXT],
            left: Left {
                held: 0,
                more: true,
                sent: true,
                last: false,
            },
        }
    }
}

// Whether a whole record may still come, where `rest` is left and more was read than was held, or not.
#[tactic(auto, unfolding(crate::specs::Results::may_come, rules::specs::Kinds::kind_at))]
fn may_come(rest: &[u8], grew: bool) -> bool
    ensures { result ≡ may_come grew rest.now }
{
    match rest.first() {
        Some(kind) => grew && events::is_kind(*kind),
        None => grew,
    }
}

impl Stage for Records {
    ghost follows = { λ s. goes_on s.left };

    ghost sent = { λ s. s.left.sent };

    ghost Turn = { λ s t new out. Turned (between s.file s.left) (between t.file t.left) new out };

    // Whether a piece follows.
    #[tactic(auto, unfolding(crate::specs::Results::goes_on))]
    fn goes_on(&self) -> bool {
        self.left.sent && self.left.more
    }

    // Reads a piece behind the bytes that are held, writes its whole records, and keeps what is left.
    fn turn<R: Read, W: Write, E: Write>(&mut self, streams: &mut Streams<'_, R, W, E>) {
        let have = self.left.held;
        let n = streams.refill(&mut self.file, have);
        let mut writer = Writer::new(&mut self.text, 0);
        let passed = printing::put_whole(&mut writer, &self.file[..n]);
        let end = writer.cursor.at;
        let sent = streams.flush(&self.text, end).is_ok();
        let held = pieces::shift(&mut self.file, passed, n);
        self.left = Left {
            held,
            more: may_come(&self.file[..held], have < n),
            sent,
            last: n <= have,
        };
    }

    ghost follows_sent = { λ s e. sent_all s.left e };
}

// What is left of a file where no whole record can come, and goes out as numbers.
#[derive(Drop)]
struct Numbers(Records);

impl Stage for Numbers {
    ghost follows = { λ s. s.0.left.sent && is_left (rest s.0.file s.0.left.held) };

    ghost sent = { λ s. s.0.left.sent };

    ghost Turn = { λ s t new out. t.0.left.sent ≡ true → Numbered (rest s.0.file s.0.left.held) (rest t.0.file t.0.left.held) new out };

    // Whether bytes are held.
    fn goes_on(&self) -> bool {
        self.0.left.sent && 0 < self.0.left.held
    }

    // Writes the bytes that are held as numbers, and reads on, unless the input has ended.
    fn turn<R: Read, W: Write, E: Write>(&mut self, streams: &mut Streams<'_, R, W, E>) {
        let mut writer = Writer::new(&mut self.0.text, 0);
        let Some(held) = self.0.file.get(..self.0.left.held) else {
            self.0.left.sent = false;
            return;
        };
        printing::put_numbers(&mut writer, held);
        let end = writer.cursor.at;
        self.0.left.sent = streams.flush(&self.0.text, end).is_ok();
        if self.0.left.sent {
            self.0.left.held = streams.fill(&mut self.0.file, 0, self.0.left.last);
        }
    }

    ghost follows_sent = { λ s e. (and_true s.0.left.sent (is_left (rest s.0.file s.0.left.held)) e).0 };
}

// Writes records as long as they are whole: none is at the front of what is left. `RanOver` is said of this program's file, `run` of any.
fn put_records<R: Read, W: Write, E: Write>(
    records: &mut Records,
    streams: &mut Streams<'_, R, W, E>,
)
    requires { records.old.left ≡ start }
    ensures { RanOver (R.remaining streams.old.input) (R.remaining streams.new.input) (W.contents streams.old.output) (W.contents streams.new.output)
        records.old.file records.new.file records.new.left }
{
    pieces::run(records, streams);
}

// Writes what is left of the file as a line of bytes: those that are held, and all that is still to be read.
fn put_rest<R: Read, W: Write, E: Write>(
    rest: &mut Numbers,
    streams: &mut Streams<'_, R, W, E>,
) -> Result<(), Unsent>
    requires { record_length (take rest.old.0.left.held rest.old.0.file) ≡ 0 }
    ensures { OnOk result (RestedOver (R.remaining streams.old.input) (R.remaining streams.new.input) (W.contents streams.old.output) (W.contents streams.new.output)
        rest.old.0.file rest.new.0.file rest.old.0.left.held) }
{
    streams.send(b"bytes")?;
    pieces::run(rest, streams);
    if !rest.0.left.sent {
        return Err(Unsent);
    }
    streams.send(b"\n")
}

fn main(rt: HostRuntime) {
    let mut streams: Streams<'_, Stdin, Stdout, Stderr> = Streams {
        input: rt.stdin(),
        output: rt.stdout(),
        errors: rt.stderr(),
        name: b"totext",
    };
    // The rest stands where the records stood: a file's buffers are large, and there is one set of them.
    let mut rest = Numbers(Records::new());
    put_records(&mut rest.0, &mut streams);
    if rest.0.left.sent && 0 < rest.0.left.held {
        let _ = put_rest(&mut rest, &mut streams);
    }
}
