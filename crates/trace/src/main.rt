#![tactic(auto)]

// Reads an event file on standard input, runs it over zero memory, and prints the text of each event. The file may have any length: it is read in pieces,
// and in whatever pieces it comes the texts that `tracing::trace_piece` gives make the text of the file (`Traces`). The contracts say what is read and what goes
// out where a reader's and a writer's bytes are known (`TracesOver`).
ghost use Rattle.std.specs.Prelude.{◌≡◌, replicate};
ghost use Rattle.trace.specs.Results.{Printed, TracesOver, between, goes_on, went_out};

use pieces::{Stage, Streams};
use rules::Board;
use std::io::{Read, Stderr, Stdin, Stdout, Write};

// A piece of the file: longer than the longest record, so that a full buffer without a whole record begins with an unknown kind, which ends the file.
const PIECE: usize = 65536;

// Text that is not yet written: room for the longest text of an event, and as much again.
const TEXT: usize = 2 * tracing::LONGEST_TEXT;

// What stands between two pieces: how many bytes at the front of the buffer are not yet run, whether the input has ended, whether the next record found no room,
// and whether all text went out.
// Kept as flags: `Between` and `TracesOver` of specs/ tell each by itself. No heap, so `held` counts bytes of a buffer.
#[derive(Clone, Copy)]
struct State {
    held: usize,
    last: bool,
    full: bool,
    sent: bool,
}

// An event file as it is run: its board, a piece of it, the text of that, and what is left.
#[derive(Drop)]
struct Run {
    board: Board,
    piece: [u8; PIECE],
    text: [u8; TEXT],
    state: State,
}

impl Stage for Run {
    ghost follows = { λ s. goes_on s.state.sent s.state.last s.state.full };

    ghost sent = { λ s. s.state.sent };

    ghost Turn = { λ s t new out. Printed (between s.board s.piece s.text s.state) (between t.board t.piece t.text t.state) new out };

    // Whether a piece follows: all text went out, and more may come or a record found no room.
    #[tactic(auto, unfolding(crate::specs::Results::goes_on))]
    fn goes_on(&self) -> bool {
        self.state.sent && (!self.state.last || self.state.full)
    }

    // Reads a piece behind the bytes that are held, runs it, prints its text, and keeps what is left. Where nothing more is read, it is the last one.
    fn turn<R: Read, W: Write, E: Write>(&mut self, streams: &mut Streams<'_, R, W, E>) {
        let have = self.state.held;
        let n = streams.fill(&mut self.piece, have, self.state.last);
        let last = n <= have;
        let traced = tracing::trace_piece(
            &mut self.board,
            &self.piece[..n],
            last,
            &mut self.text,
            0,
        );
        let sent = streams.flush(&self.text, traced.at).is_ok();
        self.state = State {
            held: pieces::shift(&mut self.piece, traced.passed, n),
            last,
            full: traced.full,
            sent,
        };
    }

    ghost follows_sent = { λ s e. went_out s.state.sent s.state.last s.state.full e };
}

// All of the input, over zero memory.
fn trace<R: Read, W: Write, E: Write>(streams: &mut Streams<'_, R, W, E>) -> Run
    ensures { TracesOver (R.remaining streams.old.input) (R.remaining streams.new.input) (W.contents streams.old.output) (W.contents streams.new.output)
        (replicate PIECE 0) result.piece (replicate TEXT 0) result.text result.state }
{
    let mut run = Run {
        board: starting::zero(),
        piece: [0; PIECE],
        text: [0; TEXT],
        state: State {
            held: 0,
            last: false,
            full: false,
            sent: true,
        },
    };
    pieces::run(&mut run, streams);
    run
}

fn main(rt: HostRuntime) {
    let mut streams: Streams<'_, Stdin, Stdout, Stderr> = Streams {
        input: rt.stdin(),
        output: rt.stdout(),
        errors: rt.stderr(),
        name: b"trace",
    };
    trace(&mut streams);
}
