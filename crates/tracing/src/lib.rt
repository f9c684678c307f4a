#![tactic(auto)]

// The text that a trace prints: a line for each answer, and behind an accepted cut a line for each word of the recovered memory that is not zero.
ghost use Rattle.std.specs.Prelude.{◌≡◌, cond, false, leb, ltb, get_or, length};
ghost use Rattle.events.specs.Whole.{record_length};
ghost use Rattle.rules.specs.Image.{save};
ghost use Rattle.output.specs.Room.{puts, room};
ghost use Rattle.output.specs.Writer.{Puts};
ghost use Rattle.wording.specs.Text.{cut_text, recovered_text};
ghost use Rattle.tracing.specs.Text.{behind_text, told_text};
ghost use Rattle.tracing.specs.Results.{Traces};
ghost use Rattle.tracing.specs.Pieces.{GoesOn, Ran};

use output::{Cursor, Writer};
use rules::{Answer, Board};

// The bytes of the longest image.
const LONGEST_IMAGE: usize = 34853;

/// The longest text of an event, in bytes: a line of 63, and behind a cut 256 lines of eight words, 65 bytes each.
pub const LONGEST_TEXT: usize = 133183;

// The recovered words of the image that is saved into a lent buffer; none where the save is refused.
// Kept: `save` of specs/ gives an `Answer`.
#[tactic(auto, using(crate::proofs::Saved::some_saved))]
fn saved_words(out: &mut Writer<'_>, board: &Board, image: &mut [u8])
    ensures { Puts out.old (recovered_text board.now.tables.size.lines (save board.now image.old)) out.new }
{
    let saved = saving::save(board, image);
    if saved.refusal == 0 {
        let size = saved.value as usize;
        wording::image_words(out, &mut image[..size], board.tables.size.lines);
    }
}

// The same of the image that a cut leaves. A call of its own: in line, each event would pay for the image's buffer.
#[inline(never)]
#[tactic(auto, unfolding(wording::specs::Text::cut_text, wording::specs::Text::image_buffer))]
fn cut_words(out: &mut Writer<'_>, board: &Board)
    ensures { Puts out.old (cut_text board.now) out.new }
{
    let mut image = [0; LONGEST_IMAGE];
    saved_words(out, board, &mut image);
}

// What stands behind the line of an answer: the recovered words if a cut is accepted.
// Kept: `step` of specs/ gives an `Answer`, and a kind is asked of bytes that may be no record: `behind_text` takes any number.
#[tactic(auto, using(output::proofs::Rooms::puts_none), unfolding(crate::specs::Text::behind_text))]
fn behind_words(out: &mut Writer<'_>, kind: u8, answer: Answer, board: &Board)
    ensures { Puts out.old (behind_text kind (record { board = board.now; answer = answer })) out.new }
{
    if kind == events::Kind::Cut.number() && answer.refusal == 0 {
        cut_words(out, board);
    }
}

// The text of an event that has left a board and an answer, from `at` on.
#[tactic(auto, using(output::proofs::Rooms::puts_join))]
fn put_text(dst: &mut [u8], at: usize, kind: u8, answer: Answer, board: &Board) -> Cursor
    ensures { room dst.new result ≡ puts (room dst.old (record { at = at; short = false })) (told_text kind (record { board = board.now; answer = answer })) }
{
    let mut out = Writer::new(dst, at);
    wording::answer_line(&mut out, kind, answer);
    behind_words(&mut out, kind, answer, board);
    out.cursor
}

// The first byte of a record, its kind; 0 where there is none.
fn kind_of(bytes: &[u8]) -> u8
    ensures { result ≡ get_or bytes.now 0 0 }
{
    bytes.first().copied().unwrap_or(0)
}

/// What an event leaves: the place behind its text, and the bytes of its record, 0 for one that ends its file.
// Kept as a number: `passes` of `TracedEvent` is `record_length`, 0 for a record that is not whole.
#[derive(Clone, Copy)]
pub struct Traced {
    pub at: usize,
    pub passed: usize,
}

// One event of a file: its step, and its text from `at` on. Without room for the longest text nothing is done.
fn trace_event(board: &mut Board, bytes: &[u8], dst: &mut [u8], at: usize) -> Option<Traced>
    ensures { Traces board.old board.new bytes.now dst.old dst.new at result }
{
    if !lines::has_room(dst.len(), at, LONGEST_TEXT) {
        return None;
    }
    let kind = kind_of(bytes);
    let answer = engine::event(board, bytes);
    let text = put_text(dst, at, kind, answer, board);
    Some(Traced {
        at: text.at,
        passed: events::record_length(bytes),
    })
}

// Whether a record is due at the front of a piece: a whole one, or in the last piece any.
// Kept: whether the input has ended is a value that goes on changing, and two functions chosen by it are no plainer.
fn is_due(rest: &[u8], last: bool) -> bool
    ensures { result ≡ cond last (ltb 0 (length rest.now)) (ltb 0 (record_length rest.now)) }
{
    if last {
        !rest.is_empty()
    } else {
        events::record_length(rest) > 0
    }
}

/// What a piece leaves: the place behind its text, the bytes that are run, and whether the next record found no room.
// Kept: `told` of `RanPiece` says it beside `stands`, `written` and `leaves`, which hold either way.
#[derive(Clone, Copy)]
pub struct TracedPiece {
    pub at: usize,
    pub passed: usize,
    pub full: bool,
}

/// The records of a piece of a file, one after the other, as long as there is room for their text, which stands in `dst` from `at` on. More bytes may come behind
/// a piece, unless it is the last one.
// Kept: `Ran` of specs/ speaks of the buffer and the place, so no writer stands for both.
pub fn trace_piece(
    board: &mut Board,
    piece: &[u8],
    last: bool,
    dst: &mut [u8],
    mut at: usize,
) -> TracedPiece
    ensures { Ran last board.old board.new piece.now dst.old dst.new at result }
{
    let mut passed = 0;
    while is_due(&piece[passed..], last) {
        let Some(traced) = trace_event(board, &piece[passed..], dst, at) else {
            return TracedPiece {
                at,
                passed,
                full: true,
            };
        };
        at = traced.at;
        if traced.passed == 0 {
            passed = piece.len();
            break;
        }
        passed += traced.passed;
    }
    TracedPiece {
        at,
        passed,
        full: false,
    }
}

/// In whatever pieces a file comes, what is printed is the text of its records.
pub fn pieces_are_right()
    ensures { GoesOn }
{}
