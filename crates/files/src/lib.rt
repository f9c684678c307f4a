#![tactic(auto)]

//! The run of an event file over lent starting memory: its answers, the image that its cut left, and the tables after it.
ghost use Rattle.std.specs.Prelude.{◌≡◌, ◌*◌, ◌≤◌, length};
ghost use Rattle.std.specs.Iterator.{item_count, YieldsFirstRef};
ghost use Rattle.std.proofs.lemmas.List.Edits.{sets};
ghost use Rattle.headed.specs.Image.{image_headed_call};
ghost use Rattle.listing.specs.Layout.{tables_call};
ghost use Rattle.rules.specs.Image.{image_call};
ghost use Rattle.rules.specs.Run.{answers_bytes, events_call, run, run_file};
ghost use Rattle.rules.specs.Tables.{Lent, Zero, fresh};
ghost use Rattle.rules.specs.Record.{records_of};
ghost use Rattle.files.specs.Parts.{size_of, wrote};

use rules::{Answer, Board, Refusal};

/// The bytes of an answer: the refusal, then the value in eight.
const ANSWER_BYTES: usize = 9;

// ---- records

/// The bytes of the record at the front; one that ends its file takes the rest of it.
#[tactic(auto, using(crate::proofs::Front::size_is))]
pub fn record_size(bytes: &[u8]) -> usize
    ensures { result ≡ size_of bytes.now }
{
    match events::record_length(bytes) {
        0 => bytes.len(),
        length => length,
    }
}

/// The records of a file, each with all that stands behind it.
#[derive(Drop)]
struct Records<'a>(&'a [u8]);

impl<'a> Iterator for Records<'a> {
    type Item = &'a [u8];

    ghost next_gives = { YieldsFirstRef (λ s. records_of s.0.now) };

    ghost remaining = { item_count (λ s. records_of s.0.now) };

    #[tactic(auto, using(crate::proofs::Front::front))]
    fn next(&mut self) -> Option<&'a [u8]> {
        let record = self.0;
        if record.is_empty() {
            return None;
        }
        self.0 = &record[record_size(record)..];
        Some(record)
    }
}

/// The number of records, and so of answers, of a file.
#[tactic(auto, using(crate::proofs::Front::records_short))]
fn record_count(file: &[u8]) -> usize
    ensures { result ≡ length (records_of file.now) }
{
    Records(file).count()
}

// ---- the run

// The records of a file one by one. The answers are written if there is room for all.
#[tactic(auto, using(crate::proofs::Runs::end_board, crate::proofs::Runs::end_bytes))]
fn run_records(board: &mut Board, file: &[u8], answers: &mut [u8])
    ensures board { board.new ≡ (run board.old (records_of file.now)).board }
    ensures answers { 9 * length (records_of file.now) ≤ length answers.old → answers.new ≡ sets answers.old 0 (answers_bytes (run board.old (records_of file.now)).answers) }
{
    let mut at = 0;
    for record in Records(file) {
        let answer = engine::event(board, record);
        lines::put_answer(answers, at, answer.refusal, answer.value);
        at = at.saturating_add(ANSWER_BYTES);
    }
}

// The run of a file over lent memory, on a board before setup over zero memory, which the caller makes: a board is large.
fn run_lent(board: &mut Board, file: &[u8], memory: &[u8], answers: &mut [u8])
    requires { board.old ≡ fresh Zero }
    ensures board { board.new ≡ (run_file (Lent memory.now) file.now).board }
    ensures answers { 9 * length (records_of file.now) ≤ length answers.old → answers.new ≡ sets answers.old 0 (answers_bytes (run_file (Lent memory.now) file.now).answers) }
{
    starting::lend(board, memory);
    run_records(board, file, answers);
}

// ---- the calls

/// Runs an event file over lent starting memory and writes the answers' bytes. The value is the number of answers; refused with 6 and nothing written if the
/// buffer is too short for them.
#[tactic(auto, using(crate::proofs::Call::call_refused, crate::proofs::Call::call_accepted))]
// Kept: the C interface, `board_events` of include/board.h.
pub fn run_file(file: &[u8], memory: &[u8], answers: &mut [u8]) -> Answer
    ensures { wrote result answers.new ≡ events_call file.now memory.now answers.old }
{
    let count = record_count(file);
    if answers.len() / ANSWER_BYTES < count {
        return Answer::from(Err(Refusal::OutOfRange));
    }
    let mut board = starting::zero();
    run_lent(&mut board, file, memory, answers);
    Answer::from(Ok(count as u64))
}

/// Runs an event file over lent starting memory and writes the old image that its cut left. Refused with 6 if no cut was accepted or the buffer is shorter than
/// the image.
#[tactic(auto, unfolding(rules::specs::Image::image_call))]
// Kept: the C interface, `board_image` of include/board.h.
pub fn run_image(file: &[u8], memory: &[u8], image: &mut [u8]) -> Answer
    ensures { wrote result image.new ≡ image_call file.now memory.now image.old }
{
    let mut board = starting::zero();
    run_lent(&mut board, file, memory, &mut []);
    saving::save(&board, image)
}

/// The same with the new image.
#[tactic(auto, unfolding(headed::specs::Image::image_headed_call))]
// Kept: the C interface, `board_image_headed` of include/board.h.
pub fn run_image_headed(file: &[u8], memory: &[u8], image: &mut [u8]) -> Answer
    ensures { wrote result image.new ≡ image_headed_call file.now memory.now image.old }
{
    let mut board = starting::zero();
    run_lent(&mut board, file, memory, &mut []);
    saving::save_headed(&board, image)
}

/// Runs an event file over lent starting memory and writes the tables after it, in the layout of crate listing. The value is the number of their bytes; refused
/// with 6 and nothing written if the buffer is shorter.
#[tactic(auto, unfolding(listing::specs::Layout::tables_call))]
// Kept: the C interface, `board_tables` of include/board.h.
pub fn run_tables(file: &[u8], memory: &[u8], tables: &mut [u8]) -> Answer
    ensures { wrote result tables.new ≡ tables_call file.now memory.now tables.old }
{
    let mut board = starting::zero();
    run_lent(&mut board, file, memory, &mut []);
    listing::put_tables(&board.tables, tables)
}
