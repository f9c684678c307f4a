#![tactic(auto)]

// The calls for benches in C; include/board.h declares them. A slice is a pointer and a length. No call keeps state.
ghost use Rattle.std.specs.Prelude.{◌≡◌};
ghost use Rattle.rules.specs.Codes.{code_of};
ghost use Rattle.rules.specs.Image.{image_call};
ghost use Rattle.rules.specs.Recovery.{recovery_call};
ghost use Rattle.headed.specs.Image.{image_headed_call};
ghost use Rattle.headed.specs.Recovery.{recovery_headed_call};
ghost use Rattle.rules.specs.Run.{events_call, start_call};
ghost use Rattle.files.specs.Parts.{size_of, wrote};
ghost use Rattle.listing.specs.Layout.{tables_call};
ghost use Rattle.parsing.specs.Fault.{fault_of};
ghost use Rattle.recovery.specs.Places.{entry_call};
ghost use Rattle.text.specs.Calls.{bytes_call, text_call};
ghost use Rattle.board.specs.Recovered.{recovered};

use rules::{Answer, Refusal};

// The bytes of the parties and reserves of a setup.
const SHARES: usize = 10;

// What a setup with these numbers over lent memory meets.
fn setup(threads: u64, lines: u64, shares: &[u8], memory: &[u8]) -> Result<(), Refusal>
    ensures { record { refusal = code_of result; value = 0 } ≡ start_call threads lines shares.now memory.now }
{
    if shares.len() != SHARES {
        return Err(Refusal::OutOfRange);
    }
    let Ok(threads) = u8::try_from(threads) else {
        return Err(Refusal::OutOfRange);
    };
    let Ok(lines) = u16::try_from(lines) else {
        return Err(Refusal::OutOfRange);
    };
    let tables = starting::fresh_tables(false, memory.len() as u64);
    refusals::test_setup(tables.size, threads, lines, events::shares_at(shares))
}

/// The answer that setup with these numbers gets over the lent memory; `shares` are its ten bytes of parties and reserves.
#[unsafe(no_mangle)]
pub extern "C" fn board_start(threads: u64, lines: u64, shares: &[u8], memory: &[u8]) -> Answer
    ensures { result ≡ start_call threads lines shares.now memory.now }
{
    Answer::from(setup(threads, lines, shares, memory).map(|()| 0))
}

/// Runs an event file over lent starting memory and writes nine bytes for each answer; the value is the number of answers.
#[unsafe(no_mangle)]
pub extern "C" fn board_events(file: &[u8], memory: &[u8], answers: &mut [u8]) -> Answer
    ensures { wrote result answers.new ≡ events_call file.now memory.now answers.old }
{
    files::run_file(file, memory, answers)
}

/// Runs an event file in the same way and saves the image that its cut left; the value is the image's length.
#[unsafe(no_mangle)]
pub extern "C" fn board_image(file: &[u8], memory: &[u8], image: &mut [u8]) -> Answer
    ensures { wrote result image.new ≡ image_call file.now memory.now image.old }
{
    files::run_image(file, memory, image)
}

/// The same, and the image is a new one: its log entries stand under headers.
// Kept: the C interface has a name for each form.
#[unsafe(no_mangle)]
pub extern "C" fn board_image_headed(file: &[u8], memory: &[u8], image: &mut [u8]) -> Answer
    ensures { wrote result image.new ≡ image_headed_call file.now memory.now image.old }
{
    files::run_image_headed(file, memory, image)
}

/// One recovery step inside the image, at the place in eight bytes, little-endian: 'more' is the value 1, 'finished' the value 0.
// Kept: as `board_image_headed`.
#[unsafe(no_mangle)]
pub extern "C" fn board_recovery_step(image: &mut [u8], place: &mut [u8]) -> Answer
    ensures { recovered result image.new place.new ≡ recovery_call image.old place.old }
{
    recovery::recovery_call(image, place, false)
}

/// The same inside an image of either form.
// Kept: as `board_image_headed`.
#[unsafe(no_mangle)]
pub extern "C" fn board_recovery_step_headed(image: &mut [u8], place: &mut [u8]) -> Answer
    ensures { recovered result image.new place.new ≡ recovery_headed_call image.old place.old }
{
    recovery::recovery_call(image, place, true)
}

/// The log entry that a step at a place would restore, in an image of either form: the line, and above it the region's key; 0 where none is left.
#[unsafe(no_mangle)]
pub extern "C" fn board_recovery_entry(image: &[u8], place: u64) -> Answer
    ensures { result ≡ entry_call image.now place }
{
    recovery::entry_call(image, place)
}

/// The bytes of the record at the front of an event file; one that ends its file takes the rest of it.
#[unsafe(no_mangle)]
pub extern "C" fn board_record(file: &[u8]) -> Answer
    ensures { result ≡ record { refusal = 0; value = size_of file.now } }
{
    Answer::from(Ok(files::record_size(file) as u64))
}

/// Runs an event file in the same way and writes the tables after it; the value is the number of their bytes.
#[unsafe(no_mangle)]
pub extern "C" fn board_tables(file: &[u8], memory: &[u8], tables: &mut [u8]) -> Answer
    ensures { wrote result tables.new ≡ tables_call file.now memory.now tables.old }
{
    files::run_tables(file, memory, tables)
}

/// The readable form of an event file; the value is its length.
#[unsafe(no_mangle)]
pub extern "C" fn board_text(file: &[u8], text: &mut [u8]) -> Answer
    ensures { wrote result text.new ≡ text_call file.now text.old }
{
    text::write_text(file, text)
}

/// The bytes of a readable text; the value is their number.
#[unsafe(no_mangle)]
pub extern "C" fn board_bytes(text: &[u8], file: &mut [u8]) -> Answer
    ensures { wrote result file.new ≡ bytes_call text.now file.old }
{
    text::read_bytes(text, file)
}

/// Where the first fault of a readable text stands; its length where it has none.
#[unsafe(no_mangle)]
pub extern "C" fn board_fault_at(text: &[u8]) -> Answer
    ensures { result ≡ record { refusal = 0; value = (fault_of text.now).at } }
{
    text::fault_at(text)
}
