#![tactic(auto)]

// The recovery step over a lent image, of the old form, or with `headed` of either: the image is judged whole, and one log entry is put back to its line.
ghost use Rattle.std.specs.Prelude.{◌≡◌, true};
ghost use Rattle.rules.specs.Recovery.{line_start};
ghost use Rattle.headed.specs.Reader.{read_as};
ghost use Rattle.headed.specs.Recovery.{recovery_call_as, restore_as};
ghost use Rattle.reading.specs.Scan.{by_number, read_of};
ghost use Rattle.recovery.specs.Places.{lent_at, left_by, next_of, restored_of, called_with, entry_call, entry_told};
ghost use Rattle.recovery.specs.Tells.{EntriesTold};

use measures::Line;
use reading::Scan;
use rules::{Answer, Refusal};

/// What a step by value gives: its answer, and the place behind it.
#[derive(Clone, Copy)]
pub struct Walked {
    pub answer: Answer,
    pub at: u64,
}

/// The log entry that a step restores: its region's key, its line and what goes back to it; and whether entries remain after it.
// Kept: plain state; `next_by` of specs/ tells `more` of every entry.
#[derive(Clone, Copy)]
pub struct Next {
    pub key: u32,
    pub line: u8,
    pub old: Line,
    pub more: bool,
}

// The image's reading: 8 after all other refusals.
// Kept: here and below `headed` stands beside the image, as `read_as` and `restore_as` of specs/ take it.
fn read_image(src: &[u8], headed: bool) -> Result<Scan, Refusal>
    ensures { by_number result ≡ read_of src.now (read_as headed src.now) }
{
    let scan = reading::read_records(src, headed)?;
    if judging::contradicts(scan.regions(), scan.log()) {
        return Err(Refusal::Contradiction);
    }
    Ok(scan)
}

/// What a recovery step at a place finds: none where the place is past the last entry. Refusals: those of `reading::read_records`, then 8 for an image that
/// contradicts itself.
pub fn next_entry(image: &[u8], at: u64, headed: bool) -> Result<Option<Next>, Refusal>
    ensures { by_number result ≡ next_of (read_as headed image.now) at }
{
    let scan = read_image(image, headed)?;
    let log = scan.log();
    let order = walking::walk_order(scan.regions());
    let Some(index) = walking::entry_at(&order, log, at as usize) else {
        return Ok(None);
    };
    let mark = log[index];
    let old = lines::take_line(image, mark.at as usize);
    let after = at as usize + 1;
    let more = walking::entry_at(&order, log, after).is_some();
    Ok(Some(Next {
        key: mark.key,
        line: mark.line,
        old,
        more,
    }))
}

// The entry at a place in an image of either form: its region's key and its line in one number, 0 where none is left.
// Kept: the C interface packs line and key.
fn entry_value(image: &[u8], at: u64) -> Result<u64, Refusal>
    ensures { by_number result ≡ entry_told (next_of (read_as true image.now) at) }
{
    let Some(next) = next_entry(image, at, true)? else {
        return Ok(0);
    };
    Ok(256 * next.key as u64 + next.line as u64)
}

/// The log entry that a recovery step at a place would restore, in an image of either form: its region's key and its line in one number, 0 where none is left.
pub fn entry_call(image: &[u8], at: u64) -> Answer
    ensures { result ≡ entry_call image.now at }
{
    Answer::from(entry_value(image, at))
}

/// What the call above tells of the step at its place, on any bytes.
pub fn entries_are_told()
    ensures { EntriesTold }
{}

/// Where the 64 bytes of a line stand in an image.
pub fn line_start(line: u8) -> usize
    ensures { result ≡ line_start line }
{
    4 + (65 * (line as usize) + 1)
}

/// A recovery step at a place by value: the entry there goes back to its line, and the place behind it is the next one. Nothing changes where the image is
/// refused or no entry is left. It answers 1 while entries remain after it, else 0.
// Kept: an `Answer`, as `restore_as` of specs/ and the C interface have it; so too in `step`.
pub fn step_at(image: &mut [u8], at: u64, headed: bool) -> Walked
    ensures { restored_of image.new result ≡ restore_as headed (record { bytes = image.old; at = at }) }
{
    match next_entry(image, at, headed) {
        Ok(Some(next)) => {
            lines::put_line_at(image, line_start(next.line), next.old);
            Walked {
                answer: Answer::from(Ok(u64::from(next.more))),
                at: at + 1,
            }
        }
        Ok(None) => Walked {
            answer: Answer::from(Ok(0)),
            at,
        },
        Err(refusal) => Walked {
            answer: Answer::from(Err(refusal)),
            at,
        },
    }
}

/// The walk's own place: the number of steps made since the last cut.
#[derive(Clone, Copy)]
pub struct Place {
    pub steps: u64,
}

/// A recovery step that moves a lent place on.
pub fn step(image: &mut [u8], place: &mut Place, headed: bool) -> Answer
    ensures { left_by result image.new place.new ≡ restore_as headed (lent_at image.old place.old) }
{
    let walked = step_at(image, place.steps, headed);
    place.steps = walked.at;
    walked.answer
}

/// A recovery step for a caller whose place is eight lent bytes, little-endian: 6 for a place of another length, before any other check.
pub fn recovery_call(image: &mut [u8], place: &mut [u8], headed: bool) -> Answer
    ensures { called_with result image.new place.new ≡ recovery_call_as headed image.old place.old }
{
    if place.len() != 8 {
        return Answer::from(Err(Refusal::OutOfRange));
    }
    let mut lent = Place {
        steps: lines::take_word(place, 0),
    };
    let answer = step(image, &mut lent, headed);
    lines::put_word(place, 0, lent.steps);
    answer
}
