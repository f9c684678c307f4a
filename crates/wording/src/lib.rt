#![tactic(auto)]

// The lines of a trace: that of an answer, and those of the words that recovery leaves in an image.
// Every function puts its bytes behind a writer's cursor. Bytes that find no room are dropped, and the cursor says so.
ghost use Rattle.std.specs.Prelude.{◌≡◌};
ghost use Rattle.output.specs.Writer.{Puts};
ghost use Rattle.wording.specs.Text.{answer_text, image_line, line_text, memory_text, number_text, recovered, word_text};
ghost use Rattle.wording.specs.Claim.{WordsExpected};

use measures::{Line, MOST_LOGGED};
use output::Writer;
use rules::Answer;

// A number and the byte that ends it.
#[tactic(auto, using(output::proofs::Rooms::puts_join), unfolding(crate::specs::Text::number_text))]
fn put_number(out: &mut Writer<'_>, number: u64, end: u8)
    ensures { Puts out.old (number_text number end) out.new }
{
    out.put_decimal(number);
    out.put_byte(end);
}

/// The line of an answer: kind, refusal, value.
#[tactic(auto, using(output::proofs::Rooms::puts_join), unfolding(crate::specs::Text::answer_text))]
pub fn answer_line(out: &mut Writer<'_>, kind: u8, answer: Answer)
    ensures { Puts out.old (answer_text kind answer) out.new }
{
    put_number(out, u64::from(kind), b' ');
    put_number(out, u64::from(answer.refusal), b' ');
    put_number(out, answer.value, b'\n');
}

// The line of a recovered word; none for zero.
#[tactic(auto, using(output::proofs::Rooms::puts_join, output::proofs::Rooms::puts_none, crate::proofs::Texts::mark_puts), unfolding(crate::specs::Text::word_text))]
fn word_line(out: &mut Writer<'_>, line: u16, word: usize, value: u64)
    ensures { Puts out.old (word_text line word value) out.new }
{
    if value != 0 {
        out.put_all(b"M ");
        put_number(out, u64::from(line), b' ');
        put_number(out, word as u64, b' ');
        put_number(out, value, b'\n');
    }
}

// The lines of the words of a line.
#[tactic(auto, using(output::proofs::Rooms::puts_join, output::proofs::Rooms::puts_none, crate::proofs::Texts::flat_more, crate::proofs::Texts::flat_none), unfolding(crate::specs::Text::line_text))]
fn line_words(out: &mut Writer<'_>, line: u16, words: &Line)
    ensures { Puts out.old (line_text line words.now) out.new }
{
    for (word, &value) in words.iter().enumerate() {
        word_line(out, line, word, value);
    }
}

// A line of an image, out of its record; zero where the image does not hold it.
#[tactic(auto, unfolding(lines::specs::Room::line_in))]
fn image_line(image: &[u8], line: u16) -> Line
    ensures { result ≡ image_line image.now line }
{
    lines::take_line(image, 4 + (65 * usize::from(line) + 1))
}

// The lines of the words of an image's first lines.
#[tactic(auto, using(output::proofs::Rooms::puts_join, output::proofs::Rooms::puts_none, crate::proofs::Texts::flat_more, crate::proofs::Texts::flat_none), unfolding(crate::specs::Text::memory_text))]
fn memory_words(out: &mut Writer<'_>, image: &[u8], lines: u16)
    ensures { Puts out.old (memory_text lines image.now) out.new }
{
    for line in 0..lines {
        line_words(out, line, &image_line(image, line));
    }
}

// One step more than an image can hold log entries.
const MOST_STEPS: usize = MOST_LOGGED + 1;

// Recovery steps over an image until one does not answer 'more'.
// Kept: `recovery::step_at` gives an `Answer` (`restore_as` of specs/), 1 for 'more'.
#[tactic(auto, using(crate::proofs::Finish::finish_none))]
fn recover(image: &mut [u8])
    ensures { image.new ≡ recovered image.old }
{
    let mut at = 0;
    for _ in 0..MOST_STEPS {
        let step = recovery::step_at(image, at, false);
        if step.answer.value != 1 {
            break;
        }
        at = step.at;
    }
}

/// Recovers an image. The lines of the words of its first lines.
pub fn image_words(out: &mut Writer<'_>, image: &mut [u8], lines: u16)
    ensures recovers { image.new ≡ recovered image.old }
    ensures puts { Puts out.old (memory_text lines (recovered image.old)) out.new }
{
    recover(image);
    memory_words(out, image, lines);
}

/// The words behind an accepted cut are those of the expected memory.
pub fn words_are_right()
    ensures { WordsExpected }
{}
