#![tactic(auto)]

// Event files out of their readable form: lines of a word and numbers, spaces, tabs or carriage returns between them, '#' in front of a comment.
ghost use Rattle.std.specs.Prelude.{◌+◌, ◌≤◌, ◌≡◌, true, length, drop, position};
ghost use Rattle.rules.specs.Kinds.{is_kind, kind_at};
ghost use Rattle.rules.specs.Lists.{all, place};
ghost use Rattle.output.specs.Writer.{Puts};
ghost use Rattle.parsing.specs.Results.{Finds, NextWord, ReadsAs, TextReadAs, fault_code, told};
ghost use Rattle.parsing.specs.Read.{is_space, stops, is_name, kind_of, other_line, is_digit, most_of, with_digit, number_in, width_at, complete};
ghost use Rattle.parsing.specs.Read.{words_in, fields_from, kind_bytes, words_read, bytes_of_text, good_bytes, last_line};
ghost use Rattle.parsing.specs.Fault.{word_fault, field_fault, words_fault, fault_of};
ghost use Rattle.parsing.specs.Numbers.{fault_number, line_code, line_number};

use events::Kind;
use output::{Cursor, Writer};

/// What a line is by its first word: an event of a kind, or bytes as they stand.
// Kept: bytes that are no event are a kind of line, and not the absence of one.
#[derive(Clone, Copy)]
pub enum LineKind {
    Event(Kind),
    Bytes,
}

/// What is wrong in a text. The same numbers stand in include/board.h.
#[derive(Clone, Copy, PartialEq, Eq)]
pub enum Fault {
    /// The first word of a line is no kind's and not `bytes`.
    UnknownWord = 1,
    /// A word where a number is due has a byte that is no digit.
    NotNumber = 2,
    /// A number is above the most of its field.
    OutOfRange = 3,
    /// A line ends before all its numbers.
    MissingNumber = 4,
    /// A word stands behind the last number of a line.
    ExtraNumber = 5,
}

impl Fault {
    /// The number by which a fault is told, never 0.
    pub fn number(self) -> u8
        ensures { result ≡ fault_number self }
    {
        self as u8
    }
}

/// A fault and its place.
#[derive(Clone, Copy)]
pub struct FaultAt {
    pub fault: Fault,
    pub at: usize,
}

/// A part of a line.
// Kept: `NextWord` of specs/ has start and end alike for no word: that start is the place of a missing number, so Option would hold a place either way.
#[derive(Clone, Copy)]
pub struct Span {
    pub start: usize,
    pub end: usize,
}

/// What is read of a text: the bytes up to the cursor, the place behind those of the lines in the form, the number of these lines, and whether these are all.
/// If not, the next line is the first one that is not in the form.
// Kept: `TextReadAs` says what holds of each, also where the text has a fault.
#[derive(Clone, Copy)]
pub struct TextRead {
    pub cursor: Cursor,
    pub good: usize,
    pub lines: u64,
    pub ok: bool,
}

/// Where a search of a line or a text stops: at a byte that is no space, at the end of a word, at a newline.
#[derive(Clone, Copy)]
pub enum Stop {
    WordStart,
    WordEnd,
    LineEnd,
}

impl Stop {
    #[tactic(auto, unfolding(crate::specs::Read::stops))]
    fn is_at(self, byte: u8) -> bool
        ensures { result ≡ stops self byte }
    {
        match self {
            Stop::WordStart => !is_space(byte),
            Stop::WordEnd => is_space(byte) || byte == b'#',
            Stop::LineEnd => byte == b'\n',
        }
    }
}

// Whether a byte stands between words.
fn is_space(byte: u8) -> bool
    ensures { result ≡ is_space byte }
{
    matches!(byte, b' ' | b'\t' | b'\r')
}

// The place of the first byte at which a search stops.
fn first_of(bytes: &[u8], stop: Stop) -> Option<usize>
    ensures { result ≡ position (stops stop) bytes.now }
{
    bytes.iter().position(|&byte| stop.is_at(byte))
}

// The first place from `from` on where a search stops, or the end.
fn find(bytes: &[u8], from: usize, stop: Stop) -> usize
    requires { from ≤ length bytes.now }
    ensures { result ≡ from + place (stops stop) (drop from bytes.now) }
{
    match first_of(&bytes[from..], stop) {
        Some(at) => from + at,
        None => bytes.len(),
    }
}

// The first word from `at` on.
#[tactic(auto, using(crate::proofs::Words::at_end, crate::proofs::Words::at_comment, crate::proofs::Words::at_word))]
fn next_word(line: &[u8], at: usize) -> Span
    requires { at ≤ length line.now }
    ensures { NextWord line.now at result }
{
    let start = find(line, at, Stop::WordStart);
    if line.len() <= start || line[start] == b'#' {
        return Span { start, end: start };
    }
    let end = find(line, start, Stop::WordEnd);
    Span { start, end }
}

// Whether a word is the one of the kind that a number has; no kind has the empty word.
#[tactic(auto, using(crate::proofs::Words::same_words))]
fn is_name(word: &[u8], number: u8) -> bool
    ensures { result ≡ is_name word.now (kind_at number) }
{
    !word.is_empty() && word == events::kind_row(number).word
}

// The line that a word begins which is no kind's.
#[tactic(auto, using(crate::proofs::Words::same_words), unfolding(crate::specs::Read::other_line))]
fn other_line(word: &[u8]) -> Option<LineKind>
    ensures { line_code result ≡ other_line word.now }
{
    if word == b"bytes".as_slice() {
        Some(LineKind::Bytes)
    } else {
        None
    }
}

// The line of an event whose kind has this number.
fn kind_line(number: u8) -> Option<LineKind>
    requires { is_kind number ≡ true }
    ensures { line_code result ≡ number }
{
    match Kind::try_from(number) {
        Ok(kind) => Some(LineKind::Event(kind)),
        Err(_) => None,
    }
}

// The line that a word begins.
// Kept: `kind_line` asks for a kind's number, which the test gives where it stands; a number out of `find` would have to be shown a kind's anew: no plainer.
fn kind_of(word: &[u8]) -> Option<LineKind>
    ensures { line_code result ≡ kind_of word.now }
{
    for number in 0..events::KIND_NUMBERS {
        if is_name(word, number) {
            return kind_line(number);
        }
    }
    other_line(word)
}

// The width of a field, 0 if there is none.
#[tactic(auto, using(crate::proofs::Names::not_bytes), unfolding(crate::specs::Read::width_at))]
fn width_at(kind: LineKind, field: usize) -> usize
    ensures { result ≡ width_at (line_number kind) field }
{
    match kind {
        LineKind::Event(kind) => events::width_at(kind.number(), field),
        LineKind::Bytes => 1,
    }
}

// Whether a line has all its fields.
#[tactic(auto, using(crate::proofs::Names::not_bytes), unfolding(crate::specs::Read::complete))]
fn is_complete(kind: LineKind, fields: usize) -> bool
    ensures { result ≡ complete (line_number kind) fields }
{
    match kind {
        LineKind::Event(_) => width_at(kind, fields) == 0,
        LineKind::Bytes => 0 < fields,
    }
}

// The largest number of a width in bytes.
#[tactic(auto, unfolding(crate::specs::Read::most_of))]
fn most(width: usize) -> u64
    ensures { result ≡ most_of width }
{
    match width {
        1 => u64::from(u8::MAX),
        2 => u64::from(u16::MAX),
        _ => u64::MAX,
    }
}

// A number with one digit more, if it is at most `top`.
// Kept: the library's `parse` takes a &str and a leading '+', which `with_digit` of specs/ refuses.
#[tactic(auto, unfolding(crate::specs::Read::with_digit))]
fn with_digit(top: u64, number: u64, byte: u8) -> Option<u64>
    requires { 9 ≤ top }
    ensures { result ≡ with_digit top number byte }
{
    if !byte.is_ascii_digit() {
        return None;
    }
    let digit = u64::from(byte - b'0');
    if (top - digit) / 10 < number {
        return None;
    }
    Some(10 * number + digit)
}

// A word as a number of a width in bytes.
#[tactic(auto, using(crate::proofs::Numbers::most_room, crate::proofs::Numbers::digit_next, crate::proofs::Numbers::digit_not, crate::proofs::Numbers::digit_end, crate::proofs::Numbers::number_some, crate::proofs::Numbers::number_none))]
fn number_in(word: &[u8], width: usize) -> Option<u64>
    ensures { result ≡ number_in width word.now }
{
    if width == 0 {
        return None;
    }
    let top = most(width);
    let mut number = 0;
    for byte in word {
        number = with_digit(top, number, *byte)?;
    }
    Some(number)
}

// The fields of a line from `from` on, and whether they are in the form.
// Kept: `ReadsAs` tells the bytes put before a fault too, and `width_at` asks for the number of a field: an iterator with a count is no plainer.
fn read_fields(line: &[u8], from: usize, kind: LineKind, out: &mut Writer<'_>) -> bool
    requires { from ≤ length line.now }
    ensures { ReadsAs (fields_from (line_number kind) 0 (words_in (drop from line.now))) out.old out.new result }
{
    let mut at = from;
    let mut field = 0;
    loop {
        let word = next_word(line, at);
        if word.start == word.end {
            return is_complete(kind, field);
        }
        let width = width_at(kind, field);
        let Some(number) = number_in(&line[word.start..word.end], width) else {
            return false;
        };
        out.put_le(number, width);
        at = word.end;
        field += 1;
    }
}

// The byte of kind that a record begins with.
#[tactic(auto, using(output::proofs::Rooms::puts_none, crate::proofs::Names::not_bytes), unfolding(crate::specs::Read::kind_bytes))]
fn put_kind(out: &mut Writer<'_>, kind: LineKind)
    ensures { Puts out.old (kind_bytes (line_number kind)) out.new }
{
    if let LineKind::Event(kind) = kind {
        out.put_byte(kind.number());
    }
}

// A line, and whether it is in the form.
// Kept: as `read_fields`.
fn read_line(line: &[u8], out: &mut Writer<'_>) -> bool
    ensures { ReadsAs (words_read (words_in line.now)) out.old out.new result }
{
    let word = next_word(line, 0);
    if word.start == word.end {
        return true;
    }
    let Some(kind) = kind_of(&line[word.start..word.end]) else {
        return false;
    };
    put_kind(out, kind);
    read_fields(line, word.end, kind, out)
}

/// A text as the bytes of an event file, as many of them as there is room for.
// Kept: `TextReadAs` counts the lines; `enumerate` over lines would need their places as well: no plainer.
pub fn read_text(text: &[u8], out: &mut [u8]) -> TextRead
    ensures { TextReadAs (bytes_of_text text.now) (good_bytes text.now) out.old out.new result }
{
    let mut writer = Writer::new(out, 0);
    let mut at = 0;
    let mut lines = 0;
    while at < text.len() {
        let end = find(text, at, Stop::LineEnd);
        let good = writer.cursor.at;
        if !read_line(&text[at..end], &mut writer) {
            return TextRead {
                cursor: writer.cursor,
                good,
                lines,
                ok: false,
            };
        }
        at = end + 1;
        lines += 1;
    }
    TextRead {
        cursor: writer.cursor,
        good: writer.cursor.at,
        lines,
        ok: true,
    }
}

// Whether all bytes of a word are digits.
fn all_digits(word: &[u8]) -> bool
    ensures { result ≡ all is_digit word.now }
{
    word.iter().all(|byte| byte.is_ascii_digit())
}

// The fault of a word where a number of a width in bytes is due.
#[tactic(auto, unfolding(crate::specs::Fault::word_fault, crate::specs::Fault::fault_by))]
fn word_fault(word: &[u8], width: usize) -> Option<Fault>
    ensures { fault_code result ≡ word_fault width word.now }
{
    if number_in(word, width).is_some() {
        None
    } else if width == 0 {
        Some(Fault::ExtraNumber)
    } else if all_digits(word) {
        Some(Fault::OutOfRange)
    } else {
        Some(Fault::NotNumber)
    }
}

// The first fault in the fields of a line from `from` on.
// Kept: it walks as `read_fields`, `line_fault` as `read_line` and `first_fault` as `read_text`: those write and these tell a place, from the start of the line as
// `Finds` of specs/ has it; one walk with a closure would carry a writer and a place: no plainer.
fn field_fault(line: &[u8], from: usize, kind: LineKind) -> Option<FaultAt>
    requires { from ≤ length line.now }
    ensures { Finds (field_fault (line_number kind) 0 (words_in (drop from line.now))) line.now from (told 0 result) }
{
    let mut at = from;
    let mut field = 0;
    loop {
        let word = next_word(line, at);
        if word.start == word.end {
            if is_complete(kind, field) {
                return None;
            }
            return Some(FaultAt {
                fault: Fault::MissingNumber,
                at: word.start,
            });
        }
        if let Some(fault) = word_fault(&line[word.start..word.end], width_at(kind, field)) {
            return Some(FaultAt {
                fault,
                at: word.start,
            });
        }
        at = word.end;
        field += 1;
    }
}

// The first fault of a line.
fn line_fault(line: &[u8]) -> Option<FaultAt>
    ensures { Finds (words_fault (words_in line.now)) line.now 0 (told 0 result) }
{
    let word = next_word(line, 0);
    if word.start == word.end {
        return None;
    }
    let Some(kind) = kind_of(&line[word.start..word.end]) else {
        return Some(FaultAt {
            fault: Fault::UnknownWord,
            at: word.start,
        });
    };
    field_fault(line, word.end, kind)
}

/// The first fault of a text.
// Kept: as `read_text`, a fault's place is told from the start of the text.
pub fn first_fault(text: &[u8]) -> Option<FaultAt>
    ensures { told (length text.now) result ≡ fault_of text.now }
{
    let mut at = 0;
    while at < text.len() {
        let end = find(text, at, Stop::LineEnd);
        if let Some(found) = line_fault(&text[at..end]) {
            return Some(FaultAt {
                fault: found.fault,
                at: at + found.at,
            });
        }
        at = end + 1;
    }
    None
}

/// The end of the last whole line.
// Kept: `last_line` is the place behind a newline, 0 for none; `rposition` with a `map_or` behind it is no plainer.
#[tactic(auto, using(crate::proofs::Lines::last_back, crate::proofs::Lines::last_found, crate::proofs::Lines::last_empty))]
pub fn whole_lines(text: &[u8]) -> usize
    ensures { result ≡ last_line text.now }
{
    let mut whole = text;
    while let [before @ .., last] = whole {
        if *last == b'\n' {
            break;
        }
        whole = before;
    }
    whole.len()
}
