#![tactic(auto)]

// Tries cases against the engine and the calls. They stand on standard input, as text of at most 131,072 bytes. `#` starts a comment.
//     case NAME               starts a case, on a fresh board over zero memory
//     lent 128 7              right behind the name: the board is over lent memory, of 128 bytes 7 (at most 16,448)
//     write 1 0 0 7 = 17 0    an event in the form of crate text, and the refusal and value that its answer must have; no event is the empty record
//     ( .. ) 9                the lines between stand ten times
// Behind events a case has calls on them as one file, and lines about one buffer, which begins as zeros and holds an image:
//     answers 90 = 0 10       the file's answers into the first 90 bytes
//     image 152 = 0 152       the image into the first 152 bytes; it is the image then
//     headed 152 = 0 152      the same with the new image, whose log entries stand under headers
//     record 34 0 1 0 0       a record more behind the image: its kind, its first bytes, and zeros
//     put 4 34 9              bytes 4 and 5 become 34 and 9
//     length 151              the image is lent as 151 bytes
//     recover 8 = 0 1         a recovery step over the image, with a place of 8 bytes
//     either 8 = 0 1          the same with the step that takes both forms
//     place 0                 the place becomes 0, as after a cut
//     byte 4 = 33 / word 1 2 = 7 / place = 2      byte 4, word 2 of line 1, the place
// Prints a line for each case, then how many there are and how many are right. A line in no form makes its case wrong. What can't be written is passed over.
ghost use Rattle.std.specs.Prelude.{◌≡◌, ◌≤◌, ◌&&◌, length, take};
ghost use Rattle.std.specs.Io.KnownBytes.{Consumes};
ghost use Rattle.std.specs.Option.{option_map_or};
ghost use Rattle.trying.specs.Score.{agree, counted};

use rules::{Answer, Board};
use std::io::{Read, Write};
use trying::{Due, Total};

// The bytes of the text, of the lent memory of a case, of its events, and of its buffer: an image has at most 34,853 bytes.
const TEXT: usize = 131072;

const MEMORY: usize = 16448;

const EVENTS: usize = 4096;

const BUFFER: usize = 40000;

// Events that begin behind this many bytes begin the file anew.
const FULL: usize = 4064;

// ---- a line

/// The word that begins a line, with a blank behind it.
#[derive(Clone, Copy, PartialEq, Eq)]
enum Word {
    Case,
    Lent,
    Answers,
    Image,
    Headed,
    Recover,
    Either,
    Byte,
    Word,
    Place,
    Record,
    Put,
    Length,
}

// A line with no word is empty, a bracket or an event.
fn word_of(line: &[u8]) -> Option<Word> {
    let end = line.iter().position(|&byte| byte == b' ')?;
    match &line[..end] {
        b"case" => Some(Word::Case),
        b"lent" => Some(Word::Lent),
        b"answers" => Some(Word::Answers),
        b"image" => Some(Word::Image),
        b"headed" => Some(Word::Headed),
        b"recover" => Some(Word::Recover),
        b"either" => Some(Word::Either),
        b"byte" => Some(Word::Byte),
        b"word" => Some(Word::Word),
        b"place" => Some(Word::Place),
        b"record" => Some(Word::Record),
        b"put" => Some(Word::Put),
        b"length" => Some(Word::Length),
        _ => None,
    }
}

/// A line of the text up to its comment or its end, and where the next one begins.
#[derive(Clone, Copy)]
struct Line<'t> {
    text: &'t [u8],
    next: usize,
}

// The line at a place; none behind the last one.
fn line_at(text: &[u8], at: usize) -> Option<Line<'_>> {
    if text.len() <= at {
        return None;
    }
    let rest = &text[at..];
    let end = trying::find(rest, 0, b'\n');
    let line = &rest[..end];
    Some(Line {
        text: &line[..trying::find(line, 0, b'#')],
        next: at.saturating_add(end + 1),
    })
}

// The first n bytes, or all if there are fewer.
fn front(bytes: &[u8], n: usize) -> &[u8] {
    &bytes[..n.min(bytes.len())]
}

fn front_mut(bytes: &mut [u8], n: usize) -> &mut [u8] {
    let end = n.min(bytes.len());
    &mut bytes[..end]
}

// ---- where a case goes on

/// The next line, where the lines that are repeated begin, and how often they have been.
#[derive(Clone, Copy)]
struct Spot {
    at: usize,
    mark: usize,
    turns: u64,
}

impl Spot {
    fn at(at: usize) -> Spot {
        Spot {
            at,
            mark: at,
            turns: 0,
        }
    }

    // Behind a line: `(` begins lines that are repeated, `)` ends them.
    fn behind(self, line: Line) -> Spot {
        match line.text.first() {
            Some(b')') if self.turns < trying::number(line.text, 0) => Spot {
                at: self.mark,
                mark: self.mark,
                turns: self.turns + 1,
            },
            Some(b'(' | b')') => Spot::at(line.next),
            _ => Spot {
                at: line.next,
                mark: self.mark,
                turns: self.turns,
            },
        }
    }
}

// ---- the bytes that lines ask for

// The record of a line's event, in the form of crate text before a '='. Answers how many bytes it has; none where the line is in no form.
fn put_event(line: &[u8], out: &mut [u8]) -> Option<usize> {
    let end = trying::find(line, 0, b'=');
    let read = parsing::read_text(&line[..end], out);
    let is_in_form = read.ok && !read.cursor.short && end < line.len();
    is_in_form.then_some(read.cursor.at)
}

// The numbers of a line from number `first` on up to number `end`, as bytes from `at` on; 0 where there is no number.
// Kept: a number of a line is cut to its low byte (`% 256`); `u8::try_from` would refuse it, which a case's line does not.
fn put_numbers(out: &mut [u8], at: usize, line: &[u8], first: usize, end: usize) {
    for (byte, i) in out.iter_mut().skip(at).zip(first..end) {
        *byte = (trying::number(line, i) % 256) as u8;
    }
}

// The bytes of an image record of a kind.
// Kept: a case may name a kind that is none, for a byte of its own.
fn record_length(kind: u64) -> usize {
    match kind {
        32 => 4,
        33 => 65,
        34 => 17,
        35 => 69,
        41..=47 => (4 + 65 * (kind - 40)) as usize,
        _ => 1,
    }
}

// The byte at a place; 0 if there is none.
fn byte_at(bytes: &[u8], at: usize) -> u64 {
    bytes.get(at).map_or(0, |&byte| u64::from(byte))
}

// Word `word` of line `line` of an image; 0 if there is none.
fn image_word(image: &[u8], line: u64, word: u64) -> u64 {
    if 255 < line || 7 < word {
        return 0;
    }
    lines::take_word(image, (5 + 65 * line + 8 * word) as usize)
}

// ---- a case

/// A case as it is tried: its board and the file of its events, of which `filled` bytes are written and `whole` says whether these are all; the buffer of its
/// calls with an image of `image` bytes, and the place; how many answers were judged, and whether all were right.
// Kept: `whole` and `right` are told of a case and are no conditions of the parts beside them. No heap, so `filled` and `image` count bytes of buffers.
#[derive(Drop)]
struct Case<'m> {
    memory: &'m [u8],
    board: Board,
    file: [u8; EVENTS],
    filled: usize,
    whole: bool,
    buffer: [u8; BUFFER],
    image: usize,
    place: [u8; 16],
    answers: u64,
    right: bool,
}

// A value that is looked at, as an answer.
fn seen(value: u64) -> Answer {
    Answer::from(Ok(value))
}

// A wrong answer and the one that is due, behind the name of the case. Each part is tried, whether or not the one before it went out.
fn print_wrong<W: Write>(to: &mut W, answers: u64, answer: Answer, due: Due) {
    let _ = write!(to, ": answer {answers} is ");
    let _ = write!(to, "{}", Due::from(answer));
    let _ = to.write_all(b", not ");
    let _ = write!(to, "{due}");
    let _ = to.write_all(b"\n");
}

impl Case<'_> {
    // A case stays right as long as each answer is the one that is due. The first wrong one is printed.
    fn judge<W: Write>(&mut self, to: &mut W, answer: Answer, due: Due)
        ensures { self.new.right ≡ self.old.right && agree answer due }
    {
        self.answers = self.answers.wrapping_add(1);
        if trying::agrees(answer, due) {
            return;
        }
        if self.right {
            print_wrong(to, self.answers, answer, due);
        }
        self.right = false;
    }

    // A line in no form.
    fn spoil<W: Write>(&mut self, to: &mut W) {
        if self.right {
            let _ = to.write_all(b": a line in no form\n");
        }
        self.right = false;
    }

    // The event of a line goes into the file behind the last one; a file that is full begins anew.
    fn try_event<W: Write>(&mut self, to: &mut W, line: &[u8]) {
        let at = if self.filled < FULL { self.filled } else { 0 };
        self.whole = self.whole && at == self.filled;
        self.filled = at;
        match put_event(line, &mut self.file[at..]) {
            Some(length) => {
                let end = at + length.min(EVENTS - at);
                self.filled = end;
                let file: &[u8] = &self.file;
                let answer = engine::event(&mut self.board, &file[at..end]);
                self.judge(to, answer, trying::due_of(line));
            }
            None => self.spoil(to),
        }
    }

    // The answers of the file, or its image of either form, into the first bytes of the buffer. An image that is saved is the case's image then.
    // Kept: the C interface: `board_image` hands on this `Answer`.
    fn run_file(&mut self, word: Word, length: usize) -> Answer {
        let file = front(&self.file, if self.whole { self.filled } else { 0 });
        let out = front_mut(&mut self.buffer, length);
        if word == Word::Answers {
            return files::run_file(file, self.memory, out);
        }
        let saved = if word == Word::Headed {
            files::run_image_headed(file, self.memory, out)
        } else {
            files::run_image(file, self.memory, out)
        };
        if saved.refusal == 0 {
            self.image = saved.value as usize;
        }
        saved
    }

    // A recovery step over the image with a place of so many bytes.
    fn step(&mut self, length: usize, headed: bool) -> Answer {
        recovery::recovery_call(
            front_mut(&mut self.buffer, self.image),
            front_mut(&mut self.place, length),
            headed,
        )
    }

    // A record more behind the image: its kind, its first bytes, and zeros.
    fn add_record(&mut self, line: &[u8]) {
        let length = record_length(trying::number(line, 0));
        put_numbers(&mut self.buffer, self.image, line, 0, length);
        self.image = self.image.saturating_add(length);
    }

    // The answer of a call, or as its value what is looked at; none of a line that changes the buffer, the place or the length of the image.
    fn call(&mut self, word: Word, line: &[u8]) -> Option<Answer> {
        let number = trying::number(line, 0);
        let at = number as usize;
        match word {
            Word::Answers | Word::Image | Word::Headed => Some(self.run_file(word, at)),
            Word::Recover => Some(self.step(at, false)),
            Word::Either => Some(self.step(at, true)),
            Word::Byte => Some(seen(byte_at(&self.buffer, at))),
            Word::Word => Some(seen(image_word(&self.buffer, number, trying::number(line, 1)))),
            Word::Place if line.contains(&b'=') => Some(seen(lines::take_word(&self.place, 0))),
            Word::Place => {
                lines::put_word(&mut self.place, 0, number);
                None
            }
            Word::Record => {
                self.add_record(line);
                None
            }
            Word::Put => {
                let end = trying::number_count(line);
                put_numbers(&mut self.buffer, at, line, 1, end);
                None
            }
            Word::Length => {
                self.image = at;
                None
            }
            Word::Case | Word::Lent => None,
        }
    }

    // A line of the case with its word. One that begins with `lent` here has no word.
    fn try_line<W: Write>(&mut self, to: &mut W, word: Option<Word>, line: &[u8]) {
        match word {
            None | Some(Word::Lent) => {
                if !matches!(line.first(), None | Some(b'\0' | b'(' | b')')) {
                    self.try_event(to, line);
                }
            }
            Some(word) => {
                if let Some(answer) = self.call(word, line) {
                    self.judge(to, answer, trying::due_of(line));
                }
            }
        }
    }
}

// ---- the text

/// Whether a case was right, and where the line behind it is.
// Kept: `right` is told of what was done, whatever the place.
#[derive(Clone, Copy)]
struct Done {
    right: bool,
    at: usize,
}

// The lines of a case, from `from` on, over lent memory or over zero. No run uses up the count of lines.
fn run_lines<W: Write>(to: &mut W, text: &[u8], from: usize, lent: Option<&[u8]>) -> Done {
    // A case is large: it is made where it stands.
    let mut case = Case {
        memory: lent.unwrap_or(&[]),
        board: starting::zero(),
        file: [0; EVENTS],
        filled: 0,
        whole: true,
        buffer: [0; BUFFER],
        image: 0,
        place: [0; 16],
        answers: 0,
        right: true,
    };
    if let Some(memory) = lent {
        starting::lend(&mut case.board, memory);
    }
    let mut spot = Spot::at(from);
    for _ in 0..u64::MAX {
        let Some(line) = line_at(text, spot.at) else {
            break;
        };
        let word = word_of(line.text);
        if word == Some(Word::Case) {
            break;
        }
        case.try_line(to, word, line.text);
        spot = spot.behind(line);
    }
    if case.right {
        let _ = to.write_all(b": ok\n");
    }
    Done {
        right: case.right,
        at: spot.at,
    }
}

// The case whose lines begin at `from`. A line `lent` stands right behind the name.
fn run_case<W: Write>(to: &mut W, text: &[u8], from: usize) -> Done {
    match line_at(text, from) {
        Some(line) if word_of(line.text) == Some(Word::Lent) => {
            let memory = [(trying::number(line.text, 1) % 256) as u8; MEMORY];
            let lent = front(&memory, trying::number(line.text, 0) as usize);
            run_lines(to, text, line.next, Some(lent))
        }
        _ => run_lines(to, text, from, None),
    }
}

// A line that begins a case, and the case behind it; `None` where it begins none.
fn run_line<W: Write>(to: &mut W, text: &[u8], line: Line) -> Option<Done> {
    if word_of(line.text) != Some(Word::Case) {
        return None;
    }
    let _ = to.write_all(line.text.get(5..).unwrap_or(&[]));
    Some(run_case(to, text, line.next))
}

// The total behind a line.
fn with_case(total: Total, done: Option<Done>) -> Total
    ensures { result ≡ option_map_or (λ d. counted total d.right) done total }
{
    match done {
        Some(done) => trying::count(total, done.right),
        None => total,
    }
}

// The lines one by one; those before the first case are passed over. No run uses up the count of lines.
fn run_text<W: Write>(to: &mut W, text: &[u8]) -> Total {
    let mut total = Total { cases: 0, right: 0 };
    let mut at = 0;
    for _ in 0..u64::MAX {
        let Some(line) = line_at(text, at) else {
            break;
        };
        let done = run_line(to, text, line);
        total = with_case(total, done);
        at = done.map_or(line.next, |done| done.at);
    }
    total
}

// Reads once, to the front of a buffer. Answers how many bytes are read: none where the input has ended, or can't be read.
fn read_once<R: Read>(input: &mut R, text: &mut [u8]) -> usize
    ensures fits { result ≤ length text.new }
    ensures comes { Consumes (R.remaining input.old) (R.remaining input.new) (take result text.new) }
{
    input.read(text).unwrap_or(0)
}

// Reads until a buffer is full, or nothing more comes. Answers how many bytes are read.
fn read_full<R: Read>(input: &mut R, text: &mut [u8]) -> usize
    ensures fits { result ≤ length text.new }
    ensures comes { Consumes (R.remaining input.old) (R.remaining input.new) (take result text.new) }
{
    let mut n = 0;
    while n < text.len() {
        let more = read_once(input, &mut text[n..]);
        n += more;
        if more == 0 {
            break;
        }
    }
    n
}

// Kept: no heap, so the text is the front of a buffer.
fn main(rt: HostRuntime) {
    let mut input = rt.stdin();
    let mut output = rt.stdout();
    let mut text = [0; TEXT];
    let n = read_full(&mut input, &mut text);
    let total = run_text(&mut output, &text[..n]);
    let _ = writeln!(output, "{} cases, {} right", total.cases, total.right);
}
