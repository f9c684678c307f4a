#![tactic(auto)]

// Lines of cases: where a line ends, the numbers in it, whether an answer is the one that is due, and how many cases are right.
ghost use Rattle.std.specs.Prelude.{◌≡◌, eqb, get_or, position};
ghost use Rattle.trying.specs.Line.{Finds, due_in, grown, number_grown, row_byte, row_digit, row_gap, row_of, whole_in};
ghost use Rattle.trying.specs.Score.{agree, counted};

use rules::Answer;
use std::fmt;

// ---- a line

// The place of the first such byte.
fn first_of(bytes: &[u8], byte: u8) -> Option<usize>
    ensures { result ≡ position (λ here. eqb here byte) bytes.now }
{
    bytes.iter().position(|&here| here == byte)
}

/// The first place of a byte from `from` on, or the end of the line; `from` itself where it is past the end.
pub fn find(line: &[u8], from: usize, byte: u8) -> usize
    ensures { Finds line.now from byte result }
{
    if line.len() < from {
        return from;
    }
    match first_of(&line[from..], byte) {
        Some(at) => from + at,
        None => line.len(),
    }
}

/// The most numbers that are taken from a line.
pub const MOST_NUMBERS: usize = 20;

/// The numbers of a line as far as it is read, at most 20 of them: how many are whole, how many stand before the '=', and whether one is being read.
// Kept: fixed memory, so the numbers stand in an array with their count beside it; `row_digit` and `row_gap` of specs/ name the flag.
#[derive(Clone, Copy)]
pub struct Row {
    pub numbers: [u64; MOST_NUMBERS],
    pub n: usize,
    pub split: usize,
    pub going: bool,
}

// A number with one digit more; the largest one where it has no room.
#[tactic(auto, unfolding(crate::specs::Line::grown))]
fn with_digit(number: u64, digit: u8) -> u64
    ensures { result ≡ grown number digit }
{
    number.saturating_mul(10).saturating_add(u64::from(digit))
}

impl Row {
    #[tactic(auto, unfolding(crate::specs::Line::row_digit, crate::specs::Line::number_grown))]
    fn with_digit(self, digit: u8) -> Row
        ensures { result ≡ row_digit self digit }
    {
        let mut row = self;
        let at = row.n;
        if at < MOST_NUMBERS {
            row.numbers[at] = with_digit(row.numbers[at], digit);
        }
        row.going = true;
        row
    }

    // How many numbers are whole behind a byte that is no digit.
    #[tactic(auto, unfolding(crate::specs::Line::whole_in))]
    fn whole(self) -> usize
        ensures { result ≡ whole_in self }
    {
        if self.going && self.n < MOST_NUMBERS {
            self.n + 1
        } else {
            self.n
        }
    }

    // Behind a byte that is no digit; '=' splits the numbers.
    #[tactic(auto, unfolding(crate::specs::Line::row_gap))]
    fn with_gap(self, byte: u8) -> Row
        ensures { result ≡ row_gap self byte }
    {
        let n = self.whole();
        Row {
            numbers: self.numbers,
            n,
            split: if byte == b'=' { n } else { self.split },
            going: false,
        }
    }

    #[tactic(auto, unfolding(crate::specs::Line::row_byte, crate::specs::Line::is_digit))]
    fn with_byte(self, byte: u8) -> Row
        ensures { result ≡ row_byte self byte }
    {
        if byte.is_ascii_digit() {
            self.with_digit(byte - b'0')
        } else {
            self.with_gap(byte)
        }
    }

    // The numbers of a line, before its '=' and behind it.
    #[tactic(auto, using(crate::proofs::Turns::row_on, crate::proofs::Turns::row_end), unfolding(crate::specs::Line::row_of))]
    fn of(line: &[u8]) -> Row
        ensures { result ≡ row_of line.now }
    {
        let mut row = Row {
            numbers: [0; MOST_NUMBERS],
            n: 0,
            split: 0,
            going: false,
        };
        for &byte in line {
            row = row.with_byte(byte);
        }
        row.with_byte(b' ')
    }

    // Number i, 0 if there is none.
    fn number(&self, i: usize) -> u64
        ensures { result ≡ get_or self.now.numbers i 0 }
    {
        self.numbers.get(i).copied().unwrap_or(0)
    }
}

/// Number i of a line, 0 if there is none.
pub fn number(line: &[u8], i: usize) -> u64
    ensures { result ≡ get_or (row_of line.now).numbers i 0 }
{
    Row::of(line).number(i)
}

/// How many numbers a line has.
pub fn number_count(line: &[u8]) -> usize
    ensures { result ≡ (row_of line.now).n }
{
    Row::of(line).n
}

// ---- an answer

/// The refusal and the value that an answer must have.
// Kept as a number: a case may ask for one that is no refusal; `agree` of specs/ compares numbers.
#[derive(Clone, Copy, PartialEq, Eq)]
pub struct Due {
    pub refusal: u64,
    pub value: u64,
}

impl From<Answer> for Due {
    ghost from_gives = { λ a d. d ≡ record { refusal = a.refusal; value = a.value } };

    fn from(answer: Answer) -> Due {
        Due {
            refusal: u64::from(answer.refusal),
            value: answer.value,
        }
    }
}

impl fmt::Display for Due {
    fn fmt<W: fmt::Write>(&self, f: &mut fmt::Formatter<W>) -> fmt::Result {
        write!(f, "{} {}", self.refusal, self.value)
    }
}

/// What the numbers behind the '=' of a line ask for: a refusal and a value; one number alone is a value.
#[tactic(auto, unfolding(crate::specs::Line::due_in))]
pub fn due_of(line: &[u8]) -> Due
    ensures { result ≡ due_in (row_of line.now) }
{
    let row = Row::of(line);
    let first = row.number(row.split);
    if row.n < 2 || row.n - 2 < row.split {
        return Due {
            refusal: 0,
            value: first,
        };
    }
    Due {
        refusal: first,
        value: row.number(row.split + 1),
    }
}

/// Whether an answer is the one that is due.
#[tactic(auto, unfolding(crate::specs::Score::agree))]
pub fn agrees(answer: Answer, due: Due) -> bool
    ensures { result ≡ agree answer due }
{
    Due::from(answer) == due
}

// ---- the cases

/// How many cases there were, and how many of them were right.
#[derive(Clone, Copy)]
pub struct Total {
    pub cases: u64,
    pub right: u64,
}

/// One case more, which was right or not. No number of cases is above the largest u64.
#[tactic(auto, unfolding(crate::specs::Score::counted, crate::specs::Score::more))]
pub fn count(total: Total, right: bool) -> Total
    ensures { result ≡ counted total right }
{
    Total {
        cases: total.cases.saturating_add(1),
        right: total.right.saturating_add(u64::from(right)),
    }
}
