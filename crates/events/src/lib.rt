#![tactic(auto)]

// The event record, one byte of kind, then a body whose length the kind fixes: its kinds, its reader, and whether one stands whole at the front of a file.
ghost use Rattle.std.specs.Prelude.{◌≤◌, ◌≡◌, cond, leb, get_or, length};
ghost use Rattle.rules.specs.Kinds.{is_kind, widths_of, word_of};
ghost use Rattle.rules.specs.Record.{body_length, event_of, read_record, shares_at};
ghost use Rattle.rules.specs.Tables.{no_shares};
ghost use Rattle.events.specs.Number.{Known, by_number, number_of};
ghost use Rattle.events.specs.Whole.{record_length};

use measures::WHOLE_WORD;
use rules::{Event, Refusal, Shares};

/// The kinds of events, each with its number, the first byte of a record.
#[derive(Clone, Copy, PartialEq, Eq)]
pub enum Kind {
    Setup = 0,
    Begin = 1,
    End = 2,
    Read = 3,
    Write = 4,
    LogAck = 5,
    DataAck = 6,
    Fence = 7,
    Cut = 8,
    WriteBytes = 10,
}

impl TryFrom<u8> for Kind {
    type Error = Refusal;

    ghost try_from_gives = { Known };

    #[tactic(auto, using(rules::proofs::Laws::known))]
    fn try_from(number: u8) -> Result<Kind, Refusal> {
        match number {
            0 => Ok(Kind::Setup),
            1 => Ok(Kind::Begin),
            2 => Ok(Kind::End),
            3 => Ok(Kind::Read),
            4 => Ok(Kind::Write),
            5 => Ok(Kind::LogAck),
            6 => Ok(Kind::DataAck),
            7 => Ok(Kind::Fence),
            8 => Ok(Kind::Cut),
            10 => Ok(Kind::WriteBytes),
            _ => Err(Refusal::UnknownKind),
        }
    }
}

/// What the table of kinds says of one: its word in the readable form, and the widths in bytes of the numbers in its body.
#[derive(Clone, Copy)]
pub struct KindRow {
    pub word: &'static [u8],
    pub widths: &'static [u8],
}

fn row(word: &'static [u8], widths: &'static [u8]) -> KindRow
    ensures word { result.word.now ≡ word.now }
    ensures widths { result.widths.now ≡ widths.now }
{
    KindRow { word, widths }
}

impl Kind {
    /// The first byte of its records.
    pub fn number(self) -> u8
        ensures { result ≡ number_of self }
    {
        self as u8
    }

    /// The table of kinds.
    #[tactic(auto, unfolding(rules::specs::Kinds::kind_at))]
    pub fn row(self) -> KindRow
        ensures word { result.word.now ≡ word_of (number_of self) }
        ensures widths { result.widths.now ≡ widths_of (number_of self) }
    {
        match self {
            Kind::Setup => row(b"setup", &[1, 2, 1, 1, 1, 1, 1, 1, 1, 1, 1, 1]),
            Kind::Begin => row(b"begin", &[1]),
            Kind::End => row(b"end", &[1]),
            Kind::Read => row(b"read", &[1, 1, 1]),
            Kind::Write => row(b"write", &[1, 1, 1, 8]),
            Kind::LogAck => row(b"log-ack", &[1]),
            Kind::DataAck => row(b"data-ack", &[1]),
            Kind::Fence => row(b"fence", &[1]),
            Kind::Cut => row(b"cut", &[]),
            Kind::WriteBytes => row(b"write-bytes", &[1, 1, 1, 1, 8]),
        }
    }

    // The bytes of a body.
    fn body_length(self) -> usize
        ensures { result ≡ body_length (number_of self) }
    {
        body_length(self.number())
    }

    // The event with its body, which has all its bytes.
    #[tactic(auto, unfolding(rules::specs::Record::event_of))]
    fn event(self, body: &[u8]) -> Event
        requires { body_length (number_of self) ≤ length body.now }
        ensures { result ≡ event_of (number_of self) body.now }
    {
        match self {
            Kind::Setup => setup_of(body),
            Kind::Begin => Event::Begin(body[0]),
            Kind::End => Event::End(body[0]),
            Kind::Read => Event::Read(body[0], body[1], body[2]),
            Kind::Write => write_of(body),
            Kind::LogAck => Event::LogAck(body[0]),
            Kind::DataAck => Event::DataAck(body[0]),
            Kind::Fence => Event::Fence(body[0]),
            Kind::Cut => Event::Cut,
            Kind::WriteBytes => write_bytes_of(body),
        }
    }
}

/// Each kind has a number below this.
pub const KIND_NUMBERS: u8 = 11;

/// The row of the kind of a number; of what is no kind, no word and no widths.
#[tactic(auto, using(crate::proofs::Table::no_kind_there))]
pub fn kind_row(number: u8) -> KindRow
    ensures word { result.word.now ≡ word_of number }
    ensures widths { result.widths.now ≡ widths_of number }
{
    match Kind::try_from(number) {
        Ok(kind) => kind.row(),
        Err(_) => row(b"", &[]),
    }
}

/// Whether a number is a kind's, which has a word.
pub fn is_kind(number: u8) -> bool
    ensures { result ≡ is_kind number }
{
    Kind::try_from(number).is_ok()
}

/// The width of a number in a body, 0 if there is none.
pub fn width_at(number: u8, field: usize) -> usize
    ensures { result ≡ get_or (widths_of number) field 0 }
{
    kind_row(number)
        .widths
        .get(field)
        .map_or(0, |width| usize::from(*width))
}

/// The bytes of a body by the number of its kind, the sum of its widths; of what is no kind, 0.
// Kept: a table by number. Of a match over `Kind` the compiler makes a jump for each kind, and a walk along a file's records takes a third more time.
pub fn body_length(number: u8) -> usize
    ensures { result ≡ body_length number }
{
    let bodies: [u8; KIND_NUMBERS as usize] = [13, 1, 1, 3, 11, 1, 1, 1, 0, 0, 12];
    bodies
        .get(number as usize)
        .map_or(0, |bytes| usize::from(*bytes))
}

/// The parties and reserves that the first ten bytes hold; of fewer bytes, none.
pub fn shares_at(bytes: &[u8]) -> Shares
    ensures { result ≡ cond (leb 10 (length bytes.now)) (shares_at bytes.now) no_shares }
{
    if bytes.len() < 10 {
        return Shares {
            parties: 0,
            reserves: 0,
        };
    }
    Shares {
        parties: lines::take_word(bytes, 0),
        reserves: lines::join8(bytes[8], bytes[9]),
    }
}

fn setup_of(body: &[u8]) -> Event
    requires { 13 ≤ length body.now }
    ensures { result ≡ event_of 0 body.now }
{
    Event::Setup(
        body[0],
        lines::join8(body[1], body[2]),
        shares_at(&body[3..]),
    )
}

fn write_of(body: &[u8]) -> Event
    requires { 11 ≤ length body.now }
    ensures { result ≡ event_of 4 body.now }
{
    Event::Write(
        body[0],
        body[1],
        body[2],
        WHOLE_WORD,
        lines::take_word(body, 3),
    )
}

fn write_bytes_of(body: &[u8]) -> Event
    requires { 12 ≤ length body.now }
    ensures { result ≡ event_of 10 body.now }
{
    Event::Write(
        body[0],
        body[1],
        body[2],
        body[3],
        lines::take_word(body, 4),
    )
}

/// The event of the record at the front; bytes behind it are not looked at. A record that is empty or cut short is refused by `CutShort`, one of an unknown kind
/// by `UnknownKind`.
#[tactic(auto, unfolding(rules::specs::Record::read_record))]
pub fn read_record(bytes: &[u8]) -> Result<Event, Refusal>
    ensures { by_number result ≡ read_record bytes.now }
{
    let [number, body @ ..] = bytes else {
        return Err(Refusal::CutShort);
    };
    let kind = Kind::try_from(*number)?;
    if body.len() < kind.body_length() {
        return Err(Refusal::CutShort);
    }
    Ok(kind.event(body))
}

/// The bytes of the record at the front, 0 if it is not whole.
// Kept: asked by number, as `body_length` is.
#[tactic(auto, unfolding(rules::specs::Record::read_record, crate::specs::Whole::record_length))]
pub fn record_length(bytes: &[u8]) -> usize
    ensures { result ≡ record_length bytes.now }
{
    let [number, body @ ..] = bytes else {
        return 0;
    };
    if !is_kind(*number) {
        return 0;
    }
    let wanted = body_length(*number);
    if wanted <= body.len() { wanted + 1 } else { 0 }
}
