#![tactic(auto)]

// A reader in pieces through a lent buffer, and a writer from one: standard input and output, when a program runs. What fails is said to a second writer.
// The contracts say which bytes are taken in and which go out where a reader's and a writer's bytes are known; which the system reads and writes, none can say.
ghost use Rattle.std.specs.Prelude.{◌<◌, ◌≤◌, ◌≡◌, ℕ, Bool, List, true, length, drop, take, OnOk};
ghost use Rattle.std.specs.Io.KnownBytes.{Appends, Consumes, Keeps};
ghost use Rattle.pieces.specs.Chain.{ChainedOver, TurnedOver};
ghost use Rattle.pieces.specs.Message.{failure, message};
ghost use Rattle.pieces.specs.Shift.{Filled, Refilled, moved, shifted};
ghost use Rattle.pieces.specs.Streams.{AppendsFront};

use output::Writer;
use std::io::{Read, Write};

/// Not all bytes went out: a write took none, or failed.
#[derive(Clone, Copy)]
pub struct Unsent;

/// What a message says that failed.
#[derive(Clone, Copy)]
pub enum Failed {
    Input,
    Output,
}

impl Failed {
    // What can't be done, with the end of the line.
    fn failure(self) -> &'static [u8]
        ensures { result.now ≡ failure self }
    {
        match self {
            Failed::Input => b": standard input cannot be read\n",
            Failed::Output => b": standard output cannot be written\n",
        }
    }
}

/// What a program reads from, what it writes to, what it says failures to, and its name, with which such a message begins.
#[derive(Drop)]
pub struct Streams<'n, R, W, E> {
    pub input: R,
    pub output: W,
    pub errors: E,
    pub name: &'n [u8],
}

/// Writes bytes. It stops at the first write that takes none or fails.
// Kept: clause `front` says what went out before a failure, which the library's own `write_all` does not.
pub fn write_all<W: Write>(to: &mut W, bytes: &[u8]) -> Result<(), Unsent>
    ensures all { OnOk result (Appends (W.contents to.old) (W.contents to.new) bytes.now) }
    ensures front { AppendsFront (W.contents to.old) (W.contents to.new) bytes.now }
{
    let mut rest = bytes;
    while !rest.is_empty() {
        match to.write(rest) {
            Ok(0) => return Err(Unsent),
            Ok(n) => rest = &rest[n..],
            Err(_) => return Err(Unsent),
        }
    }
    Ok(())
}

// The message that something failed for the program of this name. Answers its length.
fn put_message(out: &mut [u8; 64], failed: Failed, name: &[u8]) -> usize
    ensures { (take result out.new ≡ message failed name.now) × (result ≤ 64) }
{
    let mut writer = Writer::new(out, 0);
    writer.put_all(name);
    writer.put_all(failed.failure());
    writer.cursor.at
}

// Says so.
// Kept: `message` of specs/ tells the bytes, at most 64; the library's formatter tells none, and no heap holds a String.
fn complain<E: Write>(errors: &mut E, failed: Failed, name: &[u8]) -> Result<(), Unsent>
    ensures all { OnOk result (Appends (E.contents errors.old) (E.contents errors.new) (message failed name.now)) }
    ensures front { AppendsFront (E.contents errors.old) (E.contents errors.new) (message failed name.now) }
{
    let mut out = [0u8; 64];
    let n = put_message(&mut out, failed, name);
    write_all(errors, &out[..n])
}

// ---- over a reader and writers that are lent one by one
//
// Beside the methods of `Streams`, which call these: a caller that has a reader or a writer only on loan learns here what became of it. Of a `Streams` made over
// such loans no clause can say that it still holds the same ones: a type parameter doesn't name a loan.

// Reads once, to the front of a buffer. Answers how many bytes are read: none where the input has ended, or can't be read, which is said.
fn take_in<R: Read, E: Write>(input: &mut R, errors: &mut E, buf: &mut [u8], name: &[u8]) -> usize
    ensures fits { result ≤ length buf.new }
    ensures comes { Consumes (R.remaining input.old) (R.remaining input.new) (take result buf.new) }
    ensures quiet { 0 < result → Keeps (E.contents errors.old) (E.contents errors.new) }
    ensures said { AppendsFront (E.contents errors.old) (E.contents errors.new) (message Failed.Input name.now) }
{
    match input.read(buf) {
        Ok(n) => n,
        Err(_) => {
            let _ = complain(errors, Failed::Input, name);
            0
        }
    }
}

/// Reads on behind the first `have` bytes of a buffer. Answers how many bytes the buffer then holds: no more than before where it is full, or the input has ended.
/// Where the input can't be read, the program of this name says so.
// Kept: `Refilled` of specs/ tells the bytes that are held, and the others, so the whole buffer goes with their number.
pub fn refill<R: Read, E: Write>(
    input: &mut R,
    errors: &mut E,
    buf: &mut [u8],
    have: usize,
    name: &[u8],
) -> usize
    ensures refilled { Refilled buf.old buf.new have result }
    ensures comes { Consumes (R.remaining input.old) (R.remaining input.new) (drop have (take result buf.new)) }
    ensures quiet { have < result → Keeps (E.contents errors.old) (E.contents errors.new) }
    ensures said { AppendsFront (E.contents errors.old) (E.contents errors.new) (message Failed.Input name.now) }
{
    if buf.len() <= have {
        return buf.len();
    }
    have + take_in(input, errors, &mut buf[have..], name)
}

/// The same where the input has not ended; where it has, nothing is read.
// Kept: whether the input has ended is a value that goes on changing; a closure or two functions would be chosen by it at each call, which is no plainer.
pub fn fill<R: Read, E: Write>(
    input: &mut R,
    errors: &mut E,
    buf: &mut [u8],
    have: usize,
    last: bool,
    name: &[u8],
) -> usize
    ensures filled { Filled buf.old buf.new have last result }
    ensures comes { Consumes (R.remaining input.old) (R.remaining input.new) (drop have (take result buf.new)) }
    ensures quiet { have < result → Keeps (E.contents errors.old) (E.contents errors.new) }
    ensures said { AppendsFront (E.contents errors.old) (E.contents errors.new) (message Failed.Input name.now) }
{
    if last {
        return buf.len().min(have);
    }
    refill(input, errors, buf, have, name)
}

// Writes bytes. Where the output can't be written, the program of this name says so.
fn send<W: Write, E: Write>(
    output: &mut W,
    errors: &mut E,
    bytes: &[u8],
    name: &[u8],
) -> Result<(), Unsent>
    ensures all { OnOk result (Appends (W.contents output.old) (W.contents output.new) bytes.now) }
    ensures front { AppendsFront (W.contents output.old) (W.contents output.new) bytes.now }
    ensures quiet { OnOk result (Keeps (E.contents errors.old) (E.contents errors.new)) }
    ensures said { AppendsFront (E.contents errors.old) (E.contents errors.new) (message Failed.Output name.now) }
{
    let sent = write_all(output, bytes);
    if sent.is_err() {
        let _ = complain(errors, Failed::Output, name);
    }
    sent
}

/// Writes the first n bytes of a buffer; nothing where it is shorter. Where the output can't be written, the program of this name says so.
// Kept: clause `fits` says what happens where the buffer is shorter; a slice would leave that to each caller.
pub fn flush<W: Write, E: Write>(
    output: &mut W,
    errors: &mut E,
    buf: &[u8],
    n: usize,
    name: &[u8],
) -> Result<(), Unsent>
    ensures fits { OnOk result (n ≤ length buf.now) }
    ensures all { OnOk result (Appends (W.contents output.old) (W.contents output.new) (take n buf.now)) }
    ensures front { AppendsFront (W.contents output.old) (W.contents output.new) (take n buf.now) }
    ensures quiet { OnOk result (Keeps (E.contents errors.old) (E.contents errors.new)) }
    ensures said { AppendsFront (E.contents errors.old) (E.contents errors.new) (message Failed.Output name.now) }
{
    if buf.len() < n {
        return Err(Unsent);
    }
    send(output, errors, &buf[..n], name)
}

// ---- over streams held together

// Kept: `quiet`, `said` and `kept` stand in each function of `Streams`: each is a promise of its own, by name, and of the reader's or the writer's side.
impl<'n, R, W: Write, E: Write> Streams<'n, R, W, E> {
    /// Writes bytes. Where the output can't be written, the program says so.
    pub fn send(&mut self, bytes: &[u8]) -> Result<(), Unsent>
        ensures all { OnOk result (Appends (W.contents self.old.output) (W.contents self.new.output) bytes.now) }
        ensures front { AppendsFront (W.contents self.old.output) (W.contents self.new.output) bytes.now }
        ensures quiet { OnOk result (Keeps (E.contents self.old.errors) (E.contents self.new.errors)) }
        ensures said { AppendsFront (E.contents self.old.errors) (E.contents self.new.errors) (message Failed.Output self.old.name.now) }
        ensures kept { (self.new.input ≡ self.old.input) × (self.new.name ≡ self.old.name) }
    {
        send(&mut self.output, &mut self.errors, bytes, self.name)
    }

    /// `flush` to the output of these streams.
    pub fn flush(&mut self, buf: &[u8], n: usize) -> Result<(), Unsent>
        ensures fits { OnOk result (n ≤ length buf.now) }
        ensures all { OnOk result (Appends (W.contents self.old.output) (W.contents self.new.output) (take n buf.now)) }
        ensures front { AppendsFront (W.contents self.old.output) (W.contents self.new.output) (take n buf.now) }
        ensures quiet { OnOk result (Keeps (E.contents self.old.errors) (E.contents self.new.errors)) }
        ensures said { AppendsFront (E.contents self.old.errors) (E.contents self.new.errors) (message Failed.Output self.old.name.now) }
        ensures kept { (self.new.input ≡ self.old.input) × (self.new.name ≡ self.old.name) }
    {
        flush(&mut self.output, &mut self.errors, buf, n, self.name)
    }
}

impl<'n, R: Read, W, E: Write> Streams<'n, R, W, E> {
    /// `refill` from the input of these streams.
    pub fn refill(&mut self, buf: &mut [u8], have: usize) -> usize
        ensures refilled { Refilled buf.old buf.new have result }
        ensures comes { Consumes (R.remaining self.old.input) (R.remaining self.new.input) (drop have (take result buf.new)) }
        ensures quiet { have < result → Keeps (E.contents self.old.errors) (E.contents self.new.errors) }
        ensures said { AppendsFront (E.contents self.old.errors) (E.contents self.new.errors) (message Failed.Input self.old.name.now) }
        ensures kept { (self.new.output ≡ self.old.output) × (self.new.name ≡ self.old.name) }
    {
        refill(&mut self.input, &mut self.errors, buf, have, self.name)
    }

    /// `fill` from the input of these streams.
    pub fn fill(&mut self, buf: &mut [u8], have: usize, last: bool) -> usize
        ensures filled { Filled buf.old buf.new have last result }
        ensures comes { Consumes (R.remaining self.old.input) (R.remaining self.new.input) (drop have (take result buf.new)) }
        ensures quiet { have < result → Keeps (E.contents self.old.errors) (E.contents self.new.errors) }
        ensures said { AppendsFront (E.contents self.old.errors) (E.contents self.new.errors) (message Failed.Input self.old.name.now) }
        ensures kept { (self.new.output ≡ self.old.output) × (self.new.name ≡ self.old.name) }
    {
        fill(
            &mut self.input,
            &mut self.errors,
            buf,
            have,
            last,
            self.name,
        )
    }
}

/// Moves the bytes from `from` up to n to the front of a buffer. Answers how many they are.
// Kept: `shifted` of specs/ tells the whole buffer, and `moved` what happens where it is shorter than n.
pub fn shift(buf: &mut [u8], from: usize, n: usize) -> usize
    ensures { (result ≡ moved buf.old from n) × (buf.new ≡ shifted buf.old from result) }
{
    if buf.len() < n || n <= from {
        return 0;
    }
    buf.copy_within(from..n, 0);
    n - from
}

/// What goes from a reader to a writer turn by turn.
pub trait Stage {
    // Whether a turn follows.
    ghost follows: { Self → Bool };

    // Whether all that was handed over to be written so far went out.
    ghost sent: { Self → Bool };

    // A turn: the bytes that come with it, and those that it hands over to be written.
    ghost Turn: { Self → Self → List ℕ → List ℕ → Type 0 };

    /// Whether a turn follows.
    fn goes_on(&self) -> bool
        ensures { result ≡ follows self.now };

    /// A turn.
    fn turn<R: Read, W: Write, E: Write>(&mut self, streams: &mut Streams<'_, R, W, E>)
        ensures { TurnedOver Turn self.old self.new (R.remaining streams.old.input) (R.remaining streams.new.input) (W.contents streams.old.output)
            (W.contents streams.new.output) (sent self.new) };

    // A turn follows only where all went out.
    ghost follows_sent: { (s : Self) → follows s ≡ true → sent s ≡ true };
}

/// All turns, as long as one follows. A proved loop has to end, and nothing says that the input does: the turns are counted, to a number that no run uses up.
pub fn run<S: Stage, R: Read, W: Write, E: Write>(stage: &mut S, streams: &mut Streams<'_, R, W, E>)
    ensures { ChainedOver S.follows S.Turn stage.old stage.new (R.remaining streams.old.input) (R.remaining streams.new.input) (W.contents streams.old.output)
        (W.contents streams.new.output) (S.sent stage.new) }
{
    for _turn in 0..u64::MAX {
        if !stage.goes_on() {
            return;
        }
        stage.turn(streams);
    }
}
