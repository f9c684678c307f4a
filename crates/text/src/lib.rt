#![tactic(auto)]

// The readable form of event files, both ways: what crate printing writes crate parsing reads back. The calls that benches make for it.
ghost use Rattle.std.specs.Prelude.{◌≡◌};
ghost use Rattle.output.specs.Writer.{Puts};
ghost use Rattle.printing.specs.Claim.{InPieces, rest_text};
ghost use Rattle.parsing.specs.Claim.{FaultsTold, LinesInPieces};
ghost use Rattle.parsing.specs.Fault.{fault_of};
ghost use Rattle.parsing.specs.Numbers.{fault_number};
ghost use Rattle.text.specs.Calls.{bytes_call, text_call};
ghost use Rattle.text.specs.Claim.{RoundTrip};

use output::Writer;
use parsing::Fault;
use rules::{Answer, Refusal};

/// The text of every file is read back as that file. It is the same in whatever pieces the file comes, and so are the bytes of a text.
/// A text has a fault exactly where it is not in the form.
pub fn text_is_right()
    ensures { RoundTrip × (InPieces × (LinesInPieces × FaultsTold)) }
{}

// The answer to a text with a fault.
// Kept: the C interface, where a fault's number stands in the place of a refusal's.
fn refused(fault: Fault) -> Answer
    ensures { result ≡ record { refusal = fault_number fault; value = 0 } }
{
    Answer {
        refusal: fault.number(),
        value: 0,
    }
}

// What is left of a file behind its whole records, as a line of bytes.
#[tactic(auto, using(crate::proofs::Calls::rest_none, crate::proofs::Calls::rest_some))]
fn put_rest(out: &mut Writer<'_>, rest: &[u8])
    ensures { Puts out.old (rest_text rest.now) out.new }
{
    if rest.is_empty() {
        return;
    }
    out.put_all(b"bytes");
    printing::put_numbers(out, rest);
    out.put_byte(b'\n');
}

/// The readable form of an event file; the value is its length. 6 unless the buffer has 32 bytes for each byte of the file: then it has room for any text of it.
pub fn write_text(file: &[u8], text: &mut [u8]) -> Answer
    ensures { record { answer = result; buffer = text.new } ≡ text_call file.now text.old }
{
    if text.len() / 32 < file.len() {
        return Answer::from(Err(Refusal::OutOfRange));
    }
    let mut writer = Writer::new(text, 0);
    let passed = printing::put_whole(&mut writer, file);
    put_rest(&mut writer, &file[passed..]);
    Answer::from(Ok(writer.cursor.at as u64))
}

/// The bytes of a readable text; the value is their number. 6 unless the buffer has 4 bytes for each byte of the text: then it has room for the bytes of any such
/// text. Then the number of its fault, 1 to 5, with nothing written.
pub fn read_bytes(text: &[u8], file: &mut [u8]) -> Answer
    ensures { record { answer = result; buffer = file.new } ≡ bytes_call text.now file.old }
{
    if file.len() / 4 < text.len() {
        return Answer::from(Err(Refusal::OutOfRange));
    }
    if let Some(found) = parsing::first_fault(text) {
        return refused(found.fault);
    }
    let read = parsing::read_text(text, file);
    Answer::from(Ok(read.cursor.at as u64))
}

/// Where the first fault of a text stands: the value is its place, and the length of the text where it has none.
pub fn fault_at(text: &[u8]) -> Answer
    ensures { result ≡ record { refusal = 0; value = (fault_of text.now).at } }
{
    let at = parsing::first_fault(text).map_or(text.len(), |found| found.at);
    Answer::from(Ok(at as u64))
}
