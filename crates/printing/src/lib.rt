#![tactic(auto)]

// Event files in the readable form: one event a line, its word and then its numbers in decimal.
ghost use Rattle.std.specs.Prelude.{◌≤◌, ◌<◌, ◌≡◌, true, length};
ghost use Rattle.rules.specs.Bytes.{num_of};
ghost use Rattle.rules.specs.Kinds.{widths_of, word_of};
ghost use Rattle.rules.specs.Lists.{flat};
ghost use Rattle.rules.specs.Record.{body_length};
ghost use Rattle.output.specs.Writer.{Puts};
ghost use Rattle.events.specs.Row.{is_width};
ghost use Rattle.events.specs.Whole.{record_length, whole_length};
ghost use Rattle.printing.specs.Text.{number_text, numbers_of, record_text, whole_text};

use output::Writer;

// A number behind a word.
#[tactic(auto, using(output::proofs::Rooms::puts_cons), unfolding(crate::specs::Text::number_text))]
fn put_number(out: &mut Writer<'_>, n: u64)
    ensures { Puts out.old (number_text n) out.new }
{
    out.put_byte(b' ');
    out.put_decimal(n);
}

/// Bytes, each as a number.
#[tactic(auto, using(crate::proofs::Fields::flat_next, crate::proofs::Fields::flat_end))]
pub fn put_numbers(out: &mut Writer<'_>, bytes: &[u8])
    ensures { Puts out.old (flat number_text bytes.now) out.new }
{
    for byte in bytes {
        put_number(out, u64::from(*byte));
    }
}

// The number that the bytes of a field hold.
#[tactic(auto, using(crate::proofs::Fields::field_one, crate::proofs::Fields::field_two, crate::proofs::Fields::field_word))]
fn number_in(field: &[u8]) -> u64
    requires { is_width (length field.now) ≡ true }
    ensures { result ≡ num_of field.now }
{
    match field.len() {
        1 => u64::from(field[0]),
        2 => u64::from(lines::join8(field[0], field[1])),
        _ => lines::take_word(field, 0),
    }
}

// The numbers in a body, which has all its bytes.
#[tactic(auto, using(events::proofs::Table::body_total, events::proofs::Table::total_next, crate::proofs::Fields::body_next, crate::proofs::Fields::body_end, crate::proofs::Fields::is_field))]
fn put_body(out: &mut Writer<'_>, kind: u8, body: &[u8])
    requires { body_length kind ≤ length body.now }
    ensures { Puts out.old (flat number_text (numbers_of (widths_of kind) body.now)) out.new }
{
    let mut rest = body;
    for width in events::kind_row(kind).widths {
        let (field, behind) = rest.split_at(usize::from(*width));
        put_number(out, number_in(field));
        rest = behind;
    }
}

// The line of the whole record at the front.
fn put_event(out: &mut Writer<'_>, bytes: &[u8])
    requires { 0 < record_length bytes.now }
    ensures { Puts out.old (record_text bytes.now) out.new }
{
    let kind = bytes[0];
    out.put_all(events::kind_row(kind).word);
    put_body(out, kind, &bytes[1..]);
    out.put_byte(b'\n');
}

/// The whole records at the front of a file, each as its line; the result is the place behind them.
#[tactic(auto, using(events::proofs::Records::fits_on, events::proofs::Records::length_on, events::proofs::Records::length_off, crate::proofs::Records::text_next, crate::proofs::Records::text_end))]
pub fn put_whole(out: &mut Writer<'_>, file: &[u8]) -> usize
    ensures text { Puts out.old (whole_text file.now) out.new }
    ensures passed { result ≡ whole_length file.now }
{
    let mut rest = file;
    loop {
        let length = events::record_length(rest);
        if length == 0 {
            return file.len() - rest.len();
        }
        put_event(out, rest);
        rest = rest.split_at(length).1;
    }
}
