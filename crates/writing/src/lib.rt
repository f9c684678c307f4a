#![tactic(auto)]

// The records of an image, put behind a writer's cursor. Every function has one contract shape, `PutsWhole`: where there is room for its bytes, they stand
// behind the cursor and nothing else changed; where there is none, buffer and cursor stay.
ghost use Rattle.std.specs.Prelude.{◌≡◌, [], ◌∷◌};
ghost use Rattle.rules.specs.Bytes.{line_bytes};
ghost use Rattle.rules.specs.Image.{entry_record, head_record, key_bytes, line_record, region_record};
ghost use Rattle.writing.specs.Put.{PutsWhole};

use measures::{LINE_BYTES, Line, MOST_DEPS};
use output::Writer;

// The kinds of the records.
// Kept: bytes of the format. An enum would be turned back into its byte at each place.
const HEAD: u8 = 32;

const LINE: u8 = 33;

const REGION: u8 = 34;

const ENTRY: u8 = 35;

// Bytes, where there is room for all of them. In line, so that their number is known.
#[inline(always)]
#[tactic(auto, unfolding(output::specs::Room::puts))]
fn put(out: &mut Writer<'_>, bytes: &[u8])
    ensures { PutsWhole out.old bytes.now out.new }
{
    if !lines::has_room(out.out.len(), out.cursor.at, bytes.len()) {
        return;
    }
    out.put_block(bytes);
}

// ---- records and their parts as bytes

// A region's key: its thread, then its number.
// Kept: the thread's byte is taken modulo 256, as `key_bytes` of specs/ has it.
fn key_bytes(key: u64) -> [u8; 3]
    ensures { result ≡ key_bytes key }
{
    let [low, high, thread, ..] = key.to_le_bytes();
    [thread, low, high]
}

// The kind of a record that is about a region, and the region's key.
fn header(kind: u8, key: u32) -> [u8; 4]
    ensures { result ≡ kind ∷ key_bytes key }
{
    let [thread, low, high] = key_bytes(key as u64);
    [kind, thread, low, high]
}

fn head_record(threads: u8, lines: u16) -> [u8; 4]
    ensures { result ≡ head_record threads lines }
{
    let [low, high] = lines.to_le_bytes();
    [HEAD, threads, low, high]
}

fn line_bytes(line: Line) -> [u8; LINE_BYTES]
    ensures { result ≡ line_bytes line }
{
    let mut bytes = [0; LINE_BYTES];
    lines::put_line_at(&mut bytes, 0, line);
    bytes
}

fn line_record(line: Line) -> [u8; 1 + LINE_BYTES]
    ensures { result ≡ line_record line }
{
    let mut record = [0; 1 + LINE_BYTES];
    record[0] = LINE;
    lines::put_line_at(&mut record, 1, line);
    record
}

// Kept: four dependences have four places. A loop over them would have to say at each turn where a key's bytes stand.
fn region_record(key: u32, state: u8, deps: [u64; MOST_DEPS]) -> [u8; 17]
    ensures { result ≡ region_record (record { key = key; state = state; deps = deps }) }
{
    let [kind, thread, low, high] = header(REGION, key);
    let first = key_bytes(deps[0]);
    let second = key_bytes(deps[1]);
    let third = key_bytes(deps[2]);
    let fourth = key_bytes(deps[3]);
    [
        kind, thread, low, high, state, first[0], first[1], first[2], second[0], second[1],
        second[2], third[0], third[1], third[2], fourth[0], fourth[1], fourth[2],
    ]
}

// Kept: the struct of these three, `SavedEntry`, is of crate saving.
fn entry_record(key: u32, line: u8, old: Line) -> [u8; 5 + LINE_BYTES]
    ensures { result ≡ entry_record (record { key = key; line = line; old = old }) }
{
    let [kind, thread, low, high] = header(ENTRY, key);
    let mut record = [0; 5 + LINE_BYTES];
    record[..5].copy_from_slice(&[kind, thread, low, high, line]);
    lines::put_line_at(&mut record, 5, old);
    record
}

// ---- records

/// The front of an image: T and L.
pub fn put_head(out: &mut Writer<'_>, threads: u8, lines: u16)
    ensures { PutsWhole out.old (head_record threads lines) out.new }
{
    put(out, &head_record(threads, lines));
}

/// A line of the medium.
pub fn put_line_record(out: &mut Writer<'_>, line: Line)
    ensures { PutsWhole out.old (line_record line) out.new }
{
    put(out, &line_record(line));
}

/// A region with its four dependences as they are.
pub fn put_region(out: &mut Writer<'_>, key: u32, state: u8, deps: [u64; MOST_DEPS])
    ensures { PutsWhole out.old (region_record (record { key = key; state = state; deps = deps })) out.new }
{
    put(out, &region_record(key, state, deps));
}

/// A log entry.
// Kept: the struct of these three, `SavedEntry`, is of crate saving.
pub fn put_entry(out: &mut Writer<'_>, key: u32, line: u8, old: Line)
    ensures { PutsWhole out.old (entry_record (record { key = key; line = line; old = old })) out.new }
{
    put(out, &entry_record(key, line, old));
}

// ---- parts of records

/// The kind and the key of a record of several log entries.
pub fn put_header(out: &mut Writer<'_>, kind: u8, key: u32)
    ensures { PutsWhole out.old (kind ∷ key_bytes key) out.new }
{
    put(out, &header(kind, key));
}

/// One byte: a line number, or the record that ends an image, which is its kind alone.
pub fn put_one(out: &mut Writer<'_>, byte: u8)
    ensures { PutsWhole out.old (byte ∷ []) out.new }
{
    put(out, &[byte]);
}

/// The 64 bytes of an old line.
pub fn put_old_line(out: &mut Writer<'_>, old: Line)
    ensures { PutsWhole out.old (line_bytes old) out.new }
{
    put(out, &line_bytes(old));
}
