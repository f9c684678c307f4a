#![tactic(auto)]

// A line is eight words, taken and given by value. Words and lines as bytes, little-endian, in a lent slice: what does not lie wholly in the slice is
// read as 0, and is not written.
ghost use Rattle.std.specs.Prelude.{◌+◌, ◌*◌, ◌<◌, ◌≤◌, ◌≡◌, leb, length, set, take, drop};
ghost use Rattle.std.proofs.lemmas.List.Edits.{sets};
ghost use Rattle.rules.specs.Bytes.{bytes_of, num_of, line_bytes, line_at};
ghost use Rattle.rules.specs.Run.{answer_bytes};
ghost use Rattle.rules.specs.Tables.{line_of};
ghost use Rattle.rules.specs.Access.{byte_after, stored_in, word_after};
ghost use Rattle.lines.specs.Room.{line_in, put_at, word_in};
ghost use Rattle.lines.specs.Stores.{Stores};

use measures::{LINE_WORDS, Line, Lines};

/// Line l of a memory, taken whole.
pub fn line_of(m: &Lines, l: u8) -> Line
    ensures { result ≡ line_of l m.now }
{
    m[l as usize]
}

/// Line l of a memory, given whole.
pub fn set_line(m: &mut Lines, l: u8, line: Line)
    ensures { m.new ≡ set m.old l line }
{
    m[l as usize] = line;
}

/// Two bytes joined, the low one first.
pub fn join8(lo: u8, hi: u8) -> u16
    ensures { result ≡ lo + 256 * hi }
{
    u16::from_le_bytes([lo, hi])
}

/// Two numbers of 16 bits joined, the low one first.
// Kept: the library joins bytes, and no halves of a number.
pub fn join16(lo: u16, hi: u16) -> u32
    ensures { result ≡ lo + 65536 * hi }
{
    u32::from(lo) + 65536 * u32::from(hi)
}

/// Whether n bytes from `at` on lie in a slice.
pub fn has_room(len: usize, at: usize, n: usize) -> bool
    ensures { result ≡ leb (at + n) len }
{
    n <= len && at <= len - n
}

// ---- a word

#[tactic(auto, using(crate::proofs::Words::word_put))]
fn set_word(dst: &mut [u8], at: usize, x: u64)
    requires { at + 8 ≤ length dst.old }
    ensures { dst.new ≡ sets dst.old at (bytes_of 8 x) }
{
    dst[at..at + 8].copy_from_slice(&x.to_le_bytes());
}

/// The eight bytes of a word from `at` on.
#[tactic(auto, unfolding(crate::specs::Room::put_at))]
pub fn put_word(dst: &mut [u8], at: usize, x: u64)
    ensures { dst.new ≡ put_at 8 dst.old at (bytes_of 8 x) }
{
    if has_room(dst.len(), at, 8) {
        set_word(dst, at, x);
    }
}

/// The word that the eight bytes from `at` on hold.
#[tactic(auto, using(crate::proofs::Words::word_read), unfolding(crate::specs::Room::word_in))]
pub fn take_word(src: &[u8], at: usize) -> u64
    ensures { result ≡ word_in src.now at }
{
    if !has_room(src.len(), at, 8) {
        return 0;
    }
    let mut bytes = [0; 8];
    bytes.copy_from_slice(&src[at..at + 8]);
    u64::from_le_bytes(bytes)
}

// ---- bytes of a word, where a mask has a bit for each

// Byte `place` of v where its bit of the mask is set, else that of x.
#[tactic(auto, using(crate::proofs::Stores::le_byte))]
fn byte_after(mask: u8, v: u64, x: u64, place: usize) -> u8
    requires { place < 8 }
    ensures { result ≡ byte_after mask v x place }
{
    if (mask >> place) % 2 == 1 {
        v.to_le_bytes()[place]
    } else {
        x.to_le_bytes()[place]
    }
}

// The word x with those bytes of v whose bit is set.
#[tactic(auto, using(crate::proofs::Stores::word_made))]
fn word_after(mask: u8, v: u64, x: u64) -> u64
    ensures { result ≡ word_after mask v x }
{
    let mut bytes = [0; 8];
    for place in 0..8 {
        bytes[place] = byte_after(mask, v, x, place);
    }
    u64::from_le_bytes(bytes)
}

/// The line with those bytes of v in its word w, and every other byte as it was.
#[tactic(auto, using(crate::proofs::Stores::stored_is))]
pub fn store_bytes(line: Line, w: usize, mask: u8, v: u64) -> Line
    ensures { (result ≡ stored_in w mask v line) × Stores w mask v line result }
{
    let mut stored = line;
    if w < LINE_WORDS {
        stored[w] = word_after(mask, v, line[w]);
    }
    stored
}

// ---- a line

// A line's 64 bytes at the front of a part of a buffer.
#[tactic(auto, using(crate::proofs::Words::line_more, crate::proofs::Words::line_end))]
fn put_line(dst: &mut [u8], line: Line)
    requires { 64 ≤ length dst.old }
    ensures { dst.new ≡ sets dst.old 0 (line_bytes line) }
{
    for (w, word) in line.iter().enumerate() {
        set_word(dst, 8 * w, *word);
    }
}

/// The line whose 64 bytes stand from `at` on.
#[tactic(auto, using(crate::proofs::Stores::line_read), unfolding(crate::specs::Room::line_in))]
pub fn take_line(src: &[u8], at: usize) -> Line
    ensures { result ≡ line_in src.now at }
{
    let mut line = [0; LINE_WORDS];
    if !has_room(src.len(), at, 64) {
        return line;
    }
    for w in 0..LINE_WORDS {
        line[w] = take_word(src, at + 8 * w);
    }
    line
}

/// The 64 bytes from `at` on, in the middle of a buffer, overwritten.
#[tactic(auto, using(crate::proofs::Words::line_put), unfolding(crate::specs::Room::put_at))]
pub fn put_line_at(dst: &mut [u8], at: usize, line: Line)
    ensures { dst.new ≡ put_at 64 dst.old at (line_bytes line) }
{
    if has_room(dst.len(), at, 64) {
        put_line(&mut dst[at..at + 64], line);
    }
}

/// The nine bytes of an answer from `at` on: the refusal, then the value.
#[tactic(auto, unfolding(crate::specs::Room::put_at))]
pub fn put_answer(dst: &mut [u8], at: usize, refusal: u8, value: u64)
    ensures { dst.new ≡ put_at 9 dst.old at (answer_bytes (record { refusal = refusal; value = value })) }
{
    if has_room(dst.len(), at, 9) {
        dst[at] = refusal;
        set_word(dst, at + 1, value);
    }
}
