#![tactic(auto)]

// Bytes, and numbers in decimal or in bytes, into a lent buffer, one behind the other. Bytes that find no room are dropped, and the cursor says so.
ghost use Rattle.std.specs.Prelude.{◌%◌, ◌+◌, ◌≡◌, ◌≤◌, false, [], ◌∷◌, length};
ghost use Rattle.rules.specs.Bytes.{bytes_of};
ghost use Rattle.output.specs.Room.{room};
ghost use Rattle.output.specs.Writer.{Puts, room_of};
ghost use Rattle.output.specs.Decimal.{decimal};

/// Where the next byte goes in a lent buffer, and whether a byte has found no room.
// Kept: `short` tells that a part before found no room; the place holds all the same.
#[derive(Clone, Copy)]
pub struct Cursor {
    pub at: usize,
    pub short: bool,
}

/// A lent buffer and the cursor in it.
#[derive(Drop)]
pub struct Writer<'a> {
    pub out: &'a mut [u8],
    pub cursor: Cursor,
}

impl<'a> Writer<'a> {
    /// A writer whose first byte goes to `at`.
    pub fn new(out: &'a mut [u8], at: usize) -> Writer<'a>
        ensures same_reference { result.out.ghost_name ≡ out.entry.ghost_name }
        ensures empty { room_of result ≡ room out.old (record { at = at; short = false }) }
    {
        Writer {
            out,
            cursor: Cursor { at, short: false },
        }
    }

    /// One byte.
    #[tactic(auto, unfolding(crate::specs::Room::room, crate::specs::Room::puts, crate::specs::Room::put))]
    pub fn put_byte(&mut self, byte: u8)
        ensures { Puts self.old (byte ∷ []) self.new }
    {
        if self.cursor.at < self.out.len() {
            self.out[self.cursor.at] = byte;
            self.cursor.at += 1;
        } else {
            self.cursor.short = true;
        }
    }

    /// Bytes.
    #[tactic(auto, using(crate::proofs::Rooms::puts_next, crate::proofs::Rooms::puts_end))]
    pub fn put_all(&mut self, bytes: &[u8])
        ensures { Puts self.old bytes.now self.new }
    {
        for byte in bytes {
            self.put_byte(*byte);
        }
    }

    // Bytes that have room behind the cursor.
    #[inline(always)]
    fn put_whole(&mut self, bytes: &[u8])
        requires { self.old.cursor.at + length bytes.now ≤ length self.old.out.now }
        ensures { Puts self.old bytes.now self.new }
    {
        let end = self.cursor.at + bytes.len();
        self.out[self.cursor.at..end].copy_from_slice(bytes);
        self.cursor.at = end;
    }

    /// The same as `put_all`, for bytes whose number is known where it is called: those that have room are copied at once, in line.
    #[inline(always)]
    pub fn put_block(&mut self, bytes: &[u8])
        ensures { Puts self.old bytes.now self.new }
    {
        let room = self.out.len();
        if self.cursor.at <= room && bytes.len() <= room - self.cursor.at {
            self.put_whole(bytes);
        } else {
            self.put_all(bytes);
        }
    }

    /// A number in decimal.
    // Kept: no heap; the library prints through a formatter, whose clauses name no digits.
    #[tactic(auto, using(crate::proofs::Rooms::puts_join, crate::proofs::Digits::decimal_small, crate::proofs::Digits::decimal_more))]
    pub fn put_decimal(&mut self, n: u64)
        ensures { Puts self.old (decimal n) self.new }
    {
        if 10 <= n {
            self.put_decimal(n / 10);
        }
        self.put_byte(digit(n));
    }

    /// A number in `width` bytes, the low one first.
    #[tactic(auto, using(crate::proofs::Rooms::le_next, crate::proofs::Rooms::le_end))]
    pub fn put_le(&mut self, n: u64, width: usize)
        ensures { Puts self.old (bytes_of width n) self.new }
    {
        let mut rest = n;
        for _ in 0..width {
            self.put_byte(low(rest));
            rest /= 256;
        }
    }
}

// The last digit of a number.
// Kept: as `put_decimal`.
fn digit(n: u64) -> u8
    ensures { result ≡ 48 + n % 10 }
{
    b'0' + (n % 10) as u8
}

/// The low byte of a number.
// Kept: the lowest byte, at hand for a width that varies.
pub fn low(n: u64) -> u8
    ensures { result ≡ n % 256 }
{
    (n % 256) as u8
}
