//! A row of a table of text, filled from its end to its start.
//! The rule: docs/CALCULATION.md, "Number texts".
ghost use Rattle.std.specs.Prelude.{◌≡◌, ◌+◌, ◌≤◌, ℕ, List, [], ◌∷◌, ◌++◌, length, drop};
ghost use Rattle.kt_money.specs.NumberText.{count_text, money_text, ppm_text};
ghost use Rattle.kt_money.specs.declared.row.TheConstants.{ROW_BYTES};

use crate::decimals::write_plain;
use itoa::write_digits;
use std::marker::Model;

/// How many bytes a row holds.
pub const ROW_BYTES: usize = 256;

/// A row of text on the stack. Each call puts its text in front of what is there, so a row is filled from its last
/// field to its first, and then appended to `Bytes` as a whole: half the time of an append for each field.
#[derive(Drop)]
pub struct Row {
    bytes: [u8; ROW_BYTES],
    start: usize,
}

impl Model for Row {
    ghost Value = { List ℕ };

    ghost view = { λ r. drop r.start r.bytes };

    ghost invariant = { λ r. r.start ≤ ROW_BYTES };
}

impl Row {
    /// No bytes yet.
    pub fn new() -> Self
        ensures value { result ≡ [] }
    {
        Row {
            bytes: [0; ROW_BYTES],
            start: ROW_BYTES,
        }
    }

    /// Takes all bytes away, for the next row.
    pub fn clear(&mut self)
        ensures value { self.new ≡ [] }
    {
        self.start = ROW_BYTES;
    }

    /// All bytes in their order.
    pub fn as_slice(&self) -> &[u8]
        ensures value { result.now ≡ self.now }
    {
        &self.bytes[self.start..]
    }

    /// Puts a byte in front.
    pub fn put_byte(&mut self, item: u8)
        requires { length self.old + 1 ≤ ROW_BYTES }
        ensures value { self.new ≡ item ∷ self.old }
        ensures room { length self.new ≡ length self.old + 1 }
    {
        self.start -= 1;
        self.bytes[self.start] = item;
    }

    /// Puts a count in front, in plain digits: at most 20 bytes.
    pub fn put_count(&mut self, x: u64)
        requires { length self.old + 20 ≤ ROW_BYTES }
        ensures value { self.new ≡ count_text x ++ self.old }
        ensures room { length self.new ≤ length self.old + 20 }
    {
        self.start = write_digits(x, &mut self.bytes, self.start);
    }

    /// Puts an amount of cents in front, with two decimals: at most 23 bytes.
    pub fn put_money(&mut self, cents: u64)
        requires { length self.old + 23 ≤ ROW_BYTES }
        ensures value { self.new ≡ money_text cents ++ self.old }
        ensures room { length self.new ≤ length self.old + 23 }
    {
        self.start = write_plain(cents, 2, 100, &mut self.bytes, self.start);
    }

    /// Puts parts per million in front, with six decimals: at most 27 bytes.
    pub fn put_ppm(&mut self, x: u32)
        requires { length self.old + 27 ≤ ROW_BYTES }
        ensures value { self.new ≡ ppm_text x ++ self.old }
        ensures room { length self.new ≤ length self.old + 27 }
    {
        self.start = write_plain(u64::from(x), 6, 1_000_000, &mut self.bytes, self.start);
    }
}

impl Default for Row {
    ghost is_default = { λ row. row ≡ [] };

    fn default() -> Self {
        Row::new()
    }
}
