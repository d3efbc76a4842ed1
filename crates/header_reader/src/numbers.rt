// Numbers in a row, as a header has them: each in as many bytes, lowest first; behind the bytes' end none is left of them.
ghost use Rattle.std.specs.Prelude.{◌≡◌, List, ℕ, ◌+◌, ◌*◌, ◌≤◌, ◌<◌, drop, get_or, length};
ghost use Rattle.std.specs.Iterator.{YieldsFirst, item_count};
ghost use Rattle.metadata.specs.Bytes.{numbers};
ghost use Rattle.lexicon.specs.Dictionary.{each_below};

use measure::read_packed;
use std::marker::Model;

// The `left` numbers of `width` bytes from place `at` on.
#[derive(Drop)]
pub(crate) struct Numbers<'a> {
    bytes: &'a [u8],
    at: usize,
    width: usize,
    left: usize,
}

// They are a list of numbers; none has more than four bytes, and no place among them is far.
impl<'a> Model for Numbers<'a> {
    ghost Value = { List ℕ };

    ghost view = { λ s. numbers s.width s.left (drop s.at s.bytes.now) };

    ghost invariant = { λ s. (s.width ≤ 4) × (s.at + s.width * s.left ≤ 5 + 8 * 4294967296) × (s.left < 4294967296) };
}

impl<'a> Numbers<'a> {
    // Kept (6; no plainer): a header's place may lie behind its bytes, which a slice may not.
    pub(crate) fn new(bytes: &'a [u8], at: usize, width: usize, count: usize) -> Numbers<'a>
        requires { (width ≤ 4) × (at + width * count ≤ 5 + 8 * 4294967296) × (count < 4294967296) }
        ensures { result ≡ numbers width count (drop at bytes.now) }
    {
        Numbers {
            bytes,
            at,
            width,
            left: count,
        }
    }

    // How many are left.
    pub(crate) fn len(&self) -> usize
        ensures { (result ≡ length self.now) × (result < 4294967296) }
    {
        self.left
    }

    // Number k of them.
    // Kept (1d; no plainer): callers ask below `len`; behind them the definition that they are proved against says 0.
    pub(crate) fn get(&self, k: usize) -> usize
        ensures { (result ≡ get_or self.now k 0) × (result < 4294967296) }
    {
        if k < self.left {
            read_packed(self.bytes, self.at + self.width * k, self.width)
        } else {
            0
        }
    }

    // Is each below b?
    pub(crate) fn each_below(mut self, b: usize) -> bool
        ensures { result ≡ each_below b self.entry }
    {
        self.all(|number| number < b)
    }
}

impl Iterator for Numbers<'_> {
    type Item = usize;

    ghost next_gives = { YieldsFirst (λ s. s) };

    ghost remaining = { item_count (λ s. s) };

    fn next(&mut self) -> Option<usize> {
        if self.left == 0 {
            return None;
        }
        let number = read_packed(self.bytes, self.at, self.width);
        self.at += self.width;
        self.left -= 1;
        Some(number)
    }
}
