//! Sets of numbers below a bound.
ghost use Rattle.std.specs.Prelude.{◌≡◌, ◌+◌, ◌*◌, ◌<◌, ◌≤◌, ◌^◌, ◌↔◌, ◌⊎◌, ℕ, false, true, length, slice_set, slice_index, replicate, IsTrue, IfOk, IfSome, IfNone, MatchOption, [], ◌∷◌};
ghost use Rattle.std.specs.Int.{bit_at};
ghost use Rattle.sources.specs.Bits.{IsIn, floor_of, IsLeastFrom, IsEmptyFrom, members_from, word_count, IsInWord, HoldsSet, IsLeastBit, AreZeroFrom};

use std::alloc::Global;
use std::marker::Model;
use values::NoMemory;

/// As many numbers stand in one word.
const WORD_BITS: usize = 64;

/// A set of numbers below `bits`, 64 to a word. Contracts see the list that says of each number
/// whether it is in, so equal lists are equal sets.
#[derive(Debug, Drop)]
pub struct BitRow {
    bits: u32,
    words: Vec<u64>,
}

impl Model for BitRow {
    ghost use Rattle.std.specs.Prelude.{Bool, List};
    ghost use Rattle.sources.specs.Bits.{set_of, HoldsSet};

    ghost Value = { List Bool };

    ghost view = { λ r. set_of r.words.items r.bits };

    ghost invariant = { λ r. HoldsSet r.words.items r.bits };
}

impl BitRow {
    /// The empty set of numbers below `bits`.
    pub fn new(alloc: Global, bits: u32) -> Result<BitRow, NoMemory>
        ensures { IfOk result (λ set. set ≡ replicate bits false) }
    {
        let count = (bits as usize + (WORD_BITS - 1)) / WORD_BITS;
        let words = zeroes(alloc, count)?;
        Ok(BitRow { bits, words })
    }

    /// The bound that all members are below.
    pub fn bits(&self) -> u32
        ensures { result ≡ length self.now }
    {
        self.bits
    }

    /// How many words hold the set.
    pub fn words(&self) -> usize
        ensures { result ≡ word_count (length self.now) }
    {
        self.words.len()
    }

    /// Puts the number in. The answer is whether it is new.
    #[inline]
    pub fn insert(&mut self, bit: u32) -> bool
        requires { bit < length self.old }
        ensures added { self.new ≡ slice_set self.old bit true }
        ensures is_new { IsTrue result ↔ ¬ IsIn self.old bit }
    {
        let index = bit as usize / WORD_BITS;
        let word = self.words[index];
        self.words[index] = word | (1 << (bit % 64));
        (word >> (bit % 64)) & 1 != 1
    }

    /// Whether the number is in.
    pub fn has(&self, bit: u32) -> bool
        ensures { IsTrue result ↔ IsIn self.now bit }
    {
        let word = self.word(bit as usize / WORD_BITS);
        (word >> (bit % 64)) & 1 == 1
    }

    /// Takes all numbers out.
    pub fn clear(&mut self)
        ensures { self.new ≡ replicate (length self.old) false }
    {
        self.words.fill(0);
    }

    /// The least member above the number, or the least of all where none is given.
    pub fn next_after(&self, bit: Option<u32>) -> Option<u32>
        ensures some { IfSome result (IsLeastFrom self.now (floor_of bit)) }
        ensures none { IfNone result (IsEmptyFrom self.now (floor_of bit)) }
        ensures rest { MatchOption result
            (members_from self.now (floor_of bit) ≡ [])
            (λ next. members_from self.now (floor_of bit) ≡ next ∷ members_from self.now (next + 1)) }
    {
        match bit {
            None => self.next_from(0),
            Some(bit) => self.next_from(bit as usize + 1),
        }
    }

    /// The least member from the number on.
    fn next_from(&self, from: usize) -> Option<u32>
        ensures some { IfSome result (IsLeastFrom self.now from) }
        ensures none { IfNone result (IsEmptyFrom self.now from) }
    {
        let number = least_bit(&self.words, from)?;
        Some(number as u32)
    }

    /// The 64 numbers from `64 * index` on, as the bits of a word: bit k is 1 where that number plus k
    /// is in. Past the last word it is 0.
    pub fn word(&self, index: usize) -> u64
        ensures { (bit : ℕ) → bit < 64 → (bit_at result bit ≡ 1) ↔ IsIn self.now (64 * index + bit) }
    {
        word_at(&self.words, index)
    }

    /// Puts all numbers in that the bits of a word stand for, as `word` gives them.
    pub fn add_word(&mut self, index: usize, word: u64)
        requires within { index < word_count (length self.old) }
        requires below { (number : ℕ) → IsInWord index word number → number < length self.old }
        ensures members { (number : ℕ) → IsIn self.new number ↔ (IsIn self.old number ⊎ IsInWord index word number) }
        ensures bits { length self.new ≡ length self.old }
    {
        let held = self.words[index];
        self.words[index] = held | word;
    }
}

/// The word at a place, and 0 past the end.
fn word_at(words: &[u64], index: usize) -> u64
    ensures { result ≡ slice_index words.now index }
{
    words.get(index).copied().unwrap_or(0)
}

/// As many words of 0.
fn zeroes(alloc: Global, count: usize) -> Result<Vec<u64>, NoMemory>
    ensures { IfOk result (λ words. words.items ≡ replicate count 0) }
{
    let words = vec![in alloc; 0u64; count]?;
    Ok(words)
}

/// The place of the least 1 of the words from a place on.
fn least_bit(words: &[u64], from: usize) -> Option<usize>
    requires { 64 * length words.now < 2 ^ 63 }
    ensures some { IfSome result (IsLeastBit words.now from) }
    ensures none { IfNone result (AreZeroFrom words.now from) }
{
    let index = from / WORD_BITS;
    if index >= words.len() {
        return None;
    }
    let rest = words[index] & (u64::MAX << (from % WORD_BITS));
    if rest != 0 {
        return Some(index * WORD_BITS + rest.trailing_zeros() as usize);
    }
    least_bit_of_words(words, index + 1)
}

/// The place of the least 1 of the words from this one on.
fn least_bit_of_words(words: &[u64], first: usize) -> Option<usize>
    requires { 64 * length words.now < 2 ^ 63 }
    ensures some { IfSome result (IsLeastBit words.now (64 * first)) }
    ensures none { IfNone result (AreZeroFrom words.now (64 * first)) }
{
    for index in first..words.len() {
        let word = words[index];
        if word != 0 {
            return Some(index * WORD_BITS + word.trailing_zeros() as usize);
        }
    }
    None
}
