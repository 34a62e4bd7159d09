//! A bit for each point of the largest board.

ghost use Rattle.std.specs.Prelude.{◌≡◌, ◌≢◌, ℕ, ◌/◌, ◌<◌, ◌≤◌, ◌&&◌, ◌||◌, ◌+◌, ◌==◌, not, IsTrue, true, false};
ghost use Rattle.std.specs.Prelude.{IfSome, IfNone, Some, None, nat_lt, if◌then◌else◌};
ghost use Rattle.std.specs.Int.{bit_at};
ghost use Rattle.std.specs.FinSet as set;
ghost use Rattle.go_rules.specs.Board.{largest_points};
ghost use Rattle.go_base.specs.Bits.{set_words, is_marked, marked, bits_set, IsNoteOf};

use crate::size::{MAX_POINTS, Point};
use std::marker::Model;

/// How many bits a word has.
pub(crate) const WORD_BITS: u16 = 64;

/// How many words of 64 bits have a bit for each point of the largest board.
pub const WORDS: usize = (MAX_POINTS + 63) / 64;

/// A bit for each point of the largest board, in 80 bytes. It is seen as the list of its words.
#[derive(Clone, Copy, Debug)]
pub struct PointBits {
    words: [u64; WORDS],
}

impl Model for PointBits {
    ghost use Rattle.std.specs.Prelude.{List, ℕ};

    ghost Value = { List ℕ };

    ghost view = { λ bits. bits.words };

    ghost inverse = { λ words. record { words = words } };
}

impl PointBits {
    /// The bits of the empty set: none is set.
    pub fn new() -> PointBits
        ensures { (q : ℕ) → is_marked result q ≡ false }
    {
        PointBits { words: [0; WORDS] }
    }

    /// Whether the bit of `p` is set.
    pub fn has(&self, p: Point) -> bool
        requires { p < largest_points }
        ensures { result ≡ is_marked self.now p }
    {
        (self.words[p as usize / 64] >> (p % 64)) & 1 == 1
    }

    /// Sets the bit of `p`.
    pub fn add(&mut self, p: Point)
        requires { p < largest_points }
        ensures here { IsTrue (is_marked self.new p) }
        ensures elsewhere { (q : ℕ) → q ≢ p → is_marked self.new q ≡ is_marked self.old q }
    {
        self.words[p as usize / 64] |= 1 << (p % 64);
    }

    /// Clears the bit of `p`.
    pub(crate) fn remove(&mut self, p: Point)
        requires { p < largest_points }
        ensures here { is_marked self.new p ≡ false }
        ensures elsewhere { (q : ℕ) → q ≢ p → is_marked self.new q ≡ is_marked self.old q }
    {
        self.words[p as usize / 64] &= !(1 << (p % 64));
    }

    /// Whether a bit of the word with this number is set.
    pub(crate) fn has_word(&self, word: u16) -> bool
        requires { word < set_words }
        ensures some { IsTrue result → (q : ℕ) × (q / 64 ≡ word) × IsTrue (is_marked self.now q) }
        ensures none { result ≡ false → (q : ℕ) → q / 64 ≡ word → is_marked self.now q ≡ false }
    {
        lowest_bit(self.words[word as usize], 0) < WORD_BITS
    }

    /// Sets each bit that is set in `other`.
    pub fn join(&mut self, other: &PointBits)
        ensures { (q : ℕ) → is_marked self.new q ≡ (is_marked self.old q || is_marked other.now q) }
    {
        for i in 0..WORDS {
            self.words[i] |= other.words[i];
        }
    }

    /// The bits that are set here and in `other`.
    pub(crate) fn intersection(&self, other: &PointBits) -> PointBits
        ensures { (q : ℕ) → is_marked result q ≡ (is_marked self.now q && is_marked other.now q) }
    {
        let mut common = *self;
        for i in 0..WORDS {
            common.words[i] = bits_in_both(common.words[i], other.words[i]);
        }
        common
    }

    /// The bits that are set here and not in `other`.
    pub(crate) fn difference(&self, other: &PointBits) -> PointBits
        ensures { (q : ℕ) → is_marked result q ≡ (is_marked self.now q && not (is_marked other.now q)) }
    {
        let mut rest = *self;
        for i in 0..WORDS {
            rest.words[i] = bits_apart(rest.words[i], other.words[i]);
        }
        rest
    }

    /// How many bits are set. Each set bit is the bit of a point.
    pub(crate) fn count(&self) -> u16
        requires { (q : ℕ) → IsTrue (is_marked self.now q) → q < largest_points }
        ensures { result ≡ set.len (marked self.now) }
    {
        let mut count = 0;
        for i in 0..WORDS {
            count += ones_of(self.words[i]);
        }
        count
    }

    /// A note of the words that have a set bit: bit `i` of the note is set exactly if word `i` has one. Each set bit is
    /// the bit of a point.
    pub(crate) fn words_in_use(&self) -> u16
        requires { (q : ℕ) → IsTrue (is_marked self.now q) → q < largest_points }
        ensures { IsNoteOf self.now result }
    {
        let mut used = 0;
        for i in 0..WORDS as u16 {
            if self.has_word(i) {
                used |= 1 << i;
            }
        }
        used
    }

    /// The least point from `first` on whose bit is set, if it is below `end`; `None` exactly if there is none.
    pub fn first_from(&self, first: u16, end: u16) -> Option<Point>
        requires { end ≤ largest_points }
        ensures some { IfSome result (λ q. (first ≤ q) × (q < end) × IsTrue (is_marked self.now q)
            × ((r : ℕ) → first ≤ r → r < q → is_marked self.now r ≡ false)) }
        ensures none { IfNone result ((r : ℕ) → first ≤ r → r < end → is_marked self.now r ≡ false) }
    {
        first_marked(&self.words, first, end)
    }

    /// Whether `test` says yes of each point below `end` whose bit is set. The test is asked of no other point, and of
    /// none after the first for which it says no.
    pub fn all_below<F: Fn(Point) -> bool>(&self, end: u16, test: F) -> bool
        requires bound { end ≤ largest_points }
        requires asked { (q : ℕ) → q < end → F.pre test q }
        ensures yes { IsTrue result → (q : ℕ) → q < end → IsTrue (is_marked self.now q) → F.post test q true }
        ensures no { result ≡ false → (q : ℕ) × (q < end) × IsTrue (is_marked self.now q) × F.post test q false }
    {
        let mut base = 0;
        while base + WORD_BITS <= end {
            if !all_of_word(self.words[base as usize / 64], base, &test) {
                return false;
            }
            base += WORD_BITS;
        }
        let below = (1 << (end - base)) - 1;
        all_of_word(self.words[base as usize / 64] & below, base, &test)
    }

    /// The least point whose bit is set; `None` exactly if there is none. As `used` notes the words that have a set
    /// bit, only the first of these words is looked at.
    #[inline(always)]
    pub(crate) fn first_noted(&self, used: u16) -> Option<Point>
        requires { IsNoteOf self.now used }
        ensures some { IfSome result (λ q. (q < largest_points) × IsTrue (is_marked self.now q)
            × ((r : ℕ) → r < q → is_marked self.now r ≡ false)) }
        ensures none { IfNone result ((r : ℕ) → is_marked self.now r ≡ false) }
    {
        let word = lowest_bit(used as u64, 0);
        if word >= WORD_BITS {
            return None;
        }
        Some(word * WORD_BITS + lowest_bit(self.words[word as usize], 0))
    }

    /// The least point from `first` on whose bit is set; `None` exactly if there is none. As `used` notes the words
    /// that have a set bit, the other words are skipped.
    pub(crate) fn first_in_use(&self, used: u16, first: u16) -> Option<Point>
        requires { IsNoteOf self.now used }
        ensures some { IfSome result (λ q. (first ≤ q) × (q < largest_points) × IsTrue (is_marked self.now q)
            × ((r : ℕ) → first ≤ r → r < q → is_marked self.now r ≡ false)) }
        ensures none { IfNone result ((r : ℕ) → first ≤ r → is_marked self.now r ≡ false) }
    {
        first_in_words(&self.words, used, first)
    }
}

/// The least point from `first` on that `words` mark; `None` exactly if there is none. It looks at the word of `first`,
/// and then at the next word that `used` notes, which has a set bit.
fn first_in_words(words: &[u64; WORDS], used: u16, first: u16) -> Option<Point>
    requires { IsNoteOf words.now used }
    ensures some { IfSome result (λ q. (first ≤ q) × (q < largest_points) × IsTrue (is_marked words.now q)
        × ((r : ℕ) → first ≤ r → r < q → is_marked words.now r ≡ false)) }
    ensures none { IfNone result ((r : ℕ) → first ≤ r → is_marked words.now r ≡ false) }
{
    if first >= MAX_POINTS as u16 {
        return None;
    }
    let word = first / WORD_BITS;
    let bit = lowest_bit(words[word as usize], first % WORD_BITS);
    if bit < WORD_BITS {
        return Some(word * WORD_BITS + bit);
    }
    let next = lowest_bit(used as u64, word + 1);
    if next >= WORD_BITS {
        return None;
    }
    Some(next * WORD_BITS + lowest_bit(words[next as usize], 0))
}

/// The least point from `first` on that `words` mark, if it is below `end`; `None` exactly if there is none. It takes
/// no memory.
pub fn first_marked(words: &[u64; WORDS], first: u16, end: u16) -> Option<Point>
    requires { end ≤ largest_points }
    ensures some { IfSome result (λ q. (first ≤ q) × (q < end) × IsTrue (is_marked words.now q)
        × ((r : ℕ) → first ≤ r → r < q → is_marked words.now r ≡ false)) }
    ensures none { IfNone result ((r : ℕ) → first ≤ r → r < end → is_marked words.now r ≡ false) }
{
    let mut from = first;
    while from < end {
        let word = from / WORD_BITS;
        let bit = lowest_bit(words[word as usize], from % WORD_BITS);
        let q = word * WORD_BITS + bit;
        if bit < WORD_BITS {
            return point_below(q, end);
        }
        from = q;
    }
    None
}

// The point `q` if it is below `end`, else `None`.
fn point_below(q: u16, end: u16) -> Option<Point>
    ensures { result ≡ (if nat_lt q end then Some q else None) }
{
    if q < end { Some(q) } else { None }
}

// Whether `test` says yes of each point that `word` marks. The bits of `word` are those of the points from `base` on.
fn all_of_word<F: Fn(Point) -> bool>(word: u64, base: Point, test: &F) -> bool
    requires below { base < largest_points }
    requires asked { (k : ℕ) → k < 64 → bit_at word k ≡ 1 → F.pre test.now (base + k) }
    ensures yes { IsTrue result → (k : ℕ) → k < 64 → bit_at word k ≡ 1 → F.post test.now (base + k) true }
    ensures no { result ≡ false → (k : ℕ) × (k < 64) × (bit_at word k ≡ 1) × F.post test.now (base + k) false }
{
    let mut rest = word;
    while rest != 0 {
        let bit = rest.trailing_zeros() as u16;
        if !test(base + bit) {
            return false;
        }
        rest &= rest - 1;
    }
    true
}

// The bits that are set in `word` and in `other`.
fn bits_in_both(word: u64, other: u64) -> u64
    ensures { (k : ℕ) → k < 64 → (bit_at result k == 1) ≡ ((bit_at word k == 1) && (bit_at other k == 1)) }
{
    word & other
}

// The bits that are set in `word` and not in `other`.
fn bits_apart(word: u64, other: u64) -> u64
    ensures { (k : ℕ) → k < 64 → (bit_at result k == 1) ≡ ((bit_at word k == 1) && not (bit_at other k == 1)) }
{
    word & !other
}

// How many bits of `word` are set.
fn ones_of(word: u64) -> u16
    ensures { result ≡ bits_set word }
{
    word.count_ones() as u16
}

// The place of the lowest set bit of `word` that is not below `from`, or 64 if there is none.
fn lowest_bit(word: u64, from: u16) -> u16
    requires { from < 64 }
    ensures bound { result ≤ 64 }
    ensures hit { result < 64 → bit_at word result ≡ 1 }
    ensures misses { (k : ℕ) → from ≤ k → k < result → bit_at word k ≡ 0 }
    ensures low { from ≤ result }
{
    let rest = word >> from;
    if rest == 0 {
        return WORD_BITS;
    }
    from + rest.trailing_zeros() as u16
}
