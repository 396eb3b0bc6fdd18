// A set of stations 0 to 255, by the bits of four words.
ghost use Rattle.std.specs.Prelude.{◌≡◌, ℕ, ◌<◌, min, true, false, not, ◌&&◌, ◌||◌, ◌↔◌, MatchOption, ◌==◌, nat_lt, slice_index};
ghost use Rattle.sets.specs.Sets.{has, size, bit, added, Nobody, Lowest, Less};

use std::array;

#[derive(Clone, Copy, Debug, PartialEq, Eq)]
pub struct StationSet {
    words: [u64; 4],
}

impl StationSet {
    pub const EMPTY: StationSet = StationSet { words: [0; 4] };

    // The set without members, as EMPTY is.
    pub fn empty() -> StationSet
        ensures { Nobody result }
    {
        StationSet::EMPTY
    }

    // The stations below n.
    pub fn below(n: usize) -> StationSet
        ensures { (i : ℕ) → has result i ≡ nat_lt i (min n 256) }
    {
        StationSet {
            words: array::from_fn(|k| filled(n.saturating_sub(64 * k))),
        }
    }

    // Whether i is a member.
    pub fn contains(self, i: u8) -> bool
        ensures { result ≡ has self i }
    {
        (self.words[i as usize / 64] >> (i % 64)) % 2 == 1
    }

    // One member more.
    pub fn insert(&mut self, i: u8)
        ensures value { self.new ≡ added self.old i }
        ensures members { (j : ℕ) → has self.new j ≡ (j == i || has self.old j) }
    {
        self.words[i as usize / 64] |= 1 << (i as usize % 64);
    }

    // One member less.
    pub fn remove(&mut self, i: u8)
        ensures { (j : ℕ) → has self.new j ≡ (not (j == i) && has self.old j) }
    {
        self.words[i as usize / 64] &= !(1 << (i as usize % 64));
    }

    // The members of one or the other.
    pub fn union(self, other: StationSet) -> StationSet
        ensures { (i : ℕ) → has result i ≡ (has self i || has other i) }
    {
        self.word_by_word(other, |a, b| a | b)
    }

    // The members of both.
    pub fn intersection(self, other: StationSet) -> StationSet
        ensures { (i : ℕ) → has result i ≡ (has self i && has other i) }
    {
        self.word_by_word(other, |a, b| a & b)
    }

    // The members that the other lacks.
    pub fn difference(self, other: StationSet) -> StationSet
        ensures { (i : ℕ) → has result i ≡ (has self i && not (has other i)) }
    {
        self.word_by_word(other, without)
    }

    // Whether there are no members.
    pub fn is_empty(self) -> bool
        ensures { (result ≡ true) ↔ Nobody self }
    {
        self.first().is_none()
    }

    // The lowest member.
    pub fn first(self) -> Option<u8>
        ensures { MatchOption result (Nobody self) (λ v. Lowest self v) }
    {
        // No `position`: to look the word up again by its number costs a copy of the set in every turn of a loop over members.
        for (k, word) in self.words.iter().enumerate() {
            if *word != 0 {
                let lowest = 64 * k + word.trailing_zeros() as usize;
                return Some(lowest as u8);
            }
        }
        None
    }

    // How many members there are.
    pub fn len(self) -> usize
        ensures { result ≡ size (has self) 256 }
    {
        self.words.iter().map(|word| ones(*word)).sum()
    }

    // Whether the other holds the highest station in which the two differ.
    pub fn less(self, other: StationSet) -> bool
        ensures { (result ≡ true) ↔ Less self other }
    {
        // No chain: over `iter().rev()` the proof knows no word to be below 2 ^ 64, which `Less` rests on, and orders joined by `then`
        // are all made first, where the highest word that differs decides alone.
        let a = self.words;
        let b = other.words;
        if a[3] != b[3] {
            a[3] < b[3]
        } else if a[2] != b[2] {
            a[2] < b[2]
        } else if a[1] != b[1] {
            a[1] < b[1]
        } else {
            a[0] < b[0]
        }
    }

    // The set of the words that `join` makes of those of two sets.
    fn word_by_word<F: Fn(u64, u64) -> u64>(self, other: StationSet, join: F) -> StationSet
        requires { F.IsAlwaysCallable join }
        ensures { (q : ℕ) → q < 4 → F.post join (slice_index self.words q) (slice_index other.words q) (slice_index result.words q) }
    {
        StationSet {
            words: array::from_fn(|k| join(self.words[k], other.words[k])),
        }
    }
}

// A word whose lowest n bits are 1.
fn filled(n: usize) -> u64
    ensures { (k : ℕ) → k < 64 → bit result k ≡ nat_lt k n }
{
    if n < 64 { (1 << n) - 1 } else { u64::MAX }
}

// The bits of a that b lacks. A function, since its clause names bits, which a closure's inferred one does not.
fn without(a: u64, b: u64) -> u64
    ensures { (k : ℕ) → k < 64 → bit result k ≡ (bit a k && not (bit b k)) }
{
    a & !b
}

// How many bits of a word are 1, as a `usize`: its clause counts members as `size` does.
fn ones(word: u64) -> usize
    ensures { result ≡ size (bit word) 64 }
{
    word.count_ones() as usize
}
