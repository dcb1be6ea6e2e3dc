// The words of a line by parts. A part is its count and that many words; the next one follows.
ghost use Rattle.std.specs.Prelude.{◌+◌, ◌≤◌};

use std::ops::Range;

// A line that fills the room cannot be read, so a zero follows the words of every other.
pub const ROOM: usize = 8192;

// The most words of a part.
const LONGEST: usize = 1024;

#[derive(Drop)]
pub struct Line {
    words: [u64; ROOM],
    count: usize,
}

impl Line {
    pub fn new() -> Line {
        Line {
            words: [0; ROOM],
            count: 0,
        }
    }

    // A word more, so many times.
    pub fn push(&mut self, word: u64, times: usize) -> Option<()> {
        let end = self.count.checked_add(times)?;
        if ROOM <= end {
            return None;
        }
        self.words.get_mut(self.count..end)?.fill(word);
        self.count = end;
        Some(())
    }

    // The place of the count of a part, whose words follow.
    pub fn begin(&mut self) -> Option<usize> {
        let part = self.count;
        self.push(0, 1)?;
        Some(part)
    }

    // All words behind the count of a part are its own.
    pub fn end(&mut self, part: usize) -> Option<()> {
        let count = self.count.checked_sub(part)?.checked_sub(1)?;
        if LONGEST < count {
            return None;
        }
        *self.words.get_mut(part)? = count as u64;
        Some(())
    }

    // Its words; behind them are zeros.
    pub fn words(&self) -> &[u64] {
        self.words.get(..self.count).unwrap_or(&self.words)
    }

    // The places of the words whose count stands at a place.
    fn counted(&self, at: usize) -> Range<usize>
        ensures { (result.start ≤ result.end) × (result.end ≤ ROOM) × (result.end ≤ result.start + 1024) }
    {
        match self.words.get(at) {
            Some(count) => {
                let start = at + 1;
                start..start + (ROOM - start).min(*count as usize).min(LONGEST)
            }
            None => ROOM..ROOM,
        }
    }

    // The places of the k-th part's words: the call's part is the first, its answer's the next, then each list's before the call and after it.
    pub fn places(&self, k: usize) -> Range<usize>
        ensures { (result.start ≤ result.end) × (result.end ≤ ROOM) }
    {
        let mut places = self.counted(0);
        for _ in 0..k {
            places = self.counted(places.end);
        }
        places
    }

    // The k-th part's words; none behind the last part.
    pub fn part(&self, k: usize) -> &[u64] {
        let places = self.places(k);
        &self.words[places.start..places.end]
    }

    // What the call is told besides lists, counted from 1; 0 is the operation. It is 0 where the line tells no more.
    pub fn word(&self, i: usize) -> u64 {
        self.part(0).get(i).copied().unwrap_or(0)
    }

    pub fn scalar(&self, i: usize) -> usize {
        self.word(i) as usize
    }

    pub fn scalars<const N: usize>(&self) -> [usize; N] {
        let mut told = [0; N];
        for (x, word) in told.iter_mut().zip(self.part(0).iter().skip(1)) {
            *x = *word as usize;
        }
        told
    }

    // The same, from two's complement.
    pub fn signed(&self, i: usize) -> i64 {
        self.word(i).cast_signed()
    }
}
