// The memory that there is, of which each call is lent the first words of both runs and the first places.

ghost use Rattle.std.specs.Iterator.{IsFinite};

use crate::calls::{Done, Told};
use crate::read::Line;

// 65 tables.
pub(crate) const WORDS: usize = 33280;

// And 16 in the second run.
pub(crate) const MORE: usize = 8192;

pub(crate) const PLACES: usize = 81;

#[derive(Clone, Copy, PartialEq, Eq)]
pub(crate) struct Memory {
    pub(crate) words: [u64; WORDS],
    pub(crate) more: [u64; MORE],
    pub(crate) list: [u32; PLACES],
}

// A number of a place, of which the low half is kept.
fn narrow(n: u64) -> u32 {
    (n % 0x1_0000_0000) as u32
}

// So many first numbers of a run become n, where there are so many.
fn fill(run: &mut [u64], count: u64, n: u64) {
    if let Some(part) = run.get_mut(..count as usize) {
        part.fill(n);
    }
}

impl Memory {
    pub(crate) fn new() -> Memory {
        Memory {
            words: [0; WORDS],
            more: [0; MORE],
            list: [0; PLACES],
        }
    }

    // Lends so many words of both runs and so many places, each sort alike. All other words are 0.
    fn lend(&mut self, line: &mut Line) {
        self.words = [0; WORDS];
        fill(&mut self.words, line[11], line[12]);
        self.more = [0; MORE];
        fill(&mut self.more, line[15], line[16]);
        self.list = [narrow(line[14]); PLACES];
        line[1] = line[11];
        line[2] = line[15];
        line[3] = line[13];
    }

    // Lends another second run, and so many places in all, of which those that were lent stay.
    fn have(&mut self, line: &mut Line) {
        self.more = [0; MORE];
        fill(&mut self.more, line[11], line[12]);
        if let Some(places) = self.list.get_mut(line[3] as usize..) {
            places.fill(narrow(line[14]));
        }
        line[2] = line[11];
        line[3] = line[13];
    }

    // A word becomes another, by its number in both runs, where the second begins at `from`.
    fn write(&mut self, line: &Line, from: u64) {
        let i = line[11];
        let k = if i < from {
            i
        } else {
            (i - from).wrapping_add(WORDS as u64)
        };
        pool::put(&mut self.words, &mut self.more, k as usize, line[12]);
    }

    // What changes the memory and is no call.
    pub(crate) fn lay(&mut self, call: u8, line: &mut Line) {
        match call {
            b'l' | b'L' => self.lend(line),
            b'h' => self.have(line),
            b'w' => self.write(line, line[1]),
            b'W' => self.write(line, WORDS as u64),
            b'p' | b'P' => pool::give(&mut self.list, line[11] as usize, narrow(line[12])),
            _ => {}
        }
    }

    // Zeros where a call that is done makes all words 0: a format those of both runs, an add those of the second.
    pub(crate) fn clear(&mut self, told: Told) {
        match told.answer {
            Ok(Done::Format(_)) => {
                self.words.fill(0);
                self.more.fill(0);
            }
            Ok(Done::Add(_)) => self.more.fill(0),
            _ => {}
        }
    }

    // The sum of all numbers, where the second run follows the first, and the places follow both.
    pub(crate) fn sum(&self) -> u64 {
        let words = sum(0, self.words.iter().copied());
        let more = sum(WORDS, self.more.iter().copied());
        let places = sum(WORDS + MORE, self.list.iter().map(|t| u64::from(*t)));
        words.wrapping_add(more).wrapping_add(places)
    }
}

// The sum of (2 i + 1) * number i modulo 2^64, of numbers that are counted from one on.
pub(crate) fn sum<I: Iterator<Item = u64>>(from: usize, numbers: I) -> u64
    requires { I.Iterator.can_next numbers × IsFinite (I.Iterator.remaining numbers) }
{
    let mut sum = 0u64;
    let mut odd = (from as u64).wrapping_mul(2).wrapping_add(1);
    for n in numbers {
        sum = sum.wrapping_add(n.wrapping_mul(odd));
        odd = odd.wrapping_add(2);
    }
    sum
}
