// What an address is translated to, as text.
use armwalk::Hit;
use std::fmt;

// Device memory, by MemAttr[1:0].
fn device(low: u64) -> &'static str {
    match low {
        0 => "Device-nGnRnE",
        1 => "Device-nGnRE",
        2 => "Device-nGRE",
        _ => "Device-GRE",
    }
}

// Normal memory in one kind of caches.
fn cached(n: u64) -> &'static str {
    match n {
        0 => "reserved",
        1 => "non-cacheable",
        2 => "write-through",
        _ => "write-back",
    }
}

// SH of Normal memory.
fn shared(n: u64) -> &'static str {
    match n {
        0 => "non-shareable",
        1 => "unpredictable",
        2 => "outer shareable",
        _ => "inner shareable",
    }
}

// Whether a word lets memory be read, written, run at EL1, run at EL0.
#[derive(Clone, Copy)]
struct Rights(u64);

impl fmt::Display for Rights {
    fn fmt<W: fmt::Write>(&self, f: &mut fmt::Formatter<W>) -> fmt::Result {
        let w = self.0;
        let high = w / 0x40_0000_0000_0000 % 2;
        let low = w / 0x20_0000_0000_0000 % 2;
        let right = |has: bool, letter: char| if has { letter } else { '-' };
        let read = right(w / 64 % 2 == 1, 'r');
        let write = right(w / 128 % 2 == 1, 'w');
        let run1 = right(low == high, 'x');
        let run0 = right(high == 0, 'x');
        write!(f, "{read}{write}{run1}{run0}")
    }
}

// A word's kind of memory, and its shareability. Device memory is outer shareable whatever SH says, and so is Normal memory that no cache keeps.
#[derive(Clone, Copy)]
struct Memory(u64);

impl fmt::Display for Memory {
    fn fmt<W: fmt::Write>(&self, f: &mut fmt::Formatter<W>) -> fmt::Result {
        let w = self.0;
        if w / 16 % 4 == 0 {
            return write!(f, "{} {}", device(w / 4 % 4), shared(2));
        }
        let outer = w / 16 % 4;
        let inner = w / 4 % 4;
        let share = if outer == 1 && inner == 1 {
            2
        } else {
            w / 256 % 4
        };
        write!(
            f,
            "Normal {} {} {}",
            cached(outer),
            cached(inner),
            shared(share)
        )
    }
}

// What an address is translated to.
#[derive(Clone, Copy)]
pub(crate) struct Seen(pub(crate) Option<Hit>);

impl fmt::Display for Seen {
    fn fmt<W: fmt::Write>(&self, f: &mut fmt::Formatter<W>) -> fmt::Result {
        let Some(Hit { address, word }) = self.0 else {
            return write!(f, "fault");
        };
        write!(f, "{address:x} {} {}", Rights(word), Memory(word))
    }
}
