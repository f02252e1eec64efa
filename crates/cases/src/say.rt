// What is written.
use crate::calls::{Done, Told};
use crate::memory::Memory;
use crate::view::{BLANK, View};
use model::{Counts, Excerpt, Found, Refusal};
use path::Setup;
use std::io::Write;
use std::{fmt, io};

// A text, byte by byte as it is.
pub(crate) fn text(rt: &impl Print, t: &[u8]) -> io::Result<()> {
    io::writer(rt).write_all(t)
}

// What a call answers, and the setup that it hands back.
impl fmt::Display for Told {
    fn fmt<W: fmt::Write>(&self, f: &mut fmt::Formatter<W>) -> fmt::Result {
        let after = After(self.setup);
        match self.answer {
            Ok(done) => write!(f, " -> {done}{after}"),
            Err(Refusal::Hole { base, size }) => {
                write!(f, " -> refused 9, hole {base:#x}, size {size:#x}{after}")
            }
            Err(r) => write!(f, " -> refused {}{after}", r.number()),
        }
    }
}

impl fmt::Display for Done {
    fn fmt<W: fmt::Write>(&self, f: &mut fmt::Formatter<W>) -> fmt::Result {
        match *self {
            Done::Format(_) => write!(f, "done, all words 0"),
            Done::Add(_) => write!(f, "done, all more words 0"),
            Done::Map(m) => write!(f, "takes {}", m.tables),
            Done::Unmap(u) => {
                let frame = Frame(u.frame, u.size, u.attributes);
                write!(f, "gives {}, {frame}", u.tables)
            }
            Done::UnmapRange(u) => write!(f, "removes {}, gives {}", u.mappings, u.tables),
            Done::Query(m) => {
                let frame = Frame(m.frame, m.size, m.attributes);
                write!(f, "base {:#x}, {frame}", m.base)
            }
            Done::Audit(c) => write!(f, "tables {}, mappings {}", c.tables, c.mappings),
            Done::List(e) => match e.next {
                None => write!(f, "lists {}, none is left", e.written),
                Some(next) => write!(f, "lists {}, the next is {next:#x}", e.written),
            },
        }
    }
}

// A frame's base, size and attributes.
#[derive(Clone, Copy)]
struct Frame(u64, u64, u64);

impl fmt::Display for Frame {
    fn fmt<W: fmt::Write>(&self, f: &mut fmt::Formatter<W>) -> fmt::Result {
        let Frame(base, size, attributes) = *self;
        write!(
            f,
            "frame {base:#x}, size {size:#x}, attributes {attributes}"
        )
    }
}

// The setup that a call hands back: the second region's numbers where one of them is not 0, and the granule where it is not 4096, or not 0 where no level is.
#[derive(Clone, Copy)]
struct After(Setup);

impl fmt::Display for After {
    fn fmt<W: fmt::Write>(&self, f: &mut fmt::Formatter<W>) -> fmt::Result {
        let s = self.0;
        write!(f, "; levels {}, base {:#x}", s.levels, s.base)?;
        write!(f, ", tables {}, free {}", s.tables, s.free)?;
        if s.base2 != 0 || s.tables2 != 0 {
            write!(
                f,
                ", second base {:#x}, second tables {}",
                s.base2, s.tables2
            )?;
        }
        let plain = if s.levels == 0 { 0 } else { 4096 };
        if s.granule != plain {
            write!(f, ", granule {}", s.granule)?;
        }
        Ok(())
    }
}

// Each word of a run that is not as it was. The words are counted from a number on.
fn words(rt: &impl Print, from: u64, now: &[u64], old: &[u64]) -> io::Result<()> {
    for (i, (n, m)) in now.iter().zip(old).enumerate() {
        if n != m {
            print!(rt; "; word {}={n:#x}", from.wrapping_add(i as u64))?;
        }
    }
    Ok(())
}

// Each place that is not as it was.
fn places(rt: &impl Print, now: &[u32], old: &[u32]) -> io::Result<()> {
    for (i, (n, m)) in now.iter().zip(old).enumerate() {
        if n != m {
            print!(rt; "; place {i}={n}")?;
        }
    }
    Ok(())
}

// Each word and each place that is not as it was. The words of the second run are counted after those that are lent of the first.
pub(crate) fn changes(rt: &impl Print, lent: u64, now: &Memory, old: &Memory) -> io::Result<()> {
    if now == old {
        return print!(rt; "; kept");
    }
    words(rt, 0, &now.words, &old.words)?;
    words(rt, lent, &now.more, &old.more)?;
    places(rt, &now.list, &old.list)
}

// Each place of a list's two runs that is not blank.
pub(crate) fn runs(rt: &impl Print, view: &View) -> io::Result<()> {
    if *view == View::blank() {
        return print!(rt; "; kept");
    }
    for (i, (p, e)) in view.places.iter().zip(&view.entries).enumerate() {
        if *p != BLANK || *e != BLANK {
            print!(rt; "; {i} is {p:#x} and {e:#x}")?;
        }
    }
    Ok(())
}
