// A demonstration. A guest is given memory until its pool has too few free tables; what is refused then leaves no trace, and what is taken away
// gives every table back.
#![tactic(auto)]

use host::Meaning;
use model::{Counts, Found, Refusal};
use path::{GIB, GIB512, KIB4, MIB2, Setup};
use std::{fmt, io};

const BASE: u64 = 0x4000_0000;

const TABLES: u64 = 4;

const POOL_WORDS: usize = 2048;

// How many mappings a list has places for.
const ROOM: usize = 8;

// What is written.

// The size of a frame.
#[derive(Clone, Copy)]
struct Size(u64);

impl fmt::Display for Size {
    fn fmt<W: fmt::Write>(&self, f: &mut fmt::Formatter<W>) -> fmt::Result {
        match self.0 {
            KIB4 => write!(f, "a page of 4 KiB"),
            MIB2 => write!(f, "a frame of 2 MiB"),
            _ => write!(f, "a frame of 1 GiB"),
        }
    }
}

// What attributes allow.
#[derive(Clone, Copy)]
struct Rights(u64);

impl fmt::Display for Rights {
    fn fmt<W: fmt::Write>(&self, f: &mut fmt::Formatter<W>) -> fmt::Result {
        let right = |bit: u64, letter: char| if self.0 & bit == 0 { '-' } else { letter };
        write!(f, "{}{}{}", right(1, 'r'), right(2, 'w'), right(4, 'x'))
    }
}

// A refusal: its number, and for some the reason.
#[derive(Clone, Copy)]
struct Reason(Refusal);

impl fmt::Display for Reason {
    fn fmt<W: fmt::Write>(&self, f: &mut fmt::Formatter<W>) -> fmt::Result {
        write!(f, "{}", self.0.number())?;
        match self.0 {
            Refusal::Tables => write!(f, ": too few tables are free"),
            Refusal::Hole { base, size } => {
                let size = Size(size);
                write!(
                    f,
                    ": nothing is mapped there, and {size} at {base:#x} would fit"
                )
            }
            Refusal::Inside => write!(f, ": no mapping starts there"),
            Refusal::Pool => write!(f, ": the frame shares a byte with the pool"),
            _ => Ok(()),
        }
    }
}

fn refused(rt: &impl Print, r: Refusal) -> io::Result<()> {
    println!(rt; "  Refused with {}.", Reason(r))
}

// The calls, each with its lines.

// A pool, whose second region is none.
#[derive(Clone, Copy, PartialEq, Eq)]
struct Pool {
    setup: Setup,
    words: [u64; POOL_WORDS],
    list: [u32; 4],
}

impl Pool {
    fn format(rt: &impl Print) -> io::Result<Pool> {
        println!(rt;
            "Format a pool of {TABLES} tables at {BASE:#x}, for addresses below {GIB512:#x}."
        )?;
        let mut pool = Pool {
            setup: path::no_setup(),
            words: [0; POOL_WORDS],
            list: [0; 4],
        };
        let (words, list) = (&mut pool.words, &mut pool.list);
        match pagetable::format(3, BASE, TABLES, 0, 0, KIB4, words, &mut [], list) {
            Ok(setup) => {
                pool.setup = setup;
                pool.audit(rt)?;
            }
            Err(r) => {
                pool.setup = r.setup;
                refused(rt, r.refusal)?;
            }
        }
        Ok(pool)
    }

    fn audit(&self, rt: &impl Print) -> io::Result<()> {
        let free = self.setup.free;
        match pagetable::audit(self.setup, &self.words, &[], &self.list) {
            Ok(Counts { tables, mappings }) => {
                println!(rt;
                    "  The audit finds the pool sound: tables in use {tables}, free {free}, mappings {mappings}."
                )
            }
            Err(r) => println!(rt; "  THE AUDIT REFUSES WITH {}.", r.number()),
        }
    }

    // A refusal, and whether the memory and the setup that it hands back are as they were.
    fn refused(&self, rt: &impl Print, r: Refusal, before: &Pool) -> io::Result<()> {
        refused(rt, r)?;
        if self == before {
            println!(rt;
                "  All 2048 words, 4 places of the free list and 7 setup numbers are as before."
            )
        } else {
            println!(rt; "  SOMETHING CHANGED.")
        }
    }

    fn map(
        &mut self,
        rt: &impl Print,
        at: u64,
        frame: u64,
        bytes: u64,
        attributes: u64,
    ) -> io::Result<()> {
        let size = Size(bytes);
        let rights = Rights(attributes);
        println!(rt; "Map {size} at {at:#x} to memory {frame:#x}, rights {rights}.")?;
        let before = *self;
        let words = &mut self.words;
        match pagetable::map(
            self.setup,
            words,
            &mut [],
            &self.list,
            at,
            frame,
            bytes,
            attributes,
        ) {
            Ok(done) => {
                self.setup = done.setup;
                println!(rt; "  Done: tables taken {}.", done.tables)?;
            }
            Err(r) => {
                self.setup = r.setup;
                self.refused(rt, r.refusal, &before)?;
            }
        }
        self.audit(rt)
    }

    fn unmap(&mut self, rt: &impl Print, at: u64) -> io::Result<()> {
        println!(rt; "Unmap at {at:#x}.")?;
        let before = *self;
        match pagetable::unmap(self.setup, &mut self.words, &mut [], &mut self.list, at) {
            Ok(done) => {
                self.setup = done.setup;
                let size = Size(done.size);
                let frame = done.frame;
                let tables = done.tables;
                println!(rt;
                    "  Done: {size} of memory {frame:#x} is the host's again; tables given back {tables}."
                )?;
            }
            Err(r) => {
                self.setup = r.setup;
                self.refused(rt, r.refusal, &before)?;
            }
        }
        self.audit(rt)
    }

    fn query(&self, rt: &impl Print, at: u64) -> io::Result<()> {
        println!(rt; "Query {at:#x}.")?;
        match pagetable::query(self.setup, &self.words, &[], &self.list, at) {
            Ok(mapping) => found(rt, mapping, at),
            Err(r) => refused(rt, r),
        }
    }

    // What a guest sees.
    fn view(&self, rt: &impl Print) -> io::Result<()> {
        println!(rt; "\nWhat the scan guest can see.")?;
        let mut places = [0; ROOM];
        let mut entries = [0; ROOM];
        let (setup, words, list) = (self.setup, &self.words, &self.list);
        match pagetable::list(setup, words, &[], list, 0, &mut places, &mut entries) {
            Ok(excerpt) => lines(rt, &places, &entries, excerpt.written),
            Err(r) => refused(rt, r),
        }
    }
}

// The mapping that holds an address, and the memory that the address stands for.
fn found(rt: &impl Print, mapping: Found, at: u64) -> io::Result<()> {
    let Found {
        base,
        frame,
        size,
        attributes,
    } = mapping;
    let size = Size(size);
    let rights = Rights(attributes);
    println!(rt;
        "  It lies in {size} at {base:#x}, mapped to memory {frame:#x}, rights {rights}."
    )?;
    println!(rt;
        "  So it is memory {:#x}.",
        frame.wrapping_add(at.wrapping_sub(base))
    )
}

// A line for each mapping that a list wrote.
fn lines(rt: &impl Print, places: &[u64], entries: &[u64], written: u64) -> io::Result<()> {
    for (place, word) in places.iter().zip(entries).take(written as usize) {
        seen(rt, *place, *word)?;
    }
    println!(rt; "  Mappings listed: {written}.")
}

// The two numbers of a mapping: address plus power of two of the size, and entry word.
fn seen(rt: &impl Print, place: u64, word: u64) -> io::Result<()> {
    let power = place % 4096;
    let (name, size) = match power {
        12 => ("4 KiB", KIB4),
        21 => ("2 MiB", MIB2),
        _ => ("1 GiB", GIB),
    };
    print!(rt; "  0x{:08x}  {name}  -> ", place - power)?;
    match host::word_meaning(word, size) {
        Ok(Meaning { base, attributes }) => {
            let rights = Rights(attributes);
            let memory = if attributes < 8 { "normal" } else { "device" };
            println!(rt; "0x{base:08x}  {rights}  {memory}")
        }
        Err(r) => println!(rt; "NO FRAME, {}", r.number()),
    }
}

// The story.

fn scan_starts(rt: &impl Print, pool: &mut Pool) -> io::Result<()> {
    println!(rt; "\nThe scan guest gets its program and a buffer for pictures.")?;
    pool.map(rt, 0x1000, 0x8000_1000, KIB4, 5)?;
    pool.map(rt, 0x20_0000, 0x8020_0000, MIB2, 3)?;
    pool.query(rt, 0x20_1234)?;
    println!(rt; "\nHow large a frame fits where nothing is mapped? Query says it.")?;
    pool.query(rt, 0x40_1234)?;
    pool.query(rt, 0x2345)
}

fn scan_asks_for_too_much(rt: &impl Print, pool: &mut Pool) -> io::Result<()> {
    println!(rt;
        "\nThe scan guest asks for a page far away. It needs two tables more, and one is free."
    )?;
    pool.map(rt, 0x4000_0000, 0x8040_0000, KIB4, 3)
}

fn no_table_is_left(rt: &impl Print, pool: &mut Pool) -> io::Result<()> {
    println!(rt; "\nNo empty table is left there: even 1 GiB fits at the same address.")?;
    pool.map(rt, 0x4000_0000, 0x1_0000_0000, GIB, 3)?;
    pool.unmap(rt, 0x4000_0000)?;
    println!(rt; "\nOr 2 MiB, which need one table and find it.")?;
    pool.map(rt, 0x4000_0000, 0x8040_0000, MIB2, 3)?;
    pool.view(rt)?;
    println!(rt; "\nNothing is rounded: an unmap in the middle of the 2 MiB is refused.")?;
    pool.unmap(rt, 0x4000_1000)
}

fn scan_asks_for_its_tables(rt: &impl Print, pool: &mut Pool) -> io::Result<()> {
    println!(rt; "\nNo guest is given its own tables: the page of table 1 is refused.")?;
    pool.map(rt, 0x2000, 0x4000_1000, KIB4, 3)
}

fn scan_gives_back(rt: &impl Print, pool: &mut Pool) -> io::Result<()> {
    println!(rt; "\nThe scan guest gives up all that it has, and every table comes back.")?;
    pool.unmap(rt, 0x4000_0000)?;
    pool.unmap(rt, 0x20_0000)?;
    pool.unmap(rt, 0x1000)
}

fn scan_asks_again(rt: &impl Print, pool: &mut Pool) -> io::Result<()> {
    println!(rt; "\nThe map that was refused is done now.")?;
    pool.query(rt, 0x4000_0000)?;
    pool.map(rt, 0x4000_0000, 0x8040_0000, KIB4, 3)?;
    pool.query(rt, 0x4000_0FFF)
}

fn main(rt: HostRuntime) -> io::Result<()> {
    let mut pool = Pool::format(&rt)?;
    scan_starts(&rt, &mut pool)?;
    scan_asks_for_too_much(&rt, &mut pool)?;
    no_table_is_left(&rt, &mut pool)?;
    scan_asks_for_its_tables(&rt, &mut pool)?;
    scan_gives_back(&rt, &mut pool)?;
    scan_asks_again(&rt, &mut pool)
}
