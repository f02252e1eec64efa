// Pools that break one rule of the audit each, and sound ones: a line for each, with what the audit answers.
#![tactic(auto)]

use links::Tree;
use model::Counts;
use path::{GIB, KIB4, KIB16, MIB2, Setup};
use std::io;

const BASE: u64 = 0x4000_0000;

const TABLES: u16 = 4;

const FRAME: u64 = 0x8000_0000;

// A frame of 2 MiB at 0x8000_1000.
const NOT_ALIGNED: u64 = 0x0040_0000_8000_17FD;

// The first word of each table.
const ROOT: usize = 0;

const FIRST: usize = 512;

const SECOND: usize = 1024;

const THIRD: usize = 1536;

// Where the tables stand.
const TREE: Tree = Tree {
    granule: KIB4,
    base: BASE,
    tables: TABLES,
    base2: 0,
    tables2: 0,
};

// The word that names table c.
fn table_word(c: u32) -> u64 {
    TREE.table_word(c)
}

// The word of a frame for reading and writing, or 0 where there is no such frame.
fn frame_word(base: u64, size: u64) -> u64 {
    host::frame_word(base, size, 3).unwrap_or(0)
}

// A pool, whose second region is none.
#[derive(Clone, Copy)]
struct Pool {
    setup: Setup,
    words: [u64; 2048],
    list: [u32; 4],
}

impl Pool {
    // The root alone. Tables 3, 2 and 1 are free.
    fn one_table() -> Pool {
        let setup = Setup {
            levels: 3,
            base: BASE,
            tables: TABLES as u64,
            free: 3,
            base2: 0,
            tables2: 0,
            granule: KIB4,
        };
        Pool {
            setup,
            words: [0; 2048],
            list: [3, 2, 1, 0],
        }
    }

    // The root, and table 1 with a frame of 2 MiB. Tables 3 and 2 are free.
    fn two_tables() -> Pool {
        Pool::one_table()
            .with_free(2)
            .with(ROOT, table_word(1))
            .with(FIRST + 1, frame_word(FRAME, MIB2))
    }

    // Table 2 below them, with a page. Table 3 is free.
    fn three_tables() -> Pool {
        Pool::two_tables()
            .with_free(1)
            .with(FIRST, table_word(2))
            .with(SECOND, frame_word(FRAME, KIB4))
    }

    // Four levels, a table each, and one page.
    fn four_levels() -> Pool {
        Pool::one_table()
            .with_levels(4)
            .with_free(0)
            .with(ROOT, table_word(1))
            .with(FIRST + 511, table_word(3))
            .with(THIRD, table_word(2))
            .with(SECOND + 511, frame_word(FRAME, KIB4))
    }

    // With another word.
    fn with(mut self, i: usize, w: u64) -> Pool {
        pool::put(&mut self.words, &mut [], i, w);
        self
    }

    // With another number in its free list.
    fn with_place(mut self, i: usize, t: u32) -> Pool {
        pool::give(&mut self.list, i, t);
        self
    }

    fn with_free(self, free: u64) -> Pool {
        let setup = Setup { free, ..self.setup };
        Pool { setup, ..self }
    }

    fn with_levels(self, levels: u64) -> Pool {
        let setup = Setup {
            levels,
            ..self.setup
        };
        Pool { setup, ..self }
    }

    fn with_granule(self, granule: u64) -> Pool {
        let setup = Setup {
            granule,
            ..self.setup
        };
        Pool { setup, ..self }
    }

    // The name of a pool, and what the audit answers.
    fn report(&self, rt: &impl Print, name: &str) -> io::Result<()> {
        match audit::audit(self.setup, &self.words, &[], &self.list) {
            Ok(Counts { tables, mappings }) => {
                println!(rt; "{name}: sound, tables {tables}, mappings {mappings}")
            }
            Err(r) => println!(rt; "{name}: refused {}", r.number()),
        }
    }
}

// Three tables, but for one word, in each case.
fn three_tables_but(rt: &impl Print, cases: &[(&str, usize, u64)]) -> io::Result<()> {
    for (name, i, w) in cases {
        Pool::three_tables().with(*i, *w).report(rt, name)?;
    }
    Ok(())
}

fn sound(rt: &impl Print) -> io::Result<()> {
    Pool::one_table().report(rt, "root alone")?;
    Pool::two_tables().report(rt, "two tables")?;
    Pool::three_tables().report(rt, "three tables")?;
    Pool::four_levels().report(rt, "four levels")
}

fn bad_numbers(rt: &impl Print) -> io::Result<()> {
    let pool = Pool::three_tables();
    pool.with_levels(2).report(rt, "two levels")?;
    pool.with_free(TABLES as u64).report(rt, "all tables free")
}

fn bad_entries(rt: &impl Print) -> io::Result<()> {
    three_tables_but(
        rt,
        &[
            ("no such word", SECOND + 1, 5),
            ("not aligned", FIRST + 2, NOT_ALIGNED),
            ("below the last level", SECOND + 1, table_word(3)),
            ("past the pool", FIRST + 2, table_word(4)),
        ],
    )
}

// Pages in the pool, and beside it.
fn pages_at_the_pool(rt: &impl Print) -> io::Result<()> {
    let page = |base: u64| frame_word(base, KIB4);
    three_tables_but(
        rt,
        &[
            ("page of the root", SECOND + 1, page(BASE)),
            ("page of the last table", SECOND + 1, page(0x4000_3000)),
            ("page past the pool", SECOND + 1, page(0x4000_4000)),
            ("page before the pool", SECOND + 1, page(0x3FFF_F000)),
        ],
    )
}

// Blocks around the pool, and beside it.
fn blocks_at_the_pool(rt: &impl Print) -> io::Result<()> {
    let small = |base: u64| frame_word(base, MIB2);
    three_tables_but(
        rt,
        &[
            ("2 MiB around the pool", FIRST + 2, small(BASE)),
            ("2 MiB before the pool", FIRST + 2, small(0x3FE0_0000)),
            ("1 GiB around the pool", ROOT + 1, frame_word(BASE, GIB)),
        ],
    )
}

// The second, a cycle, breaks more than one rule.
fn bad_tables(rt: &impl Print) -> io::Result<()> {
    let pool = Pool::three_tables();
    let twice = pool.with_free(0).with(FIRST + 2, table_word(2));
    twice.report(rt, "reached twice")?;
    pool.with(FIRST, table_word(1)).report(rt, "names itself")?;
    pool.with(SECOND, 0).report(rt, "empty table")?;
    pool.with_free(0).report(rt, "neither reached nor free")
}

fn bad_list(rt: &impl Print) -> io::Result<()> {
    let three = Pool::three_tables();
    three
        .with_place(0, 4)
        .report(rt, "free number out of range")?;
    Pool::two_tables()
        .with_place(1, 3)
        .report(rt, "free number twice")?;
    Pool::one_table()
        .with_place(2, 0)
        .report(rt, "free number reached")?;
    three.with(THIRD + 511, 1).report(rt, "free table not zero")
}

fn bad_granule(rt: &impl Print) -> io::Result<()> {
    let pool = Pool::three_tables();
    pool.with_granule(KIB16).report(rt, "the other granule")?;
    pool.with_granule(8192).report(rt, "no such granule")
}

fn main(rt: HostRuntime) -> io::Result<()> {
    sound(&rt)?;
    bad_numbers(&rt)?;
    bad_entries(&rt)?;
    pages_at_the_pool(&rt)?;
    blocks_at_the_pool(&rt)?;
    bad_tables(&rt)?;
    bad_list(&rt)?;
    bad_granule(&rt)
}
