// The hardware's walk, run: pools are made by the page table's calls, and a line for each address says what the walk translates it to.
#![tactic(auto)]

use path::{GIB, KIB4, KIB16, MIB2, MIB32, Setup};
use std::io;

mod show;

use show::Seen;

const BASE: u64 = 0x4000_0000;

const FRAME: u64 = 0x8000_0000;

// The word of the block of 1 GiB below, and the access flag in it.
const BLOCK: u64 = 0x8000_07FD;

const ACCESS_FLAG: u64 = 0x400;

// The addresses that are asked for with three levels, with four, and with 16 KiB.
const THREE: [u64; 11] = [
    0,
    0xFFF,
    0x1ABC,
    0x2000,
    0x3008,
    0x20_0000,
    0x20_1234,
    0x3F_FFFF,
    0x40_0000,
    0x7F_FFFF_F000,
    0x80_0000_0000,
];

const FOUR: [u64; 6] = [
    0,
    0x4000_0000,
    0x7FFF_FFFF,
    0x8000_0000,
    0xFFFF_FFFF_F123,
    0x1_0000_0000_0000,
];

const SIXTEEN: [u64; 12] = [
    0,
    0x3FFF,
    0x5ABC,
    0x8000,
    0xC008,
    0x200_0000,
    0x201_2345,
    0x3FF_FFFF,
    0x400_0000,
    0x10_0000_0000,
    0x7FFF_FFFF_C123,
    0x8000_0000_0000,
];

// A pool of four tables in so many words. It has no second region.
#[derive(Clone, Copy)]
struct Pool<const N: usize> {
    setup: Setup,
    words: [u64; N],
    list: [u32; 4],
}

impl<const N: usize> Pool<N> {
    fn new() -> Pool<N> {
        Pool {
            setup: path::no_setup(),
            words: [0; N],
            list: [0; 4],
        }
    }

    fn format(&mut self, granule: u64, levels: u64) {
        let (words, list) = (&mut self.words, &mut self.list);
        let made = pagetable::format(levels, BASE, 4, 0, 0, granule, words, &mut [], list);
        self.setup = made.unwrap_or(path::no_setup());
    }

    fn map(&mut self, address: u64, frame: u64, size: u64, attributes: u64) {
        let (s, words, list) = (self.setup, &mut self.words, &self.list);
        if let Ok(done) = pagetable::map(
            s,
            words,
            &mut [],
            list,
            address,
            frame,
            size,
            attributes,
        ) {
            self.setup = done.setup;
        }
    }

    fn unmap(&mut self, address: u64) {
        let (words, list) = (&mut self.words, &mut self.list);
        if let Ok(done) = pagetable::unmap(self.setup, words, &mut [], list, address) {
            self.setup = done.setup;
        }
    }

    // Writes a word that the page table never writes.
    fn put(&mut self, i: usize, w: u64) {
        pool::put(&mut self.words, &mut [], i, w);
    }

    // What each address of a list is translated to.
    fn lines(&self, rt: &impl Print, title: &str, addresses: &[u64]) -> io::Result<()> {
        let Setup {
            granule,
            levels,
            ..
        } = self.setup;
        println!(rt; "{title}")?;
        for &a in addresses {
            let seen = Seen(armwalk::stage2(granule, &self.words, &[], BASE, 0, levels, a));
            println!(rt; "  {a:x}: {seen}")?;
        }
        Ok(())
    }
}

// The numbers of document 01's cases with one granule: where the second page stands and to which frame it goes, where a device page, a block and its frame, and the last
// page of the space.
#[derive(Clone, Copy)]
struct Numbers {
    granule: u64,
    second: u64,
    second_frame: u64,
    device: u64,
    block: u64,
    block_frame: u64,
    last: u64,
}

// With 4 KiB, and in large, with 16 KiB.
const SMALL: Numbers = Numbers {
    granule: KIB4,
    second: 0x1000,
    second_frame: 0x8000_1000,
    device: 0x3000,
    block: MIB2,
    block_frame: 0x8020_0000,
    last: 0x7F_FFFF_F000,
};

const LARGE: Numbers = Numbers {
    granule: KIB16,
    second: 0x4000,
    second_frame: 0x8000_4000,
    device: 0xC000,
    block: MIB32,
    block_frame: 0x8200_0000,
    last: 0x7FFF_FFFF_C000,
};

// Cases 1 to 4 with a device page, cases 9 to 11.
fn cases<const N: usize>(
    rt: &impl Print,
    n: Numbers,
    addresses: &[u64],
    pool: &mut Pool<N>,
) -> io::Result<()> {
    pool.format(n.granule, 3);
    pool.lines(rt, "case 1, a fresh format:", addresses)?;
    pool.map(0, FRAME, n.granule, 3);
    pool.map(n.second, n.second_frame, n.granule, 5);
    pool.map(n.block, n.block_frame, n.block, 3);
    pool.map(n.device, 0x900_0000, n.granule, 11);
    pool.lines(
        rt,
        "case 4, two pages and a block, with a device page:",
        addresses,
    )?;
    pool.unmap(0);
    pool.unmap(n.second);
    pool.unmap(n.device);
    pool.lines(rt, "case 9, the block alone:", addresses)?;
    pool.unmap(n.block);
    pool.map(n.last, FRAME, n.granule, 3);
    pool.lines(rt, "case 11, the last page of the space:", addresses)
}

// Four levels with a block of 1 GiB, and with the last block of 2 MiB.
fn four_levels<const N: usize>(rt: &impl Print, pool: &mut Pool<N>) -> io::Result<()> {
    pool.format(KIB4, 4);
    pool.map(GIB, FRAME, GIB, 7);
    pool.map(0xFFFF_FFE0_0000, FRAME, MIB2, 1);
    pool.lines(
        rt,
        "four levels, a block of 1 GiB and the last of 2 MiB:",
        &FOUR,
    )
}

fn main(rt: HostRuntime) -> io::Result<()> {
    let mut small = Pool::<2048>::new();
    let mut large = Pool::<8192>::new();
    cases(&rt, SMALL, &THREE, &mut small)?;
    four_levels(&rt, &mut small)?;
    small.put(513, BLOCK - ACCESS_FLAG);
    small.lines(&rt, "the first without its access flag:", &FOUR)?;
    println!(rt; "with pages of 16 KiB:")?;
    cases(&rt, LARGE, &SIXTEEN, &mut large)?;
    small.put(0, BLOCK);
    small.lines(&rt, "a block of 512 GiB, which there is not:", &FOUR)?;
    large.put(1, BLOCK);
    large.lines(&rt, "a block of 64 GiB, which there is not:", &SIXTEEN)
}
