// Words that name a table, and what any word says, in a tree whose tables stand in one or two regions.
#![tactic(auto)]

ghost use Rattle.std.specs.Prelude.{◌≡◌, if◌then◌else◌, nat_le, nat_lt};
ghost use Rattle.path.specs.Geometry.{granule_of, physical};
ghost use Rattle.entry.specs.Words.{table_word, child_at, entry_at};
ghost use Rattle.links.specs.Trees.{tree_of, area_in, table_named, some_child};

use entry::Entry;
use path::Setup;

// Where the tables of a tree stand: the granule, and two regions of so many tables each, from a base on. The second may have none.
#[derive(Clone, Copy, PartialEq, Eq, Debug)]
pub struct Tree {
    pub granule: u64,
    pub base: u64,
    pub tables: u16,
    pub base2: u64,
    pub tables2: u16,
}

// The number of the table in a region of so many tables that a word names, where it names one.
fn named_in(granule: u64, w: u64, base: u64, tables: u16) -> Option<u32>
    ensures { result ≡ table_named (granule_of granule) base tables w }
{
    if base > path::PHYSICAL {
        if w < base {
            return None;
        }
    }
    let off = std::num::wrapping_sub_u64(w, base);
    if indices::rest_at(granule, off, 0) != 3 {
        return None;
    }
    let c = path::pages_in(granule, off);
    if c >= tables as u64 {
        return None;
    }
    Some(c as u32)
}

impl Tree {
    // The tree of setup numbers, of which no pool has more tables than 16 bits count.
    pub fn of(s: Setup) -> Tree
        ensures { result ≡ tree_of s }
    {
        Tree {
            granule: s.granule,
            base: s.base,
            tables: (s.tables % 65536) as u16,
            base2: s.base2,
            tables2: (s.tables2 % 65536) as u16,
        }
    }

    // The word that names table c; 0 where the base of c's region is above 2^48, and no None, which would never come: callers have tested the bases.
    pub fn table_word(self, c: u32) -> u64
        ensures { result ≡ (if nat_le (if nat_lt c self.tables then self.base else self.base2) physical then table_word (granule_of self.granule) (area_in self) c else 0) }
    {
        let tables = self.tables as u32;
        if c < tables {
            if self.base > path::PHYSICAL {
                return 0;
            }
            return self.base + path::page_of(self.granule) * (c as u64) + 3;
        }
        if self.base2 > path::PHYSICAL {
            return 0;
        }
        self.base2 + path::page_of(self.granule) * ((c - tables) as u64) + 3
    }

    // The child that a word names as a table, of the first region or else of the second. The root is none.
    pub fn child_in(self, w: u64) -> Option<u32>
        ensures { result ≡ some_child (granule_of self.granule) (area_in self) w }
    {
        if let Some(c) = named_in(self.granule, w, self.base, self.tables) {
            if c > 0 {
                return Some(c);
            }
        }
        if self.tables2 == 0 {
            return None;
        }
        let d = named_in(self.granule, w, self.base2, self.tables2)?;
        let c = self.tables as u32 + d;
        if c > 0 { Some(c) } else { None }
    }

    // What a word says at a height.
    pub fn read_word(self, w: u64, height: usize) -> Entry
        ensures { result ≡ entry_at (granule_of self.granule) (area_in self) height w }
    {
        if w == 0 {
            return Entry::Empty;
        }
        if height > 0 {
            if let Some(c) = self.child_in(w) {
                return Entry::Table(c);
            }
        }
        entry::frame_at(self.granule, w, height)
    }
}
