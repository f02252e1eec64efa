// Tests of setup numbers, and of the bytes that they say are the tables'. A granule is a number, as in `path`.
#![tactic(auto)]

ghost use Rattle.std.specs.Prelude.{◌≡◌, ◌+◌, ◌≤◌, ◌&&◌, ltb, eqb};
ghost use Rattle.path.specs.Geometry.{granule_of, page_size};
ghost use Rattle.path.specs.Areas.{area_at, area_of, total, meets_region, meets_area};
ghost use Rattle.path.specs.Numbers.{most_tables, good_region, good_numbers, good_setup, good_adding};

use path::Setup;

// Whether one region of no more tables than a pool may have is good alone: they stand at multiples of their size and end within 2^48, and its run of words is as
// long as they are. The number of the granule is the size of a table, and eight bytes of it are a word.
fn good_region(granule: u64, base: u64, tables: u64, words: usize) -> bool
    requires { (granule ≡ page_size (granule_of granule)) × (tables ≤ most_tables) }
    ensures { result ≡ good_region (granule_of granule) base tables words }
{
    if base & (granule - 1) != 0 {
        return false;
    }
    let bytes = granule * tables;
    if base > path::PHYSICAL - bytes {
        return false;
    }
    words as u64 == bytes / 8
}

// Whether levels, bases, table counts and the three lengths are good, of the first run of words, of the second, and of the free list, by the number of a granule.
fn numbers_by(
    granule: u64,
    levels: u64,
    base: u64,
    tables: u64,
    base2: u64,
    tables2: u64,
    words: usize,
    second: usize,
    places: usize,
) -> bool
    requires { granule ≡ page_size (granule_of granule) }
    ensures { result ≡ good_numbers (granule_of granule) levels (area_at base tables base2 tables2) words (words + second) places }
{
    if !path::good_levels(granule, levels) {
        return false;
    }
    if tables < 1 {
        return false;
    }
    if tables > path::MOST_TABLES {
        return false;
    }
    if !good_region(granule, base, tables, words) {
        return false;
    }
    if tables2 == 0 {
        if base2 != 0 {
            return false;
        }
        if second != 0 {
            return false;
        }
        return places as u64 == tables;
    }
    if tables2 > path::MOST_TABLES - tables {
        return false;
    }
    if !good_region(granule, base2, tables2, second) {
        return false;
    }
    if base2 < base + granule * tables {
        if base < base2 + granule * tables2 {
            return false;
        }
    }
    places as u64 == tables + tables2
}

// The same by any number.
pub fn good_numbers(
    granule: u64,
    levels: u64,
    base: u64,
    tables: u64,
    base2: u64,
    tables2: u64,
    words: usize,
    second: usize,
    places: usize,
) -> bool
    ensures { result ≡ good_numbers (granule_of granule) levels (area_at base tables base2 tables2) words (words + second) places }
{
    let page = path::page_of(granule);
    numbers_by(
        page, levels, base, tables, base2, tables2, words, second, places,
    )
}

// Whether the setup numbers and the three lengths are good.
pub fn good_setup(s: Setup, words: usize, second: usize, places: usize) -> bool
    ensures { result ≡ good_setup (granule_of s.granule) s words (words + second) places }
{
    if !path::good_granule(s.granule) {
        return false;
    }
    if numbers_by(
        s.granule, s.levels, s.base, s.tables, s.base2, s.tables2, words, second, places,
    ) {
        return s.free < s.tables + s.tables2;
    }
    false
}

// Whether a second region may be added to a pool with these setup numbers: there is none yet, the new one has a table, and with it the numbers and the three
// lengths, of the runs and of the longer list, are good. The free count is tested against the old limit.
pub fn good_adding(
    s: Setup,
    base2: u64,
    tables2: u64,
    words: usize,
    second: usize,
    places: usize,
) -> bool
    ensures { result ≡ (eqb s.granule (page_size (granule_of s.granule))
        && (good_adding (granule_of s.granule) s.levels (area_of s) base2 tables2 words (words + second) places && ltb s.free (total (area_of s)))) }
{
    if !path::good_granule(s.granule) {
        return false;
    }
    if s.base2 != 0 {
        return false;
    }
    if s.tables2 != 0 {
        return false;
    }
    if tables2 == 0 {
        return false;
    }
    if s.free >= s.tables {
        return false;
    }
    numbers_by(
        s.granule, s.levels, s.base, s.tables, base2, tables2, words, second, places,
    )
}

// Whether so many bytes from a frame's base on share one with the tables of one region, so many, from base on. No sum is made that could wrap.
fn meets_region(granule: u64, base: u64, tables: u64, frame: u64, size: u64) -> bool
    ensures { result ≡ meets_region (granule_of granule) base tables frame size }
{
    if frame < base {
        if tables == 0 {
            return false;
        }
        return base - frame < size;
    }
    if size < 1 {
        return false;
    }
    path::pages_in(granule, frame - base) < tables
}

// The same of both regions.
pub fn meets_area(
    granule: u64,
    base: u64,
    tables: u64,
    base2: u64,
    tables2: u64,
    frame: u64,
    size: u64,
) -> bool
    ensures { result ≡ meets_area (granule_of granule) (area_at base tables base2 tables2) frame size }
{
    if meets_region(granule, base, tables, frame, size) {
        return true;
    }
    if tables2 == 0 {
        return false;
    }
    meets_region(granule, base2, tables2, frame, size)
}
