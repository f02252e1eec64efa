// Unmap a range. Every test is made first, on the memory as it is: the walks of its pages, and whether the free list has room for the tables that come back. Then the
// mappings go, in rising order: pages side by side in one table at once, as far as no table comes free, any other mapping by unmap.
#![tactic(auto)]

ghost use Rattle.std.specs.Prelude.{◌≡◌, true, false, not, List, [], ◌++◌, ℕ, ◌+◌, ◌-◌, ◌*◌, ◌^◌, ◌≤◌, ◌<◌, length, get_or, count_by, replicate, OnOk, IfSome};
ghost use Rattle.laws.specs.Lists.{part, zeroed};
ghost use Rattle.path.specs.Geometry.{granule_of, entries, physical};
ghost use Rattle.path.specs.Paths.{index_at};
ghost use Rattle.model.specs.Walk.{slot};
ghost use Rattle.model.specs.Answers.{says_tested, tested, pool, unmap_range_did};
ghost use Rattle.model.specs.Calls.{good_pool, walk_to, unmap_w};
ghost use Rattle.model.specs.Ranges.{pages_of, answers_of, any_refused, unmap_range_w};
ghost use Rattle.sweeps.specs.Parts.{until_end, Rest, Sure, walks_say, Allowed, AllNoted, cuts, Clearable, is_fine, misfits_in, Beyond, used_in, lowered, lower_from};
ghost use Rattle.rangeunmaps.specs.Dones.{Looks, SomePool, SomeRest, SomeAllowed, SomeSure, Clears, Did};

use entry::Entry;
use links::Tree;
use model::{RangeUnmapped, Refusal};
use path::Setup;

// A count for each table that a pool may have.
const TABLES: usize = path::MOST_TABLES as usize;

// What a walk met that is no damage: a frame, or else a hole, and the height where the walk ended.
#[derive(Clone, Copy)]
struct Met {
    frame: bool,
    height: usize,
}

// The end of the region of a height that holds an address, or of the range.
fn past(granule: u64, address: u64, height: usize, end: u64) -> u64
    requires { (height < (granule_of granule).most) × (address < physical) }
    ensures { result ≡ until_end (granule_of granule) address height end }
{
    let base = indices::base_at(granule, address, height);
    let size = indices::size_at(granule, height);
    (base + size).min(end)
}

// What the walk for an address meets: a hole or a frame, and at which height, or damage. The tables on the way go into `way`.
fn look(
    s: Setup,
    words: &[u64],
    second: &[u64],
    address: u64,
    way: &mut [u32; 4],
) -> Result<Met, Refusal>
    requires { SomePool (granule_of s.granule) s (words.now ++ second.now) (length words.now) }
    ensures { Looks (walk_to (granule_of s.granule) (pool s (words.now ++ second.now) (length words.now) []) 0 address) result way.new }
{
    let Ok(end) = lookup::reach(s, words, second, 0, address, way) else {
        return Err(Refusal::Damage);
    };
    let height = end.height;
    let w = pool::word(words, second, end.place);
    match Tree::of(s).read_word(w, height) {
        Entry::Empty => Ok(Met {
            frame: false,
            height,
        }),
        Entry::Frame { .. } => Ok(Met {
            frame: true,
            height,
        }),
        Entry::Table(_) | Entry::Damaged => Err(Refusal::Damage),
    }
}

// Whether a walk met a frame and the range cuts its mapping.
fn cuts(met: Met, base: u64, size: u64, address: u64, end: u64) -> bool
    requires { base + size < 2 ^ 64 }
    ensures { result ≡ cuts met.frame base size address end }
{
    met.frame && (base < address || base + size > end)
}

// So many words of table t, from that of an address on.
fn row<'a>(
    granule: u64,
    words: &'a [u64],
    second: &'a [u64],
    t: u32,
    address: u64,
    count: usize,
) -> &'a [u64]
    requires { ((k : ℕ) × (length words.now ≡ entries (granule_of granule) * k)) × ((slot (granule_of granule) t 0 + entries (granule_of granule) ≤ length (words.now ++ second.now)) × (index_at (granule_of granule) address 0 + count ≤ entries (granule_of granule))) }
    ensures { result.now ≡ part (words.now ++ second.now) (slot (granule_of granule) t (index_at (granule_of granule) address 0)) count }
{
    let table = contents::table_part(granule, words, second, t);
    let from = indices::index_at(granule, address, 0) as usize;
    let to = from + count;
    &table[from..to]
}

// Whether a word of the last level is damaged. It has no branch, so that a loop over it is done on several words at once.
fn is_misfit(granule: u64, w: u64) -> bool
    ensures { result ≡ not (is_fine (granule_of granule) w) }
{
    let page = entry::is_frame(w, 0);
    let base = entry::base_in(w);
    let rest = indices::rest_at(granule, base, 0);
    w != 0 && (rest != 0 || !page)
}

// How many of some words of the last level are damaged.
fn misfits(granule: u64, part: &[u64]) -> usize
    ensures { result ≡ misfits_in (granule_of granule) part.now }
{
    let mut n: usize = 0;
    for &w in part {
        n += is_misfit(granule, w) as usize;
    }
    n
}

// Where walks go on after one that ended at a height: past its region, or at the last level past its row in table t, unless the row has a damaged word.
fn beyond<'a>(
    granule: u64,
    words: &'a [u64],
    second: &'a [u64],
    t: u32,
    address: u64,
    left: usize,
    end: u64,
) -> Option<u64>
    requires { ((left < (granule_of granule).most) × ((address < end) × (end ≤ physical))) × (left ≡ 0 → (((k : ℕ) × (length words.now ≡ entries (granule_of granule) * k)) × (slot (granule_of granule) t 0 + entries (granule_of granule) ≤ length (words.now ++ second.now)))) }
    ensures { Beyond (granule_of granule) (words.now ++ second.now) t address left end result }
{
    if left > 0 {
        return Some(past(granule, address, left, end));
    }
    let n = ranges::stretch(granule, address, end - address, 0);
    let bad = misfits(granule, row(granule, words, second, t, address, n as usize));
    if bad > 0 {
        return None;
    }
    Some(address + n * path::page_of(granule))
}

// The walks of all pages of a range: damage where one meets damage or they come to one table for two regions, else refused where the range cuts a mapping.
// The tables on their ways are noted.
fn check_walks<'a>(
    s: Setup,
    words: &'a [u64],
    second: &'a [u64],
    stands: &mut [u32],
    address: u64,
    bytes: u64,
) -> Result<(), Refusal>
    requires { SomeRest (granule_of s.granule) s (words.now ++ second.now) (length words.now) address (address + bytes) × (stands.old ≡ replicate 512 0) }
    ensures by_pages { says_tested result ≡ tested (walks_say (granule_of s.granule) (pool s (words.now ++ second.now) (length words.now) []) address bytes) }
    ensures notes { OnOk result (AllNoted (granule_of s.granule) (pool s (words.now ++ second.now) (length words.now) []) address bytes stands.new) }
{
    let end = address + bytes;
    let mut way = [0u32; 4];
    let mut cut = false;
    let mut x = address;
    while x < end {
        let met = look(s, words, second, x, &mut way)?;
        if !marks::note_way(s.granule, stands, way, x, met.height, s.levels) {
            return Err(Refusal::Damage);
        }
        let base = indices::base_at(s.granule, x, met.height);
        let size = indices::size_at(s.granule, met.height);
        cut |= cuts(met, base, size, address, end);
        let Some(next) = beyond(s.granule, words, second, way[3], x, met.height, end) else {
            return Err(Refusal::Damage);
        };
        x = next;
    }
    if cut {
        return Err(Refusal::Inside);
    }
    Ok(())
}

// How many of some numbers are not 0, which is given in their type.
fn in_use<T: Copy + PartialEq>(part: &[T], zero: T) -> usize
    ensures { result ≡ count_by (λ x. not (T.eq x zero)) part.now }
{
    let mut n: usize = 0;
    for &x in part {
        n += (x != zero) as usize;
    }
    n
}

// Of each table how many of its words are not 0. There is a count for each table that a pool may have, and the pool may have fewer.
fn count_words<'a>(
    granule: u64,
    words: &'a [u64],
    second: &'a [u64],
    counts: &mut [u32],
    tables: usize,
)
    requires { ((tables ≤ length counts.old) × (tables ≤ 512)) × ((k : ℕ) × (length words.now ≡ entries (granule_of granule) * k)) }
    ensures { (length counts.new ≡ length counts.old)
        × ((t : ℕ) → t < tables → get_or counts.new t 0 ≡ used_in (granule_of granule) (words.now ++ second.now) t) }
{
    for t in 0..tables {
        counts[t] = in_use(contents::table_part(granule, words, second, t as u32), 0) as u32;
    }
}

// A word of the table with entries of height `left` goes: how many tables come free, from that one upward, the root excepted, by the counts of words in use.
fn lower(counts: &mut [u32], way: [u32; 4], left: usize, top: usize) -> usize
    requires { (left ≤ top) × (top ≤ 3) }
    ensures { lowered result counts.new ≡ lower_from counts.old way left (top - left) }
{
    for h in left..top {
        let t = way[3 - h] as usize;
        let n = pool::place(&counts[..], t);
        pool::give(counts, t, n.saturating_sub(1));
        if n > 1 {
            return h - left;
        }
    }
    top - left
}

// Whether the free list has room for all tables that come back.
fn has_room<'a>(s: Setup, words: &'a [u64], second: &'a [u64], address: u64, bytes: u64) -> bool
    requires { SomeAllowed (granule_of s.granule) s (words.now ++ second.now) (length words.now) address bytes }
    ensures { (list : List ℕ) → good_pool (granule_of s.granule) (pool s (words.now ++ second.now) (length words.now) list) ≡ true
        → result ≡ not (any_refused 8 (answers_of (unmap_w (granule_of s.granule)) (pool s (words.now ++ second.now) (length words.now) list) (pages_of (granule_of s.granule) address bytes))) }
{
    let end = address + bytes;
    let most = s.tables + s.tables2 - 1;
    let top = (s.levels - 1) as usize;
    let mut counts = [0u32; TABLES];
    count_words(s.granule, words, second, &mut counts, most as usize + 1);
    let mut way = [0u32; 4];
    let mut free = s.free;
    let mut x = address;
    while x < end {
        // No walk of these pages meets damage.
        let Ok(met) = look(s, words, second, x, &mut way) else {
            return false;
        };
        if met.frame {
            free += lower(&mut counts, way, met.height, top) as u64;
            if free > most {
                return false;
            }
        }
        x = past(s.granule, x, met.height, end);
    }
    true
}

// Whether the free list has room for all tables that come back, which are among those noted: soon told where there is room for all of these.
fn fits<'a>(
    s: Setup,
    words: &'a [u64],
    second: &'a [u64],
    stands: &[u32],
    address: u64,
    bytes: u64,
) -> bool
    requires { SomeAllowed (granule_of s.granule) s (words.now ++ second.now) (length words.now) address bytes
        × ((length stands.now ≡ 512) × AllNoted (granule_of s.granule) (pool s (words.now ++ second.now) (length words.now) []) address bytes stands.now) }
    ensures { (list : List ℕ) → good_pool (granule_of s.granule) (pool s (words.now ++ second.now) (length words.now) list) ≡ true
        → result ≡ not (any_refused 8 (answers_of (unmap_w (granule_of s.granule)) (pool s (words.now ++ second.now) (length words.now) list) (pages_of (granule_of s.granule) address bytes))) }
{
    let marked = in_use(&stands[1..], 0) as u64;
    if s.free + marked < s.tables + s.tables2 {
        return true;
    }
    has_room(s, words, second, address, bytes)
}

// A part of a range that is done: where it ends, the setup then, how many mappings went and how many tables came back.
#[derive(Clone, Copy)]
struct Gone {
    next: u64,
    setup: Setup,
    removed: u64,
    given: u64,
}

// What may be cleared by itself: from which place on, how many words, and how many of them are in use.
#[derive(Clone, Copy)]
struct Slots {
    place: usize,
    count: usize,
    used: usize,
}

// How many of some words may be cleared by themselves: all where none is in use, else those before the last that is.
fn clearable(part: &[u64]) -> usize
    ensures { Clearable part.now result }
{
    part.iter().rposition(|w| *w != 0).unwrap_or(part.len())
}

// The pages from an address on that are unmapped by clearing their words, all in one table of the last level; there may be none.
fn ahead<'a>(s: Setup, words: &'a [u64], second: &'a [u64], address: u64, end: u64) -> Option<Slots>
    requires { SomeSure (granule_of s.granule) s (words.now ++ second.now) (length words.now) address end × (address < end) }
    ensures { IfSome result (Clears (granule_of s.granule) s (words.now ++ second.now) (length words.now) address end) }
{
    let mut way = [0u32; 4];
    let Ok(met) = look(s, words, second, address, &mut way) else {
        return None;
    };
    if met.height > 0 {
        return None;
    }
    let many = ranges::stretch(s.granule, address, end - address, 0) as usize;
    let count = clearable(row(s.granule, words, second, way[3], address, many));
    if count == 0 {
        return None;
    }
    let first = indices::index_at(s.granule, address, 0);
    let place = pool::entry_place(s.granule, way[3], first);
    let used = in_use(row(s.granule, words, second, way[3], address, count), 0);
    Some(Slots { place, count, used })
}

// The words in use of a part of a run become 0, each by one store of its own: a walker may read them meanwhile.
fn clear_used(run: &mut [u64], start: usize, count: usize)
    ensures { run.new ≡ zeroed run.old start count }
{
    let n = run.len();
    if start > n || n - start < count {
        return;
    }
    for w in &mut run[start..start + count] {
        if *w != 0 {
            *w = 0;
        }
    }
}

// So many words from a place of the two runs on become 0, where one of them holds all.
fn clear_words(words: &mut [u64], second: &mut [u64], place: usize, count: usize)
    requires { place < length words.old → place + count ≤ length words.old }
    ensures { words.new ++ second.new ≡ zeroed (words.old ++ second.old) place count }
{
    let n = words.len();
    if place < n {
        clear_used(words, place, count);
    } else {
        clear_used(second, place - n, count);
    }
}

// Unmap at an address. What it finds there, a mapping or a hole, is done then.
fn remove_one(
    s: Setup,
    words: &mut [u64],
    second: &mut [u64],
    list: &mut [u32],
    address: u64,
    end: u64,
) -> Gone
    requires { Rest (granule_of s.granule) (pool s (words.old ++ second.old) (length words.old) list.old) address end × (address < end) }
    ensures { Did (granule_of s.granule) (pool s (words.old ++ second.old) (length words.old) list.old) address result words.new second.new list.new
        × (address < result.next) × (result.next ≤ end) }
{
    match unmaps::unmap(s, words, second, list, address) {
        Ok(unmapped) => Gone {
            next: (address + unmapped.size).min(end),
            setup: unmapped.setup,
            removed: 1,
            given: unmapped.tables,
        },
        Err(refusal) => Gone {
            next: match refusal {
                Refusal::Hole { base, size } => (base + size).min(end),
                _ => past(s.granule, address, 0, end),
            },
            setup: s,
            removed: 0,
            given: 0,
        },
    }
}

// What stands at an address goes: the pages of a row, as far as no table comes free, else a mapping or a hole.
fn remove_next(
    s: Setup,
    words: &mut [u64],
    second: &mut [u64],
    list: &mut [u32],
    address: u64,
    end: u64,
) -> Gone
    requires { Sure (granule_of s.granule) (pool s (words.old ++ second.old) (length words.old) list.old) address end × (address < end) }
    ensures { Did (granule_of s.granule) (pool s (words.old ++ second.old) (length words.old) list.old) address result words.new second.new list.new
        × (address < result.next) × (result.next ≤ end) }
{
    let Some(a) = ahead(s, &words[..], &second[..], address, end) else {
        return remove_one(s, words, second, list, address, end);
    };
    clear_words(words, second, a.place, a.count);
    Gone {
        next: address + (a.count as u64) * path::page_of(s.granule),
        setup: s,
        removed: a.used as u64,
        given: 0,
    }
}

// All mappings of a range go.
fn remove_all(
    s: Setup,
    words: &mut [u64],
    second: &mut [u64],
    list: &mut [u32],
    address: u64,
    bytes: u64,
) -> Gone
    requires { Allowed (granule_of s.granule) (pool s (words.old ++ second.old) (length words.old) list.old) address bytes
        × (any_refused 8 (answers_of (unmap_w (granule_of s.granule)) (pool s (words.old ++ second.old) (length words.old) list.old) (pages_of (granule_of s.granule) address bytes)) ≡ false) }
    ensures { Did (granule_of s.granule) (pool s (words.old ++ second.old) (length words.old) list.old) address result words.new second.new list.new
        × (result.next ≡ address + bytes) }
{
    let end = address + bytes;
    let mut gone = Gone {
        next: address,
        setup: s,
        removed: 0,
        given: 0,
    };
    while gone.next < end {
        let g = remove_next(gone.setup, words, second, list, gone.next, end);
        gone = Gone {
            removed: gone.removed + g.removed,
            given: gone.given + g.given,
            ..g
        };
    }
    gone
}

// Every mapping wholly inside the range goes, in rising order, and so does each table that is empty then. Answers how many mappings went and how many tables
// came back, or a refusal: 1, 2, 4, 5, 8 or 10.
pub fn unmap_range(
    s: Setup,
    words: &mut [u64],
    second: &mut [u64],
    list: &mut [u32],
    address: u64,
    bytes: u64,
) -> Result<RangeUnmapped, Refusal>
    ensures { unmap_range_did s result words.new second.new list.new
        ≡ unmap_range_w (granule_of s.granule) (pool s (words.old ++ second.old) (length words.old) list.old) address bytes }
{
    if !setups::good_setup(s, words.len(), second.len(), list.len()) {
        return Err(Refusal::Setup);
    }
    ranges::unmap_tests(s.granule, s.levels, address, bytes)?;
    let mut stands = [0u32; TABLES];
    check_walks(s, &words[..], &second[..], &mut stands, address, bytes)?;
    if !fits(s, &words[..], &second[..], &stands, address, bytes) {
        return Err(Refusal::Damage);
    }
    let gone = remove_all(s, words, second, list, address, bytes);
    Ok(RangeUnmapped {
        mappings: gone.removed,
        tables: gone.given,
        setup: gone.setup,
    })
}
