// The audit: the rules of a sound pool, tested from the root down and then along the free list. The adding call holds a tree to some of them.
#![tactic(auto)]

ghost use Rattle.std.specs.Prelude.{◌≡◌, ℕ, ◌+◌, ◌-◌, ◌*◌, ◌<◌, ◌≤◌, Bool, true, ◌&&◌, List, ◌++◌, length, slice_set};
ghost use Rattle.path.specs.Geometry.{granule_of, page_size, entries};
ghost use Rattle.path.specs.Areas.{area_of, total, one_region, GoodArea, meets_region};
ghost use Rattle.path.specs.Numbers.{most_tables, good_setup};
ghost use Rattle.model.specs.Answers.{says_audit, says_tested, tested, pool};
ghost use Rattle.model.specs.Audit.{table_words, none_inside, audit_w};
ghost use Rattle.model.specs.Adds.{sound_tree, add_tests};
ghost use Rattle.audit.specs.Checks.{Answers, granule_in, strictly, Cut, Rooted, RunsFit, PageFit, TableFit, EntryFit, kept_in, is_page, is_fresh, at_table, at_word, tree_of, free_pass};

use entry::Entry;
use links::Tree;
use model::{Counts, Refusal};
use path::Setup;

// A mark for each table that a pool may have.
const MARKS: usize = path::MOST_TABLES as usize;

// What a check goes by: where the tree's tables stand; where tables stand that no frame may share a byte with; and whether an empty table is as good as another.
#[derive(Clone, Copy)]
struct Look {
    tree: Tree,
    kept: Tree,
    bare: bool,
}

// Whether table t was not come to before, and may be empty or is not.
fn is_fresh<'a>(
    granule: u64,
    words: &'a [u64],
    second: &'a [u64],
    marks: &[bool],
    bare: bool,
    t: u32,
) -> bool
    requires { t < length marks.now }
    ensures { (k : ℕ) → length words.now ≡ entries (granule_of granule) * k
        → result ≡ is_fresh (granule_of granule) (words.now ++ second.now) marks.now bare t }
{
    if marks[t as usize] {
        return false;
    }
    if bare {
        return true;
    }
    if t == 0 {
        return true;
    }
    !contents::is_table_empty(granule, words, second, t)
}

// Whether a page shares a byte with the tables of a region. Pages and tables stand at multiples of one size, so that one difference tells, which wraps for a
// page below them.
fn is_within(granule: u64, page: u64, base: u64, tables: u16) -> bool
    requires { PageFit (granule_of granule) page base tables }
    ensures { result ≡ meets_region (granule_of granule) base tables page (page_size (granule_of granule)) }
{
    let off = std::num::wrapping_sub_u64(page, base);
    off < path::page_of(granule) * (tables as u64)
}

// Whether a word is that of a page which shares no byte with the tables of these regions.
fn is_page(w: u64, look: Look) -> bool
    requires { GoodArea (granule_in look) (kept_in look) }
    ensures { result ≡ is_page (granule_in look) (kept_in look) w }
{
    let page = entry::is_frame(w, 0);
    let base = entry::base_in(w);
    let rest = indices::rest_at(look.tree.granule, base, 0);
    if rest != 0 {
        return false;
    }
    if is_within(look.tree.granule, base, look.kept.base, look.kept.tables) {
        return false;
    }
    if is_within(look.tree.granule, base, look.kept.base2, look.kept.tables2) {
        return false;
    }
    page
}

// Checks the words of a table of the last level, which is fresh. None for a broken rule, here and in the checks below. A word that is damaged is neither empty
// nor a page, and the loop goes on: it has no branch, so that it is done on several words at once.
fn pages_check(part: &[u64], look: Look) -> Option<Counts>
    requires { (length part.now ≡ entries (granule_in look)) × GoodArea (granule_in look) (kept_in look) }
    ensures { (ws : List ℕ) (t : ℕ) → part.now ≡ table_words (granule_in look) ws t → (M : List Bool) → is_fresh (granule_in look) ws M look.bare t ≡ true
        → Answers (at_table (granule_in look) ws look 0 t) M result (slice_set M t true) }
{
    let mut empty: u64 = 0;
    let mut pages: u64 = 0;
    for &w in part {
        let page = is_page(w, look);
        empty += (w == 0) as u64;
        pages += page as u64;
    }
    if empty + pages < part.len() as u64 {
        return None;
    }
    Some(Counts {
        tables: 1,
        mappings: pages,
    })
}

// Checks table t, whose entries have this height, and all below it, and marks the tables come to.
#[cycle(entry_check_table_check)]
fn table_check<'a>(
    words: &'a [u64],
    second: &'a [u64],
    marks: &mut [bool],
    look: Look,
    t: u32,
    height: usize,
) -> Option<Counts>
    requires { TableFit marks.old look t height × RunsFit look (length words.now) (length second.now) }
    ensures { Answers (at_table (granule_in look) (words.now ++ second.now) look height t) marks.old result marks.new }
{
    if !is_fresh(look.tree.granule, words, second, marks, look.bare, t) {
        return None;
    }
    marks[t as usize] = true;
    let part = contents::table_part(look.tree.granule, words, second, t);
    if height == 0 {
        return pages_check(part, look);
    }
    let mut tables: u64 = 1;
    let mut mappings: u64 = 0;
    for &w in part {
        if w == 0 {
            continue;
        }
        let found = entry_check(words, second, marks, look, w, height)?;
        tables += found.tables;
        mappings += found.mappings;
    }
    Some(Counts { tables, mappings })
}

// Checks a word at this height, and the table that it names.
#[cycle(entry_check_table_check)]
fn entry_check<'a>(
    words: &'a [u64],
    second: &'a [u64],
    marks: &mut [bool],
    look: Look,
    w: u64,
    height: usize,
) -> Option<Counts>
    requires { EntryFit marks.old look height × RunsFit look (length words.now) (length second.now) }
    ensures { Answers (at_word (granule_in look) (words.now ++ second.now) look height w) marks.old result marks.new }
{
    match look.tree.read_word(w, height) {
        Entry::Empty => Some(Counts {
            tables: 0,
            mappings: 0,
        }),
        Entry::Frame {
            base: frame,
            attributes: _,
        } => {
            let size = indices::size_at(look.tree.granule, height);
            let met = setups::meets_area(
                look.tree.granule,
                look.kept.base,
                look.kept.tables as u64,
                look.kept.base2,
                look.kept.tables2 as u64,
                frame,
                size,
            );
            if met {
                return None;
            }
            Some(Counts {
                tables: 0,
                mappings: 1,
            })
        }
        Entry::Table(c) => table_check(words, second, marks, look, c, height - 1),
        Entry::Damaged => None,
    }
}

// Checks the free numbers: in range, not marked before, and their tables all zero.
fn free_check<'a>(
    granule: u64,
    words: &'a [u64],
    second: &'a [u64],
    marks: &mut [bool],
    free: &[u32],
    n: u32,
) -> bool
    requires { (n ≤ length marks.old) × Cut (granule_of granule) (length words.now) }
    ensures { result ≡ free_pass (granule_of granule) (words.now ++ second.now) n marks.old free.now }
{
    for &t in free {
        if t >= n {
            return false;
        }
        let place = t as usize;
        if marks[place] {
            return false;
        }
        if !contents::is_table_empty(granule, words, second, t) {
            return false;
        }
        marks[place] = true;
    }
    true
}

// What the audit goes by: the pool's own regions, with which no frame may share a byte, and an empty table is damage.
fn strict(s: Setup) -> Look
    requires { total (area_of s) ≤ most_tables }
    ensures { result ≡ strictly s }
{
    let tree = Tree::of(s);
    Look {
        tree,
        kept: tree,
        bare: false,
    }
}

// Whether every reachable word is sound, no table is reached twice, and no frame shares a byte with a region of so many tables. Empty tables are not looked at.
fn tree_check<'a>(s: Setup, words: &'a [u64], second: &'a [u64], kept: u64, many: u64) -> bool
    requires { Rooted s (length words.now) (length second.now) × (GoodArea (granule_of s.granule) (one_region kept many) × (many ≤ most_tables)) }
    ensures { result ≡ (none_inside (granule_of s.granule) (one_region kept many) (tree_of s (words.now ++ second.now)).mappings
        && sound_tree (tree_of s (words.now ++ second.now))) }
{
    let mut marks = [false; MARKS];
    let look = Look {
        kept: Tree {
            granule: s.granule,
            base: kept,
            tables: many as u16,
            base2: 0,
            tables2: 0,
        },
        bare: true,
        ..strict(s)
    };
    table_check(words, second, &mut marks, look, 0, (s.levels - 1) as usize).is_some()
}

// Whether the setup numbers and the three lengths are good, every reachable word is sound and no table is reached twice. Empty tables, frames in the pool and the
// free list are not looked at.
pub fn tree_sound<'a>(s: Setup, words: &'a [u64], second: &'a [u64], places: usize) -> bool
    ensures { result ≡ (good_setup (granule_of s.granule) s (length words.now) (length words.now + length second.now) places
        && sound_tree (tree_of s (words.now ++ second.now))) }
{
    if !setups::good_setup(s, words.len(), second.len(), places) {
        return false;
    }
    tree_check(s, words, second, 0, 0)
}

// The tests of an add of so many tables from an address on, where the free list has so many places: refusal 1, 8 for a tree that is not sound as it stands, or
// 11 where a frame shares a byte with the region.
pub fn add_tests<'a>(
    s: Setup,
    words: &'a [u64],
    second: &'a [u64],
    places: usize,
    base2: u64,
    tables2: u64,
) -> Result<(), Refusal>
    ensures { (list : List ℕ) → length list ≡ places
        → says_tested result ≡ tested (add_tests (granule_of s.granule) (pool s (words.now ++ second.now) (length words.now) list) base2 tables2) }
{
    if !setups::good_adding(s, base2, tables2, words.len(), second.len(), places) {
        return Err(Refusal::Setup);
    }
    if !tree_check(s, words, second, 0, 0) {
        return Err(Refusal::Damage);
    }
    if !tree_check(s, words, second, base2, tables2) {
        return Err(Refusal::Pool);
    }
    Ok(())
}

// The counts of reached tables and of mappings of a sound pool; refusal 1 for bad setup numbers or lengths, 8 for a broken rule.
pub fn audit<'a>(
    s: Setup,
    words: &'a [u64],
    second: &'a [u64],
    list: &[u32],
) -> Result<Counts, Refusal>
    ensures { says_audit result ≡ audit_w (granule_of s.granule) (pool s (words.now ++ second.now) (length words.now) list.now) }
{
    if !setups::good_setup(s, words.len(), second.len(), list.len()) {
        return Err(Refusal::Setup);
    }
    let all = s.tables + s.tables2;
    let mut marks = [false; MARKS];
    let look = strict(s);
    let Some(counts) = table_check(words, second, &mut marks, look, 0, (s.levels - 1) as usize)
    else {
        return Err(Refusal::Damage);
    };
    if counts.tables != all - s.free {
        return Err(Refusal::Damage);
    }
    if !free_check(
        s.granule,
        words,
        second,
        &mut marks,
        &list[..s.free as usize],
        all as u32,
    ) {
        return Err(Refusal::Damage);
    }
    Ok(counts)
}
