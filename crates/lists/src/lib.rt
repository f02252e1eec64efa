// List: the mappings of a pool from an address on, in rising order, into two lent runs.
#![tactic(auto)]

ghost use Rattle.std.specs.Prelude.{◌≡◌, List, ◌++◌, ℕ, suc, ◌+◌, ◌*◌, ◌≤◌, length};
ghost use Rattle.path.specs.Geometry.{granule_of, physical};
ghost use Rattle.path.specs.Areas.{Area};
ghost use Rattle.entry.specs.Words.{entry_at};
ghost use Rattle.model.specs.Answers.{Mapping, pool, list_did};
ghost use Rattle.model.specs.Audit.{of_entry, of_table};
ghost use Rattle.model.specs.Listing.{from_on, list_w, leaves};
ghost use Rattle.lists.specs.Feeds.{fed, feed, OneOf, granule_in, area_in, below, rest_of, SoundPages, FirstFrom, Even, PagesFit, RunsFit, RegionFit, TableFit, EntryFit};

use links::Tree;
use model::{Excerpt, Refusal};
use path::Setup;

// The tree that is listed, and the address from which on it is listed.
#[derive(Clone, Copy)]
struct Span {
    tree: Tree,
    start: u64,
}

// Writes the mapping of a word that names no table, if it has one whose base is not below the start; the word stands where sizes have this power of two. Here and
// below the answer is how many places are written then, or, where a mapping found no place any more, its base.
fn word_list(
    places: &mut [u64],
    entries: &mut [u64],
    start: u64,
    w: u64,
    power: u64,
    base: u64,
    written: usize,
) -> Result<usize, u64>
    requires { Even places.old entries.old × ((power ≤ 48) × (base ≤ physical)) }
    ensures { (granule : ℕ) (h : ℕ) → power ≡ (granule_of granule).page + (granule_of granule).index * h → (L : List Mapping) → OneOf (granule_of granule) h base w L
        → fed result places.new entries.new ≡ feed (granule_of granule) (from_on start L) places.old entries.old written }
{
    if w == 0 {
        return Ok(written);
    }
    if base < start {
        return Ok(written);
    }
    if written >= places.len() {
        return Err(base);
    }
    places[written] = base + power;
    entries[written] = w;
    Ok(written + 1)
}

// Lists the words of a table of the last level from place `from` on; its first word stands for the addresses from `first` on.
fn pages_list(
    granule: u64,
    part: &[u64],
    places: &mut [u64],
    entries: &mut [u64],
    start: u64,
    from: usize,
    first: u64,
    written: usize,
) -> Result<usize, u64>
    requires { PagesFit (granule_of granule) part.now first × Even places.old entries.old }
    ensures { (ws : List ℕ) (area : Area) → SoundPages (granule_of granule) ws area part.now
        → fed result places.new entries.new
        ≡ feed (granule_of granule) (from_on start (rest_of (granule_of granule) ws area 0 first part.now from)) places.old entries.old written }
{
    let page = indices::size_at(granule, 0);
    let power = indices::bits_at(granule, 0);
    let mut n = written;
    for i in from..part.len() {
        let base = first + page * (i as u64);
        n = word_list(places, entries, start, part[i], power, base, n)?;
    }
    Ok(n)
}

// The place of the first entry of a table that does not stand for addresses before the start alone. The entries have this height, and the first of the table
// stands for the addresses from `first` on.
fn first_entry(granule: u64, start: u64, height: usize, first: u64) -> usize
    requires { RegionFit (granule_of granule) start (suc height) first }
    ensures { FirstFrom (granule_of granule) start height first result }
{
    if first < start {
        return indices::index_at(granule, start, height) as usize;
    }
    0
}

// Lists table t, whose entries have this height and whose first entry stands for the addresses from `first` on.
#[cycle(entry_list_table_list)]
fn table_list<'a>(
    words: &'a [u64],
    second: &'a [u64],
    places: &mut [u64],
    entries: &mut [u64],
    span: Span,
    t: u32,
    height: usize,
    first: u64,
    written: usize,
) -> Result<usize, u64>
    requires { TableFit (granule_in span) (words.now ++ second.now) (area_in span) span.start t height first
        × (RunsFit (granule_in span) (area_in span) (length words.now) (length second.now) × Even places.old entries.old) }
    ensures { fed result places.new entries.new
        ≡ feed (granule_in span) (from_on span.start (of_table (granule_in span) (words.now ++ second.now) (area_in span) height t first).mappings) places.old entries.old written }
{
    let part = contents::table_part(span.tree.granule, words, second, t);
    let from = first_entry(span.tree.granule, span.start, height, first);
    if height == 0 {
        return pages_list(
            span.tree.granule,
            part,
            places,
            entries,
            span.start,
            from,
            first,
            written,
        );
    }
    let size = indices::size_at(span.tree.granule, height);
    let mut n = written;
    for k in from..part.len() {
        let base = first + size * (k as u64);
        n = entry_list(
            words, second, places, entries, span, part[k], height, base, n,
        )?;
    }
    Ok(n)
}

// Lists what a word gives whose entry has this height, above the last level's, and stands for the addresses from `first` on.
#[cycle(entry_list_table_list)]
fn entry_list<'a>(
    words: &'a [u64],
    second: &'a [u64],
    places: &mut [u64],
    entries: &mut [u64],
    span: Span,
    w: u64,
    height: usize,
    first: u64,
    written: usize,
) -> Result<usize, u64>
    requires { EntryFit (granule_in span) (words.now ++ second.now) (area_in span) span.start w height first
        × (RunsFit (granule_in span) (area_in span) (length words.now) (length second.now) × Even places.old entries.old) }
    ensures { fed result places.new entries.new
        ≡ feed (granule_in span) (from_on span.start (of_entry (granule_in span) height first (below (granule_in span) (words.now ++ second.now) (area_in span) height) (entry_at (granule_in span) (area_in span) height w)).mappings)
        places.old entries.old written }
{
    if w == 0 {
        return Ok(written);
    }
    let Some(c) = span.tree.child_in(w) else {
        let power = indices::bits_at(span.tree.granule, height);
        return word_list(places, entries, span.start, w, power, first, written);
    };
    table_list(
        words,
        second,
        places,
        entries,
        span,
        c,
        height - 1,
        first,
        written,
    )
}

// Writes the mappings with base at or above the start, in rising order, as many as the two runs have places for: in the one address plus power of two of the size, in
// the other the entry word. Answers how many, and the base of the first left out, or that none is; or a refusal: 1, 4, or 8 for a tree that is not sound.
// Two runs in place of one of pairs: so the C interface lends them.
pub fn list<'a>(
    s: Setup,
    words: &'a [u64],
    second: &'a [u64],
    list: &[u32],
    start: u64,
    places: &mut [u64],
    entries: &mut [u64],
) -> Result<Excerpt, Refusal>
    ensures { list_did result places.new entries.new
        ≡ leaves (list_w (granule_of s.granule) (pool s (words.now ++ second.now) (length words.now) list.now) start (length places.old) (length entries.old))
        places.old entries.old }
{
    if !setups::good_setup(s, words.len(), second.len(), list.len()) {
        return Err(Refusal::Setup);
    }
    if places.len() != entries.len() {
        return Err(Refusal::Setup);
    }
    if !path::in_space(s.granule, s.levels, start, 1) {
        return Err(Refusal::Address);
    }
    if !audit::tree_sound(s, words, second, list.len()) {
        return Err(Refusal::Damage);
    }
    let span = Span {
        tree: Tree::of(s),
        start,
    };
    let listed = table_list(
        words,
        second,
        places,
        entries,
        span,
        0,
        (s.levels - 1) as usize,
        0,
        0,
    );
    match listed {
        Ok(written) => Ok(Excerpt {
            written: written as u64,
            next: None,
        }),
        Err(base) => Ok(Excerpt {
            written: places.len() as u64,
            next: Some(base),
        }),
    }
}
