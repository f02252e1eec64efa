// Map a range. All walks are made first, over the memory at entry, stretch by stretch; then the pieces are written.
#![tactic(auto)]

ghost use Rattle.std.specs.Prelude.{◌≡◌, ◌≢◌, true, List, [], ◌++◌, ℕ, ◌+◌, ◌-◌, ◌*◌, ◌^◌, ◌≤◌, ◌<◌, length, get_or, Ok, Err};
ghost use Rattle.laws.specs.Lists.{part};
ghost use Rattle.path.specs.Geometry.{granule_of, entries, size_at, physical};
ghost use Rattle.path.specs.Areas.{area_of, total};
ghost use Rattle.path.specs.Numbers.{good_setup};
ghost use Rattle.path.specs.Paths.{index_at};
ghost use Rattle.entry.specs.Words.{entry_at, frame_word};
ghost use Rattle.entry.specs.declared.Entry.TheVariants.{Empty};
ghost use Rattle.model.specs.declared.Refusal.TheVariants.{Damage};
ghost use Rattle.model.specs.Answers.{took, pool, map_did};
ghost use Rattle.model.specs.Walk.{slot, at_height};
ghost use Rattle.model.specs.Writes.{may_take};
ghost use Rattle.model.specs.Calls.{walk_to};
ghost use Rattle.model.specs.Ranges.{map_range_tests, pieces, map_range_w};
ghost use Rattle.marks.specs.Marks.{note_way};
ghost use Rattle.rangemaps.specs.Rows.{met_in, met_at, begun_at, row_found, filled};
ghost use Rattle.rangemaps.specs.Surveys.{Good, MarksOf, Surveyed};

use entry::Entry;
use links::Tree;
use model::{Mapped, Refusal};
use path::Setup;

// What a word of one of a pool's tables says at a height.
fn entry_in(s: Setup, w: u64, height: usize) -> Entry
    requires { total (area_of s) ≤ 512 }
    ensures { result ≡ entry_at (granule_of s.granule) (area_of s) height w }
{
    Tree::of(s).read_word(w, height)
}

// What entries of a height find, one for each word: damage where one is damaged, else an overlap where one is a table or a frame, else that no table is lacking.
fn met_in(s: Setup, part: &[u64], height: usize) -> Result<usize, Refusal>
    requires { total (area_of s) ≤ 512 }
    ensures { result ≡ met_in (granule_of s.granule) (area_of s) height (Ok 0) part.now }
{
    if contents::zeros_but(part, part.len()) {
        return Ok(0);
    }
    let mut met = Ok(0);
    for &w in part {
        match entry_in(s, w, height) {
            Entry::Damaged => return Err(Refusal::Damage),
            Entry::Empty => {}
            Entry::Table(_) | Entry::Frame { .. } => met = Err(Refusal::Overlap),
        }
    }
    met
}

// What the walks of a stretch find, where the first of them ended above the height of the pieces, at this word: the tables that the first piece lacks, or a refusal.
fn met_above(s: Setup, w: u64, height: usize, left: usize) -> Result<usize, Refusal>
    requires { (height ≤ left) × (total (area_of s) ≤ 512) }
    ensures { result ≡ met_at (entry_at (granule_of s.granule) (area_of s) left w) (left - height) }
{
    match entry_in(s, w, left) {
        Entry::Damaged => Err(Refusal::Damage),
        Entry::Empty => Ok(left - height),
        Entry::Table(_) | Entry::Frame { .. } => Err(Refusal::Overlap),
    }
}

// The same where it ended in a table of that height: what so many words of the table find, from the address's own on.
fn met_here<'a>(
    s: Setup,
    words: &'a [u64],
    second: &'a [u64],
    t: u32,
    address: u64,
    height: usize,
    count: usize,
) -> Result<usize, Refusal>
    requires { Good (granule_of s.granule) s words.now second.now × ((height ≤ (granule_of s.granule).large) × ((t < total (area_of s)) × (index_at (granule_of s.granule) address height + count ≤ entries (granule_of s.granule)))) }
    ensures { result ≡ met_in (granule_of s.granule) (area_of s) height (Ok 0) (part (words.now ++ second.now) (slot (granule_of s.granule) t (index_at (granule_of s.granule) address height)) count) }
{
    let table = contents::table_part(s.granule, words, second, t);
    let from = indices::index_at(s.granule, address, height) as usize;
    met_in(s, &table[from..from + count], height)
}

// What the walks of a stretch find, so many pieces of a height in one table from an address on: the tables that the first piece lacks, or an overlap,
// or damage. The tables on their way are noted.
fn probe<'a>(
    s: Setup,
    words: &'a [u64],
    second: &'a [u64],
    stands: &mut [u32],
    address: u64,
    height: usize,
    count: usize,
) -> Result<usize, Refusal>
    requires { Good (granule_of s.granule) s words.now second.now × ((height ≤ (granule_of s.granule).large) × ((total (area_of s) ≤ length stands.old) × ((0 < count) × (index_at (granule_of s.granule) address height + count ≤ entries (granule_of s.granule))))) }
    ensures by_index { (list : List ℕ) → result ≡ row_found (granule_of s.granule) (pool s (words.now ++ second.now) (length words.now) list) stands.old height address count }
    ensures stands_after { result ≢ Err Damage → (list : List ℕ) → stands.new
        ≡ (note_way (granule_of s.granule) stands.old address (walk_to (granule_of s.granule) (pool s (words.now ++ second.now) (length words.now) list) height address).tables
        (walk_to (granule_of s.granule) (pool s (words.now ++ second.now) (length words.now) list) height address).left s.levels).marks }
{
    let mut way = [0u32; 4];
    let Ok(end) = lookup::reach(s, words, second, height, address, &mut way) else {
        return Err(Refusal::Damage);
    };
    if !marks::note_way(s.granule, stands, way, address, end.height, s.levels) {
        return Err(Refusal::Damage);
    }
    if end.height > height {
        let w = pool::word(words, second, end.place);
        return met_above(s, w, height, end.height);
    }
    let at = 3 - height;
    met_here(s, words, second, way[at], address, height, count)
}

// Of the tables that a piece lacks, those that no piece before it lacks too: the regions that begin at its address.
#[tactic(auto, using(crate::proofs::Words::begun_laws))]
fn begun(granule: u64, address: u64, height: usize, lack: usize) -> usize
    requires { height + lack ≤ 3 }
    ensures { (height + lack < (granule_of granule).most → result ≡ begun_at (granule_of granule) address height lack) × (result ≤ lack) }
{
    for n in (1..=lack).rev() {
        if indices::rest_at(granule, address, height + n) == 0 {
            return n;
        }
    }
    0
}

// The walks of all pieces, stretch by stretch. The tables on their ways are noted.
fn survey<'a>(
    s: Setup,
    words: &'a [u64],
    second: &'a [u64],
    stands: &mut [u32],
    address: u64,
    frame: u64,
    len: u64,
) -> Result<u64, Refusal>
    requires { Good (granule_of s.granule) s words.now second.now × ((total (area_of s) ≤ length stands.old) × ((k : ℕ) × (map_range_tests (granule_of s.granule) s.levels (area_of s) address frame len k ≡ 0))) }
    ensures { (list : List ℕ) (k : ℕ) → good_setup (granule_of s.granule) s (length words.now) (length (words.now ++ second.now)) (length list) ≡ true
        → ((t : ℕ) → get_or stands.old t 0 ≡ 0) → map_range_tests (granule_of s.granule) s.levels (area_of s) address frame len k ≡ 0
        → Surveyed (granule_of s.granule) (pool s (words.now ++ second.now) (length words.now) list) (pieces (granule_of s.granule) address frame len k) result stands.new }
{
    let mut x = address;
    let mut y = frame;
    let mut left = len;
    let mut overlaps = false;
    let mut need = 0;
    while left > 0 {
        let h = ranges::piece_at(s.granule, x, y, left);
        let n = ranges::stretch(s.granule, x, left, h);
        match probe(s, words, second, stands, x, h, n as usize) {
            Ok(lack) if x == address => need = lack as u64,
            Ok(lack) => need += begun(s.granule, x, h, lack) as u64,
            // It does not end the walks: damage further on is answered before it.
            Err(Refusal::Overlap) => overlaps = true,
            Err(refusal) => return Err(refusal),
        }
        let bytes = n * indices::size_at(s.granule, h);
        x += bytes;
        y += bytes;
        left -= bytes;
    }
    if overlaps {
        return Err(Refusal::Overlap);
    }
    Ok(need)
}

// Whether so many tables may be taken from the end of the free list; those that are noted may not, and each is noted then.
// Map's own test knows the tables of one way by four places; of many ways marks know them in one step each.
fn may_take(list: &[u32], tables: u32, stands: &mut [u32], free: usize, need: usize) -> bool
    requires { (need ≤ free) × (tables ≤ length stands.old) }
    ensures { (seen : List ℕ) → MarksOf seen stands.old → result ≡ may_take list.now tables seen free need }
{
    for i in 0..need {
        let c = pool::place(list, free - 1 - i);
        if c == 0 || c >= tables {
            return false;
        }
        let at = c as usize;
        if stands[at] != 0 {
            return false;
        }
        stands[at] = 1;
    }
    true
}

// So many words of one run from a place on become the first, and each the one before it and `size`.
#[tactic(auto, using(crate::proofs::Words::fills))]
fn fill_run(words: &mut [u64], start: usize, count: usize, first: u64, size: u64)
    requires { (start + count ≤ length words.old) × (first + size * count ≤ 2 ^ 63) }
    ensures { words.new ≡ filled words.old start first size count }
{
    for i in 0..count {
        words[start + i] = first + size * (i as u64);
    }
}

// The same of the two runs put together, where one of them holds all these places.
#[tactic(auto, using(crate::proofs::Words::two_runs))]
fn fill(words: &mut [u64], second: &mut [u64], place: usize, count: usize, first: u64, size: u64)
    requires { (place < length words.old → place + count ≤ length words.old) × ((place + count ≤ length (words.old ++ second.old)) × (first + size * count ≤ 2 ^ 63)) }
    ensures { words.new ++ second.new ≡ filled (words.old ++ second.old) place first size count }
{
    let n = words.len();
    if place < n {
        fill_run(words, place, count, first, size);
    } else {
        fill_run(second, place - n, count, first, size);
    }
}

// So many pieces of a height in a table that is there, from an address on, whose entries are empty: their words.
fn write_row(
    s: Setup,
    words: &mut [u64],
    second: &mut [u64],
    address: u64,
    frame: u64,
    height: usize,
    attributes: u64,
    count: usize,
)
    requires { Good (granule_of s.granule) s words.old second.old × ((height ≤ (granule_of s.granule).large) × ((frame + count * size_at (granule_of s.granule) height ≤ physical) × ((index_at (granule_of s.granule) address height + count ≤ entries (granule_of s.granule)) × (((walk_to (granule_of s.granule) (pool s (words.old ++ second.old) (length words.old) []) height address).entry ≡ Empty) × ((walk_to (granule_of s.granule) (pool s (words.old ++ second.old) (length words.old) []) height address).left ≡ height))))) }
    ensures { words.new ++ second.new
        ≡ filled (words.old ++ second.old) (slot (granule_of s.granule) (at_height (walk_to (granule_of s.granule) (pool s (words.old ++ second.old) (length words.old) []) height address).tables height) (index_at (granule_of s.granule) address height)) (frame_word frame height attributes) (size_at (granule_of s.granule) height) count }
{
    let mut way = [0u32; 4];
    // The walk ends at an empty entry, so that it comes to no table again.
    let Ok(end) = lookup::reach(s, &words[..], &second[..], height, address, &mut way) else {
        return;
    };
    let first = entry::word_of(frame, height, attributes);
    fill(
        words,
        second,
        end.place,
        count,
        first,
        indices::size_at(s.granule, height),
    );
}

// The pieces, one after the other: the first of each stretch by map, the others by their words alone. Answers the setup then.
fn write_pieces(
    s: Setup,
    words: &mut [u64],
    second: &mut [u64],
    list: &[u32],
    address: u64,
    frame: u64,
    len: u64,
    attributes: u64,
) -> Setup
    requires { (t : ℕ) × ((map_range_w (granule_of s.granule) (pool s (words.old ++ second.old) (length words.old) list.now) address frame len attributes).answer ≡ took t) }
    ensures { pool result (words.new ++ second.new) (length words.new) list.now
        ≡ (map_range_w (granule_of s.granule) (pool s (words.old ++ second.old) (length words.old) list.now) address frame len attributes).after }
{
    let mut now = s;
    let mut x = address;
    let mut y = frame;
    let mut left = len;
    while left > 0 {
        let h = ranges::piece_at(s.granule, x, y, left);
        let n = ranges::stretch(s.granule, x, left, h);
        let size = indices::size_at(s.granule, h);
        // All tests were made before, so that map refuses no piece.
        if let Ok(mapped) = maps::map(now, words, second, list, x, y, size, attributes) {
            now = mapped.setup;
        }
        if n > 1 {
            write_row(
                now,
                words,
                second,
                x + size,
                y + size,
                h,
                attributes,
                (n - 1) as usize,
            );
        }
        let bytes = n * size;
        x += bytes;
        y += bytes;
        left -= bytes;
    }
    now
}

// A range of `len` addresses from `address` on is mapped to frames, each piece as large as it can be. Answers the tables taken, or a refusal: 1 to 8, or 11.
pub fn map_range(
    s: Setup,
    words: &mut [u64],
    second: &mut [u64],
    list: &[u32],
    address: u64,
    frame: u64,
    len: u64,
    attributes: u64,
) -> Result<Mapped, Refusal>
    ensures { map_did s result words.new second.new list.now
        ≡ map_range_w (granule_of s.granule) (pool s (words.old ++ second.old) (length words.old) list.now) address frame len attributes }
{
    if !setups::good_setup(s, words.len(), second.len(), list.len()) {
        return Err(Refusal::Setup);
    }
    ranges::map_tests(s, address, frame, len, attributes)?;
    let mut stands = [0u32; 512];
    let need = survey(s, &words[..], &second[..], &mut stands, address, frame, len)?;
    if s.free < need {
        return Err(Refusal::Tables);
    }
    if !may_take(
        list,
        (s.tables + s.tables2) as u32,
        &mut stands,
        s.free as usize,
        need as usize,
    ) {
        return Err(Refusal::Damage);
    }
    let setup = write_pieces(s, words, second, list, address, frame, len, attributes);
    Ok(Mapped {
        tables: need,
        setup,
    })
}
