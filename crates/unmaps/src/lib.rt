// Unmap. It makes every test first, then its single writes, one after the other.
#![tactic(auto)]

ghost use Rattle.std.specs.Prelude.{◌≡◌, true, not, ◌||◌, ◌++◌, ℕ, ◌+◌, ◌-◌, ◌*◌, ◌/◌, ◌%◌, ◌^◌, ◌≤◌, ◌<◌, leb, length};
ghost use Rattle.path.specs.Geometry.{granule_of, entries, size_at};
ghost use Rattle.path.specs.Paths.{path_of};
ghost use Rattle.path.specs.Numbers.{most_tables, good_setup};
ghost use Rattle.entry.specs.declared.Entry.TheVariants.{Frame};
ghost use Rattle.model.specs.Answers.{says_tested, tested, pool, unmap_did};
ghost use Rattle.model.specs.Walk.{slot, at_height, stop};
ghost use Rattle.model.specs.Writes.{memory, perform_all, only_entry, freed, unmap_writes};
ghost use Rattle.model.specs.Calls.{unmap_tests, unmap_at, unmap_w};
ghost use Rattle.plans.specs.Plan.{write_of, IsWrite};

use entry::Entry;
use links::Tree;
use lookup::Reached;
use model::{Refusal, Unmapped};
use path::Setup;
use plans::Step;

// Unmap's tests 4 and 5.
fn unmap_tests(granule: u64, levels: u64, address: u64) -> Result<(), Refusal>
    ensures { says_tested result ≡ tested (unmap_tests (granule_of granule) levels address) }
{
    if !path::in_space(granule, levels, address, 1) {
        return Err(Refusal::Address);
    }
    if indices::rest_at(granule, address, 0) != 0 {
        return Err(Refusal::Alignment);
    }
    Ok(())
}

// Of the tables on the way, from the one with entries of height `left` upward, the root excepted: how many come free, one after the other, once the
// path's entry in each is cleared.
fn count_freed<'a>(
    granule: u64,
    words: &'a [u64],
    second: &'a [u64],
    way: &[u32; 4],
    address: u64,
    left: usize,
    top: usize,
) -> usize
    requires { (left ≤ top) × (top < (granule_of granule).most) }
    ensures { (k : ℕ) → length words.now ≡ entries (granule_of granule) * k
        → result ≡ freed (granule_of granule) (words.now ++ second.now) way.now (path_of (granule_of granule) address) left (top - left) }
{
    for h in left..top {
        let at = 3 - h;
        let t = way[at];
        let i = indices::index_at(granule, address, h);
        if !contents::only_entry(granule, words, second, t, i) {
            return h - left;
        }
    }
    top - left
}

// Write i of an unmap: the frame's word becomes 0; then, for each table that comes free, its parent's entry becomes 0, and after that the table goes
// on the free list.
// A promise keeps this form: each single write is proved to be the one of its number in the list of the writes.
fn unmap_step(
    granule: u64,
    way: &[u32; 4],
    address: u64,
    left: usize,
    free: usize,
    given: usize,
    i: usize,
) -> Step
    requires { (left + given < (granule_of granule).most) × ((free ≤ most_tables) × (i ≤ 2 * given)) }
    ensures { IsWrite (unmap_writes (granule_of granule) way.now (path_of (granule_of granule) address) left free given) i (write_of result) }
{
    let height = left + (i + 1) / 2;
    if i > 0 && i % 2 == 0 {
        let at = 3 - (height - 1);
        let table = way[at];
        let place = free + (height - left - 1);
        return Step::Give { place, table };
    }
    let at = 3 - height;
    let index = indices::index_at(granule, address, height);
    let place = pool::entry_place(granule, way[at], index);
    Step::Store { place, value: 0 }
}

// The writes of an unmap, in their order: the frame's word, and two for each table.
fn unmap_writes(
    granule: u64,
    words: &mut [u64],
    second: &mut [u64],
    list: &mut [u32],
    way: &[u32; 4],
    address: u64,
    left: usize,
    free: usize,
    given: usize,
)
    requires { (left + given < (granule_of granule).most) × (free ≤ most_tables) }
    ensures { (k : ℕ) → length words.old ≡ entries (granule_of granule) * k
        → memory (words.new ++ second.new) list.new
        ≡ perform_all (granule_of granule) (unmap_writes (granule_of granule) way.now (path_of (granule_of granule) address) left free given) (memory (words.old ++ second.old) list.old) }
{
    for i in 0..2 * given + 1 {
        let step = unmap_step(granule, way, address, left, free, given, i);
        plans::step_all(granule, words, second, list, step);
    }
}

// Unmap, where the walk ended at a frame whose table comes free.
fn unmap_more(
    s: Setup,
    words: &mut [u64],
    second: &mut [u64],
    list: &mut [u32],
    address: u64,
    frame: u64,
    attributes: u64,
    way: &[u32; 4],
    left: usize,
) -> Result<Unmapped, Refusal>
    requires { (good_setup (granule_of s.granule) s (length words.old) (length (words.old ++ second.old)) (length list.old) ≡ true) × ((left < s.levels - 1) × ((address % size_at (granule_of s.granule) left ≡ 0) × (only_entry (granule_of s.granule) (words.old ++ second.old) (at_height way.now left) (at_height (path_of (granule_of s.granule) address) left) ≡ true))) }
    ensures { unmap_did s result words.new second.new list.new
        ≡ unmap_at (granule_of s.granule) (pool s (words.old ++ second.old) (length words.old) list.old) address (stop (Frame frame attributes) left way.now) (Frame frame attributes) }
{
    let size = indices::size_at(s.granule, left);
    let top = (s.levels - 1) as usize;
    let given = count_freed(
        s.granule,
        &words[..],
        &second[..],
        way,
        address,
        left + 1,
        top,
    ) + 1;
    let free = s.free + given as u64;
    let most = s.tables + s.tables2 - 1;
    if free > most {
        return Err(Refusal::Damage);
    }
    unmap_writes(
        s.granule,
        words,
        second,
        list,
        way,
        address,
        left,
        s.free as usize,
        given,
    );
    Ok(Unmapped {
        frame,
        size,
        attributes,
        tables: given as u64,
        setup: Setup { free, ..s },
    })
}

// Whether the table of the entry where a walk ended stays once the entry is cleared: it is the root, or it has another entry.
fn stays<'a>(granule: u64, words: &'a [u64], second: &'a [u64], end: Reached, top: usize) -> bool
    requires { end.place / entries (granule_of granule) < 2 ^ 32 }
    ensures { (k : ℕ) → length words.now ≡ entries (granule_of granule) * k
        → result ≡ (leb top end.height || not (only_entry (granule_of granule) (words.now ++ second.now) (end.place / entries (granule_of granule)) (end.place % entries (granule_of granule)))) }
{
    if end.height >= top {
        return true;
    }
    let t = path::table_of(granule, end.place as u64) as u32;
    let i = path::index_in(granule, end.place as u64);
    !contents::only_entry(granule, words, second, t, i)
}

// Unmap, where the walk ended at a frame. A frame whose table stays is a single write.
fn unmap_frame(
    s: Setup,
    words: &mut [u64],
    second: &mut [u64],
    list: &mut [u32],
    address: u64,
    frame: u64,
    attributes: u64,
    way: &[u32; 4],
    end: Reached,
) -> Result<Unmapped, Refusal>
    requires { (good_setup (granule_of s.granule) s (length words.old) (length (words.old ++ second.old)) (length list.old) ≡ true) × ((end.height ≤ s.levels - 1) × ((end.place < length (words.old ++ second.old)) × (end.place ≡ slot (granule_of s.granule) (at_height way.now end.height) (at_height (path_of (granule_of s.granule) address) end.height)))) }
    ensures { unmap_did s result words.new second.new list.new
        ≡ unmap_at (granule_of s.granule) (pool s (words.old ++ second.old) (length words.old) list.old) address (stop (Frame frame attributes) end.height way.now) (Frame frame attributes) }
{
    if indices::rest_at(s.granule, address, end.height) != 0 {
        return Err(Refusal::Inside);
    }
    let top = (s.levels - 1) as usize;
    if !stays(s.granule, &words[..], &second[..], end, top) {
        return unmap_more(
            s, words, second, list, address, frame, attributes, way, end.height,
        );
    }
    pool::put(words, second, end.place, 0);
    Ok(Unmapped {
        frame,
        size: indices::size_at(s.granule, end.height),
        attributes,
        tables: 0,
        setup: s,
    })
}

// The mapping that starts at an address goes, and so does each table that is empty then. Answers the frame and the tables given back, or a refusal:
// 1, 4, 5, 8, 10, or 9 with the hole around the address.
pub fn unmap(
    s: Setup,
    words: &mut [u64],
    second: &mut [u64],
    list: &mut [u32],
    address: u64,
) -> Result<Unmapped, Refusal>
    ensures { unmap_did s result words.new second.new list.new
        ≡ unmap_w (granule_of s.granule) (pool s (words.old ++ second.old) (length words.old) list.old) address }
{
    if !setups::good_setup(s, words.len(), second.len(), list.len()) {
        return Err(Refusal::Setup);
    }
    unmap_tests(s.granule, s.levels, address)?;
    let mut way = [0u32; 4];
    let Ok(end) = lookup::reach(s, &words[..], &second[..], 0, address, &mut way) else {
        return Err(Refusal::Damage);
    };
    let w = pool::word(&words[..], &second[..], end.place);
    match Tree::of(s).read_word(w, end.height) {
        Entry::Frame { base, attributes } => unmap_frame(
            s, words, second, list, address, base, attributes, &way, end,
        ),
        Entry::Empty => Err(lookup::hole_at(s.granule, address, end.height)),
        Entry::Table(_) | Entry::Damaged => Err(Refusal::Damage),
    }
}
