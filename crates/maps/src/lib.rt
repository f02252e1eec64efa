// Map. It makes every test first, then its single writes, one after the other.
#![tactic(auto)]

ghost use Rattle.std.specs.Prelude.{◌≡◌, true, List, ◌++◌, ℕ, ◌+◌, ◌-◌, ◌*◌, ◌≤◌, ◌<◌, length, IfOk};
ghost use Rattle.path.specs.Geometry.{granule_of, entries, physical, height_of};
ghost use Rattle.path.specs.Areas.{area_of};
ghost use Rattle.path.specs.Numbers.{most_tables, good_setup};
ghost use Rattle.path.specs.Paths.{path_of};
ghost use Rattle.entry.specs.Words.{frame_word};
ghost use Rattle.entry.specs.declared.Entry.TheVariants.{Empty};
ghost use Rattle.model.specs.Answers.{says_refusal, tested, refused, pool, map_did};
ghost use Rattle.model.specs.Walk.{slot, at_height, stop};
ghost use Rattle.model.specs.Writes.{memory, perform_all, map_writes, may_take};
ghost use Rattle.model.specs.Calls.{map_tests, map_here, map_w};
ghost use Rattle.lookup.specs.Walks.{walk_by};
ghost use Rattle.plans.specs.Plan.{write_of, IsWrite};
ghost use Rattle.maps.specs.Parts.{says_height, last_taken, met_by, map_from};

use entry::Entry;
use links::Tree;
use lookup::Reached;
use model::{Mapped, Refusal};
use path::Setup;
use plans::Step;

// Map's tests 2 to 5 and then 11. Where none refuses it answers the height of the frames of this size.
fn map_tests(
    s: Setup,
    address: u64,
    frame: u64,
    size: u64,
    attributes: u64,
) -> Result<usize, Refusal>
    ensures tests { says_height result ≡ tested (map_tests (granule_of s.granule) s.levels (area_of s) address frame size attributes) }
    ensures height { IfOk result (λ h. h ≡ height_of (granule_of s.granule) size) }
{
    let Some(height) = path::height_of(s.granule, size) else {
        return Err(Refusal::Size);
    };
    if attributes > 15 {
        return Err(Refusal::Attributes);
    }
    if !path::in_space(s.granule, s.levels, address, size) || frame > path::PHYSICAL - size {
        return Err(Refusal::Address);
    }
    let rest = indices::rest_at(s.granule, address, height)
        + indices::rest_at(s.granule, frame, height);
    let met = setups::meets_area(s.granule, s.base, s.tables, s.base2, s.tables2, frame, size);
    if rest != 0 {
        return Err(Refusal::Alignment);
    }
    if met {
        return Err(Refusal::Pool);
    }
    Ok(height)
}

// Whether so many tables may be taken from the end of the free list.
fn may_take(list: &[u32], tables: u32, way: [u32; 4], free: usize, need: usize) -> bool
    requires { (need ≤ 4) × (need ≤ free) }
    ensures { result ≡ may_take list.now tables way free need }
{
    let mut taken: [u32; 4] = [0; 4];
    for i in 0..need {
        let c = pool::place(list, free - 1 - i);
        if c == 0 || c >= tables || pool::among_four(way, c) || pool::among_four(taken, c) {
            return false;
        }
        taken[i] = c;
    }
    true
}

// The place of the entry that is written once k tables are taken: in the last of these; `first`, where the walk ended, while there is none.
fn map_place(
    granule: u64,
    list: &[u32],
    address: u64,
    height: usize,
    first: usize,
    free: usize,
    need: usize,
    k: usize,
) -> usize
    requires { (height + need < (granule_of granule).most) × ((k ≤ need) × (need ≤ free)) }
    ensures { (t : ℕ) → first ≡ slot (granule_of granule) t (at_height (path_of (granule_of granule) address) (height + need))
        → result ≡ slot (granule_of granule) (last_taken list.now t free k) (at_height (path_of (granule_of granule) address) (need - k + height)) }
{
    if k == 0 {
        return first;
    }
    let t = pool::place(list, free - k);
    let i = indices::index_at(granule, address, need - k + height);
    pool::entry_place(granule, t, i)
}

// Write i of a map: each missing table is taken from the end of the free list, top first, filled with zeros and then linked; the frame's word comes
// last.
// A promise keeps this form: each single write is proved to be the one of its number in the list of the writes.
fn map_step(
    s: Setup,
    list: &[u32],
    address: u64,
    height: usize,
    word: u64,
    first: usize,
    need: usize,
    i: usize,
) -> Step
    requires { ((s.base ≤ physical) × ((s.base2 ≤ physical) × (s.tables ≤ most_tables))) × ((height + need < (granule_of s.granule).most) × ((need ≤ s.free) × (i ≤ 2 * need))) }
    ensures { (t : ℕ) → first ≡ slot (granule_of s.granule) t (at_height (path_of (granule_of s.granule) address) (height + need))
        → IsWrite (map_writes (granule_of s.granule) (area_of s) (path_of (granule_of s.granule) address) list.now height word t s.free need) i (write_of result) }
{
    let k = i / 2;
    let free = s.free as usize;
    let place = map_place(s.granule, list, address, height, first, free, need, k);
    if k == need {
        return Step::Store { place, value: word };
    }
    let c = pool::place(list, free - 1 - k);
    if i % 2 == 0 {
        return Step::Wipe { table: c };
    }
    let value = Tree::of(s).table_word(c);
    Step::Store { place, value }
}

// The writes of a map, in their order: two for each table, and the frame's word.
fn map_writes(
    s: Setup,
    words: &mut [u64],
    second: &mut [u64],
    list: &[u32],
    address: u64,
    height: usize,
    word: u64,
    first: usize,
    need: usize,
)
    requires { ((s.base ≤ physical) × ((s.base2 ≤ physical) × (s.tables ≤ most_tables))) × ((height + need < (granule_of s.granule).most) × (need ≤ s.free)) }
    ensures { (t : ℕ) → first ≡ slot (granule_of s.granule) t (at_height (path_of (granule_of s.granule) address) (height + need))
        → (k : ℕ) → length words.old ≡ entries (granule_of s.granule) * k → (l : List ℕ)
        → words.new ++ second.new
        ≡ (perform_all (granule_of s.granule) (map_writes (granule_of s.granule) (area_of s) (path_of (granule_of s.granule) address) list.now height word t s.free need) (memory (words.old ++ second.old) l)).words }
{
    for i in 0..2 * need + 1 {
        let step = map_step(s, list, address, height, word, first, need, i);
        plans::step_words(s.granule, words, second, step);
    }
}

// Map, where the walk ended at an empty entry: the missing tables, and the frame's word. That the pool's numbers are good is asked here and in each step past a call's
// tests: it is a fact about the setup and the lengths of the three lent runs together, so that a type for it would have to hold the runs (`pool`).
fn map_empty(
    s: Setup,
    words: &mut [u64],
    second: &mut [u64],
    list: &[u32],
    address: u64,
    height: usize,
    word: u64,
    way: [u32; 4],
    end: Reached,
) -> Result<Mapped, Refusal>
    requires { (good_setup (granule_of s.granule) s (length words.old) (length (words.old ++ second.old)) (length list.now) ≡ true) × ((height ≤ end.height) × ((end.height ≤ s.levels - 1) × (end.place ≡ slot (granule_of s.granule) (at_height way end.height) (at_height (path_of (granule_of s.granule) address) end.height)))) }
    ensures { (b k : ℕ) → word ≡ frame_word b height k
        → map_did s result words.new second.new list.now
        ≡ map_here (granule_of s.granule) (pool s (words.old ++ second.old) (length words.old) list.now) address b height k (stop Empty end.height way) (end.height - height) }
{
    let need = end.height - height;
    let free = s.free as usize;
    if free < need {
        return Err(Refusal::Tables);
    }
    if !may_take(list, (s.tables + s.tables2) as u32, way, free, need) {
        return Err(Refusal::Damage);
    }
    map_writes(
        s, words, second, list, address, height, word, end.place, need,
    );
    Ok(Mapped {
        tables: need as u64,
        setup: Setup {
            free: (free - need) as u64,
            ..s
        },
    })
}

// The refusal of a map whose walk does not end at an empty entry: 8 for damage, 6 for a table or a frame.
fn met(s: Setup, words: &[u64], second: &[u64], height: usize, address: u64) -> Refusal
    ensures { says_refusal result ≡ refused (met_by (walk_by (granule_of s.granule) s (words.now ++ second.now) height address).entry) }
{
    match lookup::walk_to(s, words, second, height, address).entry {
        Entry::Damaged => Refusal::Damage,
        Entry::Empty | Entry::Table(_) | Entry::Frame { .. } => Refusal::Overlap,
    }
}

// Map past its tests: the walk to the frame's height, and what is done where it ends. A word of the frame's height alone is a single write.
fn map_walk(
    s: Setup,
    words: &mut [u64],
    second: &mut [u64],
    list: &[u32],
    address: u64,
    height: usize,
    word: u64,
) -> Result<Mapped, Refusal>
    requires { (good_setup (granule_of s.granule) s (length words.old) (length (words.old ++ second.old)) (length list.now) ≡ true) × (height ≤ (granule_of s.granule).large) }
    ensures { (b k : ℕ) → word ≡ frame_word b height k
        → map_did s result words.new second.new list.now
        ≡ map_from (granule_of s.granule) (pool s (words.old ++ second.old) (length words.old) list.now) address b height k }
{
    let mut way = [0u32; 4];
    let Ok(end) = lookup::reach(s, &words[..], &second[..], height, address, &mut way) else {
        return Err(Refusal::Damage);
    };
    let w = pool::word(&words[..], &second[..], end.place);
    if w != 0 {
        return Err(met(s, &words[..], &second[..], height, address));
    }
    if end.height != height {
        return map_empty(s, words, second, list, address, height, word, way, end);
    }
    pool::put(words, second, end.place, word);
    Ok(Mapped {
        tables: 0,
        setup: s,
    })
}

// A mapping of `size` addresses from `address` on to a frame. Answers the tables taken, or a refusal: 1 to 8, or 11.
pub fn map(
    s: Setup,
    words: &mut [u64],
    second: &mut [u64],
    list: &[u32],
    address: u64,
    frame: u64,
    size: u64,
    attributes: u64,
) -> Result<Mapped, Refusal>
    ensures { map_did s result words.new second.new list.now
        ≡ map_w (granule_of s.granule) (pool s (words.old ++ second.old) (length words.old) list.now) address frame size attributes }
{
    if !setups::good_setup(s, words.len(), second.len(), list.len()) {
        return Err(Refusal::Setup);
    }
    let height = map_tests(s, address, frame, size, attributes)?;
    let word = entry::word_of(frame, height, attributes);
    map_walk(s, words, second, list, address, height, word)
}
