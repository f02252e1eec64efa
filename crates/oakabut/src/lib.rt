// The C surface: every call on plain numbers and pointers. include/oakabut.h declares it.
#![tactic(auto)]

ghost use Rattle.std.specs.Prelude.{◌≡◌, List, ◌++◌, ℕ, ◌+◌, length, get_or};
ghost use Rattle.path.specs.Geometry.{granule_of};
ghost use Rattle.path.specs.Areas.{area_at};
ghost use Rattle.entry.specs.Host.{sized_by, host_word, host_meaning};
ghost use Rattle.model.specs.Answers.{pool, says_format, says_map, says_unmap, says_unmap_range, says_query, says_audit, says_list};
ghost use Rattle.model.specs.Calls.{format_n, map_w, unmap_w, query_w};
ghost use Rattle.model.specs.Ranges.{map_range_w, unmap_range_w};
ghost use Rattle.model.specs.Adds.{add_w};
ghost use Rattle.model.specs.Audit.{audit_w};
ghost use Rattle.model.specs.Listing.{list_w, leaves};
ghost use Rattle.path.specs.Numbers.{setup_at};
ghost use Rattle.pagetable.specs.Hands.{answer_in, handed_back};
ghost use Rattle.oakabut.specs.Surface.{granule_at, pool_at, setup_places, map_places, unmap_places, remove_places, query_places, audit_places, list_places, Told, Left, Wrote};

use model::{Counts, Excerpt, Found, Mapped, RangeUnmapped, Refusal, Unmapped};
use pagetable::Refused;
use path::Setup;

// The entry word of a frame, or a refusal: 2, 3, 4 or 5.
#[unsafe(no_mangle)]
pub extern "C" fn oak_frame_word(base: u64, size: u64, attributes: u64) -> u64
    ensures { result ≡ host_word (sized_by size) base size attributes }
{
    host::frame_word(base, size, attributes).unwrap_or_else(|r| r.number())
}

// The meaning of a word at a size: base + 16 + attributes, or a refusal: 2 or 8.
#[unsafe(no_mangle)]
pub extern "C" fn oak_word_meaning(word: u64, size: u64) -> u64
    ensures { result ≡ host_meaning (sized_by size) word size }
{
    match host::word_meaning(word, size) {
        Ok(m) => m.base + 16 + m.attributes,
        Err(r) => r.number(),
    }
}

// The setup numbers in seven places.
fn setup_at(s: &[u64; 7]) -> Setup
    ensures { result ≡ setup_at s.now }
{
    Setup::from(*s)
}

// The same where the granule is that of 4 KiB. A call that has found that goes on with the number written out, so that the compiler makes the call twice, and
// every size in it a constant.
fn setup_of_four(s: &[u64; 7]) -> Setup
    ensures { get_or s.now 6 0 ≡ 4096 → result ≡ setup_at s.now }
{
    Setup {
        granule: path::KIB4,
        ..setup_at(s)
    }
}

// Each answer of the page table becomes the returned number, which is 0 or the refusal's, and the places of `answer`. A refused call tells the setup that it
// hands back. Each writes all its places at once: no array is copied into another.
fn formatted(done: Result<Setup, Refused>, answer: &mut [u64; 7]) -> u64
    ensures { Told (says_format (answer_in done)) (setup_places (handed_back (λ s. s) done)) result answer.new }
{
    match done {
        Ok(s) => {
            *answer = <[u64; 7]>::from(s);
            0
        }
        Err(r) => {
            *answer = <[u64; 7]>::from(r.setup);
            r.refusal.number()
        }
    }
}

fn mapped(done: Result<Mapped, Refused>, answer: &mut [u64; 8]) -> u64
    ensures { Told (says_map (answer_in done)) (map_places (handed_back (λ m. m.setup) done)) result answer.new }
{
    match done {
        Ok(Mapped { tables, setup: s }) => {
            *answer = [
                s.levels, s.base, s.tables, s.free, s.base2, s.tables2, s.granule, tables,
            ];
            0
        }
        Err(Refused { refusal, setup: s }) => {
            *answer = [
                s.levels, s.base, s.tables, s.free, s.base2, s.tables2, s.granule, 0,
            ];
            refusal.number()
        }
    }
}

fn unmapped(done: Result<Unmapped, Refused>, answer: &mut [u64; 13]) -> u64
    ensures { Told (says_unmap (answer_in done)) (unmap_places (handed_back (λ u. u.setup) done)) result answer.new }
{
    match done {
        Ok(
            Unmapped {
                frame,
                size,
                attributes,
                tables,
                setup: s,
            },
        ) => {
            *answer = [
                s.levels, s.base, s.tables, s.free, s.base2, s.tables2, s.granule, frame, size,
                attributes, tables, 0, 0,
            ];
            0
        }
        Err(
            Refused {
                refusal: Refusal::Hole { base, size },
                setup: s,
            },
        ) => {
            *answer = [
                s.levels, s.base, s.tables, s.free, s.base2, s.tables2, s.granule, 0, 0, 0, 0,
                base, size,
            ];
            9
        }
        Err(Refused { refusal, setup: s }) => {
            *answer = [
                s.levels, s.base, s.tables, s.free, s.base2, s.tables2, s.granule, 0, 0, 0, 0, 0, 0,
            ];
            refusal.number()
        }
    }
}

fn removed(done: Result<RangeUnmapped, Refused>, answer: &mut [u64; 9]) -> u64
    ensures { Told (says_unmap_range (answer_in done)) (remove_places (handed_back (λ u. u.setup) done)) result answer.new }
{
    match done {
        Ok(u) => {
            let s = u.setup;
            *answer = [
                s.levels, s.base, s.tables, s.free, s.base2, s.tables2, s.granule, u.mappings,
                u.tables,
            ];
            0
        }
        Err(Refused { refusal, setup: s }) => {
            *answer = [
                s.levels, s.base, s.tables, s.free, s.base2, s.tables2, s.granule, 0, 0,
            ];
            refusal.number()
        }
    }
}

fn found(done: Result<Found, Refusal>, answer: &mut [u64; 6]) -> u64
    ensures { Told (says_query done) query_places result answer.new }
{
    match done {
        Ok(f) => {
            *answer = [f.base, f.frame, f.size, f.attributes, 0, 0];
            0
        }
        Err(Refusal::Hole { base, size }) => {
            *answer = [0, 0, 0, 0, base, size];
            9
        }
        Err(r) => {
            *answer = [0, 0, 0, 0, 0, 0];
            r.number()
        }
    }
}

fn audited(done: Result<Counts, Refusal>, answer: &mut [u64; 2]) -> u64
    ensures { Told (says_audit done) audit_places result answer.new }
{
    match done {
        Ok(c) => {
            *answer = [c.tables, c.mappings];
            0
        }
        Err(r) => {
            *answer = [0, 0];
            r.number()
        }
    }
}

fn listed(done: Result<Excerpt, Refusal>, answer: &mut [u64; 3]) -> u64
    ensures { (places : List ℕ) (entries : List ℕ) → Told (says_list done places entries) list_places result answer.new }
{
    match done {
        Ok(e) => {
            *answer = match e.next {
                None => [e.written, 0, 0],
                Some(next) => [e.written, 1, next],
            };
            0
        }
        Err(r) => {
            *answer = [0, 0, 0];
            r.number()
        }
    }
}

// Empties the pool, and answers its setup.
#[unsafe(no_mangle)]
pub extern "C" fn oak_format(
    levels: u64,
    base: u64,
    tables: u64,
    base2: u64,
    tables2: u64,
    granule: u64,
    words: &mut [u64],
    second: &mut [u64],
    list: &mut [u32],
    answer: &mut [u64; 7],
) -> u64
    ensures { Left (format_n granule levels (area_at base tables base2 tables2) (words.old ++ second.old) (length words.old) list.old)
        setup_places result answer.new words.new second.new list.new }
{
    let made = pagetable::format(
        levels, base, tables, base2, tables2, granule, words, second, list,
    );
    formatted(made, answer)
}

// Gives the pool a second region of tables, and answers its setup.
#[unsafe(no_mangle)]
pub extern "C" fn oak_add(
    s: &[u64; 7],
    words: &[u64],
    second: &mut [u64],
    list: &mut [u32],
    base2: u64,
    tables2: u64,
    answer: &mut [u64; 7],
) -> u64
    ensures { Left (add_w (granule_at s.now) (pool_at s.now (words.now ++ second.old) (length words.now) list.old) base2 tables2)
        setup_places result answer.new words.now second.new list.new }
{
    let p = setup_at(s);
    let done = pagetable::add(p, words, second, list, base2, tables2);
    formatted(done, answer)
}

// Map by setup numbers.
fn map_by(
    s: Setup,
    words: &mut [u64],
    second: &mut [u64],
    list: &[u32],
    address: u64,
    frame: u64,
    size: u64,
    attributes: u64,
    answer: &mut [u64; 8],
) -> u64
    ensures { Left (map_w (granule_of s.granule) (pool s (words.old ++ second.old) (length words.old) list.now) address frame size attributes)
        map_places result answer.new words.new second.new list.now }
{
    let done = pagetable::map(s, words, second, list, address, frame, size, attributes);
    mapped(done, answer)
}

// Maps a frame at an address, and answers the setup and how many tables it took.
#[unsafe(no_mangle)]
pub extern "C" fn oak_map(
    s: &[u64; 7],
    words: &mut [u64],
    second: &mut [u64],
    list: &[u32],
    address: u64,
    frame: u64,
    size: u64,
    attributes: u64,
    answer: &mut [u64; 8],
) -> u64
    ensures { Left (map_w (granule_at s.now) (pool_at s.now (words.old ++ second.old) (length words.old) list.now) address frame size attributes)
        map_places result answer.new words.new second.new list.now }
{
    if s[6] == path::KIB4 {
        return map_by(
            setup_of_four(s),
            words,
            second,
            list,
            address,
            frame,
            size,
            attributes,
            answer,
        );
    }
    map_by(
        setup_at(s),
        words,
        second,
        list,
        address,
        frame,
        size,
        attributes,
        answer,
    )
}

// Unmap by setup numbers.
fn unmap_by(
    s: Setup,
    words: &mut [u64],
    second: &mut [u64],
    list: &mut [u32],
    address: u64,
    answer: &mut [u64; 13],
) -> u64
    ensures { Left (unmap_w (granule_of s.granule) (pool s (words.old ++ second.old) (length words.old) list.old) address)
        unmap_places result answer.new words.new second.new list.new }
{
    let done = pagetable::unmap(s, words, second, list, address);
    unmapped(done, answer)
}

// Removes the mapping that starts at an address, and answers the setup, its frame and how many tables came back; with 9 the hole.
#[unsafe(no_mangle)]
pub extern "C" fn oak_unmap(
    s: &[u64; 7],
    words: &mut [u64],
    second: &mut [u64],
    list: &mut [u32],
    address: u64,
    answer: &mut [u64; 13],
) -> u64
    ensures { Left (unmap_w (granule_at s.now) (pool_at s.now (words.old ++ second.old) (length words.old) list.old) address)
        unmap_places result answer.new words.new second.new list.new }
{
    if s[6] == path::KIB4 {
        return unmap_by(setup_of_four(s), words, second, list, address, answer);
    }
    unmap_by(setup_at(s), words, second, list, address, answer)
}

// Maps a range to the frames from a base on, piece by piece or not at all, and answers the setup and how many tables it took.
#[unsafe(no_mangle)]
pub extern "C" fn oak_map_range(
    s: &[u64; 7],
    words: &mut [u64],
    second: &mut [u64],
    list: &[u32],
    address: u64,
    frame: u64,
    len: u64,
    attributes: u64,
    answer: &mut [u64; 8],
) -> u64
    ensures { Left (map_range_w (granule_at s.now) (pool_at s.now (words.old ++ second.old) (length words.old) list.now) address frame len attributes)
        map_places result answer.new words.new second.new list.now }
{
    let p = setup_at(s);
    let done = pagetable::map_range(p, words, second, list, address, frame, len, attributes);
    mapped(done, answer)
}

// Removes every mapping that lies wholly in a range, and answers the setup, how many went and how many tables came back.
#[unsafe(no_mangle)]
pub extern "C" fn oak_unmap_range(
    s: &[u64; 7],
    words: &mut [u64],
    second: &mut [u64],
    list: &mut [u32],
    address: u64,
    len: u64,
    answer: &mut [u64; 9],
) -> u64
    ensures { Left (unmap_range_w (granule_at s.now) (pool_at s.now (words.old ++ second.old) (length words.old) list.old) address len)
        remove_places result answer.new words.new second.new list.new }
{
    let p = setup_at(s);
    let done = pagetable::unmap_range(p, words, second, list, address, len);
    removed(done, answer)
}

// Query by setup numbers.
fn query_by(
    s: Setup,
    words: &[u64],
    second: &[u64],
    list: &[u32],
    address: u64,
    answer: &mut [u64; 6],
) -> u64
    ensures { Told (query_w (granule_of s.granule) (pool s (words.now ++ second.now) (length words.now) list.now) address)
        query_places result answer.new }
{
    found(pagetable::query(s, words, second, list, address), answer)
}

// Answers the mapping that holds an address; with 9 the hole.
#[unsafe(no_mangle)]
pub extern "C" fn oak_query(
    s: &[u64; 7],
    words: &[u64],
    second: &[u64],
    list: &[u32],
    address: u64,
    answer: &mut [u64; 6],
) -> u64
    ensures { Told (query_w (granule_at s.now) (pool_at s.now (words.now ++ second.now) (length words.now) list.now) address)
        query_places result answer.new }
{
    if s[6] == path::KIB4 {
        return query_by(setup_of_four(s), words, second, list, address, answer);
    }
    query_by(setup_at(s), words, second, list, address, answer)
}

// Answers whether the pool keeps every rule, with the counts of its tables and mappings.
#[unsafe(no_mangle)]
pub extern "C" fn oak_audit<'a>(
    s: &[u64; 7],
    words: &'a [u64],
    second: &'a [u64],
    list: &[u32],
    answer: &mut [u64; 2],
) -> u64
    ensures { Told (audit_w (granule_at s.now) (pool_at s.now (words.now ++ second.now) (length words.now) list.now))
        audit_places result answer.new }
{
    let done = pagetable::audit(setup_at(s), words, second, list);
    audited(done, answer)
}

// Writes the mappings from a start on into two runs, as many as fit, and answers how many, and the base of the first left out.
#[unsafe(no_mangle)]
pub extern "C" fn oak_list<'a>(
    s: &[u64; 7],
    words: &'a [u64],
    second: &'a [u64],
    list: &[u32],
    start: u64,
    places: &mut [u64],
    entries: &mut [u64],
    answer: &mut [u64; 3],
) -> u64
    ensures { Wrote (leaves (list_w (granule_at s.now) (pool_at s.now (words.now ++ second.now) (length words.now) list.now)
        start (length places.old) (length entries.old)) places.old entries.old)
        result answer.new places.new entries.new }
{
    let p = setup_at(s);
    let done = pagetable::list(p, words, second, list, start, places, entries);
    listed(done, answer)
}
