// The page table: format, add, query, list, map and unmap of a mapping or of a range, and audit of one pool of tables in lent memory, of one region or two. Each contract
// says the whole answer and all lent memory after the call, for every input (`whole`), and what both are by any ledger that the pool holds (`ledger`).
#![tactic(auto)]

ghost use Rattle.std.specs.Prelude.{◌≡◌, ◌++◌, length};
ghost use Rattle.path.specs.Geometry.{granule_of};
ghost use Rattle.path.specs.Areas.{area_at};
ghost use Rattle.model.specs.Answers.{pool, says_query, says_audit, says_list, list_did};
ghost use Rattle.model.specs.Calls.{format_n, map_w, unmap_w, query_w};
ghost use Rattle.model.specs.Ranges.{map_range_w, unmap_range_w};
ghost use Rattle.model.specs.Adds.{add_w};
ghost use Rattle.model.specs.Audit.{audit_w};
ghost use Rattle.model.specs.Listing.{list_w, leaves};
ghost use Rattle.demand.specs.Demand3.{map_c, unmap_c, map_range_c, unmap_range_c};
ghost use Rattle.demand.specs.Demand3 as question;
ghost use Rattle.demand.specs.Clauses.{ByLedger, FormatByLedger, AddByLedger, AskedByLedger};
ghost use Rattle.pagetable.specs.Hands.{beside, format_left, add_left, map_left, unmap_left, unmap_range_left};

use model::{Counts, Excerpt, Found, Mapped, RangeUnmapped, Refusal, Unmapped};
use path::Setup;

// A refused call hands back, beside the refusal, the setup that it was given, as it was; a refused format the zeros of no pool.
#[derive(Clone, Copy, PartialEq, Eq, Debug)]
pub struct Refused {
    pub refusal: Refusal,
    pub setup: Setup,
}

// What a call did, with a setup beside its refusal.
fn with_setup<T>(done: Result<T, Refusal>, setup: Setup) -> Result<T, Refused>
    ensures { result ≡ beside setup done }
{
    match done {
        Ok(x) => Ok(x),
        Err(refusal) => Err(Refused { refusal, setup }),
    }
}

// Empties the pool: all words 0, every table but the root free. Refused, it answers 1 and zero setup numbers, and changes nothing.
pub fn format(
    levels: u64,
    base: u64,
    tables: u64,
    base2: u64,
    tables2: u64,
    granule: u64,
    words: &mut [u64],
    second: &mut [u64],
    list: &mut [u32],
) -> Result<Setup, Refused>
    ensures whole { format_left result words.new second.new list.new
        ≡ format_n granule levels (area_at base tables base2 tables2) (words.old ++ second.old) (length words.old) list.old }
    ensures ledger { FormatByLedger granule (words.old ++ second.old) (length words.old) list.old levels (area_at base tables base2 tables2)
        (format_left result words.new second.new list.new) }
{
    let formatted = formats::format(
        levels, base, tables, base2, tables2, granule, words, second, list,
    );
    with_setup(formatted, path::no_setup())
}

// Gives a pool of one region a second one, whose tables go to the end of the free numbers; the list that is lent has places for all tables. Refused, it changes
// nothing and hands the setup back.
pub fn add(
    s: Setup,
    words: &[u64],
    second: &mut [u64],
    list: &mut [u32],
    base2: u64,
    tables2: u64,
) -> Result<Setup, Refused>
    ensures whole { add_left result words.now second.new list.new
        ≡ add_w (granule_of s.granule) (pool s (words.now ++ second.old) (length words.now) list.old) base2 tables2 }
    ensures ledger { AddByLedger (granule_of s.granule) (pool s (words.now ++ second.old) (length words.now) list.old) base2 tables2
        (add_left result words.now second.new list.new) }
{
    let added = adds::add(s, words, second, list, base2, tables2);
    with_setup(added, s)
}

// Maps a frame at an address, and answers how many tables it took. Refused, it changes nothing and hands the setup back.
pub fn map(
    s: Setup,
    words: &mut [u64],
    second: &mut [u64],
    list: &[u32],
    address: u64,
    frame: u64,
    size: u64,
    attributes: u64,
) -> Result<Mapped, Refused>
    ensures whole { map_left result words.new second.new list.now
        ≡ map_w (granule_of s.granule) (pool s (words.old ++ second.old) (length words.old) list.now) address frame size attributes }
    ensures ledger { ByLedger (granule_of s.granule) (pool s (words.old ++ second.old) (length words.old) list.now) (map_c address frame size attributes)
        (map_left result words.new second.new list.now) }
{
    let mapped = maps::map(s, words, second, list, address, frame, size, attributes);
    with_setup(mapped, s)
}

// Removes the mapping that starts at an address, and answers its frame and how many tables came back. Refused, it changes nothing and hands the
// setup back; 9 comes with the hole, the largest empty region around the address.
pub fn unmap(
    s: Setup,
    words: &mut [u64],
    second: &mut [u64],
    list: &mut [u32],
    address: u64,
) -> Result<Unmapped, Refused>
    ensures whole { unmap_left result words.new second.new list.new
        ≡ unmap_w (granule_of s.granule) (pool s (words.old ++ second.old) (length words.old) list.old) address }
    ensures ledger { ByLedger (granule_of s.granule) (pool s (words.old ++ second.old) (length words.old) list.old) (unmap_c address)
        (unmap_left result words.new second.new list.new) }
{
    let unmapped = unmaps::unmap(s, words, second, list, address);
    with_setup(unmapped, s)
}

// Maps a range of `len` bytes to the frames from `frame` on, each piece as large as it can be, and answers how many tables it took: the pieces one by one, or none of
// them. Refused, it changes nothing and hands the setup back.
pub fn map_range(
    s: Setup,
    words: &mut [u64],
    second: &mut [u64],
    list: &[u32],
    address: u64,
    frame: u64,
    len: u64,
    attributes: u64,
) -> Result<Mapped, Refused>
    ensures whole { map_left result words.new second.new list.now
        ≡ map_range_w (granule_of s.granule) (pool s (words.old ++ second.old) (length words.old) list.now) address frame len attributes }
    ensures ledger { ByLedger (granule_of s.granule) (pool s (words.old ++ second.old) (length words.old) list.now) (map_range_c address frame len attributes)
        (map_left result words.new second.new list.now) }
{
    let all_mapped = rangemaps::map_range(s, words, second, list, address, frame, len, attributes);
    with_setup(all_mapped, s)
}

// Removes every mapping that lies wholly in a range of `len` bytes, and answers how many went and how many tables came back. Refused, it changes nothing and hands the
// setup back.
pub fn unmap_range(
    s: Setup,
    words: &mut [u64],
    second: &mut [u64],
    list: &mut [u32],
    address: u64,
    len: u64,
) -> Result<RangeUnmapped, Refused>
    ensures whole { unmap_range_left result words.new second.new list.new
        ≡ unmap_range_w (granule_of s.granule) (pool s (words.old ++ second.old) (length words.old) list.old) address len }
    ensures ledger { ByLedger (granule_of s.granule) (pool s (words.old ++ second.old) (length words.old) list.old) (unmap_range_c address len)
        (unmap_range_left result words.new second.new list.new) }
{
    let all_unmapped = rangeunmaps::unmap_range(s, words, second, list, address, len);
    with_setup(all_unmapped, s)
}

// Answers the mapping that holds an address, or 9 and the hole around it.
pub fn query(
    s: Setup,
    words: &[u64],
    second: &[u64],
    list: &[u32],
    address: u64,
) -> Result<Found, Refusal>
    ensures whole { says_query result ≡ query_w (granule_of s.granule) (pool s (words.now ++ second.now) (length words.now) list.now) address }
    ensures ledger { AskedByLedger (granule_of s.granule) (pool s (words.now ++ second.now) (length words.now) list.now) (question.query address) (says_query result) }
{
    query::query(s, words, second, list, address)
}

// Answers whether the pool keeps every rule, with the counts of its tables and mappings.
pub fn audit<'a>(
    s: Setup,
    words: &'a [u64],
    second: &'a [u64],
    list: &[u32],
) -> Result<Counts, Refusal>
    ensures whole { says_audit result ≡ audit_w (granule_of s.granule) (pool s (words.now ++ second.now) (length words.now) list.now) }
    ensures ledger { AskedByLedger (granule_of s.granule) (pool s (words.now ++ second.now) (length words.now) list.now) question.audit (says_audit result) }
{
    audit::audit(s, words, second, list)
}

// Writes the mappings with base at or above a start into two runs of one length (not one of pairs: so the C interface lends them), in rising order and as many as fit: address plus power of two of the size, and entry
// word. Answers how many, and the base of the first left out, or that none is. Refused, both runs stay.
pub fn list<'a>(
    s: Setup,
    words: &'a [u64],
    second: &'a [u64],
    list: &[u32],
    start: u64,
    places: &mut [u64],
    entries: &mut [u64],
) -> Result<Excerpt, Refusal>
    ensures whole { list_did result places.new entries.new
        ≡ leaves (list_w (granule_of s.granule) (pool s (words.now ++ second.now) (length words.now) list.now) start (length places.old) (length entries.old))
        places.old entries.old }
    ensures ledger { AskedByLedger (granule_of s.granule) (pool s (words.now ++ second.now) (length words.now) list.now)
        (question.list_from start (length places.old) (length entries.old)) (says_list result places.new entries.new) }
{
    lists::list(s, words, second, list, start, places, entries)
}
