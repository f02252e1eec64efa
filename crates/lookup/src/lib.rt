// The walk down the tables.
#![tactic(auto)]

ghost use Rattle.std.specs.Prelude.{◌≡◌, ◌++◌, ◌≤◌, ◌<◌, ◌^◌, length, IfOk};
ghost use Rattle.path.specs.Geometry.{granule_of, size_at, at_level};
ghost use Rattle.path.specs.Areas.{area_of};
ghost use Rattle.path.specs.Paths.{base_at, path_of};
ghost use Rattle.model.specs.Answers.{says_refusal, hole};
ghost use Rattle.model.specs.Walk.{slot, at_height, stop, walk_from};
ghost use Rattle.lookup.specs.Walks.{walk_of, walk_by};
ghost use Rattle.lookup.specs.Ends.{end_of, can_walk, walk_if};

use entry::Entry;
use links::Tree;
use model::{Refusal, Walked};
use path::Setup;

// A walk that ends here.
fn ended(entry: Entry, left: usize, tables: [u32; 4]) -> Walked
    ensures { result ≡ stop entry left tables }
{
    Walked {
        entry,
        left,
        tables,
    }
}

// From table t, whose entries have this height, down to the target height or to an entry that is not a table. `above` holds the tables above t.
fn descend(
    s: Setup,
    words: &[u64],
    second: &[u64],
    target: usize,
    path: [u16; 4],
    height: usize,
    above: [u32; 4],
    t: u32,
) -> Walked
    requires { (height ≤ 3) × ((s.tables < 2 ^ 16) × (s.tables2 < 2 ^ 16)) }
    ensures { result ≡ walk_from (granule_of s.granule) (words.now ++ second.now) (area_of s) target path height above t }
{
    let at = 3 - height;
    let i = path[at];
    let mut way = above;
    way[at] = t;
    let w = pool::word(words, second, pool::entry_place(s.granule, t, i));
    match Tree::of(s).read_word(w, height) {
        Entry::Table(c) => {
            if height <= target {
                return ended(Entry::Table(c), height, way);
            }
            let below = height - 1;
            if pool::among_four(way, c) {
                return ended(Entry::Damaged, below, way);
            }
            descend(s, words, second, target, path, below, way, c)
        }
        e => ended(e, height, way),
    }
}

// From the root, whose entries have the height `top`, down to the target height or to an entry that is not a table. No tree is higher than 3.
fn walk(
    s: Setup,
    words: &[u64],
    second: &[u64],
    target: usize,
    path: [u16; 4],
    top: usize,
) -> Walked
    requires { (s.tables < 2 ^ 16) × (s.tables2 < 2 ^ 16) }
    ensures { result ≡ walk_of (granule_of s.granule) (words.now ++ second.now) (area_of s) target path top }
{
    let none = [0u32; 4];
    if top > 3 {
        return ended(Entry::Damaged, top, none);
    }
    descend(s, words, second, target, path, top, none, 0)
}

// The walk to a height for an address. Setup numbers that no pool has are damage.
pub fn walk_to(s: Setup, words: &[u64], second: &[u64], target: usize, address: u64) -> Walked
    ensures { result ≡ walk_by (granule_of s.granule) s (words.now ++ second.now) target address }
{
    let levels = s.levels;
    let tables = s.tables;
    let tables2 = s.tables2;
    if levels < 1 || tables > path::MOST_TABLES || tables2 > path::MOST_TABLES - tables {
        return ended(Entry::Damaged, 0, [0; 4]);
    }
    let top = (levels - 1) as usize;
    walk(
        s,
        words,
        second,
        target,
        indices::path_of(s.granule, address),
        top,
    )
}

// Where a walk ended: the place of the last entry among the words, and the entry's height.
#[derive(Clone, Copy, PartialEq, Eq, Debug)]
pub struct Reached {
    pub place: usize,
    pub height: usize,
}

// A walk that came to a table again, whose entries have this height, or that could not begin.
#[derive(Clone, Copy, PartialEq, Eq, Debug)]
pub struct Lost {
    pub height: usize,
}

// Whether `reach` walks by these numbers.
fn walkable(s: Setup, words: u64, target: usize) -> bool
    ensures { result ≡ can_walk (granule_of s.granule) s words target }
{
    if s.base > path::PHYSICAL {
        return false;
    }
    if !path::good_levels(s.granule, s.levels) {
        return false;
    }
    if target as u64 >= s.levels {
        return false;
    }
    if s.tables > path::MOST_TABLES {
        return false;
    }
    if s.tables2 > path::MOST_TABLES - s.tables {
        return false;
    }
    let tables = s.tables + s.tables2;
    if tables < 1 {
        return false;
    }
    words == path::entries_of(s.granule) * tables
}

// The same walk as a loop over the heights, for the calls whose speed shows. The tables on the way go into `way`. The loop begins above every tree, so that its turns
// are as many for each; a turn above this tree's root does nothing.
pub fn reach(
    s: Setup,
    words: &[u64],
    second: &[u64],
    target: usize,
    address: u64,
    way: &mut [u32; 4],
) -> Result<Reached, Lost>
    ensures end { end_of (granule_of s.granule) (words.now ++ second.now) (area_of s) result way.new
        ≡ walk_if (granule_of s.granule) s (words.now ++ second.now) target address }
    ensures place { IfOk result (λ r. (r.height ≤ 3) × (r.place < length (words.now ++ second.now))
        × (r.place ≡ slot (granule_of s.granule) (at_height way.new r.height) (at_height (path_of (granule_of s.granule) address) r.height))) }
{
    let all = (words.len() + second.len()) as u64;
    *way = [0, 0, 0, 0];
    if !walkable(s, all, target) {
        return Err(Lost { height: 0 });
    }
    let tree = Tree::of(s);
    let mut t: u32 = 0;
    let mut up: u32 = 0;
    for h in (target..4).rev() {
        if (h as u64) < s.levels {
            way[3 - h] = t;
            let i = indices::index_at(s.granule, address, h);
            let place = pool::entry_place(s.granule, t, i);
            let end = Reached { place, height: h };
            if h == target {
                return Ok(end);
            }
            let w = pool::word(words, second, place);
            let Some(child) = tree.child_in(w) else {
                return Ok(end);
            };
            if child == t || child == up {
                return Err(Lost { height: h - 1 });
            }
            up = t;
            t = child;
        }
    }
    Err(Lost { height: 0 })
}

// The hole around an address at an empty entry of this height; one of zeros where no level has it.
pub fn hole_at(granule: u64, address: u64, height: usize) -> Refusal
    ensures { says_refusal result ≡ hole (at_level (granule_of granule) height (base_at (granule_of granule) address height)) (at_level (granule_of granule) height (size_at (granule_of granule) height)) }
{
    Refusal::Hole {
        base: indices::base_at(granule, address, height),
        size: indices::size_at(granule, height),
    }
}
