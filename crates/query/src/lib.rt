// Query.
#![tactic(auto)]

ghost use Rattle.std.specs.Prelude.{◌≡◌, ◌++◌, ◌-◌, ◌≤◌, ◌<◌, ◌^◌, length};
ghost use Rattle.path.specs.Geometry.{granule_of};
ghost use Rattle.path.specs.Areas.{area_of};
ghost use Rattle.path.specs.Paths.{path_of};
ghost use Rattle.entry.specs.Words.{frame_at};
ghost use Rattle.model.specs.Answers.{says_query, pool};
ghost use Rattle.model.specs.Walk.{no_way, walk_from};
ghost use Rattle.model.specs.Calls.{found_at, query_w};
ghost use Rattle.query.specs.Asks.{ends_at};

use entry::Entry;
use links::Tree;
use model::{Found, Refusal};
use path::Setup;

// What a word that names no table answers of an address at a height: the mapping, or a refusal: 8, or 9 with the hole around the address.
fn frame_told(granule: u64, w: u64, height: usize, address: u64) -> Result<Found, Refusal>
    requires { height < (granule_of granule).most }
    ensures { says_query result ≡ found_at (granule_of granule) address (frame_at (granule_of granule) height w) height }
{
    match entry::frame_at(granule, w, height) {
        Entry::Frame {
            base: frame,
            attributes,
        } => Ok(Found {
            base: indices::base_at(granule, address, height),
            frame,
            size: indices::size_at(granule, height),
            attributes,
        }),
        Entry::Empty => Err(lookup::hole_at(granule, address, height)),
        Entry::Table(_) | Entry::Damaged => Err(Refusal::Damage),
    }
}

// What the walk to the last level answers of an address, as a loop over the heights: the mapping, or a refusal: 8, or 9 with the hole around the address.
// The loop begins above every tree, so that its turns are as many for each; a turn above this tree's root does nothing.
fn ask(s: Setup, words: &[u64], second: &[u64], address: u64) -> Result<Found, Refusal>
    requires { (1 ≤ s.levels) × ((s.levels ≤ (granule_of s.granule).most) × ((1 ≤ s.tables) × ((s.tables < 2 ^ 16) × (s.tables2 < 2 ^ 16)))) }
    ensures { says_query result
        ≡ ends_at (granule_of s.granule) address (walk_from (granule_of s.granule) (words.now ++ second.now) (area_of s) 0 (path_of (granule_of s.granule) address) (s.levels - 1) no_way 0) }
{
    let tree = Tree::of(s);
    let path = indices::path_of(s.granule, address);
    let mut way = [0u32; 4];
    let mut t: u32 = 0;
    for h in (0..4).rev() {
        if (h as u64) < s.levels {
            let k = 3 - h;
            let w = pool::word(words, second, pool::entry_place(s.granule, t, path[k]));
            if w == 0 {
                return Err(lookup::hole_at(s.granule, address, h));
            }
            if h == 0 {
                return frame_told(s.granule, w, h, address);
            }
            let Some(child) = tree.child_in(w) else {
                return frame_told(s.granule, w, h, address);
            };
            way[k] = t;
            if pool::among_four(way, child) {
                return Err(Refusal::Damage);
            }
            t = child;
        }
    }
    Err(Refusal::Damage)
}

// The mapping that holds an address, or a refusal: 1, 4, 8, or 9 with the hole around the address.
pub fn query(
    s: Setup,
    words: &[u64],
    second: &[u64],
    list: &[u32],
    address: u64,
) -> Result<Found, Refusal>
    ensures { says_query result ≡ query_w (granule_of s.granule) (pool s (words.now ++ second.now) (length words.now) list.now) address }
{
    if !setups::good_setup(s, words.len(), second.len(), list.len()) {
        return Err(Refusal::Setup);
    }
    if !path::in_space(s.granule, s.levels, address, 1) {
        return Err(Refusal::Address);
    }
    ask(s, words, second, address)
}
