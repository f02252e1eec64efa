// The adding call: a second region of tables for a pool that has one.
#![tactic(auto)]

ghost use Rattle.std.specs.Prelude.{◌≡◌, ◌++◌, ◌+◌, ◌≤◌, length};
ghost use Rattle.path.specs.Geometry.{granule_of};
ghost use Rattle.path.specs.Numbers.{most_tables};
ghost use Rattle.model.specs.Answers.{pool, add_did};
ghost use Rattle.model.specs.Adds.{appended, add_w};

use model::Refusal;
use path::Setup;

// The m places of the list from place f on get the numbers from n + m - 1 down to n.
// A format's `count_down` is like it: one function for both would be public and ask its caller for bounds, which no public function here does.
fn append(list: &mut [u32], n: usize, m: usize, f: usize)
    requires { (n + m ≤ most_tables) × (f + m ≤ length list.old) }
    ensures { list.new ≡ appended n m f list.old }
{
    for (i, number) in list[f..f + m].iter_mut().enumerate() {
        *number = (n + m - 1 - i) as u32;
    }
}

// A second region, of so many tables from an address on: its tables go to the end of the free numbers, highest first, and the second run becomes 0. Or a
// refusal: 1, 8 for a tree that is not sound as it stands, 11 where a frame shares a byte with the region.
pub fn add<'a>(
    s: Setup,
    words: &'a [u64],
    second: &'a mut [u64],
    list: &mut [u32],
    base2: u64,
    tables2: u64,
) -> Result<Setup, Refusal>
    ensures { add_did s result words.now second.new list.new
        ≡ add_w (granule_of s.granule) (pool s (words.now ++ second.old) (length words.now) list.old) base2 tables2 }
{
    audit::add_tests(s, words, &second[..], list.len(), base2, tables2)?;
    pool::clear(second);
    append(list, s.tables as usize, tables2 as usize, s.free as usize);
    let free = s.free + tables2;
    Ok(Setup {
        free,
        base2,
        tables2,
        ..s
    })
}
