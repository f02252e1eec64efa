// Format.
#![tactic(auto)]

ghost use Rattle.std.specs.Prelude.{◌≡◌, ◌++◌, ◌≤◌, length};
ghost use Rattle.laws.specs.Lists.{down};
ghost use Rattle.path.specs.Areas.{area_at};
ghost use Rattle.path.specs.Numbers.{most_tables};
ghost use Rattle.model.specs.Answers.{format_did};
ghost use Rattle.model.specs.Calls.{format_n};

use model::Refusal;
use path::Setup;

// Place i of the list becomes its length - 1 - i.
// An add's `append` is like it: one function for both would be public and ask its caller for bounds, which no public function here does.
fn count_down(list: &mut [u32])
    requires { length list.old ≤ most_tables }
    ensures { list.new ≡ down (length list.old) }
{
    let n = list.len();
    for (i, number) in list.iter_mut().enumerate() {
        *number = (n - 1 - i) as u32;
    }
}

// An empty tree: all words 0, and every table but the root free. Or refusal 1.
pub fn format(
    levels: u64,
    base: u64,
    tables: u64,
    base2: u64,
    tables2: u64,
    granule: u64,
    words: &mut [u64],
    second: &mut [u64],
    list: &mut [u32],
) -> Result<Setup, Refusal>
    ensures { format_did result words.new second.new list.new
        ≡ format_n granule levels (area_at base tables base2 tables2) (words.old ++ second.old) (length words.old) list.old }
{
    if !path::good_granule(granule) {
        return Err(Refusal::Setup);
    }
    if !setups::good_numbers(
        granule,
        levels,
        base,
        tables,
        base2,
        tables2,
        words.len(),
        second.len(),
        list.len(),
    ) {
        return Err(Refusal::Setup);
    }
    pool::clear(words);
    pool::clear(second);
    count_down(list);
    let free = tables + tables2 - 1;
    Ok(Setup {
        levels,
        base,
        tables,
        free,
        base2,
        tables2,
        granule,
    })
}
