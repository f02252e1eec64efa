// The stage 2 walk of the Arm hardware over a pool's words, from the bit fields of the manual; memory outside the pool's regions reads as 0.
// A granule is a number: 16384 is that of 16 KiB pages, and every other number is read as that of 4 KiB pages.
// The walk takes no size and no index from the crates whose words it reads, since it is there to judge them.
#![tactic(auto)]

ghost use Rattle.std.specs.Prelude.{◌≡◌, ◌+◌, ◌*◌, ◌/◌, ◌^◌, ◌≤◌, leb};
ghost use Rattle.path.specs.Geometry.{granule_of, entries};
ghost use Rattle.hardware.specs.Machine.{shift, index_bits, leaf, largest_block, step_by, walk};
ghost use Rattle.armwalk.specs.Runs.{within, memory_of, says_step, says_seen, stage2_of};

// The number of the granule of 16 KiB.
const KIB16: u64 = 16384;

// Output addresses are below this.
const PHYSICAL: u64 = 0x1_0000_0000_0000;

// What an address is translated to: the output address, and the word of the page or block, which says the rest.
#[derive(Clone, Copy, PartialEq, Eq, Debug)]
pub struct Hit {
    pub address: u64,
    pub word: u64,
}

// What a word makes of a walk, where it is no fault: a page or block, or the address of the next table.
#[derive(Clone, Copy)]
enum Step {
    Leaf(Hit),
    Next(u64),
}

// The bytes that a word of a height stands for.
fn size_at(granule: u64, height: u64) -> u64
    requires { height ≤ 3 }
    ensures { result ≡ 2 ^ shift (granule_of granule) height }
{
    match (granule, height) {
        (KIB16, 0) => 0x4000,
        (KIB16, 1) => 0x200_0000,
        (KIB16, 2) => 0x10_0000_0000,
        (KIB16, _) => 0x8000_0000_0000,
        (_, 0) => 0x1000,
        (_, 1) => 0x20_0000,
        (_, 2) => 0x4000_0000,
        _ => 0x80_0000_0000,
    }
}

// The words of a table.
fn words_in(granule: u64) -> u64
    ensures { result ≡ entries (granule_of granule) }
{
    if granule == KIB16 { 2048 } else { 512 }
}

// The index of an address among the words of a height: eleven bits with 16 KiB, and nine with 4 KiB.
fn index_at(granule: u64, address: u64, height: u64) -> u64
    requires { height ≤ 3 }
    ensures { result ≡ index_bits (granule_of granule) address height }
{
    address / size_at(granule, height) % words_in(granule)
}

// Whether an address is past what a root stands for, whose words have this height.
fn is_past(granule: u64, address: u64, height: u64) -> bool
    requires { height ≤ 3 }
    ensures { result ≡ leb (entries (granule_of granule)) (address / 2 ^ shift (granule_of granule) height) }
{
    address / size_at(granule, height) >= words_in(granule)
}

// The most levels of a tree.
fn most_levels(granule: u64) -> u64
    ensures { result ≡ (granule_of granule).most }
{
    if granule == KIB16 { 3 } else { 4 }
}

// The greatest height of a block.
fn largest_block(granule: u64) -> u64
    ensures { result ≡ largest_block (granule_of granule) }
{
    if granule == KIB16 { 1 } else { 2 }
}

// Whether an address is that of one of so many words from a base on.
fn is_within(base: u64, words: usize, at: u64) -> bool
    ensures { result ≡ within base words at }
{
    if at < base {
        return false;
    }
    (at - base) / 8 < words as u64
}

// The word at an address: of the first run, which stands at a base, or else of the second.
fn word_at(words: &[u64], second: &[u64], base: u64, base2: u64, at: u64) -> u64
    ensures { result ≡ memory_of base words.now base2 second.now at }
{
    let n = words.len();
    if is_within(base, n, at) {
        return pool::word(words, second, ((at - base) / 8) as usize);
    }
    if at < base2 {
        return 0;
    }
    pool::word(words, second, n + ((at - base2) / 8) as usize)
}

// A page or a block.
fn leaf_step(granule: u64, address: u64, height: u64, w: u64) -> Option<Step>
    requires { height ≤ 3 }
    ensures { says_step result ≡ leaf (granule_of granule) address height w }
{
    if w / 1024 % 2 != 1 {
        return None;
    }
    let size = size_at(granule, height);
    let frame = w % PHYSICAL - w % size;
    Some(Step::Leaf(Hit {
        address: frame + address % size,
        word: w,
    }))
}

// Any word.
fn step_by(granule: u64, address: u64, height: u64, w: u64) -> Option<Step>
    requires { height ≤ 3 }
    ensures { says_step result ≡ step_by (granule_of granule) address height w }
{
    if w % 2 != 1 {
        return None;
    }
    if height == 0 {
        if w / 2 % 2 != 1 {
            return None;
        }
        return leaf_step(granule, address, height, w);
    }
    if w / 2 % 2 == 1 {
        return Some(Step::Next(w % PHYSICAL - w % size_at(granule, 0)));
    }
    if height > largest_block(granule) {
        return None;
    }
    leaf_step(granule, address, height, w)
}

// The walk from the table at an address, whose words have this height.
fn descend(
    granule: u64,
    words: &[u64],
    second: &[u64],
    base: u64,
    base2: u64,
    address: u64,
    height: u64,
    table: u64,
) -> Option<Hit>
    requires { (height ≤ 3) × (table ≤ 2 ^ 48) }
    ensures { says_seen result ≡ walk (granule_of granule) (λ _. memory_of base words.now base2 second.now) address height table }
{
    let index = index_at(granule, address, height);
    let w = word_at(words, second, base, base2, table + 8 * index);
    match step_by(granule, address, height, w)? {
        Step::Leaf(hit) => Some(hit),
        Step::Next(t) => {
            if height == 0 {
                return None;
            }
            descend(granule, words, second, base, base2, address, height - 1, t)
        }
    }
}

// The translation of an address. Levels are three, or with 4 KiB four, and the root stands below 2^48; else nothing is translated.
pub fn stage2(
    granule: u64,
    words: &[u64],
    second: &[u64],
    base: u64,
    base2: u64,
    levels: u64,
    address: u64,
) -> Option<Hit>
    ensures { says_seen result ≡ stage2_of (granule_of granule) words.now second.now base base2 levels address }
{
    if levels < 3 {
        return None;
    }
    if levels > most_levels(granule) {
        return None;
    }
    if base > PHYSICAL {
        return None;
    }
    let height = levels - 1;
    if is_past(granule, address, height) {
        return None;
    }
    descend(granule, words, second, base, base2, address, height, base)
}
