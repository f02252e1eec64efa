// The words of one table in the lent memory, and whether any is in use. The two runs are as in `pool`.
#![tactic(auto)]

ghost use Rattle.std.specs.Prelude.{◌≡◌, false, ◌++◌, ℕ, ◌+◌, ◌-◌, ◌*◌, ◌%◌, ◌≤◌, ◌<◌, eqb, length, get_or, set};
ghost use Rattle.laws.specs.Lists.{part, all_zero};
ghost use Rattle.path.specs.Geometry.{granule_of, entries};
ghost use Rattle.model.specs.Walk.{slot};
ghost use Rattle.model.specs.Writes.{only_entry};

// The words that the empty test reads at a step; a table has a multiple of them.
const STEP: usize = 8;

// So many words from a place of one run on, as far as there are such.
fn words_from(words: &[u64], start: usize, count: usize) -> &[u64]
    ensures { result.now ≡ part words.now start count }
{
    let n = words.len();
    if start >= n {
        return &words[n..n];
    }
    if n - start < count {
        return &words[start..n];
    }
    let past = start + count;
    &words[start..past]
}

// The words of table t: the part of whichever run holds it, as far as there are such.
pub fn table_part<'a>(granule: u64, words: &'a [u64], second: &'a [u64], t: u32) -> &'a [u64]
    ensures { (k : ℕ) → length words.now ≡ entries (granule_of granule) * k
        → result.now ≡ part (words.now ++ second.now) (slot (granule_of granule) t 0) (entries (granule_of granule)) }
{
    let n = words.len();
    let start = pool::entry_place(granule, t, 0);
    let count = path::entries_of(granule) as usize;
    if start < n {
        return words_from(words, start, count);
    }
    let at = start - n;
    words_from(second, at, count)
}

// Whether any of the words of a step is in use.
fn any_in_step(w: &[u64], i: usize) -> bool
    requires { i + 8 ≤ length w.now }
    ensures { result ≡ false → (k : ℕ) → k < 8 → get_or w.now (i + k) 0 ≡ 0 }
{
    let low = w[i] | w[i + 1] | w[i + 2] | w[i + 3];
    let high = w[i + 4] | w[i + 5] | w[i + 6] | w[i + 7];
    (low | high) != 0
}

// Whether a word is 0, or the one to leave out.
fn zero_or_out(w: &[u64], i: usize, but: usize) -> bool
    requires { i < length w.now }
    ensures { result ≡ eqb (get_or (set w.now but 0) i 0) 0 }
{
    i == but || w[i] == 0
}

// Whether the words from one place to another are 0, but for the one to leave out: word by word.
fn zeros_between(w: &[u64], from: usize, to: usize, but: usize) -> bool
    requires { (from ≤ to) × (to ≤ length w.now) }
    ensures { result ≡ all_zero (part (set w.now but 0) from (to - from)) }
{
    (from..to).all(|i| zero_or_out(w, i, but))
}

// Of the steps from one place to another, the first that has a word in use, by its place; the end where none has.
fn used_step(w: &[u64], from: usize, to: usize) -> usize
    requires { (from ≤ to) × ((to ≤ length w.now) × ((to - from) % 8 ≡ 0)) }
    ensures { ((from ≤ result) × ((result ≤ to) × ((to - result) % 8 ≡ 0))) × ((k : ℕ) → from ≤ k → k < result → get_or w.now k 0 ≡ 0) }
{
    let mut at = from;
    // As a `for` it misses the speed bar: by `step_by` it takes twice as long, and by `chunks_exact` up to a tenth longer.
    while at < to {
        if any_in_step(w, at) {
            return at;
        }
        at += STEP;
    }
    to
}

// Whether all words are 0 but for the one to leave out. It goes by steps to the first that has a word in use; where that word is the one to leave out, it goes
// on behind that step, and ends at the next such step.
pub fn zeros_but(w: &[u64], but: usize) -> bool
    ensures { result ≡ all_zero (set w.now but 0) }
{
    let n = w.len();
    let last = n - n % STEP;
    let at = used_step(w, 0, last);
    if at >= last {
        return zeros_between(w, at, n, but);
    }
    let past = at + STEP;
    if !zeros_between(w, at, past, but) {
        return false;
    }
    let next = used_step(w, past, last);
    zeros_between(w, next, n, but)
}

// Whether all words of table t are 0.
pub fn is_table_empty<'a>(granule: u64, words: &'a [u64], second: &'a [u64], t: u32) -> bool
    ensures { (k : ℕ) → length words.now ≡ entries (granule_of granule) * k
        → result ≡ all_zero (part (words.now ++ second.now) (slot (granule_of granule) t 0) (entries (granule_of granule))) }
{
    let none = path::entries_of(granule) as usize;
    zeros_but(table_part(granule, words, second, t), none)
}

// The entry that stands beside entry i in memory.
fn beside(granule: u64, i: u16) -> u16
    ensures { (result < entries (granule_of granule)) × (result ≡ i → ⊥) }
{
    let k = i as u64;
    if k % 2 == 0 {
        return path::index_in(granule, k + 1);
    }
    path::index_in(granule, k - 1)
}

// Whether table t has no entry but entry i. Where it has another, that is mostly the one beside or the first, so these two are read before the steps.
pub fn only_entry<'a>(granule: u64, words: &'a [u64], second: &'a [u64], t: u32, i: u16) -> bool
    ensures { (k : ℕ) → length words.now ≡ entries (granule_of granule) * k
        → result ≡ only_entry (granule_of granule) (words.now ++ second.now) t i }
{
    if pool::word(
        words,
        second,
        pool::entry_place(granule, t, beside(granule, i)),
    ) != 0
    {
        return false;
    }
    if i > 0 && pool::word(words, second, pool::entry_place(granule, t, 0)) != 0 {
        return false;
    }
    zeros_but(table_part(granule, words, second, t), i as usize)
}
