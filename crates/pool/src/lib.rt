// The lent memory: the words of the tables, in two runs, and the places of the free list. What is past the end reads as 0 and is not written. Contracts
// speak of the two runs put together, in which the tables stand one after the other; that a table is in one of the runs is known where the first is of whole tables.
// The two runs stay two parameters: a struct that holds a `&mut` asks of each function that takes it a clause for each field, that it keeps its reference, and a
// struct for readers alone would make two forms of one thing. Neither is plainer.
#![tactic(auto)]

ghost use Rattle.std.specs.Prelude.{◌≡◌, ◌++◌, ℕ, ◌*◌, length, get_or, set, replicate};
ghost use Rattle.laws.specs.Lists.{zeroed, among};
ghost use Rattle.path.specs.Geometry.{granule_of, entries};
ghost use Rattle.model.specs.Walk.{slot};

// The place of entry i of table t among the words.
pub fn entry_place(granule: u64, t: u32, i: u16) -> usize
    ensures { result ≡ slot (granule_of granule) t i }
{
    (path::entries_of(granule) as usize) * (t as usize) + (i as usize)
}

// The word at a place of the two runs put together.
pub fn word(words: &[u64], second: &[u64], i: usize) -> u64
    ensures { result ≡ get_or (words.now ++ second.now) i 0 }
{
    let n = words.len();
    if i < n {
        return words[i];
    }
    let k = i - n;
    if k < second.len() { second[k] } else { 0 }
}

// The word at a place of the two runs put together becomes v.
pub fn put(words: &mut [u64], second: &mut [u64], i: usize, v: u64)
    ensures { words.new ++ second.new ≡ set (words.old ++ second.old) i v }
{
    let n = words.len();
    if i < n {
        words[i] = v;
        return;
    }
    let k = i - n;
    if k < second.len() {
        second[k] = v;
    }
}

// The number at a place of the free list.
pub fn place(list: &[u32], i: usize) -> u32
    ensures { result ≡ get_or list.now i 0 }
{
    if i < list.len() { list[i] } else { 0 }
}

// The number at a place of the free list becomes t.
pub fn give(list: &mut [u32], i: usize, t: u32)
    ensures { list.new ≡ set list.old i t }
{
    if i < list.len() {
        list[i] = t;
    }
}

// All words become 0.
pub fn clear(words: &mut [u64])
    ensures { words.new ≡ replicate (length words.old) 0 }
{
    words.fill(0);
}

// So many words from a place of one run on become 0, where there are so many.
fn wipe_from(words: &mut [u64], start: usize, count: usize)
    ensures { words.new ≡ zeroed words.old start count }
{
    let n = words.len();
    if start <= n && count <= n - start {
        let end = start + count;
        clear(&mut words[start..end]);
    }
}

// All words of table t become 0, in the run that holds it.
pub fn wipe(granule: u64, words: &mut [u64], second: &mut [u64], t: u32)
    ensures { (k : ℕ) → length words.old ≡ entries (granule_of granule) * k
        → words.new ++ second.new ≡ zeroed (words.old ++ second.old) (slot (granule_of granule) t 0) (entries (granule_of granule)) }
{
    let n = words.len();
    let start = entry_place(granule, t, 0);
    let count = path::entries_of(granule) as usize;
    if start < n {
        wipe_from(words, start, count);
        return;
    }
    let at = start - n;
    wipe_from(second, at, count);
}

// Whether c is among four tables.
pub fn among_four(tables: [u32; 4], c: u32) -> bool
    ensures { result ≡ among c tables }
{
    tables.contains(&c)
}
