// The single writes of a call: a step is one of them, and is carried out on the lent memory.
#![tactic(auto)]

ghost use Rattle.std.specs.Prelude.{◌≡◌, List, ◌++◌, ℕ, ◌*◌, length};
ghost use Rattle.path.specs.Geometry.{Granule, granule_of, entries};
ghost use Rattle.model.specs.Writes.{memory, perform};
ghost use Rattle.plans.specs.Plan.{write_of};

// A single write: a word, all words of a table to 0, or a place of the free list.
#[derive(Clone, Copy)]
pub enum Step {
    Store { place: usize, value: u64 },
    Wipe { table: u32 },
    Give { place: usize, table: u32 },
}

// A step's write to the words, of two runs of which the first is of whole tables.
pub fn step_words(granule: u64, words: &mut [u64], second: &mut [u64], s: Step)
    ensures { (k : ℕ) → length words.old ≡ entries (granule_of granule) * k → (l : List ℕ)
        → words.new ++ second.new ≡ (perform (granule_of granule) (write_of s) (memory (words.old ++ second.old) l)).words }
{
    match s {
        Step::Store { place, value } => pool::put(words, second, place, value),
        Step::Wipe { table } => pool::wipe(granule, words, second, table),
        Step::Give { .. } => {}
    }
}

// A step's write to the free list.
fn step_list(list: &mut [u32], s: Step)
    ensures { (G : Granule) (w : List ℕ) → list.new ≡ (perform G (write_of s) (memory w list.old)).list }
{
    match s {
        Step::Give { place, table } => pool::give(list, place, table),
        Step::Store { .. } | Step::Wipe { .. } => {}
    }
}

// A step's write, to the words or to the free list.
pub fn step_all(granule: u64, words: &mut [u64], second: &mut [u64], list: &mut [u32], s: Step)
    ensures { (k : ℕ) → length words.old ≡ entries (granule_of granule) * k
        → memory (words.new ++ second.new) list.new
        ≡ perform (granule_of granule) (write_of s) (memory (words.old ++ second.old) list.old) }
{
    step_words(granule, words, second, s);
    step_list(list, s);
}
