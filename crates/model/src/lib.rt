// What the calls answer. What they do is in specs/.
#![tactic(auto)]

ghost use Rattle.std.specs.Prelude.{◌≡◌};
ghost use Rattle.model.specs.Answers.{number_of};

use entry::Entry;
use path::Setup;

// Where a walk ended: what the entry there says, the levels left below it, and the tables on the way, table by table: the one whose entries have
// height h at place 3 - h.
#[derive(Clone, Copy)]
pub struct Walked {
    pub entry: Entry,
    pub left: usize,
    pub tables: [u32; 4],
}

// Why a call refuses. Where nothing is mapped the refusal comes with the hole, the empty region around the address.
#[derive(Clone, Copy, PartialEq, Eq, Debug)]
pub enum Refusal {
    Setup,
    Size,
    Attributes,
    Address,
    Alignment,
    Overlap,
    Tables,
    Damage,
    Hole { base: u64, size: u64 },
    Inside,
    Pool,
}

impl Refusal {
    // The number that the documents give a refusal.
    pub fn number(self) -> u64
        ensures { result ≡ number_of self }
    {
        match self {
            Refusal::Setup => 1,
            Refusal::Size => 2,
            Refusal::Attributes => 3,
            Refusal::Address => 4,
            Refusal::Alignment => 5,
            Refusal::Overlap => 6,
            Refusal::Tables => 7,
            Refusal::Damage => 8,
            Refusal::Hole { .. } => 9,
            Refusal::Inside => 10,
            Refusal::Pool => 11,
        }
    }
}

// What map did, or its form for a range: the tables taken, and the setup after it.
#[derive(Clone, Copy, PartialEq, Eq, Debug)]
pub struct Mapped {
    pub tables: u64,
    pub setup: Setup,
}

// What unmap did: the frame removed, the tables given back, and the setup after it.
#[derive(Clone, Copy, PartialEq, Eq, Debug)]
pub struct Unmapped {
    pub frame: u64,
    pub size: u64,
    pub attributes: u64,
    pub tables: u64,
    pub setup: Setup,
}

// What unmap's form for a range did: the mappings removed, the tables given back, and the setup after it.
#[derive(Clone, Copy, PartialEq, Eq, Debug)]
pub struct RangeUnmapped {
    pub mappings: u64,
    pub tables: u64,
    pub setup: Setup,
}

// What query found: the mapping that holds the address.
#[derive(Clone, Copy, PartialEq, Eq, Debug)]
pub struct Found {
    pub base: u64,
    pub frame: u64,
    pub size: u64,
    pub attributes: u64,
}

// What the audit counted: reached tables, and mappings.
#[derive(Clone, Copy, PartialEq, Eq, Debug)]
pub struct Counts {
    pub tables: u64,
    pub mappings: u64,
}

// What list wrote: how many mappings, and the base of the first that it left out, where it left one out.
#[derive(Clone, Copy, PartialEq, Eq, Debug)]
pub struct Excerpt {
    pub written: u64,
    pub next: Option<u64>,
}
