// Setup numbers, granules and sizes. A granule is a number: 16384 is that of 16 KiB pages, and every other number is read as
// that of 4 KiB pages. It stays a number: a setup may hold any, these functions promise an answer for each, and an enum would ask more of callers.
// What follows from a granule has a function for each number: one function for them all would be no plainer.
#![tactic(auto)]

ghost use Rattle.std.specs.Prelude.{◌≡◌, ◌+◌, ◌/◌, ◌%◌, ◌&&◌, leb};
ghost use Rattle.path.specs.Geometry.{good_granule, granule_of, page_size, entries, good_levels, space_of, known_space, frame_height};
ghost use Rattle.path.specs.Numbers.{no_setup, with_free, setup_at, places_of};

// The bytes of a page, and of a table, of each granule; and the granule's number.
pub const KIB4: u64 = 4096;

pub const KIB16: u64 = 16384;
// The sizes of the regions of heights 1, 2 and 3, with 4 KiB pages.
pub const MIB2: u64 = 2097152;

pub const GIB: u64 = 1073741824;

pub const GIB512: u64 = 549755813888;
// The same with 16 KiB pages.
pub const MIB32: u64 = 33554432;

pub const GIB64: u64 = 68719476736;

pub const TIB128: u64 = 140737488355328;
// No frame and no table ends past this address.
pub const PHYSICAL: u64 = 281474976710656;
// The most tables that a pool may have.
pub const MOST_TABLES: u64 = 512;

#[derive(Clone, Copy, PartialEq, Eq, Debug)]
pub struct Setup {
    pub levels: u64,
    pub base: u64,
    pub tables: u64,
    pub free: u64,
    pub base2: u64,
    pub tables2: u64,
    pub granule: u64,
}

// No pool's setup numbers.
pub fn no_setup() -> Setup
    ensures { result ≡ no_setup }
{
    Setup {
        levels: 0,
        base: 0,
        tables: 0,
        free: 0,
        base2: 0,
        tables2: 0,
        granule: 0,
    }
}

// The setup numbers with another free count.
pub fn with_free(s: Setup, free: u64) -> Setup
    ensures { result ≡ with_free s free }
{
    Setup { free, ..s }
}

// Setup numbers in seven places, and back.
impl From<[u64; 7]> for Setup {
    ghost from_gives = { λ places s. s ≡ setup_at places };

    fn from(places: [u64; 7]) -> Setup {
        let [levels, base, tables, free, base2, tables2, granule] = places;
        Setup {
            levels,
            base,
            tables,
            free,
            base2,
            tables2,
            granule,
        }
    }
}

impl From<Setup> for [u64; 7] {
    ghost from_gives = { λ s places. places ≡ places_of s };

    fn from(s: Setup) -> [u64; 7] {
        [
            s.levels, s.base, s.tables, s.free, s.base2, s.tables2, s.granule,
        ]
    }
}

// Whether a number names a granule.
pub fn good_granule(granule: u64) -> bool
    ensures { result ≡ good_granule granule }
{
    if granule == KIB4 {
        return true;
    }
    granule == KIB16
}

// The bytes of a page, and of a table.
pub fn page_of(granule: u64) -> u64
    ensures { result ≡ page_size (granule_of granule) }
{
    if granule == KIB16 { KIB16 } else { KIB4 }
}

// The entries of a table.
pub fn entries_of(granule: u64) -> u64
    ensures { result ≡ entries (granule_of granule) }
{
    if granule == KIB16 { 2048 } else { 512 }
}

// The greatest height of a frame.
pub fn large_of(granule: u64) -> usize
    ensures { result ≡ (granule_of granule).large }
{
    if granule == KIB16 { 1 } else { 2 }
}

// The pages that so many bytes fill.
pub fn pages_in(granule: u64, bytes: u64) -> u64
    ensures { result ≡ bytes / page_size (granule_of granule) }
{
    if granule == KIB16 {
        return bytes / KIB16;
    }
    bytes / KIB4
}

// The table that the word at a place is in.
pub fn table_of(granule: u64, place: u64) -> u64
    ensures { result ≡ place / entries (granule_of granule) }
{
    if granule == KIB16 {
        return place / 2048;
    }
    place / 512
}

// The index in that table.
pub fn index_in(granule: u64, place: u64) -> u16
    ensures { result ≡ place % entries (granule_of granule) }
{
    if granule == KIB16 {
        return (place % 2048) as u16;
    }
    (place % 512) as u16
}

// Whether a tree may have so many levels.
pub fn good_levels(granule: u64, levels: u64) -> bool
    ensures { result ≡ good_levels (granule_of granule) levels }
{
    if levels == 3 {
        return true;
    }
    if levels != 4 {
        return false;
    }
    granule != KIB16
}

// The addresses of a tree of so many levels are below this, where a tree may have so many.
fn space_of(granule: u64, levels: u64) -> Option<u64>
    ensures { result ≡ known_space (granule_of granule) levels }
{
    if granule == KIB16 {
        return match levels {
            3 => Some(TIB128),
            _ => None,
        };
    }
    match levels {
        3 => Some(GIB512),
        4 => Some(PHYSICAL),
        _ => None,
    }
}

// Whether so many addresses from one on are all in the space of a tree of so many levels.
pub fn in_space(granule: u64, levels: u64, address: u64, size: u64) -> bool
    ensures { result ≡ (good_levels (granule_of granule) levels && leb (address + size) (space_of (granule_of granule) levels)) }
{
    let Some(space) = space_of(granule, levels) else {
        return false;
    };
    size <= space && address <= space - size
}

// The height of the frames of a size, where frames have it.
pub fn height_of(granule: u64, size: u64) -> Option<usize>
    ensures { result ≡ frame_height (granule_of granule) size }
{
    if granule == KIB16 {
        return match size {
            KIB16 => Some(0),
            MIB32 => Some(1),
            _ => None,
        };
    }
    match size {
        KIB4 => Some(0),
        MIB2 => Some(1),
        GIB => Some(2),
        _ => None,
    }
}
