// Regions of a height and paths: the size of a region, the indices of an address, and back. A granule is a number, as in `path`.
// What no level has is 0 and no None: callers know the height of a level, and each would have to handle a None that never comes.
#![tactic(auto)]

ghost use Rattle.std.specs.Prelude.{◌≡◌, ◌+◌, ◌*◌, ◌%◌};
ghost use Rattle.path.specs.Geometry.{granule_of, size_at, at_level};
ghost use Rattle.path.specs.Paths.{index_at, base_at, path_of, address_of};

// The bits of an address within a region of a height, which are its size's power of two; 0 where no level has it.
pub fn bits_at(granule: u64, height: usize) -> u64
    ensures { result ≡ at_level (granule_of granule) height ((granule_of granule).page + (granule_of granule).index * height) }
{
    if granule == path::KIB16 {
        if height > 2 {
            return 0;
        }
        return 14 + 11 * (height as u64);
    }
    if height > 3 {
        return 0;
    }
    12 + 9 * (height as u64)
}

// The bytes that an entry of a height stands for; 0 where no level has it.
pub fn size_at(granule: u64, height: usize) -> u64
    ensures { result ≡ at_level (granule_of granule) height (size_at (granule_of granule) height) }
{
    let bits = bits_at(granule, height);
    if bits == 0 {
        return 0;
    }
    1 << bits
}

// The index of an address among the entries of a height; 0 where no level has it.
pub fn index_at(granule: u64, address: u64, height: usize) -> u16
    ensures { result ≡ at_level (granule_of granule) height (index_at (granule_of granule) address height) }
{
    let below = bits_at(granule, height);
    if below == 0 {
        return 0;
    }
    path::index_in(granule, address >> below)
}

// The first address of the region of a height that holds an address; 0 where no level has it.
pub fn base_at(granule: u64, address: u64, height: usize) -> u64
    ensures { result ≡ at_level (granule_of granule) height (base_at (granule_of granule) address height) }
{
    let low = bits_at(granule, height);
    if low == 0 {
        return 0;
    }
    address >> low << low
}

// How far an address is past the start of its region of a height; 0 where no level has it.
pub fn rest_at(granule: u64, address: u64, height: usize) -> u64
    ensures { result ≡ at_level (granule_of granule) height (address % size_at (granule_of granule) height) }
{
    if bits_at(granule, height) == 0 {
        return 0;
    }
    address - base_at(granule, address, height)
}

// The indices of an address, top first: nine bits each, or eleven with 16 KiB pages. These are taken from the last one up, which keeps the compiler from making one
// computation of the two, by numbers that it would have to pick at run time.
pub fn path_of(granule: u64, address: u64) -> [u16; 4]
    ensures { result ≡ path_of (granule_of granule) address }
{
    if granule == path::KIB16 {
        let page = (address / path::KIB16 % 2048) as u16;
        let large = (address / path::MIB32 % 2048) as u16;
        let table = (address / path::GIB64 % 2048) as u16;
        let top = (address / path::TIB128 % 2048) as u16;
        return [top, table, large, page];
    }
    [
        (address / path::GIB512 % 512) as u16,
        (address / path::GIB % 512) as u16,
        (address / path::MIB2 % 512) as u16,
        (address / path::KIB4 % 512) as u16,
    ]
}

// The address whose indices a path holds.
pub fn address_of(granule: u64, path: [u16; 4]) -> u64
    ensures { result ≡ address_of (granule_of granule) path }
{
    if granule == path::KIB16 {
        return (path[0] as u64) * path::TIB128
            + (path[1] as u64) * path::GIB64
            + (path[2] as u64) * path::MIB32
            + (path[3] as u64) * path::KIB16;
    }
    (path[0] as u64) * path::GIB512
        + (path[1] as u64) * path::GIB
        + (path[2] as u64) * path::MIB2
        + (path[3] as u64) * path::KIB4
}
