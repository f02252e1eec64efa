// Marks: of each table that walks come to, the region that it stands for, as a number; 0 for a table that none came to. So it is seen where walks come to
// one table for two regions.
#![tactic(auto)]

ghost use Rattle.std.specs.Prelude.{◌≡◌, suc, ◌^◌, ◌<◌};
ghost use Rattle.path.specs.Geometry.{granule_of, physical, size_at};
ghost use Rattle.marks.specs.Marks.{region_number, noted, note_one, note_way};

// The bits of an address within the region of a table whose entries have this height.
fn region_bits(granule: u64, height: usize) -> u64
    requires { height < 4 }
    ensures { (2 ^ result ≡ size_at (granule_of granule) (suc height)) × (result < 64) }
{
    if granule == path::KIB16 {
        return 25 + 11 * (height as u64);
    }
    21 + 9 * (height as u64)
}

// The region of a table whose entries have this height, on the way to an address, as a number.
fn region_number(granule: u64, address: u64, height: usize) -> u32
    requires { (height < 4) × (address < physical) }
    ensures { result ≡ region_number (granule_of granule) address height }
{
    let bits = region_bits(granule, height);
    let region = address >> bits;
    (region * 4 + height as u64 + 1) as u32
}

// Table t stands for the region of this number. Answers whether it stands for no other.
fn note_one(stands: &mut [u32], t: u32, number: u32) -> bool
    ensures { noted result stands.new ≡ note_one stands.old t number }
{
    let i = t as usize;
    if i >= stands.len() {
        return true;
    }
    // 0 for none: an Option in each place would take twice the fixed memory.
    let before = stands[i];
    if before == 0 {
        stands[i] = number;
        return true;
    }
    before == number
}

// The tables on the way to an address, from the one with entries of height `left` up to the root of a tree of so many levels, stand for the regions around the
// address. Answers whether they stand for no others; it ends at the first that does. An address past 2^48, or levels that no tree has, are not noted.
pub fn note_way(
    granule: u64,
    stands: &mut [u32],
    way: [u32; 4],
    address: u64,
    left: usize,
    levels: u64,
) -> bool
    ensures { noted result stands.new ≡ note_way (granule_of granule) stands.old address way left levels }
{
    if levels > 4 {
        return false;
    }
    if address >= path::PHYSICAL {
        return false;
    }
    for h in left..levels as usize {
        let t = way[3 - h];
        let number = region_number(granule, address, h);
        if !note_one(stands, t, number) {
            return false;
        }
    }
    true
}
