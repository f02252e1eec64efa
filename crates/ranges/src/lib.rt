// A range: the tests of its arguments, and its pieces.
#![tactic(auto)]

ghost use Rattle.std.specs.Prelude.{◌≡◌, ◌^◌, ◌≤◌};
ghost use Rattle.path.specs.Geometry.{granule_of, at_level};
ghost use Rattle.path.specs.Areas.{area_of};
ghost use Rattle.model.specs.Answers.{says_tested, tested};
ghost use Rattle.model.specs.Ranges.{good_length, map_range_tests, unmap_range_tests, piece_at};
ghost use Rattle.ranges.specs.Stretches.{fits_bits, stretch_at};

use model::Refusal;
use path::Setup;

// No range is longer.
const LONGEST: u64 = 4294967296;

// Whether a range may have this length.
#[tactic(auto, using(crate::proofs::Tests::range_tests), unfolding(model::specs::Ranges::good_length))]
fn good_length(granule: u64, length: u64) -> bool
    ensures { result ≡ good_length (granule_of granule) length }
{
    if length == 0 {
        return false;
    }
    if length > LONGEST {
        return false;
    }
    indices::rest_at(granule, length, 0) == 0
}

// Of a range to be mapped the tests 2 to 5 and then 11.
#[tactic(auto, using(crate::proofs::Tests::range_tests), unfolding(model::specs::Ranges::map_range_tests))]
pub fn map_tests(
    s: Setup,
    address: u64,
    frame: u64,
    length: u64,
    attributes: u64,
) -> Result<(), Refusal>
    ensures { says_tested result ≡ tested (map_range_tests (granule_of s.granule) s.levels (area_of s) address frame length attributes) }
{
    if !good_length(s.granule, length) {
        return Err(Refusal::Size);
    }
    if attributes > 15 {
        return Err(Refusal::Attributes);
    }
    if !path::in_space(s.granule, s.levels, address, length) {
        return Err(Refusal::Address);
    }
    if frame > path::PHYSICAL - length {
        return Err(Refusal::Address);
    }
    if indices::rest_at(s.granule, address, 0) != 0 || indices::rest_at(s.granule, frame, 0) != 0 {
        return Err(Refusal::Alignment);
    }
    if setups::meets_area(
        s.granule, s.base, s.tables, s.base2, s.tables2, frame, length,
    ) {
        return Err(Refusal::Pool);
    }
    Ok(())
}

// Of a range to be unmapped the tests 2, 4 and 5.
#[tactic(auto, using(crate::proofs::Tests::range_tests), unfolding(model::specs::Ranges::unmap_range_tests))]
pub fn unmap_tests(granule: u64, levels: u64, address: u64, length: u64) -> Result<(), Refusal>
    ensures { says_tested result ≡ tested (unmap_range_tests (granule_of granule) levels address length) }
{
    if !good_length(granule, length) {
        return Err(Refusal::Size);
    }
    if !path::in_space(granule, levels, address, length) {
        return Err(Refusal::Address);
    }
    if indices::rest_at(granule, address, 0) != 0 {
        return Err(Refusal::Alignment);
    }
    Ok(())
}

// Whether 2 ^ bits divides both addresses and is at most what is left: their trailing zero bits decide.
#[tactic(auto, using(crate::specs::Zeros::zero_tests), unfolding(crate::specs::Stretches::fits_bits))]
fn fits(address: u64, frame: u64, left: u64, bits: u32, size: u64) -> bool
    requires { (bits ≤ 64) × (size ≡ 2 ^ bits) }
    ensures { result ≡ fits_bits address frame left bits }
{
    if u64::trailing_zeros(address) < bits {
        return false;
    }
    if u64::trailing_zeros(frame) < bits {
        return false;
    }
    size <= left
}

// The height of the largest piece that fits what is left and divides both addresses.
#[tactic(auto, using(crate::proofs::Pieces::piece_sizes))]
pub fn piece_at(granule: u64, address: u64, frame: u64, left: u64) -> usize
    ensures { result ≡ piece_at (granule_of granule) address frame left (granule_of granule).large }
{
    if granule == path::KIB16 {
        if fits(address, frame, left, 25, path::MIB32) {
            return 1;
        }
        return 0;
    }
    if fits(address, frame, left, 30, path::GIB) {
        return 2;
    }
    if fits(address, frame, left, 21, path::MIB2) {
        return 1;
    }
    0
}

// How many pieces of a height stand in one table from an address on, where so many bytes are left; 0 where no level has it, as in `indices`.
#[tactic(auto, using(crate::proofs::Pieces::stretch_laws))]
pub fn stretch(granule: u64, address: u64, left: u64, height: usize) -> u64
    ensures { result ≡ at_level (granule_of granule) height (stretch_at (granule_of granule) address left height) }
{
    let size = indices::size_at(granule, height);
    if size == 0 {
        return 0;
    }
    let fit = left / size;
    let room = path::entries_of(granule) - indices::index_at(granule, address, height) as u64;
    fit.min(room)
}
