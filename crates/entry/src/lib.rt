// Entry words of frames: the word of a frame, and the frame that a word says.
#![tactic(auto)]

ghost use Rattle.std.specs.Prelude.{◌≡◌, cond, leb, eqb};
ghost use Rattle.path.specs.Geometry.{granule_of, physical};
ghost use Rattle.entry.specs.Words.{base_in, attrs_in, type_at, frame_word, frame_at};

// Bit 54 of a word: not execute.
const NO_EXECUTE: u64 = 0x0040_0000_0000_0000;
// The bits of normal and of device memory, with bit 10, which is always there.
const NORMAL: u64 = 0x73C;

const DEVICE: u64 = 0x400;
// A word's bits below the base of a frame count up to this.
const BELOW_BASE: u64 = 4096;

// What a word says.
#[derive(Clone, Copy)]
pub enum Entry {
    Empty,
    Table(u32),
    Frame { base: u64, attributes: u64 },
    Damaged,
}

// The type of a frame's word at a height.
pub fn type_at(height: usize) -> u64
    ensures { result ≡ type_at height }
{
    if height == 0 { 3 } else { 1 }
}

// The entry word of a frame at a height, from the bits of its attributes; 0 where the base is above 2^48,
// and no None: callers have tested the base, and each would have to handle a None that never comes.
pub fn word_of(base: u64, height: usize, attributes: u64) -> u64
    ensures { result ≡ cond (leb base physical) (frame_word base height attributes) 0 }
{
    if base > path::PHYSICAL {
        return 0;
    }
    let bits = DEVICE
        + attributes % 4 * 64
        + (1 - attributes / 8 % 2) * (NORMAL - DEVICE)
        + (1 - attributes / 4 % 2) * NO_EXECUTE;
    base + type_at(height) + bits
}

// The attributes that the bits of a word stand for.
fn attrs_in(w: u64) -> u64
    ensures { result ≡ attrs_in w }
{
    w / 64 % 4 + (1 - w / NO_EXECUTE % 2) * 4 + (1 - w / 32 % 2) * 8
}

// The base that a word has: bits 47:12.
pub fn base_in(w: u64) -> u64
    ensures { result ≡ base_in w }
{
    w % path::PHYSICAL - w % BELOW_BASE
}

// Whether a word is the word of its own base and attributes at a height: beside the base, bits 7:6 and bit 54 it has its type and the bits of normal or of
// device memory.
pub fn is_frame(w: u64, height: usize) -> bool
    ensures { result ≡ eqb w (frame_word (base_in w) height (attrs_in w)) }
{
    let rest = w - base_in(w) - w / 64 % 4 * 64 - w / NO_EXECUTE % 2 * NO_EXECUTE;
    let kind = type_at(height);
    if rest == NORMAL + kind {
        return true;
    }
    rest == DEVICE + kind
}

// The frame that a word says at a height, or that it is damaged.
pub fn frame_at(granule: u64, w: u64, height: usize) -> Entry
    ensures { result ≡ frame_at (granule_of granule) height w }
{
    if height > path::large_of(granule) {
        return Entry::Damaged;
    }
    let base = base_in(w);
    if indices::rest_at(granule, base, height) != 0 {
        return Entry::Damaged;
    }
    if is_frame(w, height) {
        return Entry::Frame {
            base,
            attributes: attrs_in(w),
        };
    }
    Entry::Damaged
}
