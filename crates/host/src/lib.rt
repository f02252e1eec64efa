// The host's two calls: the entry word of a frame, and the meaning of a word.
#![tactic(auto)]

ghost use Rattle.std.specs.Prelude.{◌≡◌, ◌%◌, ◌≤◌, ◌<◌, cond, ltb, IfOk};
ghost use Rattle.path.specs.Geometry.{granule_of};
ghost use Rattle.entry.specs.declared.Entry.TheVariants.{Frame};
ghost use Rattle.entry.specs.Words.{attr_word};
ghost use Rattle.entry.specs.Host.{sized_by, host_word, host_meaning, meaning_of};
ghost use Rattle.host.specs.Says.{says_word, says_meaning};

use entry::Entry;
use model::Refusal;

// The attribute words of the attributes 0 to 15.
const ATTRIBUTES: [u64; 16] = [
    0x0040_0000_0000_073C,
    0x0040_0000_0000_077C,
    0x0040_0000_0000_07BC,
    0x0040_0000_0000_07FC,
    0x0000_0000_0000_073C,
    0x0000_0000_0000_077C,
    0x0000_0000_0000_07BC,
    0x0000_0000_0000_07FC,
    0x0040_0000_0000_0400,
    0x0040_0000_0000_0440,
    0x0040_0000_0000_0480,
    0x0040_0000_0000_04C0,
    0x0000_0000_0000_0400,
    0x0000_0000_0000_0440,
    0x0000_0000_0000_0480,
    0x0000_0000_0000_04C0,
];

// The attribute word of attributes; 0 where they are above 15, and no None, which would never come: the caller has tested them.
fn attr_word(attributes: u64) -> u64
    ensures { result ≡ cond (ltb attributes 16) (attr_word attributes) 0 }
{
    if attributes >= 16 {
        return 0;
    }
    ATTRIBUTES[attributes as usize]
}

// The granule whose frames have a size: that of 16 KiB pages, or else that of 4 KiB pages.
fn granule_by(size: u64) -> u64
    ensures { granule_of result ≡ sized_by size }
{
    match path::height_of(path::KIB16, size) {
        Some(_) => path::KIB16,
        None => path::KIB4,
    }
}

// What the word of a frame means: the frame's base, and its attributes.
#[derive(Clone, Copy, PartialEq, Eq, Debug)]
pub struct Meaning {
    pub base: u64,
    pub attributes: u64,
}

// The entry word of a frame, or a refusal: 2, 3, 4 or 5.
pub fn frame_word(base: u64, size: u64, attributes: u64) -> Result<u64, Refusal>
    ensures says { says_word result ≡ host_word (sized_by size) base size attributes }
    ensures word { IfOk result (λ w. 1024 ≤ w) }
{
    let granule = granule_by(size);
    let height = path::height_of(granule, size).ok_or(Refusal::Size)?;
    if attributes > 15 {
        return Err(Refusal::Attributes);
    }
    if base > path::PHYSICAL {
        return Err(Refusal::Address);
    }
    if base + size > path::PHYSICAL {
        return Err(Refusal::Address);
    }
    if indices::rest_at(granule, base, height) != 0 {
        return Err(Refusal::Alignment);
    }
    Ok(base + entry::type_at(height) + attr_word(attributes))
}

// The meaning of an entry: damage, where it is no frame.
fn meaning_of(e: Entry) -> Result<Meaning, Refusal>
    ensures says { says_meaning result ≡ meaning_of e }
    ensures frame { IfOk result (λ m. e ≡ Frame m.base m.attributes) }
{
    match e {
        Entry::Frame { base, attributes } => Ok(Meaning { base, attributes }),
        Entry::Empty | Entry::Table(_) | Entry::Damaged => Err(Refusal::Damage),
    }
}

// The meaning of a word at a size, or a refusal: 2 or 8.
pub fn word_meaning(w: u64, size: u64) -> Result<Meaning, Refusal>
    ensures says { says_meaning result ≡ host_meaning (sized_by size) w size }
    ensures frame { IfOk result (λ m. (m.attributes < 16) × (m.base % size ≡ 0)) }
{
    let granule = granule_by(size);
    match path::height_of(granule, size) {
        Some(height) => meaning_of(entry::frame_at(granule, w, height)),
        None => Err(Refusal::Size),
    }
}
