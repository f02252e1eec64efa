// The calls, each on the numbers of a line; the list is in view.rt.
use crate::memory::Memory;
use crate::read::Line;
use model::{Counts, Excerpt, Found, Mapped, RangeUnmapped, Refusal, Unmapped};
use pagetable::Refused;
use path::Setup;

// The numbers of an answer.
pub(crate) const ANSWER: usize = 12;

// What a call did that refuses nothing.
#[derive(Clone, Copy)]
pub(crate) enum Done {
    Format(Setup),
    Add(Setup),
    Map(Mapped),
    Unmap(Unmapped),
    UnmapRange(RangeUnmapped),
    Query(Found),
    Audit(Counts),
    List(Excerpt),
}

impl Done {
    // The setup after a call that makes another one.
    fn setup(self) -> Option<Setup> {
        match self {
            Done::Format(setup) | Done::Add(setup) => Some(setup),
            Done::Map(m) => Some(m.setup),
            Done::Unmap(u) => Some(u.setup),
            Done::UnmapRange(u) => Some(u.setup),
            Done::Query(_) | Done::Audit(_) | Done::List(_) => None,
        }
    }

    // What is answered, followed by zeros.
    fn numbers(self) -> [u64; 4] {
        match self {
            Done::Format(_) | Done::Add(_) => [0; 4],
            Done::Map(m) => [m.tables, 0, 0, 0],
            Done::Unmap(u) => [u.frame, u.size, u.attributes, u.tables],
            Done::UnmapRange(u) => [u.mappings, u.tables, 0, 0],
            Done::Query(m) => [m.base, m.frame, m.size, m.attributes],
            Done::Audit(c) => [c.tables, c.mappings, 0, 0],
            Done::List(e) => [
                e.written,
                u64::from(e.next.is_some()),
                e.next.unwrap_or(0),
                0,
            ],
        }
    }

    // What is said of a call that would be lent more than there is: all its numbers are 0.
    fn nothing(call: u8) -> Done {
        let setup = path::no_setup();
        match call.to_ascii_lowercase() {
            b'f' => Done::Format(setup),
            b'g' => Done::Add(setup),
            b'm' | b'r' => Done::Map(Mapped { tables: 0, setup }),
            b'u' => Done::Unmap(Unmapped {
                frame: 0,
                size: 0,
                attributes: 0,
                tables: 0,
                setup,
            }),
            b'c' => Done::UnmapRange(RangeUnmapped {
                mappings: 0,
                tables: 0,
                setup,
            }),
            b'q' => Done::Query(Found {
                base: 0,
                frame: 0,
                size: 0,
                attributes: 0,
            }),
            b'v' => Done::List(Excerpt {
                written: 0,
                next: None,
            }),
            _ => Done::Audit(Counts {
                tables: 0,
                mappings: 0,
            }),
        }
    }
}

// What a call answers, and the setup after it.
#[derive(Clone, Copy)]
pub(crate) struct Told {
    pub(crate) answer: Result<Done, Refusal>,
    pub(crate) setup: Setup,
}

impl Told {
    // With the setup after the call that it did, or else the one that is given.
    pub(crate) fn new(answer: Result<Done, Refusal>, given: Setup) -> Told {
        let handed = answer.ok().and_then(|done: Done| done.setup());
        Told {
            answer,
            setup: handed.unwrap_or(given),
        }
    }

    // Of a call that hands a setup back on a refusal too.
    fn handed(done: Result<Done, Refused>) -> Told {
        match done {
            Ok(done) => Told::new(Ok(done), path::no_setup()),
            Err(r) => Told::new(Err(r.refusal), r.setup),
        }
    }

    pub(crate) fn nothing(call: u8) -> Told {
        Told::new(Ok(Done::nothing(call)), path::no_setup())
    }

    // The refusal or 0, the setup, and the rest, which with 9 is the hole, followed by zeros.
    fn numbers(self) -> [u64; ANSWER] {
        let (refusal, [a, b, c, d]) = match self.answer {
            Ok(done) => (0, done.numbers()),
            Err(Refusal::Hole { base, size }) => (9, [base, size, 0, 0]),
            Err(r) => (r.number(), [0; 4]),
        };
        let s = self.setup;
        [
            refusal, s.levels, s.base, s.tables, s.free, s.base2, s.tables2, s.granule, a, b, c, d,
        ]
    }

    // Whether it is the answer that the line has.
    pub(crate) fn is_in(self, line: &Line) -> bool {
        line[15..27] == self.numbers()[..]
    }

    // The setup that is handed back is the next call's.
    pub(crate) fn hand_back(self, line: &mut Line) {
        line[4..11].copy_from_slice(&self.numbers()[1..8]);
    }
}

// The setup that a line has. It is no From, since a line is an array.
pub(crate) fn setup(line: &Line) -> Setup {
    Setup {
        levels: line[4],
        base: line[5],
        tables: line[6],
        free: line[7],
        base2: line[8],
        tables2: line[9],
        granule: line[10],
    }
}

// A call on the memory that is lent, which is the first words of both runs and the first places.
pub(crate) fn lent(call: u8, line: &Line, memory: &mut Memory) -> Told {
    let words = memory.words.get_mut(..line[1] as usize);
    let more = memory.more.get_mut(..line[2] as usize);
    let list = memory.list.get_mut(..line[3] as usize);
    match (words, more, list) {
        (Some(words), Some(more), Some(list)) => run(call, line, words, more, list),
        _ => Told::nothing(call),
    }
}

// The call that a letter stands for.
fn run(call: u8, line: &Line, words: &mut [u64], second: &mut [u64], list: &mut [u32]) -> Told {
    let s = setup(line);
    let (a, b, c, d) = (line[11], line[12], line[13], line[14]);
    let done = match call.to_ascii_lowercase() {
        b'f' => format(line, words, second, list),
        b'g' => pagetable::add(s, words, second, list, a, b).map(Done::Add),
        b'm' => pagetable::map(s, words, second, list, a, b, c, d).map(Done::Map),
        b'u' => pagetable::unmap(s, words, second, list, a).map(Done::Unmap),
        b'r' => pagetable::map_range(s, words, second, list, a, b, c, d).map(Done::Map),
        b'c' => pagetable::unmap_range(s, words, second, list, a, b).map(Done::UnmapRange),
        b'q' => return Told::new(
            pagetable::query(s, words, second, list, a).map(Done::Query),
            s,
        ),
        _ => return Told::new(pagetable::audit(s, words, second, list).map(Done::Audit), s),
    };
    Told::handed(done)
}

// A format is given no setup.
fn format(
    line: &Line,
    words: &mut [u64],
    second: &mut [u64],
    list: &mut [u32],
) -> Result<Done, Refused> {
    let made = pagetable::format(
        line[4], line[5], line[6], line[7], line[8], line[9], words, second, list,
    );
    made.map(Done::Format)
}
