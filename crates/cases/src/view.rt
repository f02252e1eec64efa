// A list, into two runs of its own. All their numbers are blank before it.
use crate::calls::{Done, Told, setup};
use crate::memory;
use crate::memory::Memory;
use crate::read::Line;

// The numbers of each run, of which a call is lent the first ones.
pub(crate) const ROOM: usize = 16;

// A number that no list writes.
pub(crate) const BLANK: u64 = 7;

// What a list wrote.
#[derive(Clone, Copy, PartialEq, Eq)]
pub(crate) struct View {
    pub(crate) places: [u64; ROOM],
    pub(crate) entries: [u64; ROOM],
}

impl View {
    pub(crate) fn blank() -> View {
        View {
            places: [BLANK; ROOM],
            entries: [BLANK; ROOM],
        }
    }

    // A list on the memory that is lent, and into the first places of both runs.
    pub(crate) fn list(&mut self, line: &Line, memory: &Memory) -> Told {
        let words = memory.words.get(..line[1] as usize);
        let more = memory.more.get(..line[2] as usize);
        let list = memory.list.get(..line[3] as usize);
        match (words, more, list) {
            (Some(words), Some(more), Some(list)) => self.list_of(line, words, more, list),
            _ => Told::nothing(b'v'),
        }
    }

    fn list_of<'a>(
        &mut self,
        line: &Line,
        words: &'a [u64],
        second: &'a [u64],
        list: &[u32],
    ) -> Told {
        let places = self.places.get_mut(..line[12] as usize);
        let entries = self.entries.get_mut(..line[13] as usize);
        let (Some(places), Some(entries)) = (places, entries) else {
            return Told::nothing(b'v');
        };
        let s = setup(line);
        let answer = pagetable::list(s, words, second, list, line[11], places, entries);
        Told::new(answer.map(Done::List), s)
    }

    // The sum of both runs, where the second follows the first.
    pub(crate) fn sum(&self) -> u64 {
        memory::sum(0, self.places.iter().chain(&self.entries).copied())
    }
}
