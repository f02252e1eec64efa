// Runs the calls that its file stdin has, a line each, of two sorts. A case is said: what the line says, what the call answers, and what became of
// the lent memory. A call that the second program made, in Rust and without proofs, comes with its answer, which is compared; nothing is said of it
// where it agrees. read.rt says how a line is written.
#![tactic(auto)]

use std::io;
use std::io::Read;

mod calls;
mod memory;
mod read;
mod say;
mod view;

use memory::Memory;
use model::Refusal;
use read::{LINE, Line};
use view::View;

// How many bytes are read.
const TEXT: u64 = 524288;

// What goes on from line to line: the numbers, the memory, and how many lines agreed.
#[derive(Clone, Copy)]
struct Lines {
    line: Line,
    memory: Memory,
    agreed: u64,
}

impl Lines {
    // A call, its answer, and what became of the memory. The setup that it hands back is the next call's.
    fn say_call(&mut self, rt: &impl Print, call: u8) -> io::Result<()> {
        let mut before = self.memory;
        let told = calls::lent(call, &self.line, &mut self.memory);
        print!(rt; "{told}")?;
        before.clear(told);
        say::changes(rt, self.line[1], &self.memory, &before)?;
        told.hand_back(&mut self.line);
        Ok(())
    }

    // A list, its answer, and what it wrote.
    fn say_view(&self, rt: &impl Print) -> io::Result<()> {
        let mut view = View::blank();
        let told = view.list(&self.line, &self.memory);
        print!(rt; "{told}")?;
        say::runs(rt, &view)
    }

    // Whether a call answers what its line says, and leaves memory of that sum.
    fn agrees(&mut self, call: u8) -> bool {
        let told = calls::lent(call, &self.line, &mut self.memory);
        told.is_in(&self.line) && self.memory.sum() == self.line[27]
    }

    // The same of a list, and of what it wrote.
    fn view_agrees(&self) -> bool {
        let mut view = View::blank();
        let told = view.list(&self.line, &self.memory);
        told.is_in(&self.line) && view.sum() == self.line[27]
    }

    // Whether the host's call for a word answers what its line says. A meaning is base + 16 + attributes.
    fn host_agrees(&self, call: u8) -> bool {
        let line = &self.line;
        let word = match call {
            b'E' => host::frame_word(line[11], line[12], line[13]),
            _ => host::word_meaning(line[11], line[12]).map(|m: host::Meaning| m
                .base
                .wrapping_add(16)
                .wrapping_add(m.attributes)),
        };
        word.unwrap_or_else(|r: Refusal| r.number()) == line[15]
    }

    // A line that is said: what follows from it.
    fn said(&mut self, rt: &impl Print, call: u8) -> io::Result<()> {
        match call {
            b'f' | b'g' | b'm' | b'u' | b'r' | b'c' | b'q' | b'a' => self.say_call(rt, call)?,
            b'v' => self.say_view(rt)?,
            b't' => print!(rt; " -> agree {}", self.agreed)?,
            _ => self.memory.lay(call, &mut self.line),
        }
        say::text(rt, b"\n")
    }

    // A line that is compared: whether it agrees.
    fn compared(&mut self, call: u8) -> bool {
        match call {
            b'F' | b'G' | b'M' | b'U' | b'R' | b'C' | b'Q' | b'A' => self.agrees(call),
            b'V' => self.view_agrees(),
            b'E' | b'D' => self.host_agrees(call),
            _ => {
                self.memory.lay(call, &mut self.line);
                true
            }
        }
    }

    // A line of the text.
    fn run(&mut self, rt: &impl Print, text: &[u8]) -> io::Result<()> {
        let call = read::read(text, &mut self.line);
        if !call.is_ascii_uppercase() {
            say::text(rt, text)?;
            return self.said(rt, call);
        }
        if self.compared(call) {
            self.agreed = self.agreed.wrapping_add(1);
            return Ok(());
        }
        say::text(rt, text)?;
        print!(rt; " DIFFERS\n")
    }
}

// Each line of a text, of which the bytes after the last line are none.
fn run(rt: &impl Print, text: &[u8]) -> io::Result<()> {
    let Some(end) = text.iter().rposition(|b| *b == b'\n') else {
        return Ok(());
    };
    let mut lines = Lines {
        line: [0; LINE],
        memory: Memory::new(),
        agreed: 0,
    };
    for line in text[..end].split(|b| *b == b'\n') {
        lines.run(rt, line)?;
    }
    Ok(())
}

fn main(rt: HostRuntime) -> io::Result<()> {
    // With room for one byte more than is read, so that it never grows.
    let mut text = Vec::with_capacity(rt.alloc(), TEXT as usize + 1)?;
    rt.reader().take(TEXT).read_to_end(&mut text)?;
    run(&rt, &text)
}
