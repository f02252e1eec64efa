// A line, byte by byte. It is a name, a colon, a call, and numbers with other words between them; one with no colon is a heading.
// A call that begins with a large letter has what it must answer after what it takes, and is compared.

ghost use Rattle.std.specs.Prelude.{◌≤◌};

// Where in a line the next byte stands.
#[derive(Clone, Copy, PartialEq, Eq)]
enum Part {
    Name,
    // before the call
    Call,
    Word,
    // between words
    Space,
    // in a number that has this value so far
    Number { value: u64, hex: bool },
}

// The numbers of a line.
pub(crate) const LINE: usize = 28;

// Each at its place: 1 to 3 are the words of both runs and the places lent, 4 to 10 the setup, 11 to 14 the rest that a call takes, 15 to 26 the answer
// and 27 the sum of the memory after it, or of the two runs of a list. What a line may name and does not is 0, and a granule 4096; what stands before that stays as it was.
pub(crate) type Line = [u64; LINE];

// Where in a line the next byte stands, the first letter of its call, and the place of its next number.
// The call stays a letter: as an enum it would still need a case for every letter that is no call, and two for most that are.
#[derive(Clone, Copy)]
struct State {
    part: Part,
    call: u8,
    next: usize,
}

// Reads a line's numbers, each to its place, and answers the first letter of its call, or 0 for a heading.
pub(crate) fn read(text: &[u8], line: &mut Line) -> u8 {
    let mut s = State {
        part: Part::Name,
        call: 0,
        next: 0,
    };
    for b in text {
        s.byte(*b, line);
    }
    s.last(line);
    s.call
}

// The place of a call's first number.
fn first_place(call: u8) -> usize
    ensures { result ≤ LINE }
{
    match call {
        b'F' | b'M' | b'U' | b'R' | b'C' | b'Q' | b'A' | b'G' | b'V' => 1,
        b'f' | b's' => 4,
        _ => 11,
    }
}

// A format or a setup that names no granule has that of 4 KiB.
fn begin(call: u8, line: &mut Line) {
    line[first_place(call)..].fill(0);
    match call {
        b'f' => line[9] = 4096,
        b's' => line[10] = 4096,
        _ => {}
    }
}

// The value of a digit.
fn digit(b: u8) -> Option<u64> {
    match b {
        b'0'..=b'9' => Some(u64::from(b - b'0')),
        b'a'..=b'f' => Some(u64::from(b - b'a') + 10),
        _ => None,
    }
}

impl State {
    // A byte that ends no line.
    fn byte(&mut self, b: u8, line: &mut Line) {
        match self.part {
            Part::Name if b == b':' => self.part = Part::Call,
            Part::Call if b != b' ' => {
                begin(b, line);
                self.part = Part::Word;
                self.call = b;
                self.next = first_place(b);
            }
            Part::Name | Part::Call => {}
            Part::Number { value, hex } => self.in_number(b, value, hex, line),
            Part::Word | Part::Space => self.between(b),
        }
    }

    // A digit begins a number, if a space is before it.
    fn between(&mut self, b: u8) {
        self.part = match digit(b) {
            _ if b == b' ' => Part::Space,
            Some(value) if self.part == Part::Space && value < 10 => Part::Number {
                value,
                hex: false,
            },
            _ => Part::Word,
        };
    }

    // A digit, the x before hexadecimal digits, or the byte that ends a number.
    fn in_number(&mut self, b: u8, value: u64, hex: bool, line: &mut Line) {
        if b == b'x' {
            self.part = Part::Number { value, hex: true };
            return;
        }
        let Some(d) = digit(b) else {
            self.last(line);
            self.between(b);
            return;
        };
        let shifted = if hex {
            value % 0x1000_0000_0000_0000 * 16
        } else {
            value % 0x1999_9999_9999_999A * 10
        };
        let value = shifted.wrapping_add(d);
        self.part = Part::Number { value, hex };
    }

    // The end of a number: it goes to its place in the line.
    fn last(&mut self, line: &mut Line) {
        let Part::Number { value, .. } = self.part else {
            return;
        };
        self.part = Part::Word;
        if self.next < LINE {
            line[self.next] = value;
            self.next += 1;
        }
    }
}
