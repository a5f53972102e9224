// Document 01, "Forms we want to see": the crate's LineParser and Line, over the cursor by value.
#![tactic(auto)]

ghost use Rattle.std.specs.Prelude.{◌≡◌};
ghost use Rattle.sdp_cutter.specs.Cutter.{stands_at, move_at, standing};

use sdp_lines::{Cursor, Cut, Fault, LineNumber, Place, Span};

// A line of good form: its number, its letter and its value.
#[derive(Drop)]
pub struct Line<'a> {
    pub number: LineNumber,
    pub letter: u8,
    pub value: &'a [u8],
}

// The cutter: where the next line is due, and its number. Not Copy: a copy would stay behind the one that moves on.
#[derive(Drop)]
pub struct Cutter {
    pub at: Place,
    pub line: LineNumber,
}

// What the cutter finds: `Cut` without the cursors, which the cutter keeps, and with the number of a line, which a reader needs.
#[derive(Clone, Copy)]
pub enum Next {
    Found {
        number: LineNumber,
        letter: u8,
        value: Span,
    },
    Empty,
    Refused {
        fault: Fault,
        line: LineNumber,
    },
    End,
}

// What it found, and where it stands then: the two numbers that the cutter has, as document 01 asks for them.
#[derive(Clone, Copy)]
pub struct Moved {
    pub next: Next,
    pub at: Place,
    pub line: LineNumber,
}

// A line is made.
pub fn made<'a>(number: LineNumber, letter: u8, value: &'a [u8]) -> Line<'a>
    ensures { (result.number ≡ number) × ((result.letter ≡ letter) × (result.value ≡ value.entry)) }
{
    Line {
        number,
        letter,
        value,
    }
}

// The cursor past what was found.
fn past(next: Next, then: Cursor) -> Moved
    ensures { result ≡ stands_at next then }
{
    let at = then.at;
    let line = then.line;
    Moved { next, at, line }
}

// The work, by value: past a line of good form and past an empty one; at a fault and at the end it stays.
pub fn move_at(text: &[u8], at: Place, line: LineNumber) -> Moved
    ensures { result ≡ move_at text.now at line }
{
    let c = Cursor { at, line };
    match c.cut(text) {
        Cut::Line {
            letter,
            value,
            next,
        } => {
            let found = Next::Found {
                number: line,
                letter,
                value,
            };
            past(found, next)
        }
        Cut::Empty { next } => past(Next::Empty, next),
        Cut::Refused {
            fault,
            line: number,
        } => {
            let refused = Next::Refused {
                fault,
                line: number,
            };
            past(refused, c)
        }
        Cut::End => past(Next::End, c),
    }
}

// The cutter, lent, moves itself on one line.
pub fn next_line(c: &mut Cutter, text: &[u8]) -> Next
    ensures { (result ≡ (move_at text.now c.old.at c.old.line).next)
        × (c.new ≡ standing (move_at text.now c.old.at c.old.line)) }
{
    let moved = move_at(text, c.at, c.line);
    c.at = moved.at;
    c.line = moved.line;
    moved.next
}
