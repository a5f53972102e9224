// The leaves' answers in numbers, as they cross to Rust and C.
#![tactic(auto)]

ghost use Rattle.std.specs.Prelude.{◌≡◌};
ghost use Rattle.sdp_answers.specs.Boundary.{numeral_of, piece_of};

use sdp_lines::Cut;
use sdp_number::NumberError;

// A number that was read: refusal number 0 and the value, or 8 or 9 and 0.
#[repr(C)]
#[derive(Clone, Copy, Debug, PartialEq, Eq)]
pub struct Numeral {
    pub number: u64,
    pub value: u64,
}

// One step of the line cutter. kind: 0 the end, 1 an empty line, 2 a line of good form, 3 a refused line. What a kind does not have is 0.
#[repr(C)]
#[derive(Clone, Copy, Debug, PartialEq, Eq)]
pub struct Piece {
    pub kind: u64,
    pub number: u64,
    pub line: u64,
    pub letter: u64,
    pub place: u64,
    pub len: u64,
    pub next_place: u64,
    pub next_line: u64,
}

// The answer in the numbers of document 01.
impl From<Result<u64, NumberError>> for Numeral {
    ghost from_gives = { λ n numeral. numeral ≡ numeral_of n };

    fn from(n: Result<u64, NumberError>) -> Numeral {
        match n {
            Ok(value) => Numeral { number: 0, value },
            Err(NumberError::Encoding) => Numeral {
                number: 8,
                value: 0,
            },
            Err(NumberError::Format) => Numeral {
                number: 9,
                value: 0,
            },
        }
    }
}

// What was cut where the line of that number was due: of two values, so no `From`.
pub fn piece_of(line: usize, c: Cut) -> Piece
    ensures { result ≡ piece_of line c }
{
    match c {
        Cut::End => Piece {
            kind: 0,
            number: 0,
            line: 0,
            letter: 0,
            place: 0,
            len: 0,
            next_place: 0,
            next_line: 0,
        },
        Cut::Empty { next } => Piece {
            kind: 1,
            number: 0,
            line: line as u64,
            letter: 0,
            place: 0,
            len: 0,
            next_place: next.at.0 as u64,
            next_line: next.line.0 as u64,
        },
        Cut::Line {
            letter,
            value,
            next,
        } => Piece {
            kind: 2,
            number: 0,
            line: line as u64,
            letter: u64::from(letter),
            place: value.at.0 as u64,
            len: value.len as u64,
            next_place: next.at.0 as u64,
            next_line: next.line.0 as u64,
        },
        Cut::Refused { fault, line } => Piece {
            kind: 3,
            number: fault.number(),
            line: line.0 as u64,
            letter: 0,
            place: 0,
            len: 0,
            next_place: 0,
            next_line: 0,
        },
    }
}
