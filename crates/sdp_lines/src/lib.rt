// Document 01, module 2: cutting a text into lines, and line form.
#![tactic(auto)]

ghost use Rattle.std.specs.Prelude.{◌≡◌};
ghost use Rattle.sdp_lines.specs.Lines.{plain_form, next_line, start, cut_at};
ghost use Rattle.sdp_lines.specs.Quick.{stop_byte, stop_index, crlf_at, first_of, equals_second};
ghost use Rattle.sdp_lines.specs.Answers.{fault_number, answer};

use sdp_bytes::runs::run_len;
use sdp_bytes::search::index_of;

// A byte's place in the text, from 0.
#[derive(Clone, Copy, Debug, PartialEq, Eq)]
pub struct Place(pub usize);

// A line's number, from 1.
#[derive(Clone, Copy, Debug, PartialEq, Eq)]
pub struct LineNumber(pub usize);

// A string: where it stands in the text, and how long it is.
#[derive(Clone, Copy, Debug, PartialEq, Eq)]
pub struct Span {
    pub at: Place,
    pub len: usize,
}

// What reading and writing answer: number 0 accepts; what a number does not name is 0.
#[repr(C)]
#[derive(Clone, Copy, Debug, PartialEq, Eq)]
pub struct Answer {
    pub number: u64,
    pub line: u64,
    pub field: u64,
    pub place: u64,
    pub len: u64,
}

// Where a line is due, and its number.
#[derive(Clone, Copy, Debug, PartialEq, Eq)]
pub struct Cursor {
    pub at: Place,
    pub line: LineNumber,
}

// What is wrong with a line's form.
#[derive(Clone, Copy, Debug, PartialEq, Eq)]
pub enum Fault {
    NulOrCr,
    NoEquals,
    NotSecond,
}

// What cutting at a cursor finds: four ways on, of which an Option in a Result in an Option would lose the names.
#[derive(Clone, Copy)]
pub enum Cut {
    Line {
        letter: u8,
        value: Span,
        next: Cursor,
    },
    Empty {
        next: Cursor,
    },
    Refused {
        fault: Fault,
        line: LineNumber,
    },
    End,
}

// NUL, LF or CR.
fn stop_byte(b: u8) -> bool
    ensures { result ≡ stop_byte b }
{
    (b == 0) | (b == 10) | (b == 13)
}

// The index of the first NUL, LF or CR, or the length where there is none. All bytes above CR are passed first.
fn stop_index(s: &[u8]) -> usize
    ensures { result ≡ stop_index s.now }
{
    for i in run_len(s, 14, 255)..s.len() {
        if stop_byte(s[i]) {
            return i;
        }
    }
    s.len()
}

// Whether CR and LF stand at k.
fn crlf_at(s: &[u8], k: usize) -> bool
    ensures { result ≡ crlf_at s.now k }
{
    if s.len() <= k {
        return false;
    }
    if s.len() - k < 2 {
        return false;
    }
    (s[k] == 13) & (s[k + 1] == 10)
}

// The first line of a text that is not empty, in one pass: its length without its ending and with it, or that it has NUL or CR.
// The first NUL, LF or CR tells all.
fn first_line(s: &[u8]) -> Result<(usize, usize), Fault>
    ensures { result ≡ first_of s.now }
{
    let k = stop_index(s);
    if s.len() <= k {
        return Ok((k, k));
    }
    if s[k] == 10 {
        return Ok((k, k + 1));
    }
    if crlf_at(s, k) {
        return Ok((k, k + 2));
    }
    Err(Fault::NulOrCr)
}

// Whether the first `=` is the second byte.
fn equals_second(s: &[u8]) -> bool
    ensures { result ≡ equals_second s.now }
{
    if s.len() < 2 {
        return false;
    }
    (s[0] != b'=') & (s[1] == b'=')
}

// The form of a line without its ending that has neither NUL nor CR: its letter, or none where it is empty.
fn form_of(s: &[u8]) -> Result<Option<u8>, Fault>
    ensures { result ≡ plain_form s.now }
{
    if s.is_empty() {
        return Ok(None);
    }
    if equals_second(s) {
        return Ok(Some(s[0]));
    }
    if index_of(s, b'=') == s.len() {
        return Err(Fault::NoEquals);
    }
    Err(Fault::NotSecond)
}

impl LineNumber {
    // The number of the next line; the largest number stays.
    fn next(self) -> LineNumber
        ensures { result.0 ≡ next_line self.0 }
    {
        LineNumber(self.0.saturating_add(1))
    }
}

impl Cursor {
    // Before the first line.
    pub fn new() -> Self
        ensures { result ≡ start }
    {
        Cursor {
            at: Place(0),
            line: LineNumber(1),
        }
    }

    // What stands at the cursor.
    pub fn cut(self, text: &[u8]) -> Cut
        ensures { result ≡ cut_at text.now self }
    {
        let at = self.at.0;
        let line = self.line;
        if text.len() <= at {
            return Cut::End;
        }
        match first_line(&text[at..]) {
            Err(fault) => Cut::Refused { fault, line },
            Ok((len, width)) => {
                let end = at + len;
                let next = Cursor {
                    at: Place(at + width),
                    line: line.next(),
                };
                match form_of(&text[at..end]) {
                    Ok(None) => Cut::Empty { next },
                    Err(fault) => Cut::Refused { fault, line },
                    Ok(Some(letter)) => {
                        let value = Span {
                            at: Place(at + 2),
                            len: len - 2,
                        };
                        Cut::Line {
                            letter,
                            value,
                            next,
                        }
                    }
                }
            }
        }
    }
}

impl Fault {
    // Its refusal number.
    pub fn number(self) -> u64
        ensures { result ≡ fault_number self }
    {
        match self {
            Fault::NulOrCr => 3,
            Fault::NoEquals => 4,
            Fault::NotSecond => 5,
        }
    }
}

impl Answer {
    // An answer that names no byte: its number, its line and its field.
    pub fn on_line(number: u64, line: LineNumber, field: u64) -> Answer
        ensures { result ≡ answer number line.0 field }
    {
        Answer {
            number,
            line: line.0 as u64,
            field,
            place: 0,
            len: 0,
        }
    }

    // An answer that names no line.
    pub fn plain(number: u64) -> Answer
        ensures { result ≡ answer number 0 0 }
    {
        Answer::on_line(number, LineNumber(0), 0)
    }
}
