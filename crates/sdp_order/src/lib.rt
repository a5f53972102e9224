// Document 01, module 7: the letter order of a text.
#![tactic(auto)]

ghost use Rattle.std.specs.Prelude.{◌≡◌, false};
ghost use Rattle.sdp_lines.specs.Lines.{start};
ghost use Rattle.sdp_order.specs.Expression.{Expr, empty, letter, ◌·◌, ◌*, ◌⁇};
ghost use Rattle.sdp_order.specs.Order.{time_description, grammar, order_of, verdict_of};
ghost use Rattle.sdp_order.specs.From.{run_from, begins, Follows, Finds, Passes, Leads, Halts, from_title, from_times, from_repeats, from_key, from_media, in_media};

use sdp_lines::{Cursor, Cut, Fault};

// Why a text is not judged.
#[derive(Clone, Copy, Debug, PartialEq, Eq)]
pub enum Refusal {
    TooLong,
}

// The answer in numbers: 0, or the refusal 1; and 1 for yes, 0 for no.
#[repr(C)]
#[derive(Clone, Copy, Debug, PartialEq, Eq)]
pub struct Verdict {
    pub number: u64,
    pub yes: u64,
}

// `times` hands over to `repeats` this often, and then stops: so the calls are never deep, whatever the text.
const HAND_OVERS: u8 = 16;

// Where `times` or `repeats` stopped: behind the last of them all; or behind a time's line, where its repeats may come.
// No Result: neither way is a failure, and `time_lines` goes on from both.
#[derive(Clone, Copy)]
pub enum Stop {
    Through(Cursor),
    AtRepeats(Cursor),
}

// The next line that is not empty, if one is left: its letter and where the line after it is due; or that its form is bad.
fn next_line(text: &[u8], from: Cursor) -> Result<Option<(u8, Cursor)>, Fault>
    ensures { Follows text.now from result }
{
    let mut c = from;
    loop {
        match c.cut(text) {
            Cut::End => return Ok(None),
            Cut::Refused { fault, .. } => return Err(fault),
            Cut::Empty { next } => c = next,
            Cut::Line { letter, next, .. } => return Ok(Some((letter, next))),
        }
    }
}

// Whether no line but empty ones is left.
fn ended(text: &[u8], c: Cursor) -> bool
    ensures { result ≡ run_from text.now c empty }
{
    match next_line(text, c) {
        Ok(None) => true,
        Ok(Some(_)) => false,
        Err(_) => false,
    }
}

// Behind the next line that is not empty, if it has the letter l.
fn line_with(text: &[u8], c: Cursor, l: u8) -> Option<Cursor>
    ensures { Finds text.now l c result }
{
    match next_line(text, c) {
        Ok(Some((letter, past))) => (letter == l).then_some(past),
        Ok(None) => None,
        Err(_) => None,
    }
}

// At most one line with this letter.
fn maybe(text: &[u8], c: Cursor, l: u8) -> Cursor
    ensures { (y : Expr) → begins l y ≡ false → Passes text.now (letter l ⁇ · y) y c result }
{
    line_with(text, c, l).unwrap_or(c)
}

// Any number of lines with this letter.
fn many(text: &[u8], from: Cursor, l: u8) -> Cursor
    ensures { (y : Expr) → begins l y ≡ false → Passes text.now (letter l * · y) y from result }
{
    let mut c = from;
    while let Some(next) = line_with(text, c, l) {
        c = next;
    }
    c
}

// v o s
fn first_lines(text: &[u8]) -> Option<Cursor>
    ensures { Leads text.now grammar from_title start result }
{
    let o = line_with(text, Cursor::new(), b'v')?;
    let s = line_with(text, o, b'o')?;
    line_with(text, s, b's')
}

// i? u? e* p* c? b*
fn session_lines(text: &[u8], from: Cursor) -> Cursor
    ensures { run_from text.now from from_title ≡ run_from text.now result from_times }
{
    let u = maybe(text, from, b'i');
    let e = maybe(text, u, b'u');
    let p = many(text, e, b'e');
    let c = many(text, p, b'p');
    let b = maybe(text, c, b'c');
    many(text, b, b'b')
}

// Any number of (t, then optionally (r+ z?)): a time's line hands over to its repeats, as long as some hand-overs are left.
#[cycle(repeats_times)]
fn times(text: &[u8], c: Cursor, left: u8) -> Stop
    ensures { Halts text.now (time_description * · from_key) from_repeats from_key c result }
{
    match line_with(text, c, b't') {
        Some(next) => {
            if left == 0 {
                return Stop::AtRepeats(next);
            }
            repeats(text, next, left - 1)
        }
        None => Stop::Through(c),
    }
}

// Optionally (r+ z?), and these hand back to the next time's line.
#[cycle(repeats_times)]
fn repeats(text: &[u8], from: Cursor, left: u8) -> Stop
    ensures { Halts text.now from_repeats from_repeats from_key from result }
{
    match line_with(text, from, b'r') {
        Some(next) => {
            let z = many(text, next, b'r');
            let t = maybe(text, z, b'z');
            times(text, t, left)
        }
        None => times(text, from, left),
    }
}

// One or more of (t, then optionally (r+ z?)).
fn time_lines(text: &[u8], from: Cursor) -> Option<Cursor>
    ensures { Leads text.now from_times from_key from result }
{
    let mut c = line_with(text, from, b't')?;
    loop {
        match repeats(text, c, HAND_OVERS) {
            Stop::Through(next) => return Some(next),
            Stop::AtRepeats(next) => c = next,
        }
    }
}

// k? a*
fn last_lines(text: &[u8], from: Cursor) -> Cursor
    ensures { run_from text.now from from_key ≡ run_from text.now result from_media }
{
    let a = maybe(text, from, b'k');
    many(text, a, b'a')
}

// i? c* b* k? a*
fn media_lines(text: &[u8], from: Cursor) -> Cursor
    ensures { Passes text.now (in_media · from_media) from_media from result }
{
    let c = maybe(text, from, b'i');
    let b = many(text, c, b'c');
    let k = many(text, b, b'b');
    let a = maybe(text, k, b'k');
    many(text, a, b'a')
}

// Any number of (m i? c* b* k? a*).
fn medias(text: &[u8], from: Cursor) -> Cursor
    ensures { run_from text.now from from_media ≡ run_from text.now result empty }
{
    let mut c = from;
    while let Some(next) = line_with(text, c, b'm') {
        c = media_lines(text, next);
    }
    c
}

// Behind the lines that the grammar describes, if those that must come are there.
fn all_lines(text: &[u8]) -> Option<Cursor>
    ensures { Leads text.now grammar empty start result }
{
    let i = first_lines(text)?;
    let t = session_lines(text, i);
    let k = time_lines(text, t)?;
    let m = last_lines(text, k);
    Some(medias(text, m))
}

// Whether the letters of a text are in order.
pub fn letter_order(text: &[u8]) -> Result<bool, Refusal>
    ensures { result ≡ order_of text.now }
{
    if 32768 < text.len() {
        return Err(Refusal::TooLong);
    }
    Ok(all_lines(text).is_some_and(|end| ended(text, end)))
}

// The answer in the numbers of document 01; yes is 1.
impl From<Result<bool, Refusal>> for Verdict {
    ghost from_gives = { λ o verdict. verdict ≡ verdict_of o };

    fn from(o: Result<bool, Refusal>) -> Verdict {
        match o {
            Ok(in_order) => Verdict {
                number: 0,
                yes: u64::from(in_order),
            },
            Err(Refusal::TooLong) => Verdict { number: 1, yes: 0 },
        }
    }
}
