// Document 01, module 3: one field judged, a string, a token, a number or a time. parser.rs has the same names.
#![tactic(auto)]

ghost use Rattle.std.specs.Prelude.{◌≡◌};
ghost use Rattle.sdp_split.specs.Split.{Inside, Within, word_at};
ghost use Rattle.sdp_judge.specs.Read.{wrong_of, encoding, amount_of, text_of, token_of, number_of, time_of, choice_of, whole_of};
ghost use Rattle.sdp_judge.specs.Offset.{negated, signed, signed_of, zone_offset, offset_of};

use sdp_bytes::token::is_token;
use sdp_number::{NumberError, number64, typed_time};
use sdp_split::{Field, Piece, word_at};
use sdp_utf8::{is_utf8, utf8_end};

// What is wrong with a field that is UTF-8.
#[derive(Clone, Copy, Debug, PartialEq, Eq)]
pub enum Fault {
    Format,
    Missing,
    Trailing,
}

// A refusal: its number, the field's number, and for 8 the place of the bad byte in the value.
#[derive(Clone, Copy, Debug, PartialEq, Eq)]
pub struct Wrong {
    pub number: u64,
    pub field: u64,
    pub at: usize,
}

// The refusal of field `field`: 9 format, 10 missing field, 11 trailing data.
pub fn wrong_of(fault: Fault, field: u64) -> Wrong
    ensures { result ≡ wrong_of fault field }
{
    let number = match fault {
        Fault::Format => 9,
        Fault::Missing => 10,
        Fault::Trailing => 11,
    };
    Wrong {
        number,
        field,
        at: 0,
    }
}

// The refusal of a field of v that is not UTF-8, with the end of its longest well-formed beginning.
pub fn not_utf8(v: &[u8], field: u64, p: Piece) -> Wrong
    requires { Inside v.now p }
    ensures { result ≡ encoding field v.now p }
{
    Wrong {
        number: 8,
        field,
        at: p.at + utf8_end(p.of(v)),
    }
}

// A number that was read in the piece p, as the answer for field w.
fn amount_of(
    v: &[u8],
    w: u64,
    p: Piece,
    next: usize,
    n: Result<u64, NumberError>,
) -> Result<(u64, usize), Wrong>
    requires { Inside v.now p }
    ensures { result ≡ amount_of w v.now p next n }
{
    match n {
        Ok(value) => Ok((value, next)),
        Err(NumberError::Encoding) => Err(not_utf8(v, w, p)),
        Err(NumberError::Format) => Err(wrong_of(Fault::Format, w)),
    }
}

// A string. The piece is one of v's.
pub fn text_of(v: &[u8], w: u64, f: Field) -> Result<(Piece, usize), Wrong>
    requires { Within v.now f }
    ensures { result ≡ text_of w v.now f }
{
    match f {
        None => Err(wrong_of(Fault::Missing, w)),
        Some((piece, next)) if is_utf8(piece.of(v)) => Ok((piece, next)),
        Some((piece, _)) => Err(not_utf8(v, w, piece)),
    }
}

// A token.
fn token_of(v: &[u8], w: u64, f: Field) -> Result<(Piece, usize), Wrong>
    requires { Within v.now f }
    ensures { result ≡ token_of w v.now f }
{
    match f {
        None => Err(wrong_of(Fault::Missing, w)),
        Some((piece, next)) if is_token(piece.of(v)) => Ok((piece, next)),
        Some(_) => Err(wrong_of(Fault::Format, w)),
    }
}

// A whole number of 64 bits.
pub fn number_of(v: &[u8], w: u64, f: Field) -> Result<(u64, usize), Wrong>
    requires { Within v.now f }
    ensures { result ≡ number_of w v.now f }
{
    match f {
        None => Err(wrong_of(Fault::Missing, w)),
        Some((piece, next)) => amount_of(v, w, piece, next, number64(piece.of(v))),
    }
}

// A typed time.
pub fn time_of(v: &[u8], w: u64, f: Field) -> Result<(u64, usize), Wrong>
    requires { Within v.now f }
    ensures { result ≡ time_of w v.now f }
{
    match f {
        None => Err(wrong_of(Fault::Missing, w)),
        Some((piece, next)) => amount_of(v, w, piece, next, typed_time(piece.of(v))),
    }
}

// A string that may be absent.
pub fn choice_of(v: &[u8], w: u64, f: Field) -> Result<Option<Piece>, Wrong>
    requires { Within v.now f }
    ensures { result ≡ choice_of w v.now f }
{
    match f {
        None => Ok(None),
        Some((piece, _)) if is_utf8(piece.of(v)) => Ok(Some(piece)),
        Some((piece, _)) => Err(not_utf8(v, w, piece)),
    }
}

// The next word as a string of field w.
pub fn word_text(v: &[u8], i: usize, w: u64) -> Result<(Piece, usize), Wrong>
    ensures { result ≡ text_of w v.now (word_at v.now i) }
{
    text_of(v, w, word_at(v, i))
}

// The next word as a token of field w.
pub fn word_token(v: &[u8], i: usize, w: u64) -> Result<(Piece, usize), Wrong>
    ensures { result ≡ token_of w v.now (word_at v.now i) }
{
    token_of(v, w, word_at(v, i))
}

// The next word as a whole number of field w.
pub fn word_number(v: &[u8], i: usize, w: u64) -> Result<(u64, usize), Wrong>
    ensures { result ≡ number_of w v.now (word_at v.now i) }
{
    number_of(v, w, word_at(v, i))
}

// The next word as a typed time of field w.
pub fn word_time(v: &[u8], i: usize, w: u64) -> Result<(u64, usize), Wrong>
    ensures { result ≡ time_of w v.now (word_at v.now i) }
{
    time_of(v, w, word_at(v, i))
}

// The whole value as one string of field w.
pub fn whole(v: &[u8], w: u64) -> Result<Piece, Wrong>
    ensures { result ≡ whole_of w v.now }
{
    let p = Piece {
        at: 0,
        len: v.len(),
    };
    if is_utf8(v) {
        return Ok(p);
    }
    Err(not_utf8(v, w, p))
}

// Minus m in the 64 bits of an i64.
fn negated(m: u64) -> u64
    ensures { result ≡ negated m }
{
    if m == 0 {
        return 0;
    }
    0xffff_ffff_ffff_ffff - m + 1
}

// Sign and magnitude, judged apart: -2^63 to 2^63 - 1.
fn signed(negative: bool, m: u64) -> Result<u64, NumberError>
    ensures { result ≡ signed negative m }
{
    if negative {
        if m <= 0x8000_0000_0000_0000 {
            return Ok(negated(m));
        }
        return Err(NumberError::Format);
    }
    if m < 0x8000_0000_0000_0000 {
        return Ok(m);
    }
    Err(NumberError::Format)
}

fn signed_of(negative: bool, n: Result<u64, NumberError>) -> Result<u64, NumberError>
    ensures { result ≡ signed_of negative n }
{
    signed(negative, n?)
}

// A zone offset: perhaps one `-`, then a typed time.
fn offset(s: &[u8]) -> Result<u64, NumberError>
    ensures { result ≡ zone_offset s.now }
{
    if s.len() == 0 {
        return signed_of(false, typed_time(s));
    }
    if s[0] == b'-' {
        return signed_of(true, typed_time(&s[1..]));
    }
    signed_of(false, typed_time(s))
}

// A field that is one.
pub fn offset_of(v: &[u8], w: u64, f: Field) -> Result<(u64, usize), Wrong>
    requires { Within v.now f }
    ensures { result ≡ offset_of w v.now f }
{
    match f {
        None => Err(wrong_of(Fault::Missing, w)),
        Some((piece, next)) => amount_of(v, w, piece, next, offset(piece.of(v))),
    }
}
