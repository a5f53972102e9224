// Document 01, module 3: how a line's value is split into fields.
#![tactic(auto)]

ghost use Rattle.std.specs.Prelude.{◌≡◌, ◌≤◌, length, drop};
ghost use Rattle.sdp_split.specs.Split.{part, Inside, spaces, piece_from, word_at, first_piece, piece_after, rest_after};

use sdp_bytes::search::index_of;

// A string within a line's value.
#[derive(Clone, Copy, Debug, PartialEq, Eq)]
pub struct Piece {
    pub at: usize,
    pub len: usize,
}

impl Piece {
    // Its bytes, of the value that it stands in.
    pub fn of<'a>(self, v: &'a [u8]) -> &'a [u8]
        requires { Inside v.now self }
        ensures { result.now ≡ part v.now self }
    {
        &v[self.at..self.at + self.len]
    }
}

// A field, as its piece and the place where it ends, or that there is none.
pub type Field = Option<(Piece, usize)>;

// How many spaces stand from place i on.
fn spaces_at(v: &[u8], i: usize) -> usize
    requires { i ≤ length v.now }
    ensures { result ≡ spaces (drop i v.now) }
{
    for j in i..v.len() {
        if v[j] != b' ' {
            return j - i;
        }
    }
    v.len() - i
}

// The field that starts at i and ends before the next separator.
fn piece_from(v: &[u8], i: usize, sep: u8) -> Field
    requires { i ≤ length v.now }
    ensures { result ≡ piece_from sep v.now i }
{
    let len = index_of(&v[i..], sep);
    Some((Piece { at: i, len }, i + len))
}

// The next word from place i on; runs of spaces are one separator.
pub fn word_at(v: &[u8], i: usize) -> Field
    ensures { result ≡ word_at v.now i }
{
    if v.len() < i {
        return None;
    }
    let at = i + spaces_at(v, i);
    if at < v.len() {
        return piece_from(v, at, b' ');
    }
    None
}

// The first field of a value that is split at every separator.
pub fn first_piece(v: &[u8], sep: u8) -> Field
    ensures { result ≡ first_piece sep v.now }
{
    piece_from(v, 0, sep)
}

// The field after the one that ended at e.
pub fn piece_after(v: &[u8], e: usize, sep: u8) -> Field
    ensures { result ≡ piece_after sep v.now e }
{
    if e < v.len() {
        return piece_from(v, e + 1, sep);
    }
    None
}

// All that stands after the separator at e.
pub fn rest_after(v: &[u8], e: usize) -> Field
    ensures { result ≡ rest_after v.now e }
{
    if e < v.len() {
        let at = e + 1;
        let len = v.len() - at;
        return Some((Piece { at, len }, v.len()));
    }
    None
}
