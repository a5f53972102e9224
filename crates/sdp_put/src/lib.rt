// Writers of one piece each: bytes go into an output from its place on, what finds no room is only counted, and the place moves on.
// So an output whose place is its end stays as it is, and counts.
#![tactic(auto)]

ghost use Rattle.std.specs.Prelude.{◌≡◌, true, List, [], ◌∷◌, ◌++◌, ◌+◌, ◌/◌, ◌%◌, ◌≤◌, ◌<◌, length};
ghost use Rattle.sdp_cells.specs.Bytes.{le};
ghost use Rattle.sdp_put.specs.Out.{Put, put};
ghost use Rattle.sdp_put.specs.Puts.{Puts};
ghost use Rattle.sdp_put.specs.Digits.{digits, four_digits, time_text, offset_text};
ghost use Rattle.sdp_put.specs.Strings.{part, dropped, kept, clean};

use sdp_bytes::runs::{eight, run_len};
use sdp_cells::get8;

// A slice that is written from at on.
#[derive(Drop)]
pub struct Out<'a> {
    pub bytes: &'a mut [u8],
    pub at: usize,
}

impl Out<'_> {
    pub fn byte(&mut self, b: u8)
        ensures { Puts self.old (b ∷ []) self.new }
    {
        self.at = byte_at(self.bytes, self.at, b);
    }

    pub fn two(&mut self, b: u8, c: u8)
        ensures { Puts self.old (b ∷ c ∷ []) self.new }
    {
        self.at = two_at(self.bytes, self.at, b, c);
    }

    // What there is room for of a whole slice.
    fn some(&mut self, s: &[u8])
        ensures { Puts self.old s.now self.new }
    {
        let at = self.at.min(self.bytes.len());
        let n = s.len().min(self.bytes.len() - at);
        copy(&mut self.bytes[at..at + n], &s[..n]);
        self.at = self.at.saturating_add(s.len());
    }

    // A whole slice, as far as there is room. That all of it fits is a branch: a least of two would make each copy wait for the place that the
    // one before it leaves.
    pub fn all(&mut self, s: &[u8])
        ensures { Puts self.old s.now self.new }
    {
        let at = self.at;
        if self.bytes.len() < at || self.bytes.len() - at < s.len() {
            return self.some(s);
        }
        copy(&mut self.bytes[at..at + s.len()], s);
        self.at = at + s.len();
    }

    // The bytes of s that are not left out. A short s is passed once.
    #[inline(always)]
    fn clean(&mut self, s: &[u8])
        ensures { Puts self.old (clean s.now) self.new }
    {
        if 8 <= s.len() && quiet(s) {
            self.all(s);
        } else {
            self.at = clean_at(self.bytes, self.at, s);
        }
    }

    // The len bytes of text from place on, without those that are left out.
    #[inline(always)]
    pub fn text(&mut self, text: &[u8], place: usize, len: usize)
        ensures { Puts self.old (clean (part text.now place len)) self.new }
    {
        let end = end_of(text.len(), place, len);
        if place < end {
            self.clean(&text[place..end]);
        }
    }

    // Four digits at once.
    pub fn number(&mut self, v: u64)
        ensures { Puts self.old (digits v) self.new }
    {
        self.at = number_at(self.bytes, self.at, v);
    }

    fn unit(&mut self, v: u64, unit: u8)
        ensures { Puts self.old (digits v ++ (unit ∷ [])) self.new }
    {
        self.number(v);
        self.byte(unit);
    }

    // Seconds: 0 as 0, else with the largest unit of d, h, m that divides, else plain.
    pub fn time(&mut self, v: u64)
        ensures { Puts self.old (time_text v) self.new }
    {
        if v == 0 {
            self.number(v);
        } else if v % 86400 == 0 {
            self.unit(v / 86400, b'd');
        } else if v % 3600 == 0 {
            self.unit(v / 3600, b'h');
        } else if v % 60 == 0 {
            self.unit(v / 60, b'm');
        } else {
            self.number(v);
        }
    }

    pub fn offset(&mut self, negative: bool, v: u64)
        ensures { Puts self.old (offset_text negative v) self.new }
    {
        if negative {
            self.byte(b'-');
        }
        self.time(v);
    }
}

// What goes byte by byte has the slice and the place apart: in an Out, which is lent, both would be loaded and stored again for each byte.

// A byte at a place, and the place behind it.
fn byte_at(out: &mut [u8], at: usize, b: u8) -> usize
    ensures { Put out.old at (b ∷ []) out.new result }
{
    if out.len() <= at {
        return at.saturating_add(1);
    }
    out[at] = b;
    at + 1
}

fn two_at(out: &mut [u8], at: usize, b: u8, c: u8) -> usize
    ensures { Put out.old at (b ∷ c ∷ []) out.new result }
{
    let next = byte_at(out, at, b);
    byte_at(out, next, c)
}

// A byte, where it isn't left out.
fn kept_at(out: &mut [u8], at: usize, b: u8) -> usize
    ensures { Put out.old at (kept b) out.new result }
{
    if dropped(b) {
        return at;
    }
    byte_at(out, at, b)
}

// The bytes of s that are not left out, one by one.
fn clean_at(out: &mut [u8], at: usize, s: &[u8]) -> usize
    ensures { Put out.old at (clean s.now) out.new result }
{
    let mut p = at;
    for b in s {
        p = kept_at(out, p, *b);
    }
    p
}

fn put4(out: &mut [u8], at: usize, a: u8, b: u8, c: u8, d: u8) -> usize
    requires { at < length out.old }
    ensures { Put out.old at (a ∷ b ∷ c ∷ d ∷ []) out.new result }
{
    if out.len() - at < 4 {
        let next = two_at(out, at, a, b);
        return two_at(out, next, c, d);
    }
    out[at] = a;
    out[at + 1] = b;
    out[at + 2] = c;
    out[at + 3] = d;
    at + 4
}

// The last four digits of v, which are not even found where there is no room.
fn four_at(out: &mut [u8], at: usize, v: u64) -> usize
    ensures { Put out.old at (four_digits v) out.new result }
{
    if out.len() <= at {
        return at.saturating_add(4);
    }
    put4(
        out,
        at,
        digit(v / 1000),
        digit(v / 100),
        digit(v / 10),
        digit(v),
    )
}

// A number of at most four digits.
fn short_at(out: &mut [u8], at: usize, v: u64) -> usize
    requires { v < 10000 }
    ensures { Put out.old at (digits v) out.new result }
{
    if v < 10 {
        return byte_at(out, at, digit(v));
    }
    if v < 100 {
        return two_at(out, at, digit(v / 10), digit(v));
    }
    if v < 1000 {
        let next = byte_at(out, at, digit(v / 100));
        return two_at(out, next, digit(v / 10), digit(v));
    }
    four_at(out, at, v)
}

fn number_at(out: &mut [u8], at: usize, v: u64) -> usize
    ensures { Put out.old at (digits v) out.new result }
{
    if v < 10000 {
        return short_at(out, at, v);
    }
    let next = number_at(out, at, v / 10000);
    four_at(out, next, v % 10000)
}

// The eight bytes of x, the lowest first, where there is room: one store of the machine.
fn store8(out: &mut [u8], at: usize, x: usize)
    requires { at + 8 ≤ length out.old }
    ensures { out.new ≡ put out.old at (le 8 x) }
{
    let b = x / 256;
    let c = b / 256;
    let d = c / 256;
    let e = d / 256;
    let f = e / 256;
    let g = f / 256;
    let h = g / 256;
    out[at] = (x % 256) as u8;
    out[at + 1] = (b % 256) as u8;
    out[at + 2] = (c % 256) as u8;
    out[at + 3] = (d % 256) as u8;
    out[at + 4] = (e % 256) as u8;
    out[at + 5] = (f % 256) as u8;
    out[at + 6] = (g % 256) as u8;
    out[at + 7] = (h % 256) as u8;
}

// s over as many bytes, one by one.
fn copy_each(out: &mut [u8], s: &[u8])
    requires { length out.old ≡ length s.now }
    ensures { out.new ≡ s.now }
{
    for i in 0..s.len() {
        out[i] = s[i];
    }
}

// s over as many bytes, by eights: the last of them ends where s ends, and may lie over the one before it.
fn copy_eights(out: &mut [u8], s: &[u8])
    requires { (8 ≤ length s.now) × (length out.old ≡ length s.now) }
    ensures { out.new ≡ s.now }
{
    let n = s.len();
    let mut i: usize = 0;
    while i + 8 < n {
        store8(out, i, get8(s, i));
        i += 8;
    }
    store8(out, n - 8, get8(s, n - 8));
}

// s over as many bytes. By hand: for std's `copy_from_slice` an archive for C needs memmove from outside.
fn copy(out: &mut [u8], s: &[u8])
    requires { length out.old ≡ length s.now }
    ensures { out.new ≡ s.now }
{
    if s.len() < 8 {
        copy_each(out, s);
    } else {
        copy_eights(out, s);
    }
}

// Whether b is left out of what is written: NUL, CR, LF.
pub fn dropped(b: u8) -> bool
    ensures { result ≡ dropped b }
{
    (b == 0) | ((b == 13) | (b == 10))
}

// The end of the part of n bytes of a text that begins at place and has len bytes.
fn end_of(n: usize, place: usize, len: usize) -> usize
    ensures { (result ≤ n) × ((result ≤ place + len) × (result < n → place + len ≤ result)) }
{
    n.min(place.saturating_add(len))
}

// Whether all bytes of s are above CR, the largest that is left out: by eights, as `copy_eights` goes, so that no byte is left to be
// passed alone.
fn quiet(s: &[u8]) -> bool
    ensures { result ≡ true → clean s.now ≡ s.now }
{
    let n = s.len();
    if n < 8 {
        return run_len(s, 14, 255) == n;
    }
    let mut i: usize = 0;
    while i + 8 < n {
        if !eight(&s[i..], 14, 255) {
            return false;
        }
        i += 8;
    }
    eight(&s[n - 8..], 14, 255)
}

// How many bytes kept_at puts.
fn one_len(b: u8) -> usize
    ensures { (result ≡ length (kept b)) × (result ≤ 1) }
{
    if dropped(b) {
        return 0;
    }
    1
}

// How many bytes of s are not left out.
fn kept_len(s: &[u8]) -> usize
    ensures { result ≡ length (clean s.now) }
{
    let mut n: usize = 0;
    for b in s {
        n += one_len(*b);
    }
    n
}

// How many bytes Out::text puts.
pub fn text_len(text: &[u8], place: usize, len: usize) -> usize
    ensures { (result ≡ length (clean (part text.now place len))) × (result ≤ len) }
{
    let end = end_of(text.len(), place, len);
    if end <= place {
        return 0;
    }
    if quiet(&text[place..end]) {
        return end - place;
    }
    kept_len(&text[place..end])
}

// The last digit of v.
fn digit(v: u64) -> u8
    ensures { result ≡ 0x30 + v % 10 }
{
    0x30 + (v % 10) as u8
}
