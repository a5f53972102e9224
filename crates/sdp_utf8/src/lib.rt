// The UTF-8 test of RFC 3629.
#![tactic(auto)]

ghost use Rattle.std.specs.Prelude.{◌≡◌, cond, [], ◌∷◌};
ghost use Rattle.sdp_bytes.specs.Ranges.{◌to◌, in_at, fits, within};
ghost use Rattle.sdp_bytes.specs.Runs.{run_len};
ghost use Rattle.sdp_utf8.specs.Utf8.{tail, char2, char3, char4, char_len, ascii, step_len, utf8_end, is_utf8};

use sdp_bytes::runs::run_len;

// Whether s begins with a character of two bytes.
#[tactic(auto, using(crate::proofs::Utf8Laws::fits_places, crate::proofs::Utf8Laws::fits_short, std::proofs::lemmas::Bool::Decides::nat_tests))]
fn is_two(s: &[u8]) -> bool
    ensures { result ≡ char2 s.now }
{
    matches!(s, [0xc2..=0xdf, 0x80..=0xbf, ..])
}

// Whether b is one of lo..=hi.
fn inside(b: u8, lo: u8, hi: u8) -> bool
    ensures { result ≡ within (lo to hi) b }
{
    (lo <= b) & (b <= hi)
}

// Whether s begins with a character of three bytes: the four rows at once. They differ in the second byte alone, which E0 and ED ask more of.
// As patterns the rows would be branches, which the processor guesses wrong where the characters of a text come from many blocks.
fn is_three(s: &[u8]) -> bool
    ensures { result ≡ char3 s.now }
{
    match *s {
        [a, b, c, ..] => {
            let tails = inside(b, 0x80, 0xbf) & inside(c, 0x80, 0xbf);
            let overlong = (a == 0xe0) & (b < 0xa0);
            let surrogate = (a == 0xed) & (0x9f < b);
            inside(a, 0xe0, 0xef) & tails & !overlong & !surrogate
        }
        _ => false,
    }
}

// Whether s begins with a character of four bytes: three rows at once, of which F0 and F4 ask more of the second byte.
fn is_four(s: &[u8]) -> bool
    ensures { result ≡ char4 s.now }
{
    match *s {
        [a, b, c, d, ..] => {
            let tails = inside(b, 0x80, 0xbf) & inside(c, 0x80, 0xbf) & inside(d, 0x80, 0xbf);
            let overlong = (a == 0xf0) & (b < 0x90);
            let beyond = (a == 0xf4) & (0x8f < b);
            inside(a, 0xf0, 0xf4) & tails & !overlong & !beyond
        }
        _ => false,
    }
}

// The length of the character that s begins with, 0 where it begins with none. The first byte tells which rows can fit.
#[tactic(auto, using(crate::proofs::Utf8Laws::none_len, crate::proofs::Utf8Laws::one_len, crate::proofs::Utf8Laws::two_len, crate::proofs::Utf8Laws::three_len, crate::proofs::Utf8Laws::four_len))]
fn char_len(s: &[u8]) -> usize
    ensures { result ≡ char_len s.now }
{
    match s {
        [] => 0,
        [0x00..=0x7f, ..] => 1,
        [0x80..=0xdf, ..] => if is_two(s) { 2 } else { 0 },
        [0xe0..=0xef, ..] => if is_three(s) { 3 } else { 0 },
        _ => if is_four(s) { 4 } else { 0 },
    }
}

// How many ASCII bytes s begins with.
fn plain_len(s: &[u8]) -> usize
    ensures { result ≡ run_len ascii s.now }
{
    run_len(s, 0, 0x7f)
}

// How many bytes can be passed at once: a character and the ASCII bytes after it; 0 where there is no character. The next
// byte is tested by itself first: where none of a text is ASCII, no eight need be tested.
fn step_len(s: &[u8]) -> usize
    ensures { result ≡ step_len s.now }
{
    let n = char_len(s);
    if n == 0 {
        return 0;
    }
    if s.len() <= n {
        return n;
    }
    if 0x80 <= s[n] {
        return n;
    }
    n + plain_len(&s[n..])
}

// The end of the longest well-formed beginning of s.
pub fn utf8_end(s: &[u8]) -> usize
    ensures { result ≡ utf8_end s.now }
{
    // by hand: a turn passes a character and the ASCII after it, and an iterator over bytes one byte
    let mut i = plain_len(s);
    while i < s.len() {
        let n = step_len(&s[i..]);
        if n == 0 {
            return i;
        }
        i += n;
    }
    i
}

// Whether s is UTF-8.
pub fn is_utf8(s: &[u8]) -> bool
    ensures { result ≡ is_utf8 s.now }
{
    utf8_end(s) == s.len()
}
