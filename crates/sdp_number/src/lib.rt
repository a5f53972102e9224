// Whole numbers and typed times of document 01, "Fields".
#![tactic(auto)]

ghost use Rattle.std.specs.Prelude.{◌≡◌, cond, ◌+◌, Err};
ghost use Rattle.sdp_utf8.specs.Utf8.{is_utf8};
ghost use Rattle.sdp_number.specs.Number.{digits_below, drop_plus, whole_number, unit_of, typed_time};
ghost use Rattle.sdp_number.specs.declared.NumberError.TheVariants.{Encoding};

use sdp_utf8::is_utf8;

// Why bytes are no number.
#[derive(Clone, Copy, Debug, PartialEq, Eq)]
pub enum NumberError {
    // not UTF-8
    Encoding,
    // UTF-8, and no number of the width
    Format,
}

// The number that s says, one or more digits, where it is at most max.
fn digits_to(s: &[u8], max: u64) -> Result<u64, NumberError>
    ensures { result ≡ digits_below (max + 1) s.now }
{
    if s.len() == 0 {
        return Err(NumberError::Format);
    }
    let mut v: u64 = 0;
    for &b in s {
        if b < 0x30 {
            return Err(NumberError::Format);
        }
        if 0x39 < b {
            return Err(NumberError::Format);
        }
        let d = u64::from(b - 0x30);
        if max / 10 < v {
            return Err(NumberError::Format);
        }
        if max - v * 10 < d {
            return Err(NumberError::Format);
        }
        v = v * 10 + d;
    }
    Ok(v)
}

// The same after an optional plus sign.
fn numeral_to(s: &[u8], max: u64) -> Result<u64, NumberError>
    ensures { result ≡ digits_below (max + 1) (drop_plus s.now) }
{
    if s.len() == 0 {
        return Err(NumberError::Format);
    }
    if s[0] == 0x2b {
        return digits_to(&s[1..], max);
    }
    digits_to(s, max)
}

// A number is ASCII, so the UTF-8 test is made only where there is none.
fn number_to(s: &[u8], max: u64) -> Result<u64, NumberError>
    ensures { result ≡ cond (is_utf8 s.now) (digits_below (max + 1) (drop_plus s.now)) (Err Encoding) }
{
    match numeral_to(s, max) {
        Ok(n) => Ok(n),
        Err(_) if is_utf8(s) => Err(NumberError::Format),
        Err(_) => Err(NumberError::Encoding),
    }
}

// A whole number of 64 bits. The rule is number_to's, for every bound; this and the next name the two of the paper, one line each: a
// generic function over a trait of widths says the same in more.
pub fn number64(s: &[u8]) -> Result<u64, NumberError>
    ensures { result ≡ whole_number 64 s.now }
{
    number_to(s, 0xffff_ffff_ffff_ffff)
}

// A whole number of 16 bits.
pub fn number16(s: &[u8]) -> Result<u64, NumberError>
    ensures { result ≡ whole_number 16 s.now }
{
    number_to(s, 0xffff)
}

fn pick_unit(day: bool, hour: bool, minute: bool, second: bool) -> u64
    ensures { result ≡ cond day 86400 (cond hour 3600 (cond minute 60 (cond second 1 0))) }
{
    if day {
        return 86400;
    }
    if hour {
        return 3600;
    }
    if minute {
        return 60;
    }
    if second {
        return 1;
    }
    0
}

// The seconds of a unit letter, 0 for any other byte.
fn unit_of(b: u8) -> u64
    ensures { result ≡ unit_of b }
{
    pick_unit(b == b'd', b == b'h', b == b'm', b == b's')
}

// A whole number, or one with a unit letter after it.
pub fn typed_time(s: &[u8]) -> Result<u64, NumberError>
    ensures { result ≡ typed_time s.now }
{
    if s.len() == 0 {
        return Err(NumberError::Format);
    }
    let n = s.len() - 1;
    let k = unit_of(s[n]);
    if k == 0 {
        return number64(s);
    }
    number64(&s[..n])?.checked_mul(k).ok_or(NumberError::Format)
}
