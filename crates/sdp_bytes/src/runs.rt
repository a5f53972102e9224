// Runs of bytes of a range.
ghost use Rattle.std.specs.Prelude.{◌≤◌, ◌≡◌, length, leb};
ghost use Rattle.sdp_cells.specs.Bytes.{le};
ghost use Rattle.sdp_bytes.specs.Ranges.{◌to◌, within};
ghost use Rattle.sdp_bytes.specs.Runs.{run, run_len};

use sdp_cells::get8;

// Whether b is one of lo..=hi. By hand: the test of a `RangeInclusive` looks first whether the range is used up.
fn inside(b: u8, lo: u8, hi: u8) -> bool
    ensures { result ≡ within (lo to hi) b }
{
    (lo <= b) & (b <= hi)
}

// Whether each of the eight bytes of x is lo or more: the sum sets the top bit of a byte whose low seven bits are lo or more.
fn all_from(x: usize, lo: usize) -> bool
    requires { lo ≤ 128 }
    ensures { result ≡ run (leb lo) 8 (le 8 x) }
{
    let low = x & 0x7f7f_7f7f_7f7f_7f7f;
    let sum = low + (128 - lo) * 0x0101_0101_0101_0101;
    ((sum | x) & 0x8080_8080_8080_8080) == 0x8080_8080_8080_8080
}

// Whether the first eight bytes are of lo..=hi: 255 - b is 255 - hi or more where b is hi or less.
pub fn eight(s: &[u8], lo: u8, hi: u8) -> bool
    requires lo_bound { lo ≤ 128 }
    requires le_hi { 127 ≤ hi }
    ensures { result ≡ run (within (lo to hi)) 8 s.now }
{
    if s.len() < 8 {
        return false;
    }
    let x = get8(s, 0);
    all_from(x, lo as usize) & all_from(0xffff_ffff_ffff_ffff - x, 255 - hi as usize)
}

// Bytes of lo..=hi that s begins with, by whole eights; none for the ranges that one test of eight does not serve.
fn eights(s: &[u8], lo: u8, hi: u8) -> usize
    ensures { result ≤ run_len (within (lo to hi)) s.now }
{
    if 128 < lo {
        return 0;
    }
    if hi < 127 {
        return 0;
    }
    // by hand: a turn passes eight bytes, and an iterator over bytes one
    let mut i = 0;
    while eight(&s[i..], lo, hi) {
        i += 8;
    }
    i
}

// How many bytes of lo..=hi s begins with.
pub fn run_len(s: &[u8], lo: u8, hi: u8) -> usize
    ensures { result ≡ run_len (within (lo to hi)) s.now }
{
    for i in eights(s, lo, hi)..s.len() {
        if !inside(s[i], lo, hi) {
            return i;
        }
    }
    s.len()
}
