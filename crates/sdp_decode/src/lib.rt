// Numbers of the record area, whatever its bytes are: past its end every byte is 0.
#![tactic(auto)]

ghost use Rattle.std.specs.Prelude.{◌≡◌, ◌<◌};
ghost use Rattle.sdp_cells.specs.Bytes.{num};

use sdp_cells::{get2, get8};

// A number of two bytes.
pub fn num2(a: &[u8], at: usize) -> usize
    ensures { (result ≡ num 2 a.now at) × (result < 65536) }
{
    if a.len() <= at {
        return 0;
    }
    if a.len() - at < 2 {
        return a[at] as usize;
    }
    get2(a, at)
}

// A number of eight bytes, two by two: some of them may be past the end.
fn num8_by_two(a: &[u8], at: usize) -> u64
    ensures { result ≡ num 8 a.now at }
{
    if a.len() <= at {
        return 0;
    }
    let p = num2(a, at) as u64;
    let q = num2(a, at + 2) as u64;
    let r = num2(a, at + 4) as u64;
    let s = num2(a, at + 6) as u64;
    p + 65536 * (q + 65536 * (r + 65536 * s))
}

// A number of eight bytes. No one function of the width with num2: each is one load of its own, and so is what it does past the end.
pub fn num8(a: &[u8], at: usize) -> u64
    ensures { result ≡ num 8 a.now at }
{
    if a.len() <= at {
        return 0;
    }
    if a.len() - at < 8 {
        return num8_by_two(a, at);
    }
    get8(a, at) as u64
}
