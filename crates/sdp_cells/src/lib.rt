// Numbers of two bytes, rows of them, and tables of rows, anywhere in a lent area.
#![tactic(auto)]

ghost use Rattle.std.specs.Prelude.{◌≡◌, ◌+◌, ◌*◌, ◌≤◌, ◌<◌, length, eqb};
ghost use Rattle.sdp_cells.specs.Bytes.{le, num, over};
ghost use Rattle.sdp_cells.specs.Tables.{pairs, grown, told};

// A table that has no room for one row more.
#[derive(Clone, Copy, Debug, PartialEq, Eq)]
pub struct Full;

// A number in the two bytes at a place.
fn put2(a: &mut [u8], at: usize, v: usize)
    requires { at + 2 ≤ length a.old }
    ensures { a.new ≡ over a.old at (le 2 v) }
{
    a[at] = (v % 256) as u8;
    a[at + 1] = (v / 256 % 256) as u8;
}

// The number in the two bytes at a place.
pub fn get2(a: &[u8], at: usize) -> usize
    requires { at + 2 ≤ length a.now }
    ensures { (result ≡ num 2 a.now at) × (result < 65536) }
{
    (a[at] as usize) + 256 * (a[at + 1] as usize)
}

// The number in the eight bytes at a place. Counted from there, they are one load of the machine.
pub fn get8(a: &[u8], at: usize) -> usize
    requires { at + 8 ≤ length a.now }
    ensures { result ≡ num 8 a.now at }
{
    let s = &a[at..];
    get2(s, 0)
        + get2(s, 2) * 0x1_0000
        + get2(s, 4) * 0x1_0000_0000
        + get2(s, 6) * 0x1_0000_0000_0000
}

// Numbers of two bytes each, one after the other.
pub fn put_words(a: &mut [u8], at: usize, ws: &[usize])
    requires { at + length ws.now * 2 ≤ length a.old }
    ensures { a.new ≡ over a.old at (pairs ws.now) }
{
    for (i, w) in ws.iter().enumerate() {
        put2(a, at + i * 2, *w);
    }
}

// One row more in the table at base.
pub fn push_words(area: &mut [u8], base: usize, cap: usize, ws: &[usize]) -> Result<(), Full>
    requires { base + (2 + cap * (length ws.now * 2)) ≤ length area.old }
    ensures value { result ≡ told area.old base cap }
    ensures area_after { area.new ≡ grown area.old base cap (pairs ws.now) }
{
    let n = get2(area, base);
    if cap <= n {
        return Err(Full);
    }
    let at = base + (2 + n * (ws.len() * 2));
    put_words(area, at, ws);
    put2(area, base, n + 1);
    Ok(())
}

// Whether the mark at a place says present.
pub fn marked(area: &[u8], at: usize) -> bool
    requires { at + 2 ≤ length area.now }
    ensures { result ≡ eqb (num 2 area.now at) 1 }
{
    get2(area, at) == 1
}
