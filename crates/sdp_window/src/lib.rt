// The numbers of an arithmetic progression that lie in a window, found without walking them: "start + k times interval + offset", while one
// zone offset holds. No sum wraps: what is below 0 or past 64 bits is told apart.
#![tactic(auto)]

ghost use Rattle.std.specs.Prelude.{◌≡◌, ◌+◌, ◌%◌, ◌<◌};
ghost use Rattle.sdp_hours.specs.Hours.{east, west};
ghost use Rattle.sdp_window.specs.Run.{gap, counted, run_of, sum_of, run_in, once_in, lowest, highest, end_of, part_run};

// The largest number of 64 bits.
const LAST: u64 = 18446744073709551615;
// The bits of the least signed number: from it on, the 64 bits of a zone offset are those of a negative one.
const LEAST: u64 = 9223372036854775808;

// count numbers: first, first + interval, and so on. Where there is none, both are 0. No Option: its definition is an equation on both
// numbers, and what lists a run goes on by its count alone.
#[derive(Drop)]
pub struct Run {
    pub first: u64,
    pub count: u64,
}

// start + offset, then on by the interval; with an interval of 0 it is one number.
#[derive(Clone, Copy)]
pub struct Series {
    pub start: u64,
    pub offset: u64,
    pub interval: u64,
}

// A part of the line of time that has one zone offset: from after on, and before end where that is not 0.
#[derive(Drop)]
pub struct Part {
    pub after: u64,
    pub end: u64,
    pub zone: u64,
}

// From included, to excluded.
#[derive(Clone, Copy)]
pub struct Window {
    pub from: u64,
    pub to: u64,
}

// A sum that may be below 0, by so much, or past 64 bits. No Result: of three answers two have a number, and a sum below 0 is no failure.
#[derive(Drop)]
pub enum Sum {
    Below(u64),
    At(u64),
    Above,
}

// a + b
fn plus(a: u64, b: u64) -> Sum
    ensures { result ≡ sum_of (a + b) 0 }
{
    match a.checked_add(b) {
        Some(v) => Sum::At(v),
        None => Sum::Above,
    }
}

// a + b + e
fn plus_east(a: u64, b: u64, e: u64) -> Sum
    ensures { result ≡ sum_of (a + b + e) 0 }
{
    match a.checked_add(b) {
        Some(v) => plus(v, e),
        None => Sum::Above,
    }
}

// a + b - w
fn less_west(a: u64, b: u64, w: u64) -> Sum
    ensures { result ≡ sum_of (a + b) w }
{
    if w <= a {
        return plus(a - w, b);
    }
    if w - a <= b {
        return Sum::At(b - (w - a));
    }
    Sum::Below(w - a - b)
}

// a + b + z, z as the 64 bits of a signed number
fn zoned(a: u64, b: u64, z: u64) -> Sum
    ensures { result ≡ sum_of (a + b + east z) (west z) }
{
    if LEAST <= z {
        return less_west(a, b, LAST - z + 1);
    }
    plus_east(a, b, z)
}

// The remainder of a + b, where both are remainders.
fn add_mod(a: u64, b: u64, d: u64) -> u64
    requires { (a < d) × (b < d) }
    ensures { result ≡ (a + b) % d }
{
    if a < d - b {
        return a + b;
    }
    a - (d - b)
}

// The progression from f on, below hi.
fn run_from(d: u64, hi: u64, f: u64) -> Run
    requires { 0 < d }
    ensures { result ≡ counted d hi f }
{
    if f < hi {
        return Run {
            first: f,
            count: (hi - 1 - f) / d + 1,
        };
    }
    Run { first: 0, count: 0 }
}

// The progression from the first number not below lo on, where r is what lo is past a number of it.
fn run_after(d: u64, lo: u64, hi: u64, r: u64) -> Run
    requires { r < d }
    ensures { result ≡ counted d hi (lo + gap d r) }
{
    if r == 0 {
        return run_from(d, hi, lo);
    }
    match lo.checked_add(d - r) {
        Some(first) => run_from(d, hi, first),
        None => Run { first: 0, count: 0 },
    }
}

// The progression from a on, in the window.
fn run_at(d: u64, lo: u64, hi: u64, a: u64) -> Run
    requires { 0 < d }
    ensures { result ≡ run_of d 0 lo hi a }
{
    if lo <= a {
        return run_from(d, hi, a);
    }
    run_after(d, lo, hi, (lo - a) % d)
}

// The progression from b below 0 on, in the window.
fn run_below(d: u64, lo: u64, hi: u64, b: u64) -> Run
    requires { 0 < d }
    ensures { result ≡ run_of d b lo hi 0 }
{
    run_after(d, lo, hi, add_mod(lo % d, b % d, d))
}

// The progression from a sum on, in the window.
fn run_in(sum: Sum, d: u64, lo: u64, hi: u64) -> Run
    requires { 0 < d }
    ensures { result ≡ run_in sum d lo hi }
{
    match sum {
        Sum::Below(b) => run_below(d, lo, hi, b),
        Sum::At(a) => run_at(d, lo, hi, a),
        Sum::Above => Run { first: 0, count: 0 },
    }
}

// The sum alone, where it lies in the window.
fn once_in(sum: Sum, lo: u64, hi: u64) -> Run
    ensures { result ≡ once_in sum lo hi }
{
    match sum {
        Sum::Below(_) => Run { first: 0, count: 0 },
        Sum::At(a) => {
            if (lo <= a) & (a < hi) {
                return Run { first: a, count: 1 };
            }
            Run { first: 0, count: 0 }
        }
        Sum::Above => Run { first: 0, count: 0 },
    }
}

// The greater of a number and a sum, as far as 64 bits.
#[tactic(auto, using(std::proofs::lemmas::Bool::Decides::nat_tests), unfolding(crate::specs::Run::lowest))]
fn lowest_of(from: u64, sum: Sum) -> u64
    ensures { result ≡ lowest from sum }
{
    match sum {
        Sum::Below(_) => from,
        Sum::At(v) => from.max(v),
        Sum::Above => LAST,
    }
}

// The lesser of a number and a sum, not below 0.
#[tactic(auto, using(std::proofs::lemmas::Bool::Decides::nat_tests), unfolding(crate::specs::Run::highest))]
fn highest_of(to: u64, sum: Sum) -> u64
    ensures { result ≡ highest to sum }
{
    match sum {
        Sum::Below(_) => 0,
        Sum::At(v) => to.min(v),
        Sum::Above => to,
    }
}

// The end of the window, where a part's end, 0 for none, may come before it.
fn window_end(end: u64, z: u64, to: u64) -> u64
    ensures { result ≡ end_of end (east z) (west z) to }
{
    if end == 0 {
        return to;
    }
    highest_of(to, zoned(end, 0, z))
}

// What of a series lies in a part of the line of time and, with its zone offset, in the window.
pub fn run_in_part(s: Series, p: Part, w: Window) -> Run
    ensures { result ≡ part_run s p w }
{
    let hi = window_end(p.end, p.zone, w.to);
    let lo = lowest_of(w.from, zoned(p.after, 0, p.zone));
    if hi <= lo {
        return Run { first: 0, count: 0 };
    }
    let sum = zoned(s.start, s.offset, p.zone);
    if s.interval == 0 {
        return once_in(sum, lo, hi);
    }
    run_in(sum, s.interval, lo, hi)
}
