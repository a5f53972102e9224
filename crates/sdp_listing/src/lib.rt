// A list of starts, kept in order in three lent arrays.
#![tactic(auto)]

ghost use Rattle.std.specs.Prelude.{◌≡◌, ◌+◌, ◌-◌, ◌*◌, ◌^◌, ◌≤◌, ◌<◌, length};
ghost use Rattle.sdp_hours.specs.Listing.{before};
ghost use Rattle.sdp_hours.specs.Starts.{numbered};
ghost use Rattle.sdp_window.specs.Run.{of_run};
ghost use Rattle.sdp_listing.specs.Columns.{columns, row_at, rows_from, place_of, shift_in, put_in, put_all, start_of, SameArrays};

use sdp_window::Run;

// A start with the numbers of its time and of its repeat. The derived order is the list's: "rising, ties by time, then repeat".
#[derive(Clone, Copy, Debug, PartialEq, Eq, PartialOrd, Ord)]
pub struct Entry {
    pub at: u64,
    pub time: u64,
    pub repeat: u64,
}

// Whose starts they are.
#[derive(Clone, Copy)]
pub struct Whose {
    pub time: u64,
    pub repeat: u64,
}

// The list: the first len numbers of each of the three arrays, which are C's columns.
#[derive(Drop)]
pub struct Listing<'a> {
    pub at: &'a mut [u64],
    pub time: &'a mut [u64],
    pub repeat: &'a mut [u64],
    pub len: usize,
}

// x may stand before y. Written out: the derived order compares each pair of fields to an Ordering first, which takes a third more time where many
// starts are equal.
fn comes_first(x: Entry, y: Entry) -> bool
    ensures { result ≡ before (start_of x) (start_of y) }
{
    if x.at != y.at {
        return x.at < y.at;
    }
    if x.time != y.time {
        return x.time < y.time;
    }
    x.repeat <= y.repeat
}

// v at place p; what stands from there on, up to place n, moves up by one.
fn shift_in(a: &mut [u64], p: usize, n: usize, v: u64)
    requires { (p ≤ n) × (n < length a.old) }
    ensures { a.new ≡ shift_in p (n - p) v a.old }
{
    let mut x = v;
    for i in p..n {
        let y = a[i];
        a[i] = x;
        x = y;
    }
    a[n] = x;
}

impl Listing<'_> {
    // The start of row i.
    fn row(&self, i: usize) -> Entry
        requires { (i < length self.now.at.now) × (i < length self.now.time.now) × (i < length self.now.repeat.now) }
        ensures { start_of result ≡ row_at (columns self.now.at.now self.now.time.now self.now.repeat.now) i }
    {
        Entry {
            at: self.at[i],
            time: self.time[i],
            repeat: self.repeat[i],
        }
    }

    // How many of the starts stand before the place of x.
    fn place_of(&self, x: Entry) -> usize
        requires { (self.now.len ≤ length self.now.at.now) × (self.now.len ≤ length self.now.time.now) × (self.now.len ≤ length self.now.repeat.now) }
        ensures { (result ≡ place_of (start_of x) (rows_from (columns self.now.at.now self.now.time.now self.now.repeat.now) 0 self.now.len)) × (result ≤ self.now.len) }
    {
        for i in 0..self.len {
            if comes_first(x, self.row(i)) {
                return i;
            }
        }
        self.len
    }

    // One start more.
    fn put_in(&mut self, x: Entry)
        requires { (self.old.len < length self.old.at.now) × (self.old.len < length self.old.time.now) × (self.old.len < length self.old.repeat.now) }
        ensures columns { columns self.new.at.now self.new.time.now self.new.repeat.now ≡ put_in (columns self.old.at.now self.old.time.now self.old.repeat.now) self.old.len (start_of x) }
        ensures len { self.new.len ≡ self.old.len + 1 }
        ensures same { SameArrays self.old self.new }
    {
        let n = self.len;
        let p = self.place_of(x);
        shift_in(self.at, p, n, x.at);
        shift_in(self.time, p, n, x.time);
        shift_in(self.repeat, p, n, x.repeat);
        self.len = n + 1;
    }

    // All of a run, d apart.
    pub fn put_run(&mut self, whose: Whose, d: u64, run: Run)
        requires { (self.old.len + run.count ≤ length self.old.at.now) × (self.old.len + run.count ≤ length self.old.time.now) × (self.old.len + run.count ≤ length self.old.repeat.now) × (0 < run.count → run.first + (run.count - 1) * d < 2 ^ 64) }
        ensures columns { columns self.new.at.now self.new.time.now self.new.repeat.now ≡ put_all (columns self.old.at.now self.old.time.now self.old.repeat.now) self.old.len (numbered whose.time whose.repeat (of_run d run)) }
        ensures len { self.new.len ≡ self.old.len + run.count }
        ensures same { SameArrays self.old self.new }
    {
        let mut x = run.first;
        for k in 0..run.count {
            self.put_in(Entry {
                at: x,
                time: whose.time,
                repeat: whose.repeat,
            });
            x = x.saturating_add(d);
        }
    }
}
