// Document 02, P3, "When will it start?": the starts of a session in a window. The list is made in three lent arrays of 256 numbers each.
#![tactic(auto)]

ghost use Rattle.std.specs.Prelude.{◌≡◌, true, [], ◌+◌, ◌<◌, length};
ghost use Rattle.sdp_cells.specs.Bytes.{num};
ghost use Rattle.sdp_decode.specs.Rows.{each, mine};
ghost use Rattle.sdp_decode.specs.Decode.{time_of, repeat_of, offset_of, repeats_in, offsets_in, zones_in};
ghost use Rattle.sdp_hours.specs.Hours.{rise};
ghost use Rattle.sdp_hours.specs.Starts.{once, refused, starts_text};
ghost use Rattle.sdp_window.specs.Parts.{until};
ghost use Rattle.sdp_listing.specs.Columns.{columns, held};
ghost use Rattle.sdp_starts.specs.Fill.{Fills, Puts, Roomy, owns_at};
ghost use Rattle.sdp_starts.specs.Fill.{part_of, before_of, series_of, repeat_in, time_in, found_in, time_by, repeat_by, time_for, whose_by};
ghost use Rattle.sdp_starts.specs.Returned.{returned};

use sdp_area::{OFFSETS, REPEATS, TIMES, ZONES};
use sdp_decode::{num2, num8};
use sdp_listing::{Listing, Whose};
use sdp_unfit::unfit;
use sdp_window::{Part, Series, Window, run_in_part};

// The longest list: "29 more than 256 starts".
const MOST: usize = 256;

// The answer: the list in rising order, ties by time, then repeat. After a refusal, and from count on, all numbers are 0.
#[repr(C)]
#[derive(Drop)]
pub struct Starts {
    pub number: u64,
    pub count: u64,
    pub at: [u64; 256],
    pub time: [u64; 256],
    pub repeat: [u64; 256],
}

// When a repeat begins and ends, and how often it comes.
#[derive(Clone, Copy)]
pub struct Rule {
    pub start: u64,
    pub stop: u64,
    pub interval: u64,
}

// There are more than 256 starts.
#[derive(Clone, Copy, Debug, PartialEq, Eq)]
struct TooMany;

// A time with a start: its number, and when it starts and stops.
#[derive(Clone, Copy)]
struct Timed {
    number: u64,
    start: u64,
    stop: u64,
}

// What is asked for: the starts of the session of an area, whose adjustment times rise, in a window.
#[derive(Drop)]
struct Asked<'a> {
    area: &'a [u8],
    window: Window,
    ghost rises: { rise 0 (zones_in area.now) ≡ true },
}

// The starts of a series that lie in a part of the line of time.
fn put_part(list: &mut Listing, whose: Whose, s: Series, p: Part, w: Window) -> Result<(), TooMany>
    requires { Roomy (held list.old) }
    ensures { Puts list.old (part_of whose s p w) list.new result }
{
    let run = run_in_part(s, p, w);
    let Some(room) = MOST.checked_sub(list.len) else {
        return Err(TooMany);
    };
    if (room as u64) < run.count {
        return Err(TooMany);
    }
    list.put_run(whose, s.interval, run);
    Ok(())
}

// The earlier of an end, 0 for none, and a.
fn until(end: u64, a: u64) -> u64
    ensures { result ≡ until end a }
{
    if end == 0 { a } else { a.min(end) }
}

// The part before the adjustment time a: before 0 there is nothing.
fn put_before(
    list: &mut Listing,
    whose: Whose,
    s: Series,
    p: Part,
    a: u64,
    w: Window,
) -> Result<(), TooMany>
    requires { Roomy (held list.old) }
    ensures { Puts list.old (before_of whose s p a w) list.new result }
{
    if a == 0 {
        return Ok(());
    }
    let q = Part {
        after: p.after,
        end: until(p.end, a),
        zone: p.zone,
    };
    put_part(list, whose, s, q, w)
}

// A time without repeats.
fn put_once(list: &mut Listing, t: Timed, w: Window) -> Result<(), TooMany>
    requires { Roomy (held list.old) }
    ensures { Puts list.old (once [] [] [] w.from w.to t.number (time_for t.start t.stop)) list.new result }
{
    let whose = Whose {
        time: t.number,
        repeat: 0,
    };
    let s = Series {
        start: t.start,
        offset: 0,
        interval: 0,
    };
    let p = Part {
        after: 0,
        end: t.stop,
        zone: 0,
    };
    put_part(list, whose, s, p, w)
}

// Whether a row of the table at base, of w bytes, belongs to n.
fn owns(area: &[u8], base: usize, w: usize, n: u64) -> bool
    requires { (base < 20000) × (w < 40) }
    ensures { result ≡ owns_at area.now w n (num 2 area.now base) (base + 2) }
{
    let rows = num2(area, base);
    let mut p = base + 2;
    for i in 0..rows {
        if num2(area, p) as u64 == n {
            return true;
        }
        p += w;
    }
    false
}

impl Asked<'_> {
    // A repeat with one offset, part by part between the adjustment times.
    fn put_series(
        &self,
        list: &mut Listing,
        whose: Whose,
        rule: Rule,
        offset: u64,
    ) -> Result<(), TooMany>
        requires { Roomy (held list.old) }
        ensures { Puts list.old (series_of self.now.area.now whose rule offset self.now.window) list.new result }
    {
        let zones = num2(self.area, ZONES);
        let s = Series {
            start: rule.start,
            offset,
            interval: rule.interval,
        };
        let stop = rule.stop;
        let w = self.window;
        let mut after: u64 = 0;
        let mut zone: u64 = 0;
        let mut q = ZONES + 2;
        for i in 0..zones {
            let a = num8(self.area, q);
            let p = Part {
                after,
                end: stop,
                zone,
            };
            put_before(list, whose, s, p, a, w)?;
            after = a;
            zone = num8(self.area, q + 8);
            q += 16;
        }
        let last = Part {
            after,
            end: stop,
            zone,
        };
        put_part(list, whose, s, last, w)
    }

    // The offset of the row at p, where it is one of this repeat.
    fn put_offset(
        &self,
        list: &mut Listing,
        whose: Whose,
        rule: Rule,
        p: usize,
    ) -> Result<(), TooMany>
        requires roomy { Roomy (held list.old) }
        requires near { p < 4000000 }
        ensures { Puts list.old (mine whose.repeat (offset_of self.now.area.now p).owner (series_of self.now.area.now whose rule (offset_of self.now.area.now p).offset self.now.window)) list.new result }
    {
        if num2(self.area, p) as u64 != whose.repeat {
            return Ok(());
        }
        let offset = num8(self.area, p + 2);
        self.put_series(list, whose, rule, offset)
    }

    // All offsets of a repeat.
    fn put_offsets(&self, list: &mut Listing, whose: Whose, rule: Rule) -> Result<(), TooMany>
        requires { Roomy (held list.old) }
        ensures { Puts list.old (each (λ k o. mine whose.repeat o.owner (series_of self.now.area.now whose rule o.offset self.now.window)) 1 (offsets_in self.now.area.now)) list.new result }
    {
        let rows = num2(self.area, OFFSETS);
        let mut p = OFFSETS + 2;
        for k in 0..rows {
            self.put_offset(list, whose, rule, p)?;
            p += 10;
        }
        Ok(())
    }

    // A repeat: "one offset of 0 where none is written".
    fn put_repeat(&self, list: &mut Listing, whose: Whose, rule: Rule) -> Result<(), TooMany>
        requires { Roomy (held list.old) }
        ensures { Puts list.old (repeat_in self.now.area.now self.now.window whose.time (time_by rule) whose.repeat (repeat_by whose.time rule)) list.new result }
    {
        if owns(self.area, OFFSETS, 10, whose.repeat) {
            return self.put_offsets(list, whose, rule);
        }
        self.put_series(list, whose, rule, 0)
    }

    // Repeat j, the row at p, where it is one of the time.
    fn put_own_repeat(&self, list: &mut Listing, t: Timed, j: u64, p: usize) -> Result<(), TooMany>
        requires roomy { Roomy (held list.old) }
        requires near { p < 4000000 }
        ensures { Puts list.old (mine t.number (repeat_of self.now.area.now p).owner (repeat_in self.now.area.now self.now.window t.number (time_for t.start t.stop) j (repeat_of self.now.area.now p))) list.new result }
    {
        if num2(self.area, p) as u64 != t.number {
            return Ok(());
        }
        let whose = Whose {
            time: t.number,
            repeat: j,
        };
        let rule = Rule {
            start: t.start,
            stop: t.stop,
            interval: num8(self.area, p + 2),
        };
        self.put_repeat(list, whose, rule)
    }

    // All repeats of a time.
    fn put_repeats(&self, list: &mut Listing, t: Timed) -> Result<(), TooMany>
        requires { Roomy (held list.old) }
        ensures { Puts list.old (each (λ j r. mine t.number r.owner (repeat_in self.now.area.now self.now.window t.number (time_for t.start t.stop) j r)) 1 (repeats_in self.now.area.now)) list.new result }
    {
        let rows = num2(self.area, REPEATS);
        let mut p = REPEATS + 2;
        for j in 0..rows {
            self.put_own_repeat(list, t, (j + 1) as u64, p)?;
            p += 18;
        }
        Ok(())
    }

    // Time i, the row at p: "A start time of 0 is unbounded and lists nothing".
    fn put_time(&self, list: &mut Listing, i: u64, p: usize) -> Result<(), TooMany>
        requires roomy { Roomy (held list.old) }
        requires near { p < 4000000 }
        ensures { Puts list.old (time_in self.now.area.now self.now.window i (time_of self.now.area.now p)) list.new result }
    {
        let start = num8(self.area, p);
        if start == 0 {
            return Ok(());
        }
        let t = Timed {
            number: i,
            start,
            stop: num8(self.area, p + 8),
        };
        if owns(self.area, REPEATS, 18, i) {
            return self.put_repeats(list, t);
        }
        put_once(list, t, self.window)
    }

    // All times.
    fn put_times(&self, list: &mut Listing) -> Result<(), TooMany>
        requires { Roomy (held list.old) }
        ensures { Puts list.old (found_in self.now.area.now self.now.window) list.new result }
    {
        let rows = num2(self.area, TIMES);
        let mut p = TIMES + 2;
        for i in 0..rows {
            self.put_time(list, (i + 1) as u64, p)?;
            p += 16;
        }
        Ok(())
    }
}

// Whether no adjustment time is below the one before it.
fn zones_rise(area: &[u8]) -> bool
    ensures { result ≡ rise 0 (zones_in area.now) }
{
    let rows = num2(area, ZONES);
    let mut p = ZONES + 2;
    let mut last: u64 = 0;
    for i in 0..rows {
        let a = num8(area, p);
        if a < last {
            return false;
        }
        last = a;
        p += 16;
    }
    true
}

// "The returned list is zero after any refusal".
fn refused(number: u64) -> Starts
    ensures { result ≡ returned (refused number) }
{
    Starts {
        number,
        count: 0,
        at: [0; 256],
        time: [0; 256],
        repeat: [0; 256],
    }
}

// A column of the list, as the answer has it.
fn column(xs: &[u64]) -> &[u64; 256]
    requires { length xs.now ≡ 256 }
    ensures { result.now ≡ xs.now }
{
    xs.try_into().unwrap()
}

// The starts of the session of an area, whose strings stand in the text, in a window: from included, to excluded.
pub fn starts_in(text: &[u8], area: &[u8], from: u64, to: u64) -> Starts
    ensures { result ≡ returned (starts_text text.now area.now from to) }
{
    if let Err(why) = unfit(text, area) {
        return refused(why.into());
    }
    if !zones_rise(area) {
        return refused(28);
    }
    let mut at: [u64; 256] = [0; 256];
    let mut time: [u64; 256] = [0; 256];
    let mut repeat: [u64; 256] = [0; 256];
    let asked = Asked {
        area,
        window: Window { from, to },
    };
    let mut list = Listing {
        at: &mut at,
        time: &mut time,
        repeat: &mut repeat,
        len: 0,
    };
    if let Err(_) = asked.put_times(&mut list) {
        return refused(29);
    }
    if MOST < list.len {
        return refused(29);
    }
    Starts {
        number: 0,
        count: list.len as u64,
        at: *column(list.at),
        time: *column(list.time),
        repeat: *column(list.repeat),
    }
}
