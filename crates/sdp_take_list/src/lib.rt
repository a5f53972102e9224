// Document 01, module 4: the r and the z line, each with a list.
#![tactic(auto)]

ghost use Rattle.std.specs.Prelude.{◌≡◌, ◌+◌, ◌≤◌, length};
ghost use Rattle.sdp_numbers.specs.Refusals.{longest_text};
ghost use Rattle.sdp_numbers.specs.Tables.{most_offsets};
ghost use Rattle.sdp_cells.specs.Bytes.{num};
ghost use Rattle.sdp_cells.specs.Tables.{told, grown};
ghost use Rattle.sdp_area.specs.Area.{size, offset_row, times_at, offsets_at};
ghost use Rattle.sdp_step.specs.Hold.{Reads};
ghost use Rattle.sdp_take_list.specs.Repeats.{latest_of, full_table, repeat_room, offsets_told, room_after, area_after, TakesOffsets};

use sdp_area::{push_offset, push_repeat, push_zone, repeats, times};
use sdp_cells::Full;
use sdp_judge::Wrong;
use sdp_lists::{RepeatHead, Zone, repeat_offset};
use sdp_roles::Role;
use sdp_step::Marks;

// The latest time, by its number.
fn latest_time(area: &[u8]) -> Option<usize>
    requires { size ≤ length area.now }
    ensures { result ≡ latest_of (num 2 area.now times_at) }
{
    let n = times(area);
    if n == 0 {
        return None;
    }
    Some(n)
}

// The table that the records of an r line no longer fit in: of two full ones the lower number is named.
#[derive(Clone, Copy, Debug, PartialEq, Eq)]
enum Lacking {
    Repeats,
    Offsets,
}

// Its refusal.
fn full_table(x: Lacking) -> Wrong
    ensures { result ≡ full_table x }
{
    let field = match x {
        Lacking::Repeats => 6,
        Lacking::Offsets => 7,
    };
    Wrong {
        number: 21,
        field,
        at: 0,
    }
}

// The room after the repeat was pushed.
fn repeat_room(p: Result<(), Full>) -> Result<(), Lacking>
    ensures { result ≡ repeat_room p }
{
    p.map_err(|_| Lacking::Repeats)
}

// What is told after all offsets were read.
fn offsets_told(room: Result<(), Lacking>, marks: Marks) -> Result<Marks, Wrong>
    ensures { result ≡ offsets_told room marks }
{
    room.map(|_| marks).map_err(full_table)
}

// One offset more, where all fitted so far.
fn add_offset(
    area: &mut [u8],
    room: Result<(), Lacking>,
    owner: usize,
    value: u64,
) -> Result<(), Lacking>
    requires { size ≤ length area.old }
    ensures value { result ≡ room_after room (told area.old offsets_at most_offsets) }
    ensures area_after { area.new ≡ area_after room area.old (grown area.old offsets_at most_offsets (offset_row (record { owner = owner; offset = value }))) }
{
    room?;
    push_offset(area, owner, value).map_err(|_| Lacking::Offsets)
}

// The offsets of an r line from place `from` on; all are judged before a full table is told.
fn take_offsets(
    area: &mut [u8],
    v: &[u8],
    from: usize,
    owner: usize,
    first: Result<(), Lacking>,
    marks: Marks,
) -> Result<Marks, Wrong>
    requires { (size ≤ length area.old) × (from ≤ length v.now) }
    ensures { TakesOffsets v.now from owner first marks result area.old area.new }
{
    let mut room = first;
    let mut i = from;
    while let Some((value, next)) = repeat_offset(v, i)? {
        room = add_offset(area, room, owner, value);
        i = next;
    }
    offsets_told(room, marks)
}

// An r line. It belongs to the latest t; without one it is refused before its value is read.
pub fn take_repeat(area: &mut [u8], v: &[u8], at: usize, marks: Marks) -> Result<Marks, Wrong>
    requires { (size ≤ length area.old) × (at + length v.now ≤ longest_text) }
    ensures { Reads Role.Repeat at v.now marks result area.old area.new }
{
    let Some(time) = latest_time(area) else {
        return Err(Wrong {
            number: 20,
            field: 0,
            at: 0,
        });
    };
    let h = RepeatHead::parse(v)?;
    let owner = repeats(area) + 1;
    let p = push_repeat(area, time, h.repeat_interval, h.active_duration);
    take_offsets(area, v, h.next, owner, repeat_room(p), marks)
}

// The z line: pairs until a missing adjustment time ends the list with the pairs so far.
pub fn take_zone(area: &mut [u8], v: &[u8], at: usize, marks: Marks) -> Result<Marks, Wrong>
    requires { (size ≤ length area.old) × (at + length v.now ≤ longest_text) }
    ensures { Reads Role.Zone at v.now marks result area.old area.new }
{
    if marks.zoned {
        return Err(Wrong {
            number: 17,
            field: 0,
            at: 0,
        });
    }
    let mut i: usize = 0;
    let mut n: usize = 0;
    // no `while let`: the loop yields the count by break, the form that docs/FORMS.md asks for
    let pairs = loop {
        let Some((zone, next)) = Zone::parse(v, i)? else {
            break n;
        };
        // a pair past the table's end is judged and not stored
        let _ = push_zone(area, zone.adjustment_time, zone.offset);
        n += 1;
        i = next;
    };
    if 64 < pairs {
        return Err(Wrong {
            number: 21,
            field: 8,
            at: 0,
        });
    }
    Ok(Marks {
        named: marks.named,
        zoned: true,
    })
}
