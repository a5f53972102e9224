// Document 01, module 4: one line, taken from plain parameters.
#![tactic(auto)]

ghost use Rattle.std.specs.Prelude.{◌≡◌, ◌+◌, ◌≤◌, length};
ghost use Rattle.sdp_numbers.specs.Refusals.{longest_text};
ghost use Rattle.sdp_area.specs.Area.{size};
ghost use Rattle.sdp_step.specs.Hold.{Tells, role_in};
ghost use Rattle.sdp_line.specs.Version.{opening_of};

use sdp_cutter::{Line, made};
use sdp_judge::Wrong;
use sdp_lines::{Answer, LineNumber, Place};
use sdp_step::Marks;
use sdp_take::take_line;

// A line is taken apart, and what it says goes into the area.
fn take_of<'t>(
    area: &mut [u8],
    at: Place,
    marks: Marks,
    line: Line<'t>,
) -> Result<Option<Marks>, Wrong>
    requires { (size ≤ length area.old) × (at.0 + length line.value.now ≤ longest_text) }
    ensures { Tells (role_in line.entry.letter) at.0 line.entry.value.now
        marks result area.old area.new }
{
    take_line(area, at, marks, line.letter, line.value)
}

// A line is made here, and handed on.
pub fn take(
    area: &mut [u8],
    at: Place,
    marks: Marks,
    number: LineNumber,
    letter: u8,
    value: &[u8],
) -> Result<Option<Marks>, Wrong>
    requires { (size ≤ length area.old) × (at.0 + length value.now ≤ longest_text) }
    ensures { Tells (role_in letter) at.0 value.now marks result area.old area.new }
{
    take_of(area, at, marks, made(number, letter, value))
}

// Whether the first line that is not empty says v=0, as it must. Its value stands at a place of the text.
fn opening_at(at: Place, number: LineNumber, letter: u8, value: &[u8]) -> Result<(), Answer>
    ensures { result ≡ opening_of number.0 at.0 letter value.now }
{
    if letter != b'v' {
        return Err(Answer::plain(6));
    }
    let bad = Answer {
        place: at.0 as u64,
        len: value.len() as u64,
        ..Answer::on_line(7, number, 0)
    };
    if value.len() != 1 {
        return Err(bad);
    }
    if value[0] == b'0' {
        return Ok(());
    }
    Err(bad)
}

// The same of a line, which is taken apart.
fn opening_of<'t>(at: Place, line: Line<'t>) -> Result<(), Answer>
    ensures { result ≡ opening_of line.entry.number.0 at.0 line.entry.letter line.entry.value.now }
{
    opening_at(at, line.number, line.letter, line.value)
}

// The same from plain parameters, as `take`.
pub fn opening_line(at: Place, number: LineNumber, letter: u8, value: &[u8]) -> Result<(), Answer>
    ensures { result ≡ opening_of number.0 at.0 letter value.now }
{
    opening_of(at, made(number, letter, value))
}
