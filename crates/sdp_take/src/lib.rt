// Document 01, module 4: what one line does to the session in the area.
#![tactic(auto)]

ghost use Rattle.std.specs.Prelude.{◌≡◌, ◌+◌, ◌≤◌, length};
ghost use Rattle.sdp_numbers.specs.Refusals.{longest_text};
ghost use Rattle.sdp_area.specs.Area.{size};
ghost use Rattle.sdp_step.specs.Hold.{Tells, role_in};
ghost use Rattle.sdp_take.specs.Shapes.{shape_role, told};

use sdp_area::{Contact, Text, medias};
use sdp_judge::Wrong;
use sdp_lines::Place;
use sdp_roles::{Role, role_at};
use sdp_step::Marks;
use sdp_take_list::{take_repeat, take_zone};
use sdp_take_once::{Once, take_once};
use sdp_take_row::{Row, take_row};

// How a line is taken.
#[derive(Clone, Copy)]
enum Shape {
    Once(Once),
    Row(Row),
    Repeat,
    Zone,
    // no Option around the others: each of sixteen arms would say Some, as in Role
    Nothing,
}

// How a line of a role is taken.
fn shape_of(role: Role) -> Shape
    ensures { role ≡ shape_role result }
{
    match role {
        Role::Origin => Shape::Once(Once::Origin),
        Role::Name => Shape::Once(Once::Name),
        Role::Description => Shape::Once(Once::Text(Text::Description)),
        Role::Uri => Shape::Once(Once::Text(Text::Uri)),
        Role::Email => Shape::Row(Row::Contact(Contact::Email)),
        Role::Phone => Shape::Row(Row::Contact(Contact::Phone)),
        Role::Connection => Shape::Once(Once::Connection),
        Role::Bandwidth => Shape::Row(Row::Bandwidth),
        Role::Time => Shape::Row(Row::Time),
        Role::Repeat => Shape::Repeat,
        Role::Zone => Shape::Zone,
        Role::Attribute => Shape::Row(Row::Attribute),
        Role::Media => Shape::Row(Row::Media),
        Role::MediaTitle => Shape::Once(Once::Text(Text::Title)),
        Role::MediaConnection => Shape::Row(Row::MediaConnection),
        Role::Nothing => Shape::Nothing,
    }
}

// What was taken of a line with a use.
fn told(r: Result<Marks, Wrong>) -> Result<Option<Marks>, Wrong>
    ensures { result ≡ told r }
{
    r.map(Some)
}

// A line by its role. The match is the paper's list, one arm each, and made once for a line: no loop goes over it.
fn take_role(
    area: &mut [u8],
    v: &[u8],
    at: usize,
    marks: Marks,
    role: Role,
) -> Result<Option<Marks>, Wrong>
    requires { (size ≤ length area.old) × (at + length v.now ≤ longest_text) }
    ensures { Tells (λ ρ. role) at v.now marks result area.old area.new }
{
    match shape_of(role) {
        Shape::Once(what) => told(take_once(area, v, at, marks, what)),
        Shape::Row(what) => told(take_row(area, v, at, marks, what)),
        Shape::Repeat => told(take_repeat(area, v, at, marks)),
        Shape::Zone => told(take_zone(area, v, at, marks)),
        Shape::Nothing => Ok(None),
    }
}

// A line of good form, whose value stands at a place of the text.
pub fn take_line(
    area: &mut [u8],
    at: Place,
    marks: Marks,
    letter: u8,
    value: &[u8],
) -> Result<Option<Marks>, Wrong>
    requires { (size ≤ length area.old) × (at.0 + length value.now ≤ longest_text) }
    ensures { Tells (role_in letter) at.0 value.now marks result area.old area.new }
{
    let role = role_at(medias(area), letter);
    take_role(area, value, at.0, marks, role)
}
