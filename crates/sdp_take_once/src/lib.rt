// Document 01, module 4: a line that a session or a media has at most once.
#![tactic(auto)]

ghost use Rattle.std.specs.Prelude.{◌≡◌, ◌+◌, ◌≤◌, length};
ghost use Rattle.sdp_numbers.specs.Refusals.{longest_text};
ghost use Rattle.sdp_area.specs.Area.{size};
ghost use Rattle.sdp_step.specs.Hold.{Reads};
ghost use Rattle.sdp_take_once.specs.Onces.{text_role, text_number, text_field, once_role};

use sdp_area::{
    Text, has_connection, has_origin, has_text, set_connection, set_name, set_origin, set_text,
};
use sdp_fields::{Connection, Origin};
use sdp_judge::{Wrong, whole};
use sdp_roles::Role;
use sdp_step::Marks;
use sdp_strings::{maybe_of, span_of};

// An o line.
fn take_origin(area: &mut [u8], v: &[u8], at: usize, marks: Marks) -> Result<Marks, Wrong>
    requires { (size ≤ length area.old) × (at + length v.now ≤ longest_text) }
    ensures { Reads Role.Origin at v.now marks result area.old area.new }
{
    if has_origin(area) {
        return Err(Wrong {
            number: 12,
            field: 0,
            at: 0,
        });
    }
    let o = Origin::parse(v)?;
    let username = maybe_of(at, o.username);
    let sess_id = span_of(at, o.sess_id);
    let nettype = span_of(at, o.nettype);
    let addrtype = span_of(at, o.addrtype);
    let address = span_of(at, o.unicast_address);
    let origin = sdp_builders::Origin {
        username,
        sess_id,
        sess_version: o.sess_version,
        nettype,
        addrtype,
        unicast_address: address,
    };
    set_origin(area, origin);
    Ok(marks)
}

// An s line.
fn take_name(area: &mut [u8], v: &[u8], at: usize, marks: Marks) -> Result<Marks, Wrong>
    requires { (size ≤ length area.old) × (at + length v.now ≤ longest_text) }
    ensures { Reads Role.Name at v.now marks result area.old area.new }
{
    if marks.named {
        return Err(Wrong {
            number: 13,
            field: 0,
            at: 0,
        });
    }
    let p = whole(v, 34)?;
    let x = span_of(at, p);
    set_name(area, x);
    Ok(Marks {
        named: true,
        zoned: marks.zoned,
    })
}

// The refusal number of a second text.
fn text_number(which: Text) -> u64
    ensures { result ≡ text_number which }
{
    match which {
        Text::Description => 14,
        Text::Uri => 15,
        Text::Title => 18,
    }
}

// The field that a text is refused at.
fn text_field(which: Text) -> u64
    ensures { result ≡ text_field which }
{
    match which {
        Text::Description => 35,
        Text::Uri => 36,
        Text::Title => 33,
    }
}

// An i or a u line before the first m, or an i line of a media.
fn take_text(
    area: &mut [u8],
    v: &[u8],
    at: usize,
    marks: Marks,
    which: Text,
) -> Result<Marks, Wrong>
    requires { (size ≤ length area.old) × (at + length v.now ≤ longest_text) }
    ensures { Reads (text_role which) at v.now marks result area.old area.new }
{
    if has_text(area, which) {
        return Err(Wrong {
            number: text_number(which),
            field: 0,
            at: 0,
        });
    }
    let p = whole(v, text_field(which))?;
    let x = span_of(at, p);
    set_text(area, which, x);
    Ok(marks)
}

// A c line before the first m.
fn take_connection(area: &mut [u8], v: &[u8], at: usize, marks: Marks) -> Result<Marks, Wrong>
    requires { (size ≤ length area.old) × (at + length v.now ≤ longest_text) }
    ensures { Reads Role.Connection at v.now marks result area.old area.new }
{
    if has_connection(area) {
        return Err(Wrong {
            number: 16,
            field: 0,
            at: 0,
        });
    }
    let c = Connection::parse(v)?;
    let nettype = span_of(at, c.nettype);
    let addrtype = span_of(at, c.addrtype);
    let address = span_of(at, c.connection_address);
    let connection = sdp_area::Connection {
        nettype,
        addrtype,
        connection_address: address,
    };
    set_connection(area, connection);
    Ok(marks)
}

// What a session or a media has at most once.
#[derive(Clone, Copy)]
pub enum Once {
    Origin,
    Name,
    Text(Text),
    Connection,
}

// Its line.
pub fn take_once(
    area: &mut [u8],
    v: &[u8],
    at: usize,
    marks: Marks,
    what: Once,
) -> Result<Marks, Wrong>
    requires { (size ≤ length area.old) × (at + length v.now ≤ longest_text) }
    ensures { Reads (once_role what) at v.now marks result area.old area.new }
{
    match what {
        Once::Origin => take_origin(area, v, at, marks),
        Once::Name => take_name(area, v, at, marks),
        Once::Text(which) => take_text(area, v, at, marks, which),
        Once::Connection => take_connection(area, v, at, marks),
    }
}
