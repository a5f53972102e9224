// Document 01, module 4: a line that is one row more of a table.
#![tactic(auto)]

ghost use Rattle.std.specs.Prelude.{◌≡◌, ◌+◌, ◌≤◌, length, cond, Some, None};
ghost use Rattle.sdp_numbers.specs.Refusals.{longest_text};
ghost use Rattle.sdp_area.specs.Area.{size};
ghost use Rattle.sdp_step.specs.Hold.{Reads};
ghost use Rattle.sdp_take_row.specs.Rows.{contact_role, contact_field, contact_table, row_role};

use sdp_area::{
    Contact, medias, push_attribute, push_bandwidth, push_connection, push_contact, push_media,
    push_time,
};
use sdp_fields::{Attribute, Bandwidth, Connection, Time};
use sdp_judge::{Wrong, whole};
use sdp_media_line::Media;
use sdp_roles::Role;
use sdp_step::{Marks, stored};
use sdp_strings::{maybe_of, span_of};

// The field that an e or a p line is refused at.
fn contact_field(which: Contact) -> u64
    ensures { result ≡ contact_field which }
{
    match which {
        Contact::Email => 37,
        Contact::Phone => 38,
    }
}

// The number of the table of such lines.
fn contact_table(which: Contact) -> u64
    ensures { result ≡ contact_table which }
{
    match which {
        Contact::Email => 1,
        Contact::Phone => 2,
    }
}

// An e or a p line.
fn take_contact(
    area: &mut [u8],
    v: &[u8],
    at: usize,
    marks: Marks,
    which: Contact,
) -> Result<Marks, Wrong>
    requires { (size ≤ length area.old) × (at + length v.now ≤ longest_text) }
    ensures { Reads (contact_role which) at v.now marks result area.old area.new }
{
    let p = whole(v, contact_field(which))?;
    let x = span_of(at, p);
    let p = push_contact(area, which, x);
    stored(p, contact_table(which), marks)
}

// A c line of a media.
fn take_media_connection(area: &mut [u8], v: &[u8], at: usize, marks: Marks) -> Result<Marks, Wrong>
    requires { (size ≤ length area.old) × (at + length v.now ≤ longest_text) }
    ensures { Reads Role.MediaConnection at v.now marks result area.old area.new }
{
    let c = Connection::parse(v)?;
    let nettype = span_of(at, c.nettype);
    let addrtype = span_of(at, c.addrtype);
    let address = span_of(at, c.connection_address);
    let owner = medias(area);
    let connection = sdp_area::Connection {
        nettype,
        addrtype,
        connection_address: address,
    };
    let p = push_connection(area, owner, connection);
    stored(p, 3, marks)
}

// A b line.
fn take_bandwidth(area: &mut [u8], v: &[u8], at: usize, marks: Marks) -> Result<Marks, Wrong>
    requires { (size ≤ length area.old) × (at + length v.now ≤ longest_text) }
    ensures { Reads Role.Bandwidth at v.now marks result area.old area.new }
{
    let b = Bandwidth::parse(v)?;
    let bwtype = span_of(at, b.bwtype);
    let owner = medias(area);
    let p = push_bandwidth(area, owner, bwtype, b.bandwidth);
    stored(p, 4, marks)
}

// A t line.
fn take_time(area: &mut [u8], v: &[u8], at: usize, marks: Marks) -> Result<Marks, Wrong>
    requires { (size ≤ length area.old) × (at + length v.now ≤ longest_text) }
    ensures { Reads Role.Time at v.now marks result area.old area.new }
{
    let t = Time::parse(v)?;
    let p = push_time(area, t.start_time, t.stop_time);
    stored(p, 5, marks)
}

// An a line.
fn take_attribute(area: &mut [u8], v: &[u8], at: usize, marks: Marks) -> Result<Marks, Wrong>
    requires { (size ≤ length area.old) × (at + length v.now ≤ longest_text) }
    ensures { Reads Role.Attribute at v.now marks result area.old area.new }
{
    let k = Attribute::parse(v)?;
    let name = span_of(at, k.attribute);
    let value = maybe_of(at, k.value);
    let owner = medias(area);
    let p = push_attribute(area, owner, name, value);
    stored(p, 9, marks)
}

// An m line.
fn take_media(area: &mut [u8], v: &[u8], at: usize, marks: Marks) -> Result<Marks, Wrong>
    requires { (size ≤ length area.old) × (at + length v.now ≤ longest_text) }
    ensures { Reads Role.Media at v.now marks result area.old area.new }
{
    let m = Media::parse_m_line(v)?;
    let media = span_of(at, m.media);
    let ports = ports_of(m.num_ports);
    let proto = span_of(at, m.proto);
    let fmt = span_of(at, m.fmt);
    let row = sdp_builders::Media {
        media,
        port: m.port as usize,
        num_ports: ports,
        proto,
        fmt,
    };
    let p = push_media(area, row);
    stored(p, 10, marks)
}

// The number of ports of an m line, as the area keeps it.
fn ports_of(n: Option<u64>) -> Option<usize>
    ensures { result ≡ n }
{
    Some(n? as usize)
}

// What is one row of a table.
#[derive(Clone, Copy)]
pub enum Row {
    Contact(Contact),
    MediaConnection,
    Bandwidth,
    Time,
    Attribute,
    Media,
}

// Its line.
pub fn take_row(
    area: &mut [u8],
    v: &[u8],
    at: usize,
    marks: Marks,
    what: Row,
) -> Result<Marks, Wrong>
    requires { (size ≤ length area.old) × (at + length v.now ≤ longest_text) }
    ensures { Reads (row_role what) at v.now marks result area.old area.new }
{
    match what {
        Row::Contact(which) => take_contact(area, v, at, marks, which),
        Row::MediaConnection => take_media_connection(area, v, at, marks),
        Row::Bandwidth => take_bandwidth(area, v, at, marks),
        Row::Time => take_time(area, v, at, marks),
        Row::Attribute => take_attribute(area, v, at, marks),
        Row::Media => take_media(area, v, at, marks),
    }
}
