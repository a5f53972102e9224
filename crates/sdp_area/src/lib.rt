// The record area: a session in bytes at fixed places that the caller lends. docs/AREA.md has its layout.
#![tactic(auto)]

ghost use Rattle.std.specs.Prelude.{◌≡◌, ◌++◌, ◌+◌, ◌*◌, ◌≤◌, ◌<◌, length, drop, eqb};
ghost use Rattle.sdp_numbers.specs.Tables.{most_media_connections, most_bandwidths, most_times, most_repeats, most_offsets, most_zones, most_attributes, most_medias};
ghost use Rattle.sdp_cells.specs.Bytes.{le, num, over, zeros};
ghost use Rattle.sdp_cells.specs.Tables.{pairs, grown, told};
ghost use Rattle.sdp_area.specs.Area.{size, span, opt, origin_bytes, connection_bytes, media_connection_row, bandwidth_row, time_row, repeat_row, offset_row, zone_row, attribute_row, media_row, origin_at, name_at, connection_at, phones_at, connections_at, bandwidths_at, times_at, repeats_at, offsets_at, zones_at, attributes_at, medias_at};
ghost use Rattle.sdp_area.specs.Columns.{area_size};
ghost use Rattle.sdp_area.specs.Latest.{over_title, mark_title};
ghost use Rattle.sdp_area.specs.Held.{origin_in_area, connection_in_area, media_in_area};
ghost use Rattle.sdp_area.specs.Which.{mark_text, over_text, contacts_at, most_contacts};

use sdp_builders::{Media, Origin};
use sdp_cells::{Full, get2, marked, push_words, put_words};
use sdp_lines::Span;

// Bytes of the area: the session's, and behind them the lines.
pub const AREA_SIZE: usize = 16938;

pub const ORIGIN: usize = 0;

pub const NAME: usize = 32;

pub const DESCRIPTION: usize = 36;

pub const URI: usize = 42;

pub const CONNECTION: usize = 48;

pub const KEY: usize = 62;

pub const EMAILS: usize = 74;

pub const PHONES: usize = 140;

pub const CONNECTIONS: usize = 206;

pub const BANDWIDTHS: usize = 1104;

pub const TIMES: usize = 2002;

pub const REPEATS: usize = 2516;

pub const OFFSETS: usize = 3670;

pub const ZONES: usize = 6232;

pub const ATTRIBUTES: usize = 7258;

pub const MEDIAS: usize = 13404;

pub const ORIGIN_LINE: usize = 14558;

pub const NAME_LINE: usize = 14560;

pub const DESCRIPTION_LINE: usize = 14562;

pub const URI_LINE: usize = 14564;

pub const CONNECTION_LINE: usize = 14566;

pub const KEY_LINE: usize = 14568;

pub const EMAIL_LINES: usize = 14570;

pub const PHONE_LINES: usize = 14602;

pub const CONNECTION_LINES: usize = 14634;

pub const BANDWIDTH_LINES: usize = 14762;

pub const TIME_LINES: usize = 14890;

pub const REPEAT_LINES: usize = 14954;

pub const OFFSET_LINES: usize = 15082;

pub const ZONE_LINES: usize = 15594;

pub const ATTRIBUTE_LINES: usize = 15722;

pub const MEDIA_LINES: usize = 16746;

pub const TITLE_LINES: usize = 16810;

pub const KEY_LINES: usize = 16874;

// A c line.
#[derive(Clone, Copy)]
pub struct Connection {
    pub nettype: Span,
    pub addrtype: Span,
    pub connection_address: Span,
}

// The strings that stand behind a mark: the i line of the session, the u line, and the i line of the latest media.
#[derive(Clone, Copy)]
pub enum Text {
    Description,
    Uri,
    Title,
}

// The tables whose rows are strings: e lines and p lines.
#[derive(Clone, Copy)]
pub enum Contact {
    Email,
    Phone,
}

// All of the area zero; what stands behind it stays.
pub fn clear(area: &mut [u8])
    requires { area_size ≤ length area.old }
    ensures { area.new ≡ zeros area_size ++ drop area_size area.old }
{
    area[..AREA_SIZE].fill(0);
}

// Numbers of two bytes each, over the latest media's title, mark and all; nothing where there is no media.
fn put_title(area: &mut [u8], ws: &[usize])
    requires { (size ≤ length area.old) × (length ws.now * 2 ≤ 6) }
    ensures { area.new ≡ over_title area.old (pairs ws.now) }
{
    let n = get2(area, MEDIAS);
    if n == 0 {
        return;
    }
    if 32 < n {
        return;
    }
    put_words(area, MEDIAS + (2 + ((n - 1) * 36 + 18)), ws);
}

// Whether the latest media has a title; false where there is no media.
fn has_title(area: &[u8]) -> bool
    requires { size ≤ length area.now }
    ensures { result ≡ mark_title area.now }
{
    let n = get2(area, MEDIAS);
    if n == 0 {
        return false;
    }
    if 32 < n {
        return false;
    }
    marked(area, MEDIAS + (2 + ((n - 1) * 36 + 18)))
}

// A number of eight bytes as words of two, the lower first.
fn words(v: u64) -> [usize; 4]
    ensures { pairs result ≡ le 8 v }
{
    [
        v as usize,
        (v / 65536) as usize,
        (v / 4294967296) as usize,
        (v / 281474976710656) as usize,
    ]
}

// The mark, the place and the length of a string that may be absent.
fn string_words(x: Option<Span>) -> [usize; 3]
    ensures { pairs result ≡ opt 4 span x }
{
    match x {
        Some(x) => [1, x.at.0, x.len],
        None => [0, 0, 0],
    }
}

// The mark and the value of a number that may be absent.
fn number_words(x: Option<usize>) -> [usize; 2]
    ensures { pairs result ≡ opt 2 (le 2) x }
{
    match x {
        Some(x) => [1, x],
        None => [0, 0],
    }
}

// Where the table of such lines begins.
fn contacts_at(which: Contact) -> usize
    ensures value { result ≡ contacts_at which }
    ensures upper_bound { result ≤ phones_at }
{
    match which {
        Contact::Email => EMAILS,
        Contact::Phone => PHONES,
    }
}

// Each table has a push of its own, and not one generic one: each is its promise and one row, and a trait of rows would say both again.
// An e or a p line.
pub fn push_contact(area: &mut [u8], which: Contact, x: Span) -> Result<(), Full>
    requires { size ≤ length area.old }
    ensures value { result ≡ told area.old (contacts_at which) (most_contacts which) }
    ensures area_after { area.new ≡ grown area.old (contacts_at which) (most_contacts which) (span x) }
{
    let row = [x.at.0, x.len];
    push_words(area, contacts_at(which), 16, &row)
}

// A c line of a media.
pub fn push_connection(area: &mut [u8], owner: usize, c: Connection) -> Result<(), Full>
    requires { size ≤ length area.old }
    ensures value { result ≡ told area.old connections_at most_media_connections }
    ensures area_after { area.new ≡ grown area.old connections_at most_media_connections (media_connection_row (record { owner = owner; connection = connection_in_area c })) }
{
    let Connection {
        nettype,
        addrtype,
        connection_address,
    } = c;
    let row = [
        owner,
        nettype.at.0,
        nettype.len,
        addrtype.at.0,
        addrtype.len,
        connection_address.at.0,
        connection_address.len,
    ];
    push_words(area, CONNECTIONS, 64, &row)
}

// A b line.
pub fn push_bandwidth(
    area: &mut [u8],
    owner: usize,
    bwtype: Span,
    bandwidth: u64,
) -> Result<(), Full>
    requires { size ≤ length area.old }
    ensures value { result ≡ told area.old bandwidths_at most_bandwidths }
    ensures area_after { area.new ≡ grown area.old bandwidths_at most_bandwidths (bandwidth_row (record { owner = owner; bwtype = bwtype; bandwidth = bandwidth })) }
{
    let [a, b, c, d] = words(bandwidth);
    let row = [owner, bwtype.at.0, bwtype.len, a, b, c, d];
    push_words(area, BANDWIDTHS, 64, &row)
}

// A t line.
pub fn push_time(area: &mut [u8], start: u64, stop: u64) -> Result<(), Full>
    requires { size ≤ length area.old }
    ensures value { result ≡ told area.old times_at most_times }
    ensures area_after { area.new ≡ grown area.old times_at most_times (time_row (record { start_time = start; stop_time = stop })) }
{
    let [a, b, c, d] = words(start);
    let [e, f, g, h] = words(stop);
    let row = [a, b, c, d, e, f, g, h];
    push_words(area, TIMES, 32, &row)
}

// An r line, without its offsets.
pub fn push_repeat(area: &mut [u8], owner: usize, interval: u64, duration: u64) -> Result<(), Full>
    requires { size ≤ length area.old }
    ensures value { result ≡ told area.old repeats_at most_repeats }
    ensures area_after { area.new ≡ grown area.old repeats_at most_repeats (repeat_row (record { owner = owner; repeat_interval = interval; active_duration = duration })) }
{
    let [a, b, c, d] = words(interval);
    let [e, f, g, h] = words(duration);
    let row = [owner, a, b, c, d, e, f, g, h];
    push_words(area, REPEATS, 64, &row)
}

// An offset of an r line.
pub fn push_offset(area: &mut [u8], owner: usize, offset: u64) -> Result<(), Full>
    requires { size ≤ length area.old }
    ensures value { result ≡ told area.old offsets_at most_offsets }
    ensures area_after { area.new ≡ grown area.old offsets_at most_offsets (offset_row (record { owner = owner; offset = offset })) }
{
    let [a, b, c, d] = words(offset);
    let row = [owner, a, b, c, d];
    push_words(area, OFFSETS, 256, &row)
}

// A pair of the z line.
pub fn push_zone(area: &mut [u8], adjustment: u64, offset: u64) -> Result<(), Full>
    requires { size ≤ length area.old }
    ensures value { result ≡ told area.old zones_at most_zones }
    ensures area_after { area.new ≡ grown area.old zones_at most_zones (zone_row (record { adjustment_time = adjustment; offset = offset })) }
{
    let [a, b, c, d] = words(adjustment);
    let [e, f, g, h] = words(offset);
    let row = [a, b, c, d, e, f, g, h];
    push_words(area, ZONES, 64, &row)
}

// An a line.
pub fn push_attribute(
    area: &mut [u8],
    owner: usize,
    name: Span,
    value: Option<Span>,
) -> Result<(), Full>
    requires { size ≤ length area.old }
    ensures value { result ≡ told area.old attributes_at most_attributes }
    ensures area_after { area.new ≡ grown area.old attributes_at most_attributes (attribute_row (record { owner = owner; attribute = name; value = value })) }
{
    let [there, at, len] = string_words(value);
    let row = [owner, name.at.0, name.len, there, at, len];
    push_words(area, ATTRIBUTES, 512, &row)
}

// An m line. It has no title and no key yet.
pub fn push_media(area: &mut [u8], m: Media) -> Result<(), Full>
    requires { size ≤ length area.old }
    ensures value { result ≡ told area.old medias_at most_medias }
    ensures area_after { area.new ≡ grown area.old medias_at most_medias (media_row (media_in_area m)) }
{
    let Media {
        media,
        port,
        num_ports,
        proto,
        fmt,
    } = m;
    let [there, ports] = number_words(num_ports);
    let row = [
        media.at.0, media.len, port, there, ports, proto.at.0, proto.len, fmt.at.0, fmt.len, 0, 0,
        0, 0, 0, 0, 0, 0, 0,
    ];
    push_words(area, MEDIAS, 32, &row)
}

// The o line.
pub fn set_origin(area: &mut [u8], o: Origin)
    requires { size ≤ length area.old }
    ensures { area.new ≡ over area.old origin_at (le 2 1 ++ origin_bytes (origin_in_area o)) }
{
    let Origin {
        username,
        sess_id,
        sess_version,
        nettype,
        addrtype,
        unicast_address,
    } = o;
    let [there, at, len] = string_words(username);
    let [a, b, c, d] = words(sess_version);
    let row = [
        1,
        there,
        at,
        len,
        sess_id.at.0,
        sess_id.len,
        a,
        b,
        c,
        d,
        nettype.at.0,
        nettype.len,
        addrtype.at.0,
        addrtype.len,
        unicast_address.at.0,
        unicast_address.len,
    ];
    put_words(area, ORIGIN, &row);
}

// The s line.
pub fn set_name(area: &mut [u8], x: Span)
    requires { size ≤ length area.old }
    ensures { area.new ≡ over area.old name_at (span x) }
{
    let row = [x.at.0, x.len];
    put_words(area, NAME, &row);
}

// A string behind its mark.
pub fn set_text(area: &mut [u8], which: Text, x: Span)
    requires { size ≤ length area.old }
    ensures { area.new ≡ over_text which area.old (le 2 1 ++ span x) }
{
    let row = [1, x.at.0, x.len];
    match which {
        Text::Description => put_words(area, DESCRIPTION, &row),
        Text::Uri => put_words(area, URI, &row),
        Text::Title => put_title(area, &row),
    }
}

// The c line of the session.
pub fn set_connection(area: &mut [u8], c: Connection)
    requires { size ≤ length area.old }
    ensures { area.new ≡ over area.old connection_at (le 2 1 ++ connection_bytes (connection_in_area c)) }
{
    let Connection {
        nettype,
        addrtype,
        connection_address,
    } = c;
    let row = [
        1,
        nettype.at.0,
        nettype.len,
        addrtype.at.0,
        addrtype.len,
        connection_address.at.0,
        connection_address.len,
    ];
    put_words(area, CONNECTION, &row);
}

// Whether there was an o line.
pub fn has_origin(area: &[u8]) -> bool
    requires { size ≤ length area.now }
    ensures { result ≡ eqb (num 2 area.now origin_at) 1 }
{
    marked(area, ORIGIN)
}

// Whether there was such a line.
pub fn has_text(area: &[u8], which: Text) -> bool
    requires { size ≤ length area.now }
    ensures { result ≡ mark_text which area.now }
{
    match which {
        Text::Description => marked(area, DESCRIPTION),
        Text::Uri => marked(area, URI),
        Text::Title => has_title(area),
    }
}

// Whether there was a c line of the session.
pub fn has_connection(area: &[u8]) -> bool
    requires { size ≤ length area.now }
    ensures { result ≡ eqb (num 2 area.now connection_at) 1 }
{
    marked(area, CONNECTION)
}

// How many times there are.
pub fn times(area: &[u8]) -> usize
    requires { size ≤ length area.now }
    ensures { (result ≡ num 2 area.now times_at) × (result < 65536) }
{
    get2(area, TIMES)
}

// How many offsets there are.
pub fn offsets(area: &[u8]) -> usize
    requires { size ≤ length area.now }
    ensures { (result ≡ num 2 area.now offsets_at) × (result < 65536) }
{
    get2(area, OFFSETS)
}

// How many repeats there are.
pub fn repeats(area: &[u8]) -> usize
    requires { size ≤ length area.now }
    ensures { (result ≡ num 2 area.now repeats_at) × (result < 65536) }
{
    get2(area, REPEATS)
}

// How many medias there are.
pub fn medias(area: &[u8]) -> usize
    requires { size ≤ length area.now }
    ensures { (result ≡ num 2 area.now medias_at) × (result < 65536) }
{
    get2(area, MEDIAS)
}
