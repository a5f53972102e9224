// The parts of a line and single lines of a session, put into an output, after writer.rs. p is a place in the area; what is read from there
// on lies in it.
// An m line, a c line and a line of one string are put by an Out of their own over the same slice: as all that sees it is inlined, its place
// stays in a register. The o line comes once.
#![tactic(auto)]

ghost use Rattle.std.specs.Prelude.{[], ◌∷◌, ◌++◌, ◌+◌, ◌≤◌, length};
ghost use Rattle.sdp_lines.specs.Strings.{bytes_of};
ghost use Rattle.sdp_area.specs.Area.{size, origin_at, connection_at};
ghost use Rattle.sdp_put.specs.Puts.{Puts};
ghost use Rattle.sdp_put.specs.Digits.{digits, time_text};
ghost use Rattle.sdp_put.specs.Strings.{clean};
ghost use Rattle.sdp_decode.specs.Rows.{marked};
ghost use Rattle.sdp_decode.specs.Decode.{num2, span_of, origin_of, connection_of, time_of, media_of};
ghost use Rattle.sdp_row.specs.Written.{line, spaced, optional, time_value, string_line, or_dash, username_text, origin_value, origin_line, connection_line, media_line};

use sdp_area::{CONNECTION, ORIGIN};
use sdp_cells::{get2, get8};
use sdp_put::Out;

// A session: its area, and the text that its strings lie in.
#[derive(Clone, Copy)]
pub struct Source<'a> {
    pub text: &'a [u8],
    pub area: &'a [u8],
}

// The string whose place and length stand at p.
#[inline(always)]
pub fn put_string(out: &mut Out<'_>, s: Source<'_>, p: usize)
    requires { p + 4 ≤ length s.area.now }
    ensures { Puts out.old (clean (bytes_of s.entry.text.now (span_of s.entry.area.now p))) out.new }
{
    let place = get2(s.area, p);
    let len = get2(s.area, p + 2);
    out.text(s.text, place, len);
}

// A line of one string.
pub fn put_string_line(out: &mut Out<'_>, letter: u8, s: Source<'_>, p: usize)
    requires { p + 4 ≤ length s.area.now }
    ensures { Puts out.old (string_line (bytes_of s.entry.text.now) letter (span_of s.entry.area.now p)) out.new }
{
    let mut own = Out {
        bytes: out.bytes,
        at: out.at,
    };
    own.two(letter, b'=');
    put_string(&mut own, s, p);
    own.two(13, 10);
    out.at = own.at;
}

// A line of one string, where it is present.
pub fn put_maybe_line(out: &mut Out<'_>, letter: u8, s: Source<'_>, p: usize)
    requires { p + 6 ≤ length s.area.now }
    ensures { Puts out.old (optional (string_line (bytes_of s.entry.text.now) letter) (marked span_of s.entry.area.now p)) out.new }
{
    if get2(s.area, p) == 0 {
        return;
    }
    put_string_line(out, letter, s, p + 2);
}

#[inline(always)]
fn put_spaced(out: &mut Out<'_>, s: Source<'_>, p: usize)
    requires { p + 4 ≤ length s.area.now }
    ensures { Puts out.old (spaced (clean (bytes_of s.entry.text.now (span_of s.entry.area.now p)))) out.new }
{
    out.byte(b' ');
    put_string(out, s, p);
}

fn put_spaced_number(out: &mut Out<'_>, v: u64)
    ensures { Puts out.old (spaced (digits v)) out.new }
{
    out.byte(b' ');
    out.number(v);
}

pub fn put_spaced_time(out: &mut Out<'_>, v: u64)
    ensures { Puts out.old (spaced (time_text v)) out.new }
{
    out.byte(b' ');
    out.time(v);
}

// A username, or - where it has no bytes: judged before anything is dropped from it.
fn put_name(out: &mut Out<'_>, s: Source<'_>, p: usize)
    requires { p + 4 ≤ length s.area.now }
    ensures { Puts out.old (or_dash (bytes_of s.entry.text.now (span_of s.entry.area.now p))) out.new }
{
    if get2(s.area, p + 2) == 0 {
        return out.byte(b'-');
    }
    if s.text.len() <= get2(s.area, p) {
        return out.byte(b'-');
    }
    put_string(out, s, p);
}

// A username that is absent is - too.
fn put_username(out: &mut Out<'_>, s: Source<'_>, p: usize)
    requires { p + 6 ≤ length s.area.now }
    ensures { Puts out.old (username_text (bytes_of s.entry.text.now) (marked span_of s.entry.area.now p)) out.new }
{
    if get2(s.area, p) == 0 {
        return out.byte(b'-');
    }
    put_name(out, s, p + 2);
}

fn put_origin_value(out: &mut Out<'_>, s: Source<'_>, p: usize)
    requires { p + 30 ≤ length s.area.now }
    ensures { Puts out.old (origin_value (bytes_of s.entry.text.now) (origin_of s.entry.area.now p)) out.new }
{
    put_username(out, s, p);
    put_spaced(out, s, p + 6);
    put_spaced_number(out, get8(s.area, p + 10) as u64);
    put_spaced(out, s, p + 18);
    put_spaced(out, s, p + 22);
    put_spaced(out, s, p + 26);
}

pub fn put_origin(out: &mut Out<'_>, s: Source<'_>)
    requires { size ≤ length s.area.now }
    ensures { Puts out.old (origin_line (bytes_of s.entry.text.now) (marked origin_of s.entry.area.now origin_at)) out.new }
{
    if get2(s.area, ORIGIN) == 0 {
        return out.all(b"o=- 0 0 IN IP4 0.0.0.0\r\n");
    }
    out.two(b'o', b'=');
    put_origin_value(out, s, ORIGIN + 2);
    out.two(13, 10);
}

pub fn put_connection(out: &mut Out<'_>, s: Source<'_>, p: usize)
    requires { p + 12 ≤ length s.area.now }
    ensures { Puts out.old (connection_line (bytes_of s.entry.text.now) (connection_of s.entry.area.now p)) out.new }
{
    let mut own = Out {
        bytes: out.bytes,
        at: out.at,
    };
    own.two(b'c', b'=');
    put_string(&mut own, s, p);
    put_spaced(&mut own, s, p + 4);
    put_spaced(&mut own, s, p + 8);
    own.two(13, 10);
    out.at = own.at;
}

pub fn put_session_connection(out: &mut Out<'_>, s: Source<'_>)
    requires { size ≤ length s.area.now }
    ensures { Puts out.old (optional (connection_line (bytes_of s.entry.text.now)) (marked connection_of s.entry.area.now connection_at)) out.new }
{
    if get2(s.area, CONNECTION) == 0 {
        return;
    }
    put_connection(out, s, CONNECTION + 2);
}

pub fn put_time_line(out: &mut Out<'_>, area: &[u8], p: usize)
    requires { p + 16 ≤ length area.now }
    ensures { Puts out.old (line 0x74 (time_value (time_of area.now p))) out.new }
{
    out.two(b't', b'=');
    out.number(get8(area, p) as u64);
    put_spaced_number(out, get8(area, p + 8) as u64);
    out.two(13, 10);
}

// A slash and the number of ports, where it is present.
fn put_ports(out: &mut Out<'_>, area: &[u8], p: usize)
    requires { p + 4 ≤ length area.now }
    ensures { Puts out.old (optional (λ n. (0x2f ∷ []) ++ digits n) (marked num2 area.now p)) out.new }
{
    if get2(area, p) == 0 {
        return;
    }
    out.byte(b'/');
    out.number(get2(area, p + 2) as u64);
}

pub fn put_media_line(out: &mut Out<'_>, s: Source<'_>, p: usize)
    requires { p + 18 ≤ length s.area.now }
    ensures { Puts out.old (media_line (bytes_of s.entry.text.now) (media_of s.entry.area.now p)) out.new }
{
    let mut own = Out {
        bytes: out.bytes,
        at: out.at,
    };
    own.two(b'm', b'=');
    put_string(&mut own, s, p);
    put_spaced_number(&mut own, get2(s.area, p + 4) as u64);
    put_ports(&mut own, s.area, p + 6);
    put_spaced(&mut own, s, p + 10);
    put_spaced(&mut own, s, p + 14);
    own.two(13, 10);
    out.at = own.at;
}
