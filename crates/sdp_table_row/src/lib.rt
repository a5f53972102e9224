// One row of a table of a session, put into an output, after writer.rs. p is a place in the area; what is read from there on lies in it.
#![tactic(auto)]

ghost use Rattle.std.specs.Prelude.{[], ◌∷◌, ◌++◌, ◌+◌, ◌≤◌, length};
ghost use Rattle.sdp_lines.specs.Strings.{bytes_of};
ghost use Rattle.sdp_put.specs.Puts.{Puts};
ghost use Rattle.sdp_put.specs.Digits.{time_text};
ghost use Rattle.sdp_put.specs.Strings.{clean};
ghost use Rattle.sdp_decode.specs.Rows.{marked};
ghost use Rattle.sdp_decode.specs.Decode.{span_of, bandwidth_of, offset_of, zone_of, attribute_of};
ghost use Rattle.sdp_row.specs.Written.{spaced, optional, signed_text, between, zone_text, bandwidth_line, attribute_line};

use sdp_cells::{get2, get8};
use sdp_put::Out;
use sdp_row::{Source, put_spaced_time, put_string};

pub fn put_bandwidth(out: &mut Out<'_>, s: Source<'_>, p: usize)
    requires { p + 14 ≤ length s.area.now }
    ensures { Puts out.old (bandwidth_line (bytes_of s.entry.text.now) (bandwidth_of s.entry.area.now p)) out.new }
{
    out.two(b'b', b'=');
    put_string(out, s, p + 2);
    out.byte(b':');
    out.number(get8(s.area, p + 6) as u64);
    out.two(13, 10);
}

// A colon and a value, where it is present.
fn put_value(out: &mut Out<'_>, s: Source<'_>, p: usize)
    requires { p + 6 ≤ length s.area.now }
    ensures { Puts out.old (optional (λ x. (0x3a ∷ []) ++ clean (bytes_of s.entry.text.now x)) (marked span_of s.entry.area.now p)) out.new }
{
    if get2(s.area, p) != 0 {
        out.byte(b':');
        put_string(out, s, p + 2);
    }
}

pub fn put_attribute(out: &mut Out<'_>, s: Source<'_>, p: usize)
    requires { p + 12 ≤ length s.area.now }
    ensures { Puts out.old (attribute_line (bytes_of s.entry.text.now) (attribute_of s.entry.area.now p)) out.new }
{
    out.two(b'a', b'=');
    put_string(out, s, p + 2);
    put_value(out, s, p + 6);
    out.two(13, 10);
}

// An offset of an r line.
pub fn put_offset(out: &mut Out<'_>, s: Source<'_>, p: usize)
    requires { p + 10 ≤ length s.area.now }
    ensures { Puts out.old (spaced (time_text (offset_of s.entry.area.now p).offset)) out.new }
{
    put_spaced_time(out, get8(s.area, p + 2) as u64);
}

// The 64 bits of a signed number: the magnitude of -2^63 has no signed number of its own.
fn put_signed(out: &mut Out<'_>, v: u64)
    ensures { Puts out.old (signed_text v) out.new }
{
    if 0x8000_0000_0000_0000 <= v {
        return out.offset(true, 0xffff_ffff_ffff_ffff - v + 1);
    }
    out.offset(false, v);
}

// A space between the pairs.
fn put_between(out: &mut Out<'_>, k: usize)
    ensures { Puts out.old (between k) out.new }
{
    if k == 1 {
        return;
    }
    out.byte(b' ');
}

// One pair of the z line.
pub fn put_zone(out: &mut Out<'_>, s: Source<'_>, k: usize, p: usize)
    requires { p + 16 ≤ length s.area.now }
    ensures { Puts out.old (zone_text k (zone_of s.entry.area.now p)) out.new }
{
    put_between(out, k);
    out.number(get8(s.area, p) as u64);
    out.byte(b' ');
    put_signed(out, get8(s.area, p + 8) as u64);
}
