// The lines of a session that its tables give, put into an output, after writer.rs.
#![tactic(auto)]

ghost use Rattle.std.specs.Prelude.{◌≡◌, ℕ, List, ◌+◌, ◌≤◌, length, true};
ghost use Rattle.sdp_lines.specs.Strings.{bytes_of};
ghost use Rattle.sdp_cells.specs.Bytes.{num};
ghost use Rattle.sdp_valid.specs.Judge.{owners};
ghost use Rattle.sdp_valid.specs.Counted.{Counted, Inside};
ghost use Rattle.sdp_put.specs.Puts.{Puts};
ghost use Rattle.sdp_decode.specs.Rows.{each, each_at};
ghost use Rattle.sdp_decode.specs.Decode.{time_of, repeat_of, media_of, times_in, repeats_in, offsets_in, zones_in, decode};
ghost use Rattle.sdp_row.specs.Written.{repeat_line, time_lines, times_lines, zones_line, bandwidths_of, attributes_of, media_lines, contact_lines, closing_lines};
ghost use Rattle.sdp_tables.specs.Tables.{own, NeverFall, Parted};

use sdp_area::{
    ATTRIBUTES, BANDWIDTHS, CONNECTIONS, EMAILS, MEDIAS, OFFSETS, PHONES, REPEATS, TIMES, ZONES,
};
use sdp_cells::{get2, get8};
use sdp_put::Out;
use sdp_row::{
    Source, put_connection, put_maybe_line, put_media_line, put_session_connection,
    put_spaced_time, put_string_line, put_time_line,
};
use sdp_table_row::{put_attribute, put_bandwidth, put_offset, put_zone};

// The rows of the table at base, of w bytes each: row k at p as put_row does.
fn put_rows<F: Fn(&mut Out<'_>, usize, usize)>(
    out: &mut Out<'_>,
    area: &[u8],
    base: usize,
    w: usize,
    put_row: F,
)
    ghost text: { ℕ → ℕ → List ℕ }
    requires inside { Inside area.now base w }
    requires called { (o : _) (k p : ℕ) → p + w ≤ length area.now → F.pre put_row o k p }
    requires tells { (o : _) (k p : ℕ) (r : _) (o' : _) → F.post put_row o k p r o' → Puts o.now (text k p) o'.now }
    ensures { Puts out.old (each_at text w (num 2 area.now base) 1 (base + 2)) out.new }
{
    let mut p = base + 2;
    for i in 0..get2(area, base) {
        put_row(out, i + 1, p);
        p += w;
    }
}

// Of the rows lo to hi of the table at base, the first whose owner is n or a later one, by halves: at most ten calls deep. By hand, since
// std's `partition_point` is for slices, and the rows are no slice of anything.
fn first_of(area: &[u8], base: usize, w: usize, n: usize, lo: usize, hi: usize) -> usize
    requires le_w { (2 ≤ w) × Inside area.now base w × (lo ≤ hi) × (hi ≤ num 2 area.now base) }
    requires never_fall { NeverFall area.now base w }
    ensures { Parted area.now base w n lo hi result }
{
    if hi <= lo {
        return lo;
    }
    let mid = lo + (hi - lo) / 2;
    if get2(area, base + 2 + mid * w) < n {
        return first_of(area, base, w, n, mid + 1, hi);
    }
    first_of(area, base, w, n, lo, mid)
}

// Of these rows those of the owner n. They stand together, since owners never fall.
fn put_mine_of<F: Fn(&mut Out<'_>, usize, usize)>(
    out: &mut Out<'_>,
    area: &[u8],
    base: usize,
    w: usize,
    n: usize,
    put_row: F,
)
    ghost text: { ℕ → ℕ → List ℕ }
    requires inside { (2 ≤ w) × Inside area.now base w }
    requires never_fall { NeverFall area.now base w }
    requires called { (o : _) (k p : ℕ) → p + w ≤ length area.now → F.pre put_row o k p }
    requires tells { (o : _) (k p : ℕ) (r : _) (o' : _) → F.post put_row o k p r o' → Puts o.now (text k p) o'.now }
    ensures { Puts out.old (each_at (own area.now n text) w (num 2 area.now base) 1 (base + 2)) out.new }
{
    let count = get2(area, base);
    let first = first_of(area, base, w, n, 0, count);
    let mut p = base + 2 + first * w;
    for i in first..count {
        if get2(area, p) != n {
            return;
        }
        put_row(out, i + 1, p);
        p += w;
    }
}

// The r line with number k and its offsets.
fn put_repeat(out: &mut Out<'_>, s: Source<'_>, k: usize, p: usize)
    requires p_in_bounds { p + 18 ≤ length s.area.now }
    requires counted { Counted s.area.now }
    requires area_value { owners s.area.now ≡ true }
    ensures { Puts out.old (repeat_line (offsets_in s.entry.area.now) k (repeat_of s.entry.area.now p)) out.new }
{
    out.two(b'r', b'=');
    out.time(get8(s.area, p + 2) as u64);
    put_spaced_time(out, get8(s.area, p + 10) as u64);
    put_mine_of(
        out,
        s.area,
        OFFSETS,
        10,
        k,
        |out, _, p| put_offset(out, s, p),
    );
    out.two(13, 10);
}

// The t line with number k and its r lines.
fn put_time_lines(out: &mut Out<'_>, s: Source<'_>, k: usize, p: usize)
    requires p_in_bounds { p + 16 ≤ length s.area.now }
    requires counted { Counted s.area.now }
    requires area_value { owners s.area.now ≡ true }
    ensures { Puts out.old (time_lines (repeats_in s.entry.area.now) (offsets_in s.entry.area.now) k (time_of s.entry.area.now p)) out.new }
{
    put_time_line(out, s.area, p);
    put_mine_of(out, s.area, REPEATS, 18, k, |out, k, p| {
        put_repeat(out, s, k, p)
    });
}

fn put_times(out: &mut Out<'_>, s: Source<'_>)
    requires counted { Counted s.area.now }
    requires area_value { owners s.area.now ≡ true }
    ensures { Puts out.old (times_lines (repeats_in s.entry.area.now) (offsets_in s.entry.area.now) (times_in s.entry.area.now)) out.new }
{
    if get2(s.area, TIMES) == 0 {
        return out.all(b"t=0 0\r\n");
    }
    put_rows(
        out,
        s.area,
        TIMES,
        16,
        |out, k, p| put_time_lines(out, s, k, p),
    );
}

// e, p, c, b, each t with its r lines.
pub fn put_contact(out: &mut Out<'_>, s: Source<'_>)
    requires counted { Counted s.area.now }
    requires area_value { owners s.area.now ≡ true }
    ensures { Puts out.old (contact_lines (bytes_of s.entry.text.now) (decode s.entry.area.now)) out.new }
{
    put_rows(
        out,
        s.area,
        EMAILS,
        4,
        |out, _, p| put_string_line(out, b'e', s, p),
    );
    put_rows(
        out,
        s.area,
        PHONES,
        4,
        |out, _, p| put_string_line(out, b'p', s, p),
    );
    put_session_connection(out, s);
    put_bandwidths(out, s, 0);
    put_times(out, s);
}

fn put_zone_line(out: &mut Out<'_>, s: Source<'_>)
    requires { Counted s.area.now }
    ensures { Puts out.old (zones_line (zones_in s.entry.area.now)) out.new }
{
    if get2(s.area, ZONES) == 0 {
        return;
    }
    out.two(b'z', b'=');
    put_rows(out, s.area, ZONES, 16, |out, k, p| put_zone(out, s, k, p));
    out.two(13, 10);
}

// The b lines of the owner n: 0 is the session.
fn put_bandwidths(out: &mut Out<'_>, s: Source<'_>, n: usize)
    requires counted { Counted s.area.now }
    requires area_value { owners s.area.now ≡ true }
    ensures { Puts out.old (bandwidths_of (bytes_of s.entry.text.now) (decode s.entry.area.now).tables.bandwidths n) out.new }
{
    put_mine_of(
        out,
        s.area,
        BANDWIDTHS,
        14,
        n,
        |out, _, p| put_bandwidth(out, s, p),
    );
}

// The a lines of the owner n.
fn put_attributes(out: &mut Out<'_>, s: Source<'_>, n: usize)
    requires counted { Counted s.area.now }
    requires area_value { owners s.area.now ≡ true }
    ensures { Puts out.old (attributes_of (bytes_of s.entry.text.now) (decode s.entry.area.now).tables.attributes n) out.new }
{
    put_mine_of(
        out,
        s.area,
        ATTRIBUTES,
        12,
        n,
        |out, _, p| put_attribute(out, s, p),
    );
}

// z, a.
pub fn put_closing(out: &mut Out<'_>, s: Source<'_>)
    requires counted { Counted s.area.now }
    requires area_value { owners s.area.now ≡ true }
    ensures { Puts out.old (closing_lines (bytes_of s.entry.text.now) (decode s.entry.area.now)) out.new }
{
    put_zone_line(out, s);
    put_attributes(out, s, 0);
}

// The m line with number k, and i, c, b and a of this media.
fn put_media(out: &mut Out<'_>, s: Source<'_>, k: usize, p: usize)
    requires p_in_bounds { p + 24 ≤ length s.area.now }
    requires counted { Counted s.area.now }
    requires area_value { owners s.area.now ≡ true }
    ensures { Puts out.old (media_lines (bytes_of s.entry.text.now) (decode s.entry.area.now).tables k (media_of s.entry.area.now p)) out.new }
{
    put_media_line(out, s, p);
    put_maybe_line(out, b'i', s, p + 18);
    put_mine_of(out, s.area, CONNECTIONS, 14, k, |out, _, p| {
        put_connection(out, s, p + 2)
    });
    put_bandwidths(out, s, k);
    put_attributes(out, s, k);
}

pub fn put_medias(out: &mut Out<'_>, s: Source<'_>)
    requires counted { Counted s.area.now }
    requires area_value { owners s.area.now ≡ true }
    ensures { Puts out.old (each (media_lines (bytes_of s.entry.text.now) (decode s.entry.area.now).tables) 1 (decode s.entry.area.now).tables.medias) out.new }
{
    put_rows(out, s.area, MEDIAS, 36, |out, k, p| put_media(out, s, k, p));
}
