// Document 02, P9: whether no line in the cells of an area is above the limit, judged on any bytes.
#![tactic(auto)]

ghost use Rattle.std.specs.Prelude.{◌≡◌, ◌+◌, ◌*◌, ◌≤◌, length};
ghost use Rattle.sdp_cells.specs.Bytes.{num};
ghost use Rattle.sdp_area.specs.Area.{medias_at};
ghost use Rattle.sdp_area.specs.Columns.{area_size};
ghost use Rattle.sdp_valid.specs.Counted.{Counted};
ghost use Rattle.sdp_stamp_valid.specs.Fine.{fine_line, fine_field, fine_column, fine_marks, fine_fields, fine_columns, media_columns, fine_lines};

use sdp_area::{
    ATTRIBUTE_LINES, ATTRIBUTES, BANDWIDTH_LINES, BANDWIDTHS, CONNECTION, CONNECTION_LINE,
    CONNECTION_LINES, CONNECTIONS, DESCRIPTION, DESCRIPTION_LINE, EMAIL_LINES, EMAILS, KEY,
    KEY_LINE, KEY_LINES, MEDIA_LINES, MEDIAS, NAME_LINE, OFFSET_LINES, OFFSETS, ORIGIN,
    ORIGIN_LINE, PHONE_LINES, PHONES, REPEAT_LINES, REPEATS, TIME_LINES, TIMES, TITLE_LINES, URI,
    URI_LINE, ZONE_LINES, ZONES,
};
use sdp_cells::{get2, marked};
use sdp_valid::every_at;

// The line in a cell.
#[tactic(auto, unfolding(crate::specs::Fine::fine_line))]
fn fine_line(area: &[u8], p: usize) -> bool
    requires { p + 2 ≤ length area.now }
    ensures { result ≡ fine_line area.now p }
{
    get2(area, p) <= 32768
}

// The line of a field, by its mark. What is absent is not judged.
#[tactic(auto, unfolding(crate::specs::Fine::fine_field))]
fn fine_field(area: &[u8], mark: usize, p: usize) -> bool
    requires { (mark + 2 ≤ length area.now) × (p + 2 ≤ length area.now) }
    ensures { result ≡ fine_field area.now mark p }
{
    !marked(area, mark) || fine_line(area, p)
}

// The lines of the table at base, whose column begins at a place.
fn fine_column(area: &[u8], base: usize, at: usize) -> bool
    requires { (base + 2 ≤ length area.now) × (at + num 2 area.now base * 2 ≤ length area.now) }
    ensures { result ≡ fine_column area.now base at }
{
    every_at(get2(area, base), 2, at, |p| fine_line(area, p))
}

// The lines of a field of each media; the mark of the first one stands at a place, and so does its line.
fn fine_marks(area: &[u8], mark: usize, at: usize) -> bool
    requires { (medias_at + 2 ≤ length area.now) × ((mark + num 2 area.now medias_at * 36 ≤ length area.now) × (at + num 2 area.now medias_at * 2 ≤ length area.now)) }
    ensures { result ≡ fine_marks area.now (num 2 area.now medias_at) mark at }
{
    let n = get2(area, MEDIAS);
    for i in 0..n {
        if !fine_field(area, mark + i * 36, at + i * 2) {
            return false;
        }
    }
    true
}

#[tactic(auto, unfolding(crate::specs::Fine::fine_fields))]
fn fine_fields(area: &[u8]) -> bool
    requires { area_size ≤ length area.now }
    ensures { result ≡ fine_fields area.now }
{
    fine_field(area, ORIGIN, ORIGIN_LINE)
        && fine_line(area, NAME_LINE)
        && fine_field(area, DESCRIPTION, DESCRIPTION_LINE)
        && fine_field(area, URI, URI_LINE)
        && fine_field(area, CONNECTION, CONNECTION_LINE)
        && fine_field(area, KEY, KEY_LINE)
}

#[tactic(auto, unfolding(crate::specs::Fine::fine_columns))]
fn fine_columns(area: &[u8]) -> bool
    requires { Counted area.now × (area_size ≤ length area.now) }
    ensures { result ≡ fine_columns area.now }
{
    fine_column(area, EMAILS, EMAIL_LINES)
        && fine_column(area, PHONES, PHONE_LINES)
        && fine_column(area, CONNECTIONS, CONNECTION_LINES)
        && fine_column(area, BANDWIDTHS, BANDWIDTH_LINES)
        && fine_column(area, TIMES, TIME_LINES)
        && fine_column(area, REPEATS, REPEAT_LINES)
        && fine_column(area, OFFSETS, OFFSET_LINES)
        && fine_column(area, ZONES, ZONE_LINES)
        && fine_column(area, ATTRIBUTES, ATTRIBUTE_LINES)
        && fine_column(area, MEDIAS, MEDIA_LINES)
}

// Titles and keys: their marks stand at 18 and at 24 of a media's row.
#[tactic(auto, unfolding(crate::specs::Fine::media_columns))]
fn media_columns(area: &[u8]) -> bool
    requires { Counted area.now × (area_size ≤ length area.now) }
    ensures { result ≡ media_columns area.now }
{
    fine_marks(area, MEDIAS + 20, TITLE_LINES) && fine_marks(area, MEDIAS + 26, KEY_LINES)
}

// Whether every line of a counted row and of a present field is at most the limit.
#[tactic(auto, unfolding(crate::specs::Fine::fine_lines))]
pub fn lines_fine(area: &[u8]) -> bool
    requires { Counted area.now × (area_size ≤ length area.now) }
    ensures { result ≡ fine_lines area.now }
{
    fine_fields(area) && fine_columns(area) && media_columns(area)
}
