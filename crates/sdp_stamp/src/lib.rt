// Document 02, P9: the number of a line, put into the cells of the records that were read from it.
#![tactic(auto)]

ghost use Rattle.std.specs.Prelude.{◌≡◌, [], ◌∷◌, ◌+◌, ◌*◌, ◌≤◌, length};
ghost use Rattle.sdp_cells.specs.Bytes.{over};
ghost use Rattle.sdp_cells.specs.Tables.{pairs};
ghost use Rattle.sdp_area.specs.Columns.{area_size};
ghost use Rattle.sdp_stamp.specs.Put.{put_latest, put_since, column_of, put_column};

use sdp_area::{
    ATTRIBUTE_LINES, ATTRIBUTES, BANDWIDTH_LINES, BANDWIDTHS, CONNECTION_LINE, CONNECTION_LINES,
    CONNECTIONS, DESCRIPTION_LINE, EMAIL_LINES, EMAILS, MEDIA_LINES, MEDIAS, NAME_LINE,
    OFFSET_LINES, OFFSETS, ORIGIN_LINE, PHONE_LINES, PHONES, REPEAT_LINES, REPEATS, TIME_LINES,
    TIMES, TITLE_LINES, URI_LINE, ZONE_LINES, ZONES,
};
use sdp_cells::{get2, put_words};
use sdp_roles::Role;

// Where a line's number goes: into the cell of a field, or of the latest row of the table at base. An r line has rows of two
// tables, a z line all zones.
#[derive(Clone, Copy)]
enum Column {
    Field(usize),
    Rows { base: usize, most: usize, at: usize },
    Repeat,
    Zone,
    // no Option around the others: as in Role, each of sixteen arms would say Some
    Nothing,
}

fn column_of(role: Role) -> Column
    ensures { result ≡ column_of role }
{
    match role {
        Role::Origin => Column::Field(ORIGIN_LINE),
        Role::Name => Column::Field(NAME_LINE),
        Role::Description => Column::Field(DESCRIPTION_LINE),
        Role::Uri => Column::Field(URI_LINE),
        Role::Email => Column::Rows {
            base: EMAILS,
            most: 16,
            at: EMAIL_LINES,
        },
        Role::Phone => Column::Rows {
            base: PHONES,
            most: 16,
            at: PHONE_LINES,
        },
        Role::Connection => Column::Field(CONNECTION_LINE),
        Role::Bandwidth => Column::Rows {
            base: BANDWIDTHS,
            most: 64,
            at: BANDWIDTH_LINES,
        },
        Role::Time => Column::Rows {
            base: TIMES,
            most: 32,
            at: TIME_LINES,
        },
        Role::Repeat => Column::Repeat,
        Role::Zone => Column::Zone,
        Role::Attribute => Column::Rows {
            base: ATTRIBUTES,
            most: 512,
            at: ATTRIBUTE_LINES,
        },
        Role::Media => Column::Rows {
            base: MEDIAS,
            most: 32,
            at: MEDIA_LINES,
        },
        Role::MediaTitle => Column::Rows {
            base: MEDIAS,
            most: 32,
            at: TITLE_LINES,
        },
        Role::MediaConnection => Column::Rows {
            base: CONNECTIONS,
            most: 64,
            at: CONNECTION_LINES,
        },
        Role::Nothing => Column::Nothing,
    }
}

// The number in the cell at a place.
fn put_line(area: &mut [u8], at: usize, line: usize)
    requires { at + 2 ≤ length area.old }
    ensures { area.new ≡ over area.old at (pairs (line ∷ [])) }
{
    let row = [line];
    put_words(area, at, &row);
}

// In the cell of the latest row of the table at base, whose column is at a place; nothing where there is no row.
fn put_latest(area: &mut [u8], base: usize, most: usize, at: usize, line: usize)
    requires { (base + 2 ≤ length area.old) × (at + most * 2 ≤ length area.old) }
    ensures { area.new ≡ put_latest base most at line area.old }
{
    let n = get2(area, base);
    if n == 0 {
        return;
    }
    if most < n {
        return;
    }
    put_line(area, at + (n - 1) * 2, line);
}

// In the cells of its rows from one on.
fn put_since(area: &mut [u8], base: usize, most: usize, at: usize, from: usize, line: usize)
    requires { (base + 2 ≤ length area.old) × (at + most * 2 ≤ length area.old) }
    ensures { area.new ≡ put_since base most at from line area.old }
{
    let n = get2(area, base);
    if most < n {
        return;
    }
    for i in from..n {
        put_line(area, at + i * 2, line);
    }
}

// The number of a line of a role, after the line was taken. Before it, there were that many offsets.
pub fn stamp(area: &mut [u8], role: Role, offsets: usize, line: usize)
    requires { area_size ≤ length area.old }
    ensures { area.new ≡ put_column (column_of role) offsets line area.old }
{
    match column_of(role) {
        Column::Field(at) => put_line(area, at, line),
        Column::Rows { base, most, at } => put_latest(area, base, most, at, line),
        Column::Repeat => {
            put_latest(area, REPEATS, 64, REPEAT_LINES, line);
            put_since(area, OFFSETS, 256, OFFSET_LINES, offsets, line);
        }
        Column::Zone => put_since(area, ZONES, 64, ZONE_LINES, 0, line),
        Column::Nothing => {}
    }
}
