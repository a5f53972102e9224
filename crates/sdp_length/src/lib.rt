// The length of what is written of an area, found without writing it: a sum over fields and rows. p is a place in the area.
#![tactic(auto)]

ghost use Rattle.std.specs.Prelude.{◌≡◌, true, [], ◌∷◌, ◌++◌, ℕ, ◌+◌, ◌≤◌, ◌<◌, length};
ghost use Rattle.sdp_area.specs.Area.{origin_at, connection_at, times_at, zones_at};
ghost use Rattle.sdp_lines.specs.Strings.{bytes_of};
ghost use Rattle.sdp_put.specs.Digits.{digits, time_text};
ghost use Rattle.sdp_put.specs.Strings.{clean};
ghost use Rattle.sdp_decode.specs.Rows.{marked};
ghost use Rattle.sdp_decode.specs.Decode.{num2, span_of, origin_of, connection_of, bandwidth_of, attribute_of, times_in, zones_in, decode};
ghost use Rattle.sdp_valid.specs.Judge.{owners};
ghost use Rattle.sdp_valid.specs.Counted.{Counted, Inside};
ghost use Rattle.sdp_row.specs.Written.{optional, signed_text, or_dash, string_line, username_text, origin_value, origin_line, connection_line, bandwidth_line, attribute_line, times_lines, zones_line, written};
ghost use Rattle.sdp_length.specs.Length.{contact_length, media_length, time_length, repeat_length, offset_length, zone_length, head_length, when_length, tables_length};

use sdp_area::{
    ATTRIBUTES, BANDWIDTHS, CONNECTION, CONNECTIONS, DESCRIPTION, EMAILS, MEDIAS, NAME, OFFSETS,
    ORIGIN, PHONES, REPEATS, TIMES, URI, ZONES,
};
use sdp_cells::{get2, get8};
use sdp_put::text_len;
use sdp_room::sum_rows;

fn digits_len(v: u64) -> usize
    ensures { (result ≡ length (digits v)) × (result ≤ 20) }
{
    if v < 10 {
        return 1;
    }
    if v < 100 {
        return 2;
    }
    if v < 1000 {
        return 3;
    }
    if v < 10000 {
        return 4;
    }
    4 + digits_len(v / 10000)
}

fn time_len(v: u64) -> usize
    ensures { (result ≡ length (time_text v)) × (result ≤ 21) }
{
    if v == 0 {
        return 1;
    }
    if v % 86400 == 0 {
        return 1 + digits_len(v / 86400);
    }
    if v % 3600 == 0 {
        return 1 + digits_len(v / 3600);
    }
    if v % 60 == 0 {
        return 1 + digits_len(v / 60);
    }
    digits_len(v)
}

// The 64 bits of a signed number.
fn signed_len(v: u64) -> usize
    ensures { (result ≡ length (signed_text v)) × (result ≤ 22) }
{
    if 0x8000_0000_0000_0000 <= v {
        return 1 + time_len(0xffff_ffff_ffff_ffff - v + 1);
    }
    time_len(v)
}

// What is measured: an area with its text. p is a place in the area.
#[derive(Clone, Copy)]
struct Source<'a> {
    text: &'a [u8],
    area: &'a [u8],
}

impl Source<'_> {
    // The string whose place and length stand at p.
    fn string_len(&self, p: usize) -> usize
        requires { p + 4 ≤ length self.now.area.now }
        ensures { (result ≡ length (clean (bytes_of self.now.text.now (span_of self.now.area.now p)))) × (result < 65536) }
    {
        let place = get2(self.area, p);
        let len = get2(self.area, p + 2);
        text_len(self.text, place, len)
    }

    // A line of one string, whatever its letter.
    fn line_len(&self, p: usize) -> usize
        requires { p + 4 ≤ length self.now.area.now }
        ensures { ((l : ℕ) → result ≡ length (string_line (bytes_of self.now.text.now) l (span_of self.now.area.now p))) × (result < 70000) }
    {
        4 + self.string_len(p)
    }

    // An e or a p line.
    fn contact_len(&self, p: usize) -> usize
        requires { p + 4 ≤ length self.now.area.now }
        ensures { (result ≡ contact_length self.now.text.now self.now.area.now p) × (result < 400000) }
    {
        self.line_len(p)
    }

    // A line of one string, where it is present.
    fn maybe_line_len(&self, p: usize) -> usize
        requires { p + 6 ≤ length self.now.area.now }
        ensures { ((l : ℕ) → result ≡ length (optional (string_line (bytes_of self.now.text.now) l) (marked span_of self.now.area.now p))) × (result < 70000) }
    {
        if get2(self.area, p) == 0 {
            return 0;
        }
        self.line_len(p + 2)
    }

    // A username, or - where it has no bytes: judged before anything is dropped from it.
    fn name_len(&self, p: usize) -> usize
        requires { p + 4 ≤ length self.now.area.now }
        ensures { (result ≡ length (or_dash (bytes_of self.now.text.now (span_of self.now.area.now p)))) × (result < 65536) }
    {
        if get2(self.area, p + 2) == 0 {
            return 1;
        }
        if self.text.len() <= get2(self.area, p) {
            return 1;
        }
        self.string_len(p)
    }

    // A username that is absent is - too.
    fn username_len(&self, p: usize) -> usize
        requires { p + 6 ≤ length self.now.area.now }
        ensures { (result ≡ length (username_text (bytes_of self.now.text.now) (marked span_of self.now.area.now p))) × (result < 65536) }
    {
        if get2(self.area, p) == 0 {
            return 1;
        }
        self.name_len(p + 2)
    }

    fn origin_value_len(&self, p: usize) -> usize
        requires { p + 30 ≤ length self.now.area.now }
        ensures { (result ≡ length (origin_value (bytes_of self.now.text.now) (origin_of self.now.area.now p))) × (result < 390000) }
    {
        5 + self.username_len(p)
            + self.string_len(p + 6)
            + digits_len(get8(self.area, p + 10) as u64)
            + self.string_len(p + 18)
            + self.string_len(p + 22)
            + self.string_len(p + 26)
    }

    fn origin_len(&self) -> usize
        requires { 32 ≤ length self.now.area.now }
        ensures { (result ≡ length (origin_line (bytes_of self.now.text.now) (marked origin_of self.now.area.now origin_at))) × (result < 400000) }
    {
        if get2(self.area, ORIGIN) == 0 {
            return 24;
        }
        4 + self.origin_value_len(ORIGIN + 2)
    }

    fn connection_len(&self, p: usize) -> usize
        requires { p + 12 ≤ length self.now.area.now }
        ensures { (result ≡ length (connection_line (bytes_of self.now.text.now) (connection_of self.now.area.now p))) × (result < 400000) }
    {
        6 + self.string_len(p) + self.string_len(p + 4) + self.string_len(p + 8)
    }

    // The c line of the session.
    fn session_connection_len(&self) -> usize
        requires { 62 ≤ length self.now.area.now }
        ensures { (result ≡ length (optional (connection_line (bytes_of self.now.text.now)) (marked connection_of self.now.area.now connection_at))) × (result < 400000) }
    {
        if get2(self.area, CONNECTION) == 0 {
            return 0;
        }
        self.connection_len(CONNECTION + 2)
    }

    fn bandwidth_len(&self, p: usize) -> usize
        requires { p + 14 ≤ length self.now.area.now }
        ensures { (result ≡ length (bandwidth_line (bytes_of self.now.text.now) (bandwidth_of self.now.area.now p))) × (result < 400000) }
    {
        5 + self.string_len(p + 2) + digits_len(get8(self.area, p + 6) as u64)
    }

    // A value that may be absent, with the colon before it.
    fn value_len(&self, p: usize) -> usize
        requires { p + 6 ≤ length self.now.area.now }
        ensures { (result ≡ length (optional (λ x. (0x3a ∷ []) ++ clean (bytes_of self.now.text.now x)) (marked span_of self.now.area.now p))) × (result < 70000) }
    {
        if get2(self.area, p) == 0 {
            return 0;
        }
        1 + self.string_len(p + 2)
    }

    fn attribute_len(&self, p: usize) -> usize
        requires { p + 12 ≤ length self.now.area.now }
        ensures { (result ≡ length (attribute_line (bytes_of self.now.text.now) (attribute_of self.now.area.now p))) × (result < 400000) }
    {
        4 + self.string_len(p + 2) + self.value_len(p + 6)
    }

    // A number of ports that may be absent, with the slash before it.
    fn ports_len(&self, p: usize) -> usize
        requires { p + 4 ≤ length self.now.area.now }
        ensures { (result ≡ length (optional (λ n. (0x2f ∷ []) ++ digits n) (marked num2 self.now.area.now p))) × (result ≤ 21) }
    {
        if get2(self.area, p) == 0 {
            return 0;
        }
        1 + digits_len(get2(self.area, p + 2) as u64)
    }

    // An m line with its title.
    fn media_len(&self, p: usize) -> usize
        requires { p + 36 ≤ length self.now.area.now }
        ensures { (result ≡ media_length self.now.text.now self.now.area.now p) × (result < 400000) }
    {
        7 + self.string_len(p)
            + digits_len(get2(self.area, p + 4) as u64)
            + self.ports_len(p + 6)
            + self.string_len(p + 10)
            + self.string_len(p + 14)
            + self.maybe_line_len(p + 18)
    }

    // A t line.
    fn time_line_len(&self, p: usize) -> usize
        requires { p + 16 ≤ length self.now.area.now }
        ensures { (result ≡ time_length self.now.area.now p) × (result < 400000) }
    {
        5 + digits_len(get8(self.area, p) as u64) + digits_len(get8(self.area, p + 8) as u64)
    }

    // An r line without its offsets.
    fn repeat_len(&self, p: usize) -> usize
        requires { p + 18 ≤ length self.now.area.now }
        ensures { (result ≡ repeat_length self.now.area.now p) × (result < 400000) }
    {
        5 + time_len(get8(self.area, p + 2) as u64) + time_len(get8(self.area, p + 10) as u64)
    }

    // An offset with the space before it.
    fn offset_len(&self, p: usize) -> usize
        requires { p + 10 ≤ length self.now.area.now }
        ensures { (result ≡ offset_length self.now.area.now p) × (result < 400000) }
    {
        1 + time_len(get8(self.area, p + 2) as u64)
    }

    // A pair of the z line with the space before it.
    fn zone_len(&self, p: usize) -> usize
        requires { p + 16 ≤ length self.now.area.now }
        ensures { (result ≡ zone_length self.now.area.now p) × (result < 400000) }
    {
        2 + digits_len(get8(self.area, p) as u64) + signed_len(get8(self.area, p + 8) as u64)
    }

    // The t lines without their r lines; `t=0 0` where there is none.
    fn times_len(&self) -> usize
        requires { Inside self.now.area.now times_at 16 }
        ensures { (result ≡ length (times_lines [] [] (times_in self.now.area.now))) × (result < 27000000000) }
    {
        if get2(self.area, TIMES) == 0 {
            return 7;
        }
        sum_rows(self.area, TIMES, 16, |p| self.time_line_len(p))
    }

    // The z line: no space before its first pair.
    fn zones_len(&self) -> usize
        requires { Inside self.now.area.now zones_at 16 }
        ensures { (result ≡ length (zones_line (zones_in self.now.area.now))) × (result < 28000000000) }
    {
        if get2(self.area, ZONES) == 0 {
            return 0;
        }
        3 + sum_rows(self.area, ZONES, 16, |p| self.zone_len(p))
    }

    // What a session has at most once.
    fn head_len(&self) -> usize
        requires { 62 ≤ length self.now.area.now }
        ensures { (result ≡ head_length self.now.text.now self.now.area.now) × (result < 2000000) }
    {
        5 + self.origin_len()
            + self.line_len(NAME)
            + self.maybe_line_len(DESCRIPTION)
            + self.maybe_line_len(URI)
            + self.session_connection_len()
    }

    // The tables of numbers.
    #[tactic(auto, unfolding(crate::specs::Length::when_length))]
    fn when_len(&self) -> usize
        requires { Counted self.now.area.now }
        ensures { (result ≡ when_length self.now.text.now self.now.area.now) × (result < 110000000000) }
    {
        self.times_len()
            + sum_rows(self.area, REPEATS, 18, |p| self.repeat_len(p))
            + sum_rows(self.area, OFFSETS, 10, |p| self.offset_len(p))
            + self.zones_len()
    }

    // The tables with strings.
    #[tactic(auto, unfolding(crate::specs::Length::tables_length))]
    fn tables_len(&self) -> usize
        requires { Counted self.now.area.now }
        ensures { (result ≡ tables_length self.now.text.now self.now.area.now) × (result < 170000000000) }
    {
        sum_rows(self.area, EMAILS, 4, |p| self.contact_len(p))
            + sum_rows(self.area, PHONES, 4, |p| self.contact_len(p))
            + sum_rows(self.area, CONNECTIONS, 14, |p| self.connection_len(p + 2))
            + sum_rows(self.area, BANDWIDTHS, 14, |p| self.bandwidth_len(p))
            + sum_rows(self.area, ATTRIBUTES, 12, |p| self.attribute_len(p))
            + sum_rows(self.area, MEDIAS, 36, |p| self.media_len(p))
    }
}

// The length of what is written of the area: each row counts once, since its owner is there.
pub fn length_of(text: &[u8], area: &[u8]) -> usize
    requires counted { Counted area.now }
    requires area_value { owners area.now ≡ true }
    ensures { (result ≡ length (written (bytes_of text.now) (decode area.now))) × (result < 300000000000) }
{
    let source = Source { text, area };
    source.head_len() + source.when_len() + source.tables_len()
}
