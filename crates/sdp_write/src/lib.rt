// Document 01, module 5, and document 02, P7: writing a whole session, after writer.rs, in two calls.
#![tactic(auto)]

ghost use Rattle.std.specs.Prelude.{◌≡◌, true, cond, ◌≤◌, ltb, length};
ghost use Rattle.sdp_lines.specs.Strings.{bytes_of};
ghost use Rattle.sdp_area.specs.Area.{size};
ghost use Rattle.sdp_valid.specs.Judge.{owners};
ghost use Rattle.sdp_valid.specs.Counted.{Counted};
ghost use Rattle.sdp_put.specs.Puts.{Puts};
ghost use Rattle.sdp_decode.specs.Decode.{decode};
ghost use Rattle.sdp_row.specs.Written.{head_lines, written};
ghost use Rattle.sdp_write.specs.Write.{answer, text_of, length_text, fill_text};

use sdp_area::{DESCRIPTION, NAME, URI};
use sdp_length::length_of;
use sdp_lines::Answer;
use sdp_put::Out;
use sdp_room::room_for;
use sdp_row::{Source, put_maybe_line, put_origin, put_string_line};
use sdp_tables::{put_closing, put_contact, put_medias};
use sdp_unfit::unfit;

// v, o, s, i, u.
fn put_head(out: &mut Out<'_>, s: Source<'_>)
    requires { size ≤ length s.area.now }
    ensures { Puts out.old (head_lines (bytes_of s.entry.text.now) (decode s.entry.area.now).head) out.new }
{
    out.all(b"v=0\r\n");
    put_origin(out, s);
    put_string_line(out, b's', s, NAME);
    put_maybe_line(out, b'i', s, DESCRIPTION);
    put_maybe_line(out, b'u', s, URI);
}

fn put_session(out: &mut Out<'_>, s: Source<'_>)
    requires counted { Counted s.area.now }
    requires area_value { owners s.area.now ≡ true }
    ensures { Puts out.old (written (bytes_of s.entry.text.now) (decode s.entry.area.now)) out.new }
{
    put_head(out, s);
    put_contact(out, s);
    put_closing(out, s);
    put_medias(out, s);
}

// By number, as C has it.
fn told(number: u64, len: usize) -> Answer
    ensures { result ≡ answer number len }
{
    Answer {
        number,
        line: 0,
        field: 0,
        place: 0,
        len: len as u64,
    }
}

// The length of the text that the area says.
pub fn length(text: &[u8], area: &[u8]) -> Answer
    ensures { result ≡ length_text text.now area.now }
{
    if let Err(why) = unfit(text, area) {
        return told(why.into(), 0);
    }
    told(0, length_of(text, area))
}

// The length of that text where it is above full, else 0. Most outputs have room for more, which is found at once.
fn above(text: &[u8], area: &[u8], full: usize) -> usize
    requires counted { Counted area.now }
    requires area_value { owners area.now ≡ true }
    ensures { result ≡ cond (ltb full (length (text_of text.now area.now))) (length (text_of text.now area.now)) 0 }
{
    if room_for(area) <= full {
        return 0;
    }
    let n = length_of(text, area);
    if full < n {
        return n;
    }
    0
}

// Puts that text into out, where it fits.
pub fn fill(text: &[u8], area: &[u8], out: &mut [u8]) -> Answer
    ensures value { result ≡ (fill_text text.now area.now out.old).answer }
    ensures out_after { out.new ≡ (fill_text text.now area.now out.old).out }
{
    if let Err(why) = unfit(text, area) {
        return told(why.into(), 0);
    }
    let full = out.len();
    let n = above(text, area, full);
    if n != 0 {
        return told(22, n);
    }
    let mut out = Out { bytes: out, at: 0 };
    put_session(&mut out, Source { text, area });
    told(0, out.at)
}
