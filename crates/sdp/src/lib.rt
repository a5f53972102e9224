// What Rust and C call: byte slices and numbers in, numbers out. c/sdp.h has the C declarations.
#![tactic(auto)]

ghost use Rattle.std.specs.Prelude.{◌≡◌};
ghost use Rattle.sdp_utf8.specs.Utf8.{utf8_end};
ghost use Rattle.sdp_bytes.specs.Token.{is_token};
ghost use Rattle.sdp_number.specs.Number.{whole_number, typed_time};
ghost use Rattle.sdp_lines.specs.Lines.{cut_at};
ghost use Rattle.sdp_area.specs.Columns.{area_size};
ghost use Rattle.sdp_read.specs.Run.{read_text, told_of};
ghost use Rattle.sdp_write.specs.Write.{length_text, fill_text};
ghost use Rattle.sdp_order.specs.Order.{order_of, verdict_of};
ghost use Rattle.sdp_hours.specs.Starts.{starts_text};
ghost use Rattle.sdp_starts.specs.Returned.{returned};
ghost use Rattle.sdp_answers.specs.Boundary.{numeral_of, cursor_at, piece_of};

use sdp_answers::{Numeral, Piece, piece_of};
use sdp_lines::{Answer, Cursor, LineNumber, Place};
use sdp_order::Verdict;
use sdp_read::Told;
use sdp_starts::Starts;

// The end of the longest well-formed UTF-8 beginning of s.
#[unsafe(no_mangle)]
pub extern "C" fn sdp_utf8_end(s: &[u8]) -> usize
    ensures { result ≡ utf8_end s.now }
{
    sdp_utf8::utf8_end(s)
}

// Whether s is a token.
#[unsafe(no_mangle)]
pub extern "C" fn sdp_is_token(s: &[u8]) -> bool
    ensures { result ≡ is_token s.now }
{
    sdp_bytes::token::is_token(s)
}

// A whole number of 16 bits.
#[unsafe(no_mangle)]
pub extern "C" fn sdp_number16(s: &[u8]) -> Numeral
    ensures { result ≡ numeral_of (whole_number 16 s.now) }
{
    Numeral::from(sdp_number::number16(s))
}

// A whole number of 64 bits.
#[unsafe(no_mangle)]
pub extern "C" fn sdp_number64(s: &[u8]) -> Numeral
    ensures { result ≡ numeral_of (whole_number 64 s.now) }
{
    Numeral::from(sdp_number::number64(s))
}

// A typed time in seconds.
#[unsafe(no_mangle)]
pub extern "C" fn sdp_typed_time(s: &[u8]) -> Numeral
    ensures { result ≡ numeral_of (typed_time s.now) }
{
    Numeral::from(sdp_number::typed_time(s))
}

// What stands at a place of the text, where the line of that number is due.
#[unsafe(no_mangle)]
pub extern "C" fn sdp_cut(text: &[u8], place: usize, line: usize) -> Piece
    ensures { result ≡ piece_of line (cut_at text.now (cursor_at line place)) }
{
    let c = Cursor {
        at: Place(place),
        line: LineNumber(line),
    };
    piece_of(line, c.cut(text))
}

// Reads a text into the record area, and counts its lines. docs/AREA.md has the area's layout and what it holds after each answer.
#[unsafe(no_mangle)]
pub extern "C" fn sdp_read(text: &[u8], area: &mut [u8]) -> Told
    ensures value { result ≡ told_of (read_text text.now area.old) }
    ensures area_after { area.new ≡ (read_text text.now area.old).area }
{
    sdp_read::read(text, area)
}

// The length of the written form of the session of a record area, whose strings stand in the text. docs/FFI.md has the answers.
#[unsafe(no_mangle)]
pub extern "C" fn sdp_length(text: &[u8], area: &[u8]) -> Answer
    ensures { result ≡ length_text text.now area.now }
{
    sdp_write::length(text, area)
}

// Writes that form into out, where there is room for it.
#[unsafe(no_mangle)]
pub extern "C" fn sdp_fill(text: &[u8], area: &[u8], out: &mut [u8]) -> Answer
    ensures value { result ≡ (fill_text text.now area.now out.old).answer }
    ensures out_after { out.new ≡ (fill_text text.now area.now out.old).out }
{
    sdp_write::fill(text, area, out)
}

// Whether the letters of a text's lines are in order.
#[unsafe(no_mangle)]
pub extern "C" fn sdp_letter_order(text: &[u8]) -> Verdict
    ensures { result ≡ verdict_of (order_of text.now) }
{
    Verdict::from(sdp_order::letter_order(text))
}

// When the session of a record area starts, within a window: from included, to excluded.
#[unsafe(no_mangle)]
pub extern "C" fn sdp_starts(text: &[u8], area: &[u8], from: u64, to: u64) -> Starts
    ensures { result ≡ returned (starts_text text.now area.now from to) }
{
    sdp_starts::starts_in(text, area, from, to)
}

// The size of the record area in bytes.
#[unsafe(no_mangle)]
pub extern "C" fn sdp_area_size() -> usize
    ensures { result ≡ area_size }
{
    sdp_area::AREA_SIZE
}
