// Runs the stored inputs and prints the answers; crates/vectors/stdout has the oracle's, made by rust/.
// A line of standard input is K=HEX: u UTF-8, t token, p and n whole numbers of 16 and 64 bits, d typed time, l letter order,
// c line cutting, r reading: the answer, the empty, ignored and kept lines, and how many rows each table then has; w writing:
// these lines, the answers without room and with it, and what was written, or how reading refused; o and m a line's value, and
// its record after `username` or `num_ports`.
#![tactic(auto)]

ghost use Rattle.std.specs.Prelude.{◌≤◌, length};
ghost use Rattle.std.specs.Io.{ReadsAtMost};

use sdp_answers::{Numeral, Piece};
use sdp_area::{
    AREA_SIZE, ATTRIBUTES, BANDWIDTHS, CONNECTIONS, EMAILS, MEDIAS, OFFSETS, PHONES, REPEATS,
    TIMES, ZONES,
};
use sdp_builders::{Media, Origin};
use sdp_decode::num2;
use sdp_lines::{Answer, Cursor, Cut, Place, Span};
use sdp_order::Verdict;
use std::io;
use std::io::{Read, Stdin};

fn letter_out(rt: &impl Print, b: u8) -> io::Result<()> {
    rt.write_all(&[b])
}

// A space and a number.
fn number_out(rt: &impl Print, n: u64) -> io::Result<()> {
    print!(rt; " {n}")
}

fn line_out(rt: &impl Print) -> io::Result<()> {
    rt.write_all(b"\n")
}

fn numeral_out(rt: &impl Print, n: Numeral) -> io::Result<()> {
    number_out(rt, n.number)?;
    number_out(rt, n.value)?;
    line_out(rt)
}

fn flag_out(rt: &impl Print, b: bool) -> io::Result<()> {
    number_out(rt, u64::from(b))
}

fn piece_out(rt: &impl Print, p: Piece) -> io::Result<()> {
    letter_out(rt, b'c')?;
    number_out(rt, p.kind)?;
    number_out(rt, p.number)?;
    number_out(rt, p.line)?;
    number_out(rt, p.letter)?;
    number_out(rt, p.place)?;
    number_out(rt, p.len)?;
    line_out(rt)
}

// Every cut of a text. A line takes a byte at least, so there are no more cuts than bytes, and the end.
fn cuts_out(rt: &impl Print, s: &[u8]) -> io::Result<()> {
    let mut place: usize = 0;
    let mut line: usize = 1;
    for _ in 0..s.len() {
        let p = sdp::sdp_cut(s, place, line);
        if p.kind == 0 {
            break;
        }
        if p.kind == 3 {
            return piece_out(rt, p);
        }
        place = p.next_place as usize;
        line = p.next_line as usize;
        piece_out(rt, p)?;
    }
    piece_out(rt, sdp::sdp_cut(s, place, line))
}

// The counts of all tables of the area.
fn counts_out(rt: &impl Print, area: &[u8; AREA_SIZE]) -> io::Result<()> {
    for at in [
        EMAILS,
        PHONES,
        CONNECTIONS,
        BANDWIDTHS,
        TIMES,
        REPEATS,
        OFFSETS,
        ZONES,
        ATTRIBUTES,
        MEDIAS,
    ] {
        number_out(rt, num2(area, at) as u64)?;
    }
    Ok(())
}

fn answer_out(rt: &impl Print, a: Answer) -> io::Result<()> {
    number_out(rt, a.number)?;
    number_out(rt, a.line)?;
    number_out(rt, a.field)?;
    number_out(rt, a.place)?;
    number_out(rt, a.len)
}

fn read_out(rt: &impl Print, s: &[u8]) -> io::Result<()> {
    let mut area = [0u8; AREA_SIZE];
    let told = sdp::sdp_read(s, &mut area);
    letter_out(rt, b'r')?;
    answer_out(rt, told.answer)?;
    number_out(rt, told.counts.empty)?;
    number_out(rt, told.counts.ignored)?;
    number_out(rt, told.counts.kept)?;
    counts_out(rt, &area)?;
    line_out(rt)
}

fn part_out(rt: &impl Print, s: &[u8], at: usize, len: usize) -> io::Result<()> {
    if len <= s.len() && at <= s.len() - len {
        rt.write_all(&s[at..at + len])?;
    }
    Ok(())
}

// The answers of the writer: its length, to an output without room and to one with room; and then what it wrote.
fn both_out(rt: &impl Print, s: &[u8], area: &[u8], out: &mut [u8]) -> io::Result<()> {
    answer_out(rt, sdp::sdp_length(s, area))?;
    let mut short = [0u8; 1];
    answer_out(rt, sdp::sdp_fill(s, area, &mut short))?;
    let a = sdp::sdp_fill(s, area, out);
    let n = a.len as usize;
    answer_out(rt, a)?;
    line_out(rt)?;
    part_out(rt, out, 0, n)
}

fn written_out(rt: &impl Print, s: &[u8]) -> io::Result<()> {
    let mut area = [0u8; AREA_SIZE];
    let told = sdp::sdp_read(s, &mut area);
    letter_out(rt, b'w')?;
    number_out(rt, told.counts.empty)?;
    number_out(rt, told.counts.ignored)?;
    number_out(rt, told.counts.kept)?;
    let a = told.answer;
    if a.number == 0 {
        let mut out = [0u8; 4096];
        return both_out(rt, s, &area, &mut out);
    }
    answer_out(rt, a)?;
    line_out(rt)
}

fn verdict_out(rt: &impl Print, v: Verdict) -> io::Result<()> {
    number_out(rt, v.number)?;
    number_out(rt, v.yes)?;
    line_out(rt)
}

fn span_of(p: sdp_split::Piece) -> Span {
    Span {
        at: Place(p.at),
        len: p.len,
    }
}

// A space and a string of s.
fn string_out(rt: &impl Print, s: &[u8], x: Span) -> io::Result<()> {
    rt.write_all(b" ")?;
    part_out(rt, s, x.at.0, x.len)
}

// Whether there is a string, and the string, which is empty where there is none.
fn optional_out(rt: &impl Print, s: &[u8], x: Option<Span>) -> io::Result<()> {
    flag_out(rt, x.is_some())?;
    let x = x.unwrap_or(Span {
        at: Place(0),
        len: 0,
    });
    string_out(rt, s, x)
}

fn origin_out(rt: &impl Print, s: &[u8], o: Origin) -> io::Result<()> {
    optional_out(rt, s, o.username)?;
    string_out(rt, s, o.sess_id)?;
    number_out(rt, o.sess_version)?;
    string_out(rt, s, o.nettype)?;
    string_out(rt, s, o.addrtype)?;
    string_out(rt, s, o.unicast_address)
}

fn username_of(m: Option<sdp_split::Piece>) -> Option<Span> {
    Some(span_of(m?))
}

// The address of an o line becomes its username.
fn username_out(rt: &impl Print, s: &[u8]) -> io::Result<()> {
    letter_out(rt, b'o')?;
    if let Ok(o) = sdp_fields::Origin::parse(s) {
        let address = o.unicast_address;
        let new = Span {
            at: Place(address.at),
            len: address.len,
        };
        let before = Origin {
            username: username_of(o.username),
            sess_id: span_of(o.sess_id),
            sess_version: o.sess_version,
            nettype: span_of(o.nettype),
            addrtype: span_of(o.addrtype),
            unicast_address: span_of(address),
        };
        origin_out(rt, s, before.username(new))?;
    }
    line_out(rt)
}

fn media_out(rt: &impl Print, s: &[u8], m: Media) -> io::Result<()> {
    string_out(rt, s, m.media)?;
    number_out(rt, m.port as u64)?;
    flag_out(rt, m.num_ports.is_some())?;
    number_out(rt, m.num_ports.unwrap_or(0) as u64)?;
    string_out(rt, s, m.proto)?;
    string_out(rt, s, m.fmt)
}

// The number at a place of s, 0 if none of 16 bits stands there.
fn ports_at(s: &[u8], at: usize) -> u16 {
    if let Ok((value, _)) = sdp_judge::word_number(s, at, 0) {
        if value <= 65535 {
            return value as u16;
        }
    }
    0
}

fn ports_of(n: Option<u64>) -> Option<usize> {
    Some(n? as usize)
}

// The first format of an m line becomes its number of ports.
fn num_ports_out(rt: &impl Print, s: &[u8]) -> io::Result<()> {
    letter_out(rt, b'm')?;
    if let Ok(m) = sdp_media_line::Media::parse_m_line(s) {
        let new = ports_at(s, m.fmt.at);
        let before = Media {
            media: span_of(m.media),
            port: m.port as usize,
            num_ports: ports_of(m.num_ports),
            proto: span_of(m.proto),
            fmt: span_of(m.fmt),
        };
        media_out(rt, s, before.num_ports(new))?;
    }
    line_out(rt)
}

// By the letter of a stored input: one arm for each function that is asked.
fn answer(rt: &impl Print, kind: u8, s: &[u8]) -> io::Result<()> {
    match kind {
        b'c' => cuts_out(rt, s),
        b'r' => read_out(rt, s),
        b'w' => written_out(rt, s),
        b'o' => username_out(rt, s),
        b'm' => num_ports_out(rt, s),
        _ => leaf_out(rt, kind, s),
    }
}

fn leaf_out(rt: &impl Print, kind: u8, s: &[u8]) -> io::Result<()> {
    letter_out(rt, kind)?;
    match kind {
        b'u' => {
            number_out(rt, sdp::sdp_utf8_end(s) as u64)?;
            line_out(rt)
        }
        b't' => {
            flag_out(rt, sdp::sdp_is_token(s))?;
            line_out(rt)
        }
        b'p' => numeral_out(rt, sdp::sdp_number16(s)),
        b'n' => numeral_out(rt, sdp::sdp_number64(s)),
        b'd' => numeral_out(rt, sdp::sdp_typed_time(s)),
        b'l' => verdict_out(rt, sdp::sdp_letter_order(s)),
        _ => line_out(rt),
    }
}

// The value of a hexadecimal digit, 0 for any other byte.
fn hex_digit(b: u8) -> u8
    ensures { result ≤ 15 }
{
    match b {
        0x30..=0x39 => b - 0x30,
        0x61..=0x66 => b - 0x61 + 10,
        _ => 0,
    }
}

// The bytes of hexadecimal digits, as many as there is room for.
fn unhex(s: &[u8], out: &mut [u8]) -> usize
    ensures { result ≤ length out.new }
{
    let n = out.len().min(s.len() / 2);
    for i in 0..n {
        out[i] = hex_digit(s[i * 2]) * 16 + hex_digit(s[i * 2 + 1]);
    }
    n
}

fn vector(rt: &impl Print, kind: u8, text: &[u8], at: usize, len: usize) -> io::Result<()> {
    if text.len() < at || text.len() - at < len {
        return Ok(());
    }
    let mut bytes = [0u8; 2048];
    let n = unhex(&text[at..at + len], &mut bytes);
    answer(rt, kind, &bytes[..n])
}

// The list's own lines are cut by the cutter that it tests.
fn vectors(rt: &impl Print, text: &[u8]) -> io::Result<()> {
    let mut c = Cursor::new();
    for _ in 0..text.len() {
        match c.cut(text) {
            Cut::End => {
                return Ok(());
            }
            Cut::Refused { fault: _, line: _ } => {
                return rt.write_all(b"bad line in the list\n");
            }
            Cut::Empty { next } => {
                c = next;
            }
            Cut::Line {
                letter,
                value,
                next,
            } => {
                vector(rt, letter, text, value.at.0, value.len)?;
                c = next;
            }
        }
    }
    Ok(())
}

// Reads until buf is full or the input ends, and answers how many bytes came in.
fn read_full(stdin: &mut Stdin, buf: &mut [u8]) -> io::Result<usize>
    ensures { ReadsAtMost result buf.new }
{
    let mut n: usize = 0;
    // by hand: how many reads it takes shows only when they are made
    while n < buf.len() {
        let k = stdin.read(&mut buf[n..])?;
        if k == 0 {
            break;
        }
        n += k;
    }
    Ok(n)
}

fn main(rt: HostRuntime) -> io::Result<()> {
    let mut text = [0u8; 65536];
    let n = read_full(&mut rt.stdin(), &mut text)?;
    vectors(&rt, &text[..n])
}
