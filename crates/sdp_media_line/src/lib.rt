// Document 01, module 3: the reader of the m line. parser.rs has the same names.
#![tactic(auto)]

ghost use Rattle.std.specs.Prelude.{◌≡◌};
ghost use Rattle.sdp_number.specs.Number.{whole_number};
ghost use Rattle.sdp_split.specs.Split.{Inside, Within, piece_after};
ghost use Rattle.sdp_media_line.specs.MediaLine.{port_number, num_ports, ports_of, port_of, port_field, media_of};

use sdp_bytes::search::index_of;
use sdp_judge::{Fault, Wrong, not_utf8, text_of, wrong_of};
use sdp_number::number16;
use sdp_split::{Field, Piece, first_piece, piece_after, rest_after};
use sdp_utf8::is_utf8;

#[derive(Clone, Copy, Debug, PartialEq, Eq)]
pub struct Port {
    pub port: u64,
    pub num_ports: Option<u64>,
}

#[derive(Clone, Copy, Debug, PartialEq, Eq)]
pub struct Media {
    pub media: Piece,
    pub port: u64,
    pub num_ports: Option<u64>,
    pub proto: Piece,
    pub fmt: Piece,
}

// A port number, else the refusal of field w.
fn port_number(s: &[u8], w: u64) -> Result<u64, Wrong>
    ensures { result ≡ port_number w (whole_number 16 s.now) }
{
    match number16(s) {
        Ok(n) => Ok(n),
        Err(_) => Err(wrong_of(Fault::Format, w)),
    }
}

// The number of ports after the slash at i; without a slash it is absent.
fn num_ports(s: &[u8], i: usize) -> Result<Option<u64>, Wrong>
    ensures { result ≡ num_ports s.now i }
{
    if s.len() <= i {
        return Ok(None);
    }
    Ok(Some(port_number(&s[i + 1..], 30)?))
}

// The numbers of a port's field that is UTF-8.
fn ports_of(s: &[u8]) -> Result<Port, Wrong>
    ensures { result ≡ ports_of s.now }
{
    let slash = index_of(s, b'/');
    Ok(Port {
        port: port_number(&s[..slash], 28)?,
        num_ports: num_ports(s, slash)?,
    })
}

impl Port {
    // <port> or <port>/<num-ports>: the piece p of v
    #[tactic(auto, unfolding(crate::specs::MediaLine::port_of))]
    fn parse(v: &[u8], p: Piece) -> Result<Port, Wrong>
        requires { Inside v.now p }
        ensures { result ≡ port_of v.now p }
    {
        if is_utf8(p.of(v)) {
            return ports_of(p.of(v));
        }
        Err(not_utf8(v, 29, p))
    }
}

// The port's field, and its end.
fn port_of(v: &[u8], f: Field) -> Result<(Port, usize), Wrong>
    requires { Within v.now f }
    ensures { result ≡ port_field v.now f }
{
    match f {
        None => Err(wrong_of(Fault::Missing, 28)),
        Some((piece, next)) => Ok((Port::parse(v, piece)?, next)),
    }
}

// The field of an m line after the one that ended at e. One space ends a field, so a run of spaces has empty fields in it.
fn m_piece(v: &[u8], e: usize) -> Field
    ensures { result ≡ piece_after 0x20 v.now e }
{
    piece_after(v, e, b' ')
}

impl Media {
    // <media> <port> <proto> <fmt> ..
    pub fn parse_m_line(v: &[u8]) -> Result<Media, Wrong>
        ensures { result ≡ media_of v.now }
    {
        let (media, e) = text_of(v, 27, first_piece(v, b' '))?;
        let (port, e) = port_of(v, m_piece(v, e))?;
        let (proto, e) = text_of(v, 31, m_piece(v, e))?;
        let (fmt, _) = text_of(v, 32, rest_after(v, e))?;
        Ok(Media {
            media,
            port: port.port,
            num_ports: port.num_ports,
            proto,
            fmt,
        })
    }
}
