// Document 01, module 3: one reader for each record of fixed shape but m. parser.rs has the same names.
#![tactic(auto)]

ghost use Rattle.std.specs.Prelude.{◌≡◌, ◌≤◌};
ghost use Rattle.sdp_split.specs.Split.{words_at, Inside};
ghost use Rattle.sdp_fields.specs.Records.{username_of, origin_of, address_of, connection_of, bandwidth_of, times_of, attribute_of};

use sdp_judge::{
    Fault, Wrong, choice_of, number_of, text_of, word_number, word_text, word_token, wrong_of,
};
use sdp_split::{Piece, first_piece, piece_after, rest_after, word_at};

#[derive(Clone, Copy, Debug, PartialEq, Eq)]
pub struct Origin {
    pub username: Option<Piece>,
    pub sess_id: Piece,
    pub sess_version: u64,
    pub nettype: Piece,
    pub addrtype: Piece,
    pub unicast_address: Piece,
}

#[derive(Clone, Copy, Debug, PartialEq, Eq)]
pub struct Connection {
    pub nettype: Piece,
    pub addrtype: Piece,
    pub connection_address: Piece,
}

#[derive(Clone, Copy, Debug, PartialEq, Eq)]
pub struct Bandwidth {
    pub bwtype: Piece,
    pub bandwidth: u64,
}

#[derive(Clone, Copy, Debug, PartialEq, Eq)]
pub struct Time {
    pub start_time: u64,
    pub stop_time: u64,
}

#[derive(Clone, Copy, Debug, PartialEq, Eq)]
pub struct Attribute {
    pub attribute: Piece,
    pub value: Option<Piece>,
}

// A username `-` means absent.
fn username_of(v: &[u8], p: Piece) -> Option<Piece>
    requires { Inside v.now p }
    ensures { result ≡ username_of v.now p }
{
    if p.len == 1 && v[p.at] == b'-' {
        return None;
    }
    Some(p)
}

// <nettype> <addrtype> <address> from place i on and nothing after them, as o and c end: the fields w, w + 1 and w + 2.
fn word_address(v: &[u8], i: usize, w: u64) -> Result<Connection, Wrong>
    requires { w ≤ 8 }
    ensures { result ≡ address_of w v.now (words_at v.now i) }
{
    let (nettype, i) = word_token(v, i, w)?;
    let (addrtype, i) = word_token(v, i, w + 1)?;
    let (connection_address, i) = word_text(v, i, w + 2)?;
    if word_at(v, i).is_some() {
        return Err(wrong_of(Fault::Trailing, w + 3));
    }
    Ok(Connection {
        nettype,
        addrtype,
        connection_address,
    })
}

impl Origin {
    // <username> <sess-id> <sess-version> <nettype> <addrtype> <unicast-address>
    pub fn parse(v: &[u8]) -> Result<Origin, Wrong>
        ensures { result ≡ origin_of v.now }
    {
        let (username, i) = word_text(v, 0, 1)?;
        let (sess_id, i) = word_text(v, i, 2)?;
        let (sess_version, i) = word_number(v, i, 3)?;
        let place = word_address(v, i, 4)?;
        Ok(Origin {
            username: username_of(v, username),
            sess_id,
            sess_version,
            nettype: place.nettype,
            addrtype: place.addrtype,
            unicast_address: place.connection_address,
        })
    }
}

impl Connection {
    // <nettype> <addrtype> <connection-address>
    pub fn parse(v: &[u8]) -> Result<Connection, Wrong>
        ensures { result ≡ connection_of v.now }
    {
        word_address(v, 0, 8)
    }
}

impl Bandwidth {
    // <bwtype>:<bandwidth>
    pub fn parse(v: &[u8]) -> Result<Bandwidth, Wrong>
        ensures { result ≡ bandwidth_of v.now }
    {
        let (bwtype, e) = text_of(v, 12, first_piece(v, b':'))?;
        let (bandwidth, e) = number_of(v, 13, piece_after(v, e, b':'))?;
        if piece_after(v, e, b':').is_some() {
            return Err(wrong_of(Fault::Trailing, 14));
        }
        Ok(Bandwidth { bwtype, bandwidth })
    }
}

impl Time {
    // <start-time> <stop-time>
    pub fn parse(v: &[u8]) -> Result<Time, Wrong>
        ensures { result ≡ times_of v.now }
    {
        let (start_time, i) = word_number(v, 0, 15)?;
        let (stop_time, i) = word_number(v, i, 16)?;
        if word_at(v, i).is_some() {
            return Err(wrong_of(Fault::Trailing, 17));
        }
        Ok(Time {
            start_time,
            stop_time,
        })
    }
}

impl Attribute {
    // <attribute>:<value> or <attribute>.
    pub fn parse(v: &[u8]) -> Result<Attribute, Wrong>
        ensures { result ≡ attribute_of v.now }
    {
        let (attribute, e) = text_of(v, 23, first_piece(v, b':'))?;
        let value = choice_of(v, 24, rest_after(v, e))?;
        Ok(Attribute { attribute, value })
    }
}
