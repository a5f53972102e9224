// Document 01, module 6: small records by hand, after builders.rs. Each method takes a record and hands it back with one
// field set. The records are what set_origin and push_media of the record area take.
#![tactic(auto)]

ghost use Rattle.std.specs.Prelude.{◌≡◌};
ghost use Rattle.sdp_builders.specs.Set.{with_username, with_num_ports};

use sdp_lines::Span;

// An o line.
#[derive(Clone, Copy)]
pub struct Origin {
    pub username: Option<Span>,
    pub sess_id: Span,
    pub sess_version: u64,
    pub nettype: Span,
    pub addrtype: Span,
    pub unicast_address: Span,
}

// An m line.
#[derive(Clone, Copy)]
pub struct Media {
    pub media: Span,
    pub port: usize,
    pub num_ports: Option<usize>,
    pub proto: Span,
    pub fmt: Span,
}

impl Origin {
    pub fn username(mut self, username: Span) -> Self
        ensures { result ≡ with_username self username }
    {
        self.username = Some(username);
        self
    }
}

impl Media {
    pub fn num_ports(mut self, num_ports: u16) -> Self
        ensures { result ≡ with_num_ports self num_ports }
    {
        self.num_ports = Some(num_ports as usize);
        self
    }
}
