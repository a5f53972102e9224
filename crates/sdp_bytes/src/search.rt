// Where a byte stands.
ghost use Rattle.std.specs.Prelude.{◌≡◌};
ghost use Rattle.sdp_bytes.specs.Runs.{index_of};

// The index of the first b in s, or its length where there is none.
pub fn index_of(s: &[u8], b: u8) -> usize
    ensures { result ≡ index_of b s.now }
{
    s.iter().position(|x| *x == b).unwrap_or(s.len())
}
