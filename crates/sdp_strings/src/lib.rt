// The strings of a line's value as places in the text.
#![tactic(auto)]

ghost use Rattle.std.specs.Prelude.{◌≡◌, [], ◌+◌, ◌≤◌, IfSome, option_map};
ghost use Rattle.sdp_numbers.specs.Refusals.{longest_text};
ghost use Rattle.sdp_strings.specs.Strings.{span_at};

use sdp_lines::{Place, Span};
use sdp_split::Piece;

// A piece of the value at place `at` as a place in the text.
pub fn span_of(at: usize, p: Piece) -> Span
    requires { at + p.at ≤ longest_text }
    ensures { result ≡ span_at at [] p }
{
    Span {
        at: Place(at + p.at),
        len: p.len,
    }
}

// The same where it may be absent.
pub fn maybe_of(at: usize, m: Option<Piece>) -> Option<Span>
    requires { IfSome m (λ p. at + p.at ≤ longest_text) }
    ensures { result ≡ option_map (span_at at []) m }
{
    Some(span_of(at, m?))
}
