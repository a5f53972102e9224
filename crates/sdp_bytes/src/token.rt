// The token test of RFC 8866.
ghost use Rattle.std.specs.Prelude.{◌≡◌};
ghost use Rattle.sdp_bytes.specs.Token.{token_char, is_token};

// Whether b is a token character: the seven ranges of document 01, in its order.
pub fn token_char(b: u8) -> bool
    ensures { result ≡ token_char b }
{
    matches!(
        b,
        0x21 // !
            | 0x23..=0x27 // # $ % & '
            | 0x2a..=0x2b // * +
            | 0x2d..=0x2e // - .
            | 0x30..=0x39 // 0 to 9
            | 0x41..=0x5a // A to Z
            | 0x5e..=0x7e // ^ _ ` a to z { | } ~
    )
}

// Whether s is a token: at least one byte, each a token character.
pub fn is_token(s: &[u8]) -> bool
    ensures { result ≡ is_token s.now }
{
    !s.is_empty() && s.iter().all(|b| token_char(*b))
}
