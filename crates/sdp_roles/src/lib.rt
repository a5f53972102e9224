// Document 01, "Lines": what a line's letter is for.
#![tactic(auto)]

ghost use Rattle.std.specs.Prelude.{◌≡◌};
ghost use Rattle.sdp_roles.specs.Roles.{before_media, from_media, role_at};

// What a line's letter is for at its place.
#[derive(Clone, Copy, Debug, PartialEq, Eq)]
pub enum Role {
    Origin,
    Name,
    Description,
    Uri,
    Email,
    Phone,
    Connection,
    Bandwidth,
    Time,
    Repeat,
    Zone,
    Attribute,
    Media,
    MediaTitle,
    MediaConnection,
    // no Option around the others: a letter of no use is one more row of the one table of letters
    Nothing,
}

// What a letter is for before the first m line.
#[tactic(auto, unfolding(crate::specs::Roles::before_media))]
fn before_media(letter: u8) -> Role
    ensures { result ≡ before_media letter }
{
    match letter {
        b'o' => Role::Origin,
        b's' => Role::Name,
        b'i' => Role::Description,
        b'u' => Role::Uri,
        b'e' => Role::Email,
        b'p' => Role::Phone,
        b'c' => Role::Connection,
        b'b' => Role::Bandwidth,
        b't' => Role::Time,
        b'r' => Role::Repeat,
        b'z' => Role::Zone,
        b'a' => Role::Attribute,
        b'm' => Role::Media,
        _ => Role::Nothing,
    }
}

// What a letter is for from an m line on.
#[tactic(auto, unfolding(crate::specs::Roles::from_media))]
fn from_media(letter: u8) -> Role
    ensures { result ≡ from_media letter }
{
    match letter {
        b'm' => Role::Media,
        b'i' => Role::MediaTitle,
        b'c' => Role::MediaConnection,
        b'b' => Role::Bandwidth,
        b'a' => Role::Attribute,
        _ => Role::Nothing,
    }
}

// What a letter is for, by the number of medias so far.
pub fn role_at(count: usize, letter: u8) -> Role
    ensures { result ≡ role_at count letter }
{
    if count == 0 {
        return before_media(letter);
    }
    from_media(letter)
}
