// Whether the session that a record area holds can be written, judged on any bytes: refusal 23.
#![tactic(auto)]

ghost use Rattle.std.specs.Prelude.{◌≡◌, ℕ, Bool, ◌+◌, ◌*◌, ◌^◌, ◌<◌, ◌≤◌, length};
ghost use Rattle.sdp_cells.specs.Bytes.{num};
ghost use Rattle.sdp_area.specs.Area.{size};
ghost use Rattle.sdp_valid.specs.Judge.{every_at, fine_if, rising, owned, rows, small_counts, large_counts, owners, fine_string, fine_origin, fine_connection, fine_pair, fine_media, fine_head, fine_tables, well_formed};
ghost use Rattle.sdp_valid.specs.Counted.{Counted, Inside};
ghost use Rattle.sdp_valid.specs.Plain.{is_plain};

use sdp_area::{
    ATTRIBUTES, BANDWIDTHS, CONNECTION, CONNECTIONS, DESCRIPTION, EMAILS, KEY, MEDIAS, NAME,
    OFFSETS, ORIGIN, PHONES, REPEATS, TIMES, URI, ZONES,
};
use sdp_bytes::runs::run_len;
use sdp_cells::get2;
use sdp_utf8::is_utf8;

/// Whether a test holds at the places of n rows of w bytes each, from p on.
pub fn every_at<F: Fn(usize) -> bool>(n: usize, w: usize, p: usize, test: F) -> bool
    ghost rule: { ℕ → Bool }
    requires fits { p + n * w < 2 ^ 64 }
    requires called { (q : ℕ) → q + w ≤ p + n * w → F.pre test q }
    requires tells { (q : ℕ) (b : Bool) → F.post test q b → b ≡ rule q }
    ensures { result ≡ every_at rule w n p }
{
    for i in 0..n {
        if !test(p + i * w) {
            return false;
        }
    }
    true
}

#[tactic(auto, unfolding(crate::specs::Plain::is_plain))]
fn plain_text(text: &[u8]) -> bool
    ensures { result ≡ is_plain text.now }
{
    run_len(text, 0, 0x7f) == text.len()
}

// What is judged: an area and its text. p is a place in the area. Where all bytes of the text are ASCII, no string of it need be looked at.
#[derive(Clone, Copy)]
struct Look<'a> {
    text: &'a [u8],
    area: &'a [u8],
    plain: bool,
    ghost plain_value: { plain ≡ is_plain text.now },
}

impl Look<'_> {
    // The string whose place and length stand at p.
    fn string(&self, p: usize) -> bool
        requires { p + 4 ≤ length self.now.area.now }
        ensures { result ≡ fine_string self.now.area.now self.now.text.now p }
    {
        let place = get2(self.area, p);
        let len = get2(self.area, p + 2);
        let end = place + len;
        end <= self.text.len() && (self.plain || is_utf8(&self.text[place..end]))
    }

    // A mark, and what it marks. What is absent is not judged.
    fn marked<F: Fn(usize) -> bool>(&self, p: usize, fine: F) -> bool
        ghost rule: { ℕ → Bool }
        requires p_in_bounds { p + 2 ≤ length self.now.area.now }
        requires called { F.pre fine (p + 2) }
        requires tells { (b : Bool) → F.post fine (p + 2) b → b ≡ rule (p + 2) }
        ensures { result ≡ fine_if self.now.area.now rule p }
    {
        let mark = get2(self.area, p);
        mark == 0 || mark == 1 && fine(p + 2)
    }

    // A string that may be absent.
    fn maybe(&self, p: usize) -> bool
        requires { p + 6 ≤ length self.now.area.now }
        ensures { result ≡ fine_if self.now.area.now (fine_string self.now.area.now self.now.text.now) p }
    {
        self.marked(p, |q| self.string(q))
    }

    #[tactic(auto, unfolding(crate::specs::Judge::fine_origin))]
    fn origin(&self, p: usize) -> bool
        requires { p + 30 ≤ length self.now.area.now }
        ensures { result ≡ fine_origin self.now.area.now self.now.text.now p }
    {
        self.maybe(p)
            && self.string(p + 6)
            && self.string(p + 18)
            && self.string(p + 22)
            && self.string(p + 26)
    }

    #[tactic(auto, unfolding(crate::specs::Judge::fine_connection))]
    fn connection(&self, p: usize) -> bool
        requires { p + 12 ≤ length self.now.area.now }
        ensures { result ≡ fine_connection self.now.area.now self.now.text.now p }
    {
        self.string(p) && self.string(p + 4) && self.string(p + 8)
    }

    // A k or an a line: a name, and a value that may be absent.
    #[tactic(auto, unfolding(crate::specs::Judge::fine_pair))]
    fn pair(&self, p: usize) -> bool
        requires { p + 10 ≤ length self.now.area.now }
        ensures { result ≡ fine_pair self.now.area.now self.now.text.now p }
    {
        self.string(p) && self.maybe(p + 4)
    }

    // An m line with its title and its key.
    #[tactic(auto, unfolding(crate::specs::Judge::fine_media))]
    fn media(&self, p: usize) -> bool
        requires { p + 36 ≤ length self.now.area.now }
        ensures { result ≡ fine_media self.now.area.now self.now.text.now p }
    {
        self.string(p)
            && self.marked(p + 6, |_| true)
            && self.string(p + 10)
            && self.string(p + 14)
            && self.maybe(p + 18)
            && self.marked(p + 24, |q| self.pair(q))
    }

    // Each row of the table at base, of w bytes.
    fn rows<F: Fn(usize) -> bool>(&self, base: usize, w: usize, fine: F) -> bool
        ghost rule: { ℕ → Bool }
        requires inside { Inside self.now.area.now base w }
        requires called { (p : ℕ) → p + w ≤ length self.now.area.now → F.pre fine p }
        requires tells { (p : ℕ) (b : Bool) → F.post fine p b → b ≡ rule p }
        ensures { result ≡ rows self.now.area.now rule base w }
    {
        every_at(get2(self.area, base), w, base + 2, fine)
    }

    #[tactic(auto, unfolding(crate::specs::Judge::fine_head))]
    fn head(&self) -> bool
        requires { size ≤ length self.now.area.now }
        ensures { result ≡ fine_head self.now.area.now self.now.text.now }
    {
        self.marked(ORIGIN, |p| self.origin(p))
            && self.string(NAME)
            && self.maybe(DESCRIPTION)
            && self.maybe(URI)
            && self.marked(CONNECTION, |p| self.connection(p))
            && self.marked(KEY, |p| self.pair(p))
    }

    #[tactic(auto, unfolding(crate::specs::Judge::fine_tables))]
    fn tables(&self) -> bool
        requires { Counted self.now.area.now }
        ensures { result ≡ fine_tables self.now.area.now self.now.text.now }
    {
        self.rows(EMAILS, 4, |p| self.string(p))
            && self.rows(PHONES, 4, |p| self.string(p))
            && self.rows(CONNECTIONS, 14, |p| self.connection(p + 2))
            && self.rows(BANDWIDTHS, 14, |p| self.string(p + 2))
            && self.rows(ATTRIBUTES, 12, |p| self.pair(p + 2))
            && self.rows(MEDIAS, 36, |p| self.media(p))
    }
}

// Owners of the table at base, whose rows have w bytes: none below low or above most, and none below the one before it.
fn rising(area: &[u8], base: usize, w: usize, low: usize, most: usize) -> bool
    requires { (2 ≤ w) × Inside area.now base w }
    ensures { result ≡ rising area.now w most (num 2 area.now base) low (base + 2) }
{
    let n = get2(area, base);
    let mut lo = low;
    for i in 0..n {
        let owner = get2(area, base + 2 + i * w);
        if owner < lo || most < owner {
            return false;
        }
        lo = owner;
    }
    true
}

// Owners of the table at base: at least low, at most the count of the table at owners.
fn owned(area: &[u8], base: usize, w: usize, low: usize, owners: usize) -> bool
    requires le_w { (2 ≤ w) × Inside area.now base w }
    requires owners_in_bounds { owners + 2 ≤ length area.now }
    ensures { result ≡ owned area.now base w low owners }
{
    rising(area, base, w, low, get2(area, owners))
}

#[tactic(auto, unfolding(crate::specs::Judge::owners))]
fn owners_fine(area: &[u8]) -> bool
    requires { Counted area.now }
    ensures { result ≡ owners area.now }
{
    owned(area, CONNECTIONS, 14, 1, MEDIAS)
        && owned(area, BANDWIDTHS, 14, 0, MEDIAS)
        && owned(area, REPEATS, 18, 1, TIMES)
        && owned(area, OFFSETS, 10, 1, REPEATS)
        && owned(area, ATTRIBUTES, 12, 0, MEDIAS)
}

// Two halves, as in the definition: every test has a table and a limit of its own, so nothing is left to share.
#[tactic(auto, unfolding(crate::specs::Judge::small_counts))]
fn small_counts(area: &[u8]) -> bool
    requires { size ≤ length area.now }
    ensures { result ≡ small_counts area.now }
{
    get2(area, EMAILS) <= 16
        && get2(area, PHONES) <= 16
        && get2(area, CONNECTIONS) <= 64
        && get2(area, BANDWIDTHS) <= 64
        && get2(area, TIMES) <= 32
}

#[tactic(auto, unfolding(crate::specs::Judge::large_counts))]
fn large_counts(area: &[u8]) -> bool
    requires { size ≤ length area.now }
    ensures { result ≡ large_counts area.now }
{
    get2(area, REPEATS) <= 64
        && get2(area, OFFSETS) <= 256
        && get2(area, ZONES) <= 64
        && get2(area, ATTRIBUTES) <= 512
        && get2(area, MEDIAS) <= 32
}

// Whether the area holds a session that can be written with this text. Counts come first: they bound the rest of the work.
#[tactic(auto, unfolding(crate::specs::Judge::well_formed))]
pub fn judge(text: &[u8], area: &[u8]) -> bool
    requires { size ≤ length area.now }
    ensures { result ≡ well_formed area.now text.now }
{
    if !small_counts(area) || !large_counts(area) {
        return false;
    }
    let look = Look {
        text,
        area,
        plain: plain_text(text),
    };
    owners_fine(area) && look.head() && look.tables()
}
