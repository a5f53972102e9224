// Room that is enough for what is written of an area, found without writing it.
#![tactic(auto)]

ghost use Rattle.std.specs.Prelude.{◌≡◌, ℕ, ◌+◌, ◌≤◌, ◌<◌, length};
ghost use Rattle.sdp_area.specs.Area.{size};
ghost use Rattle.sdp_valid.specs.Counted.{Counted, Inside};
ghost use Rattle.sdp_room.specs.Room.{connection_room, media_room, contact_room, bandwidth_room, attribute_room, sum_rows, origin_room, head_room, times_room, tables_room, room_for};

use sdp_area::{
    ATTRIBUTES, BANDWIDTHS, CONNECTION, CONNECTIONS, DESCRIPTION, EMAILS, MEDIAS, NAME, OFFSETS,
    ORIGIN, PHONES, REPEATS, TIMES, URI, ZONES,
};
use sdp_cells::get2;

/// What each row of the table at base takes, added; a row has w bytes.
pub fn sum_rows<F: Fn(usize) -> usize>(area: &[u8], base: usize, w: usize, cost: F) -> usize
    ghost rule: { ℕ → ℕ }
    requires inside { Inside area.now base w }
    requires called { (p : ℕ) → p + w ≤ length area.now → F.pre cost p }
    requires tells { (p r : ℕ) → F.post cost p r → (r ≡ rule p) × (r < 400000) }
    ensures { (result ≡ sum_rows area.now rule base w) × (result < 27000000000) }
{
    let n = get2(area, base);
    let mut sum: usize = 0;
    for i in 0..n {
        sum += cost(base + 2 + i * w);
    }
    sum
}

// An area whose rows lie in it. p is a place in it.
#[derive(Clone, Copy)]
struct Room<'a> {
    area: &'a [u8],
    ghost counted: { Counted area.now },
}

impl Room<'_> {
    // An e or a p line.
    fn contact(&self, p: usize) -> usize
        requires { p + 4 ≤ length self.now.area.now }
        ensures { (result ≡ contact_room self.now.area.now p) × (result < 400000) }
    {
        4 + get2(self.area, p + 2)
    }

    #[tactic(auto, unfolding(crate::specs::Room::connection_room))]
    fn connection(&self, p: usize) -> usize
        requires { p + 12 ≤ length self.now.area.now }
        ensures { (result ≡ connection_room self.now.area.now p) × (result < 400000) }
    {
        6 + (get2(self.area, p + 2) + get2(self.area, p + 6) + get2(self.area, p + 10))
    }

    fn bandwidth(&self, p: usize) -> usize
        requires { p + 14 ≤ length self.now.area.now }
        ensures { (result ≡ bandwidth_room self.now.area.now p) × (result < 400000) }
    {
        25 + get2(self.area, p + 4)
    }

    fn attribute(&self, p: usize) -> usize
        requires { p + 12 ≤ length self.now.area.now }
        ensures { (result ≡ attribute_room self.now.area.now p) × (result < 400000) }
    {
        5 + (get2(self.area, p + 4) + get2(self.area, p + 10))
    }

    // An m line with its title.
    #[tactic(auto, unfolding(crate::specs::Room::media_room))]
    fn media(&self, p: usize) -> usize
        requires { p + 24 ≤ length self.now.area.now }
        ensures { (result ≡ media_room self.now.area.now p) × (result < 400000) }
    {
        let title = get2(self.area, p + 22);
        52 + (get2(self.area, p + 2) + get2(self.area, p + 12) + get2(self.area, p + 16) + title)
    }

    #[tactic(auto, unfolding(crate::specs::Room::origin_room))]
    fn origin(&self, p: usize) -> usize
        requires { p + 30 ≤ length self.now.area.now }
        ensures { (result ≡ origin_room self.now.area.now p) × (result < 400000) }
    {
        let names = get2(self.area, p + 4) + get2(self.area, p + 8);
        let address = get2(self.area, p + 20) + get2(self.area, p + 24) + get2(self.area, p + 28);
        30 + (names + address)
    }

    // What a session has at most once.
    #[tactic(auto, unfolding(crate::specs::Room::head_room))]
    fn head(&self) -> usize
        ensures { (result ≡ head_room self.now.area.now) × (result < 2000000) }
    {
        let strings = get2(self.area, NAME + 2)
            + get2(self.area, DESCRIPTION + 4)
            + get2(self.area, URI + 4);
        17 + self.origin(ORIGIN + 2) + strings + self.connection(CONNECTION + 2)
    }

    // The tables of numbers.
    #[tactic(auto, unfolding(crate::specs::Room::times_room))]
    fn times(&self) -> usize
        ensures { (result ≡ times_room self.now.area.now) × (result < 20000000) }
    {
        11 + get2(self.area, TIMES) * 45
            + get2(self.area, REPEATS) * 47
            + get2(self.area, OFFSETS) * 22
            + get2(self.area, ZONES) * 44
    }

    // The tables with strings.
    #[tactic(auto, unfolding(crate::specs::Room::tables_room))]
    fn tables(&self) -> usize
        ensures { (result ≡ tables_room self.now.area.now) × (result < 200000000000) }
    {
        sum_rows(self.area, EMAILS, 4, |p| self.contact(p))
            + sum_rows(self.area, PHONES, 4, |p| self.contact(p))
            + sum_rows(self.area, CONNECTIONS, 14, |p| self.connection(p + 2))
            + sum_rows(self.area, BANDWIDTHS, 14, |p| self.bandwidth(p))
            + sum_rows(self.area, ATTRIBUTES, 12, |p| self.attribute(p))
            + sum_rows(self.area, MEDIAS, 36, |p| self.media(p))
    }
}

// An output of so many bytes is long enough.
#[tactic(auto, unfolding(crate::specs::Room::room_for))]
pub fn room_for(area: &[u8]) -> usize
    requires { Counted area.now }
    ensures { (result ≡ room_for area.now) × (result < 300000000000) }
{
    let room = Room { area };
    room.head() + room.times() + room.tables()
}
