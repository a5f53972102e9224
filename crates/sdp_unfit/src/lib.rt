// Whether the session of an area can be used with a text: refusals 2, 1 and 23, for writing and for all that is judged as writing is.
#![tactic(auto)]

ghost use Rattle.std.specs.Prelude.{◌≡◌};
ghost use Rattle.sdp_unfit.specs.Unfit.{unfit};
ghost use Rattle.sdp_unfit.specs.Number.{number_of, refusal};

use sdp_area::AREA_SIZE;
use sdp_stamp_valid::lines_fine;
use sdp_valid::judge;

/// Why not. Its number is that of the refusal.
#[derive(Clone, Copy, Debug, PartialEq, Eq)]
pub enum Misfit {
    AreaTooShort,
    TextTooLong,
    BadSession,
}

impl From<Misfit> for u64 {
    ghost from_gives = { λ why n. n ≡ number_of why };

    fn from(why: Misfit) -> u64 {
        match why {
            Misfit::AreaTooShort => 2,
            Misfit::TextTooLong => 1,
            Misfit::BadSession => 23,
        }
    }
}

pub fn unfit(text: &[u8], area: &[u8]) -> Result<(), Misfit>
    ensures { refusal result ≡ unfit text.now area.now }
{
    if area.len() < AREA_SIZE {
        return Err(Misfit::AreaTooShort);
    }
    if 32768 < text.len() {
        return Err(Misfit::TextTooLong);
    }
    if judge(text, area) && lines_fine(area) {
        Ok(())
    } else {
        Err(Misfit::BadSession)
    }
}
