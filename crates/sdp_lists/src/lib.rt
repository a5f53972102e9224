// Document 01, module 3: the readers of r and z, whose lists are read one offset or pair at a time. parser.rs has the same names.
#![tactic(auto)]

ghost use Rattle.std.specs.Prelude.{◌≡◌};
ghost use Rattle.sdp_lists.specs.Answers.{repeat_head, offset_at, zone_at};

use sdp_judge::{Wrong, number_of, offset_of, time_of, word_time};
use sdp_split::word_at;

// A repeat without its offsets, and where these begin.
#[derive(Clone, Copy, Debug, PartialEq, Eq)]
pub struct RepeatHead {
    pub repeat_interval: u64,
    pub active_duration: u64,
    pub next: usize,
}

// An adjustment; the offset as the 64 bits of an i64.
#[derive(Clone, Copy, Debug, PartialEq, Eq)]
pub struct Zone {
    pub adjustment_time: u64,
    pub offset: u64,
}

impl RepeatHead {
    // <repeat interval> <active duration>, and where the offsets begin
    pub fn parse(v: &[u8]) -> Result<RepeatHead, Wrong>
        ensures { result ≡ repeat_head v.now }
    {
        let (repeat_interval, i) = word_time(v, 0, 18)?;
        let (active_duration, next) = word_time(v, i, 19)?;
        Ok(RepeatHead {
            repeat_interval,
            active_duration,
            next,
        })
    }
}

// One offset from place i on and its end, or that the list ends here.
#[tactic(auto, unfolding(crate::specs::Answers::offset_at))]
pub fn repeat_offset(v: &[u8], i: usize) -> Result<Option<(u64, usize)>, Wrong>
    ensures { result ≡ offset_at v.now i }
{
    match word_at(v, i) {
        None => Ok(None),
        f => Ok(Some(time_of(v, 20, f)?)),
    }
}

impl Zone {
    // <adjustment time> <offset>: one pair from place i on and its end, or that the list ends here.
    #[tactic(auto, unfolding(crate::specs::Answers::zone_at))]
    pub fn parse(v: &[u8], i: usize) -> Result<Option<(Zone, usize)>, Wrong>
        ensures { result ≡ zone_at v.now i }
    {
        match word_at(v, i) {
            None => Ok(None),
            f => {
                let (adjustment_time, next) = number_of(v, 21, f)?;
                let (offset, next) = offset_of(v, 22, word_at(v, next))?;
                let zone = Zone {
                    adjustment_time,
                    offset,
                };
                Ok(Some((zone, next)))
            }
        }
    }
}
