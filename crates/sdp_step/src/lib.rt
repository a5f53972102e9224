// Document 01, module 4: what every function that takes a line is given and hands back: the marks, or the refusal. One that takes
// any line hands back no marks for a line without use.
#![tactic(auto)]

ghost use Rattle.std.specs.Prelude.{◌≡◌};
ghost use Rattle.sdp_step.specs.Hold.{stored_of};

use sdp_cells::Full;
use sdp_judge::Wrong;

// What the area does not keep: whether there was an s line, and a z line.
#[derive(Clone, Copy, Debug, PartialEq, Eq)]
pub struct Marks {
    pub named: bool,
    pub zoned: bool,
}

// A row that was stored, or did not fit.
pub fn stored(p: Result<(), Full>, table: u64, marks: Marks) -> Result<Marks, Wrong>
    ensures { result ≡ stored_of p table marks }
{
    p.map(|_| marks).map_err(|_| Wrong {
        number: 21,
        field: table,
        at: 0,
    })
}
