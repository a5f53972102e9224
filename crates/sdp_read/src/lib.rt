// Document 01, module 4: session and media reading, a text line by line.
#![tactic(auto)]

ghost use Rattle.std.specs.Prelude.{◌≡◌, List, ℕ, ◌≤◌, length};
ghost use Rattle.sdp_numbers.specs.Refusals.{longest_text};
ghost use Rattle.sdp_area.specs.Session.{empty};
ghost use Rattle.sdp_area.specs.Columns.{area_size, area_of};
ghost use Rattle.sdp_stamp.specs.Stamp.{no_stamps};
ghost use Rattle.sdp_lines.specs.Lines.{start};
ghost use Rattle.sdp_cutter.specs.Cutter.{move_at, standing, due};
ghost use Rattle.sdp_counts.specs.Count.{no_counts};
ghost use Rattle.sdp_read.specs.Run.{read_text, told_of};
ghost use Rattle.sdp_turn.specs.Turn.{Few, Turns, Passes};
ghost use Rattle.sdp_read.specs.From.{Reached, line_at, EndsFrom};

use sdp_area::{AREA_SIZE, clear};
use sdp_counts::Counts;
use sdp_cutter::{Cutter, next_line};
use sdp_lines::{Answer, LineNumber, Place};
use sdp_turn::{Failure, State, turn_of};

// What reading returns: the answer, and of an accepted text how many lines were empty, ignored and kept.
#[repr(C)]
#[derive(Clone, Copy)]
pub struct Told {
    pub answer: Answer,
    pub counts: Counts,
}

// One line, and what it does to a reading: the cutter that is lent moves itself on.
fn one_line(
    c: &mut Cutter,
    text: &[u8],
    area: &mut [u8],
    state: State,
) -> Option<Result<State, Failure>>
    requires { (area_size ≤ length area.old) × ((length text.now ≤ longest_text) × Few state) }
    ensures { (Turns (λ x. line_at text.now x (due c.old))
        state result area.old area.new
        × Passes (move_at text.now c.old.at c.old.line).next state result)
        × (c.new ≡ standing (move_at text.now c.old.at c.old.line)) }
{
    let next = next_line(c, text);
    turn_of(text, area, state, next)
}

// All lines, the version line too: the cutter is lent for each.
fn read_lines(c: &mut Cutter, text: &[u8], area: &mut [u8]) -> Result<Counts, Failure>
    requires { (area_size ≤ length area.old) × ((length text.now ≤ longest_text) × Reached text.now (due c.old)) }
    ensures { (t : List ℕ) → area.old ≡ area_of empty no_stamps t
        → EndsFrom text.now (due c.old) result area.new t }
{
    let mut state = State::default();
    while let Some(turn) = one_line(c, text, area, state) {
        state = turn?;
    }
    Ok(state.counts())
}

// The lines from the first on: the cutter is made here, and lent.
fn read_text(text: &[u8], area: &mut [u8]) -> Result<Counts, Failure>
    requires { (area_size ≤ length area.old) × (length text.now ≤ longest_text) }
    ensures { (t : List ℕ) → area.old ≡ area_of empty no_stamps t
        → EndsFrom text.now start result area.new t }
{
    let mut c = Cutter {
        at: Place(0),
        line: LineNumber(1),
    };
    read_lines(&mut c, text, area)
}

// A refusal, which has no counts.
fn refused(x: Answer) -> Told
    ensures { result ≡ record { answer = x; counts = no_counts } }
{
    Told {
        answer: x,
        counts: Counts::default(),
    }
}

// Reads a text into the area that the caller lends. Where a line after the version line is refused, the area is cleared again.
pub fn read(text: &[u8], area: &mut [u8]) -> Told
    ensures value { result ≡ told_of (read_text text.now area.old) }
    ensures area_after { area.new ≡ (read_text text.now area.old).area }
{
    if area.len() < AREA_SIZE {
        return refused(Answer::plain(2));
    }
    if 32768 < text.len() {
        return refused(Answer::plain(1));
    }
    clear(area);
    match read_text(text, area) {
        Ok(counts) => Told {
            answer: Answer::plain(0),
            counts,
        },
        Err(Failure::Unread(x)) => refused(x),
        Err(Failure::Stopped(x)) => {
            clear(area);
            refused(x)
        }
    }
}
