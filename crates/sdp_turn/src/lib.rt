// Document 01, module 4: one line, by what the cutter found, and what it does to a reading.
#![tactic(auto)]

ghost use Rattle.std.specs.Prelude.{Some, ◌≡◌, ◌+◌, ◌^◌, ◌<◌, ◌≤◌, length};
ghost use Rattle.sdp_numbers.specs.Refusals.{longest_text, encoding};
ghost use Rattle.sdp_area.specs.Columns.{area_size};
ghost use Rattle.sdp_turn.specs.Turn.{Inside, Few, marks_in, counts_in, empty_more, ignored_more, kept_more};
ghost use Rattle.sdp_turn.specs.Turn.{wrong_at, failure_of, end_turn, opened_turn, GoodTurns, line_of, Turns, Passes};

use sdp_area::{medias, offsets};
use sdp_counts::Counts;
use sdp_cutter::Next;
use sdp_judge::Wrong;
use sdp_line::{opening_line, take};
use sdp_lines::{Answer, LineNumber, Place, Span};
use sdp_roles::role_at;
use sdp_stamp::stamp;
use sdp_step::Marks;

// What a reading carries from line to line beside the area: the marks, how many lines were kept, empty and ignored so far, and whether
// the version line is behind it. In another order, or with three flags side by side, the compiled loop is slower (docs/SPEED.md). `Few` is
// no invariant of it: each line adds one, and what bounds them all is the text, which a state doesn't have.
#[derive(Clone, Copy, Default)]
pub struct State {
    pub named: bool,
    pub zoned: bool,
    pub kept: u64,
    pub empty: u64,
    pub ignored: u64,
    pub begun: bool,
}

// Why a reading fails: a line is refused; or the version is, or a line above it, and no line was read.
#[derive(Clone, Copy, Debug, PartialEq, Eq)]
pub enum Failure {
    Stopped(Answer),
    Unread(Answer),
}

impl State {
    // Its marks.
    fn marks(self) -> Marks
        ensures { result ≡ marks_in self }
    {
        Marks {
            named: self.named,
            zoned: self.zoned,
        }
    }

    // Its counts.
    pub fn counts(self) -> Counts
        ensures { result ≡ counts_in self }
    {
        Counts {
            empty: self.empty,
            ignored: self.ignored,
            kept: self.kept,
        }
    }

    // One empty line more.
    fn one_empty(self) -> State
        requires { Few self }
        ensures { result ≡ empty_more self }
    {
        State {
            empty: self.empty + 1,
            ..self
        }
    }

    // One ignored line more.
    fn one_ignored(self) -> State
        requires { Few self }
        ensures { result ≡ ignored_more self }
    {
        State {
            ignored: self.ignored + 1,
            ..self
        }
    }

    // One kept line more, and the marks after it. The first is the version line.
    fn one_kept(self, marks: Marks) -> State
        requires { Few self }
        ensures { result ≡ kept_more self marks }
    {
        State {
            named: marks.named,
            zoned: marks.zoned,
            begun: true,
            kept: self.kept + 1,
            ..self
        }
    }
}

// A refusal of a line whose value stands at a place: 8 names the place of the bad byte in the text. The byte stands in the value,
// so the sum never wraps.
fn wrong_at(line: LineNumber, value: Place, w: Wrong) -> Answer
    ensures { (w.number ≡ encoding → value.0 + w.at < 2 ^ 64) → result ≡ wrong_at line.0 value.0 w }
{
    let told = Answer::on_line(w.number, line, w.field);
    if w.number != 8 {
        return told;
    }
    Answer {
        place: value.0.wrapping_add(w.at) as u64,
        ..told
    }
}

// A line of good form after the version line, whose value stands in the text. Its three parts stay apart, as `take` has them
// (docs/FORMS.md).
fn good_line(
    text: &[u8],
    area: &mut [u8],
    state: State,
    number: LineNumber,
    letter: u8,
    value: Span,
) -> Result<State, Failure>
    requires { (area_size ≤ length area.old) × ((length text.now ≤ longest_text) × (Few state × (value.at.0 + value.len ≤ length text.now))) }
    ensures { GoodTurns text.now number.0 letter value state (Some result) area.old area.new }
{
    let at = value.at;
    let begin = at.0;
    let end = begin + value.len;
    let role = role_at(medias(area), letter);
    let before = offsets(area);
    match take(area, at, state.marks(), number, letter, &text[begin..end]) {
        Ok(Some(marks)) => {
            stamp(area, role, before, number.0);
            Ok(state.one_kept(marks))
        }
        Ok(None) => Ok(state.one_ignored()),
        Err(w) => Err(Failure::Stopped(wrong_at(number, at, w))),
    }
}

// The first line that is not empty, of good form.
fn opened_line(
    text: &[u8],
    state: State,
    number: LineNumber,
    letter: u8,
    value: Span,
) -> Result<State, Failure>
    requires { Few state × (value.at.0 + value.len ≤ length text.now) }
    ensures { Some result ≡ opened_turn text.now state number.0 letter value }
{
    let at = value.at;
    let begin = at.0;
    let end = begin + value.len;
    opening_line(at, number, letter, &text[begin..end]).map_err(Failure::Unread)?;
    Ok(state.one_kept(state.marks()))
}

// The refusal of a line: before the version line, nothing was read.
fn refused(begun: bool, x: Answer) -> Failure
    ensures { result ≡ failure_of begun x }
{
    if begun {
        return Failure::Stopped(x);
    }
    Failure::Unread(x)
}

// No line is left: that is the end, or the version line is missing.
fn at_end(state: State) -> Option<Result<State, Failure>>
    ensures { result ≡ end_turn state }
{
    if state.begun {
        return None;
    }
    Some(Err(Failure::Unread(Answer::plain(6))))
}

// What the cutter found, and what it does to a reading: the state after a line; none at the end of the lines.
pub fn turn_of(
    text: &[u8],
    area: &mut [u8],
    state: State,
    next: Next,
) -> Option<Result<State, Failure>>
    requires { (area_size ≤ length area.old) × ((length text.now ≤ longest_text) × (Few state × Inside text.now next)) }
    ensures { Turns (λ st. line_of text.now st next)
        state result area.old area.new × Passes next state result }
{
    match next {
        Next::End => at_end(state),
        Next::Refused { fault, line } => {
            Some(Err(refused(state.begun, Answer::on_line(fault.number(), line, 0))))
        }
        Next::Empty => Some(Ok(state.one_empty())),
        Next::Found {
            number,
            letter,
            value,
        } => {
            if state.begun {
                return Some(good_line(text, area, state, number, letter, value));
            }
            Some(opened_line(text, state, number, letter, value))
        }
    }
}
