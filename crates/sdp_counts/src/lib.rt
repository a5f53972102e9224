// Document 02, P11, "Account for every line": the lines of a text by what the reader makes of them; definitions and laws, and no functions.
#![tactic(auto)]

// How many lines are empty, how many are ignored, how many are kept.
#[repr(C)]
#[derive(Clone, Copy, Debug, Default, PartialEq, Eq)]
pub struct Counts {
    pub empty: u64,
    pub ignored: u64,
    pub kept: u64,
}
