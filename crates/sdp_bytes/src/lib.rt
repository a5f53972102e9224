// Document 01, module 1: the token test, and the index of a byte. sdp_utf8 and sdp_number have the rest of the module.
#![tactic(auto)]

pub mod runs;
pub mod search;
pub mod token;
