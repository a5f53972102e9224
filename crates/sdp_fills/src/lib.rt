// No functions: what the length call and the fill say of each other, and how areas from before P9 are judged, as laws over the definitions.
#![tactic(auto)]
