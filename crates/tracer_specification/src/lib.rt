//! What a history of commands means: the settings, rings, clock and files that the requests done so far give, the answer that they give a
//! request, and which histories are legal. It is all in `specs/`; the code here does nothing but name theorems.
#![tactic(auto)]

pub mod laws;
