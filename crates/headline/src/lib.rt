//! The headline, as a definition: when a loop program is one of a pipeline.
//!
//! `specs/Headline` cites the lists of list_denotation and the loop programs of loop_ir alone, so those who
//! promise it, who carry it on and who read it need no emission. It depends on these two.
#![tactic(auto)]
