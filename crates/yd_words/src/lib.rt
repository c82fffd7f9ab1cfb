//! Words on lists and tests that all definitions share, and the lemmas about them.
//!
//! There are definitions and lemmas, and no code: what is true of each element (`Each`,
//! `specs/Each.antt`), which elements a list has (`specs/Member.antt`), and tests as numbers and on
//! what may be absent (`specs/Test.antt`). A crate that needs one of them cites it from here.
#![tactic(auto)]
