//! A slice follows its original through calls: a law over what acts may use, define and kill, which looks at no form of
//! statement (Horwitz, Reps and Binkley 1990; Binkley 1993).
//!
//! The law, in its general form, for any locations, worlds and relation of what is wanted, is the lemma `slice_follows` of
//! `proofs/Law.antt`, over the definitions of `specs/`. It speaks of relations, so that it is no contract of a function;
//! `slices_follow_originals` of slice_engine is the law at a program and its projection.
#![tactic(auto)]
