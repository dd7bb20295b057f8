//! Histories of a partition on its disk, and what a stop at any moment of one leaves. Definitions and lemmas alone: over
//! any way in which files are recovered from, a history whose steps give the state before or the one after is safe at each
//! of its moments.
#![tactic(auto)]
