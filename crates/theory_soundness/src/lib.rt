//! What was rewritten does what was there: each rule simulates, and so does a derivation. Definitions and proofs alone.
#![tactic(auto)]
