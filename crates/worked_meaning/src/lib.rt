//! Worked runs: what the definitions of theory_meaning compute, row by row.
#![tactic(auto)]
