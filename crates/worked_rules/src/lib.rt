//! Worked rules: what rewrites to what and what does not, with the runs that tell why, row by row.
#![tactic(auto)]
