//! What a script means, without code: the abstract tree, its core, acts and their runs, and facts on them.
#![tactic(auto)]
