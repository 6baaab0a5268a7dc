//! The grammar of rhai's own syntax, as definitions: which words stand in a text, and which trees they spell.
#![tactic(auto)]
