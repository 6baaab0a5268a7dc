//! Scripts whose functions without a name of their own are named otherwise. They run as they did, but for these names.
#![tactic(auto)]
