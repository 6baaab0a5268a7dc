//! Scripts without what depends on how they are spelled. They run as they did.
#![tactic(auto)]
