//! What may be rewritten to what, and what that keeps of the trees: weights, what lasts, normal forms. Definitions and proofs alone.
#![tactic(auto)]
