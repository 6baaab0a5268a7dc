//! What may be asked of a call.

#![tactic(auto, using(ast_types::specs::Reading::shapes))]

ghost use Rattle.std.specs.Prelude.{◌≡◌, ◌↔◌, ◌≢◌, [], IsTrue, is_some};
ghost use Rattle.ast_types.specs.Reading.{exprs_of};
ghost use Rattle.theory_meaning.specs.Queries as queries;

use ast_nodes::are_constant;
use ast_types::FnCallExpr;

/// What may be asked of a call.
pub trait CallQueries {
    /// Does it name modules?
    fn is_qualified(&self) -> bool;

    /// Is it an operator over its operands: does it have a token?
    fn is_operator_call(&self) -> bool;

    /// Are all arguments constant? So they are where there are none.
    fn constant_args(&self) -> bool;
}

impl CallQueries for FnCallExpr {
    fn is_qualified(&self) -> bool
        ensures { IsTrue result ↔ (self.now.namespace.path ≢ []) }
    {
        !self.namespace.is_empty()
    }

    fn is_operator_call(&self) -> bool
        ensures { result ≡ is_some self.now.op_token }
    {
        self.op_token.is_some()
    }

    fn constant_args(&self) -> bool
        ensures { result ≡ queries.constant_args (exprs_of self.now.args) }
    {
        are_constant(self.args.as_slice())
    }
}
