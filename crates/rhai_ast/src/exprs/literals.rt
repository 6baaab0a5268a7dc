//! The values of literals.

#![tactic(auto)]

ghost use Rattle.std.specs.Prelude.{◌≡◌, IfOk, Some};
ghost use Rattle.std.specs.Option.{option_map};
ghost use Rattle.rhai_base.specs.Reading.{value_of};
ghost use Rattle.ast_nodes.specs.Lent.{lent_value};
ghost use Rattle.ast_types.specs.Reading.{expr_of};
ghost use Rattle.ast_types.specs.Positions.{AreAt, arguments_of, position_of};
ghost use Rattle.theory_meaning.specs.Constants as constants;
ghost use Rattle.theory_meaning.specs.Laws.{ConstantLaw, LiteralLaw};

use ast_nodes::{constant_for, literal_value};
use ast_types::Expr;
use rhai_base::{Dynamic, OutOfMemory, Position};
use std::alloc::Global;
use std::borrow::Cow;

/// The values of literals.
pub trait Literals: Sized {
    /// The value of a literal: of a constant, of the call `Fn("name")` where a function may have the
    /// name, of `..` and `..=` over integers, one of which may be left out.
    ///
    /// Refused for want of memory alone. In rhai it takes the global state too, which it asks nothing.
    fn get_literal_value(&self, alloc: Global) -> Result<Option<Dynamic>, OutOfMemory>;

    /// The value of a constant, lent where the tree holds it whole, and else made, which may be
    /// refused for want of memory. It is not in rhai.
    fn constant_value(&self, alloc: Global) -> Result<Option<Cow<'_, Dynamic>>, OutOfMemory>;

    /// The constant for a value. A pointer without values of parameters is the call `Fn("name")`. Refused
    /// for want of memory alone; the value is gone then.
    fn from_dynamic(alloc: Global, value: Dynamic, pos: Position) -> Result<Self, OutOfMemory>;
}

impl Literals for Expr {
    #[tactic(auto, using(theory_meaning::proofs::LiteralLaws::literal_law, theory_meaning::proofs::LiteralLaws::constant_is_literal))]
    fn get_literal_value(&self, alloc: Global) -> Result<Option<Dynamic>, OutOfMemory>
        ensures value { IfOk result (λ v. option_map value_of v ≡ constants.literal_value (expr_of self.now)) }
        ensures runs { LiteralLaw (expr_of self.now) }
        ensures of_constants { ConstantLaw (expr_of self.now) }
    {
        literal_value(alloc, self)
    }

    fn constant_value(&self, alloc: Global) -> Result<Option<Cow<'_, Dynamic>>, OutOfMemory>
        ensures { IfOk result (λ v. lent_value v ≡ constants.constant_value (expr_of self.now)) }
    {
        ast_nodes::constant_value(alloc, self)
    }

    fn from_dynamic(alloc: Global, value: Dynamic, pos: Position) -> Result<Expr, OutOfMemory>
        ensures value { IfOk result (λ e. expr_of e ≡ constants.constant_for (value_of value)) }
        ensures round_trip { IfOk result (λ e. constants.literal_value (expr_of e) ≡ Some (value_of value)) }
        ensures position { IfOk result (λ e. position_of e ≡ pos) }
        ensures arguments { IfOk result (λ e. AreAt pos (arguments_of e)) }
    {
        constant_for(alloc, value, pos)
    }
}
