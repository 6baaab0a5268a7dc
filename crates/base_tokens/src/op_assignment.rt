//! Assignments, straight or by an operator.
#![tactic(auto, using(crate::proofs::Applied::applies, crate::proofs::Applied::applied_by))]

ghost use Rattle.std.specs.Prelude.{◌≡◌, IsSome, IfSome, IfNone, Some, false, true};
ghost use Rattle.base_tokens.specs.Symbols.{token_text};
ghost use Rattle.base_tokens.specs.Tokens.{assignment_of, base_of, applied};

use crate::{AstError, Position, Token};

/// A straight assignment, or an `op=` with the operator that it applies.
#[derive(Clone, Copy, Debug, PartialEq, Eq)]
pub struct OpAssignment {
    op_assign: Token,
    op: Token,
    pos: Position,
    ghost fits: { applied op_assign ≡ Some op },
}

impl OpAssignment {
    ghost use Rattle.base_tokens.specs.Assignments as spec;

    /// A straight assignment.
    pub fn new_assignment(pos: Position) -> OpAssignment
        ensures { spec.IsStraight pos result }
    {
        OpAssignment {
            op_assign: Token::Equals,
            op: Token::Equals,
            pos,
        }
    }

    /// The `op=` that is written so. Refused where the text is none; rhai panics.
    pub fn new_op_assignment(text: &str, pos: Position) -> Result<OpAssignment, AstError>
        ensures { spec.Answers (spec.form_written text.now) AstError.NotAnOpAssignment pos result }
    {
        let form = Token::lookup_symbol_from_syntax(text).ok_or(AstError::NotAnOpAssignment)?;
        match form.get_base_op_from_assignment() {
            Some(_) => Ok(Self::new_op_assignment_from_token(form, pos)),
            None => Err(AstError::NotAnOpAssignment),
        }
    }

    /// An `op=` by its token: what the token's text gives.
    pub fn new_op_assignment_from_token(op_assign: Token, pos: Position) -> OpAssignment
        requires { IsSome (base_of op_assign) }
        ensures made { spec.IsBy op_assign pos result }
        ensures as_text { spec.form_written (token_text op_assign) ≡ Some op_assign }
    {
        let op = op_assign.get_base_op_from_assignment().unwrap();
        OpAssignment { op_assign, op, pos }
    }

    /// The `op=` form of the operator that is written so. Refused where the text is no operator that has
    /// one; rhai panics.
    pub fn new_op_assignment_from_base(text: &str, pos: Position) -> Result<OpAssignment, AstError>
        ensures { spec.Answers (spec.form_of_written text.now) AstError.NotABaseOperator pos result }
    {
        let op = Token::lookup_symbol_from_syntax(text).ok_or(AstError::NotABaseOperator)?;
        if !op.has_op_assignment() {
            return Err(AstError::NotABaseOperator);
        }
        Ok(Self::new_op_assignment_from_base_token(&op, pos))
    }

    /// The `op=` form of an operator that has one: what the operator's text gives.
    pub fn new_op_assignment_from_base_token(op: &Token, pos: Position) -> OpAssignment
        requires { IsSome (assignment_of op.now) }
        ensures form { assignment_of op.now ≡ Some result.op_assign }
        ensures operator { result.op ≡ op.now }
        ensures position { result.pos ≡ pos }
        ensures as_text { spec.form_of_written (token_text op.now) ≡ Some result.op_assign }
    {
        Self::new_op_assignment_from_token(op.convert_to_op_assignment().unwrap(), pos)
    }

    /// Is this no straight assignment?
    pub fn is_op_assignment(&self) -> bool
        ensures { result ≡ spec.is_by_operator self.now }
    {
        !matches!(self.op, Token::Equals)
    }

    /// The `op=`, its text, its operator and the operator's text; none for a straight assignment. rhai
    /// adds hashes.
    pub fn get_op_assignment_info(&self) -> Option<(&Token, &'static str, &Token, &'static str)>
        ensures straight { IfNone result (spec.is_by_operator self.now ≡ false) }
        ensures by_operator { IfSome result (λ _. spec.is_by_operator self.now ≡ true) }
        ensures form { IfSome result (λ r. r.0.now ≡ self.now.op_assign) }
        ensures form_text { IfSome result (λ r. r.1.now ≡ token_text self.now.op_assign) }
        ensures operator { IfSome result (λ r. r.2.now ≡ self.now.op) }
        ensures operator_text { IfSome result (λ r. r.3.now ≡ token_text self.now.op) }
        ensures applies { IfSome result (λ r. base_of r.0.now ≡ Some r.2.now) }
    {
        if !self.is_op_assignment() {
            return None;
        }
        let form = self.op_assign.literal_syntax();
        let operator = self.op.literal_syntax();
        Some((&self.op_assign, form, &self.op, operator))
    }

    /// Where the `=` or `op=` stands.
    pub fn position(&self) -> Position
        ensures { result ≡ self.now.pos }
    {
        self.pos
    }

    /// Sets where the `=` or `op=` stands. In rhai only the tree can.
    pub fn set_position(&mut self, pos: Position)
        ensures { self.new ≡ record self.old { pos = pos } }
    {
        self.pos = pos;
    }
}
