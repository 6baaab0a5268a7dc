//! Closures.

use crate::error::ParseErrorType;
use crate::inside::Inside;
use crate::nodes::prefixed;
use crate::parser::Parser;
use ast_same::function_hash;
use rhai_ast::{Expr, FnAccess, ScriptFuncDef, Stmt, StmtBlock};
use rhai_base::{Dynamic, FnPtr, Ident, ImmutableString, Position, Seq, Token};
use syntax_lexer::{Lexeme, Mark};

impl<'a> Parser<'a> {
    /// A closure, whose `|` stands next: a pointer to the function that it becomes, or to the same one that stands in the
    /// table. With names from around it, a block that shares them and curries the pointer.
    #[cycle(parse)]
    pub(crate) fn closure(&self, inside: Inside) -> Option<Expr> {
        if self.is_restricted {
            self.refuse_begin();
        }
        let around = self.enter(true);
        let has_params = self.is_operator(Token::Pipe);
        let pos = self.take();
        let params = self.closure_params(has_params);
        let inside = inside.function(self.options.function_levels());
        let body = self.as_block(self.statement(inside));
        let captured = self.leave(around);
        self.closure_of(captured, params, body, pos)
    }

    /// The parameters between the signs, of which the first was taken.
    fn closure_params(&self, has_params: bool) -> Vec<ImmutableString> {
        let mut params = Vec::new(self.alloc);
        let mut words = self.no_words();
        if !has_params {
            return params;
        }
        for _ in 0..self.most() {
            if self.skip_operator(Token::Pipe) || self.is_at_end() {
                return params;
            }
            self.param(&mut params, &mut words, "", "|");
            if self.is_operator(Token::Pipe) {
                continue;
            }
            if !self.skip_mark(Mark::Comma) {
                self.want(",", "between the parameters of a closure");
            }
        }
        params
    }

    /// The function and the expression of a closure.
    fn closure_of(
        &self,
        captured: Vec<&'a str>,
        params: Vec<ImmutableString>,
        body: Option<StmtBlock>,
        pos: Position,
    ) -> Option<Expr> {
        let function = self.anonymous_function(&captured, params, body)?;
        let pointer = self.pointer(self.joining(function, pos)?, pos);
        if captured.is_empty() {
            return pointer;
        }
        self.curried(captured, pointer, pos)
    }

    /// The name of a closure's function, which joins the table; or of the same function, which is there.
    fn joining(&self, function: ScriptFuncDef, pos: Position) -> Option<ImmutableString> {
        let hash = function_hash(&function);
        if let Some(same) = self.same_closure(hash, &function) {
            return Some(same);
        }
        let name = self.made(function.name.clone())?;
        self.note_closure(hash);
        self.add_function("", Some(function), pos);
        Some(name)
    }

    /// The name that the next closure's function gets, if none is the same.
    fn anonymous(&self) -> Option<ImmutableString> {
        let number = self.made(format!(in self.alloc; "{}", self.next_closure()))?;
        self.made(prefixed(self.alloc, "anon$", number.as_str()))
    }

    /// The function of a closure, whose first parameters are the names that it takes from around it.
    fn anonymous_function(
        &self,
        captured: &[&'a str],
        params: Vec<ImmutableString>,
        body: Option<StmtBlock>,
    ) -> Option<ScriptFuncDef> {
        let body = body?;
        let name = self.anonymous()?;
        let mut all = Vec::new(self.alloc);
        for word in captured {
            self.push(&mut all, self.shared(word));
        }
        for param in params {
            self.push(&mut all, Some(param));
        }
        Some(ScriptFuncDef {
            body,
            name,
            this_type: None,
            access: FnAccess::Public,
            params: Seq::from_vec(all),
            comments: Seq::new(self.alloc),
        })
    }

    fn pointer(&self, name: ImmutableString, pos: Position) -> Option<Expr> {
        let pointer = FnPtr::new(self.alloc, name)?;
        let value = self.boxed(Dynamic::FnPtr(pointer))?;
        Some(Expr::DynamicConstant(value, pos))
    }

    /// The block that shares the names from around a closure and hands them to its function. They are used there.
    fn curried(
        &self,
        captured: Vec<&'a str>,
        pointer: Option<Expr>,
        pos: Position,
    ) -> Option<Expr> {
        let mut shared = Vec::new(self.alloc);
        let mut args = Vec::new(self.alloc);
        self.push(&mut args, pointer);
        for word in captured {
            self.uses(word);
            let name = self.shared(word)?;
            self.push(&mut args, self.variable_of(Ident { name, pos }));
            let name = self.shared(word)?;
            self.push(&mut shared, Some((Ident { name, pos }, None)));
        }
        let mut statements = Vec::new(self.alloc);
        let share = Stmt::Share(self.seq(shared)?);
        self.push(&mut statements, Some(share));
        let call = self.evaluated(self.call_named("curry", args, pos));
        self.push(&mut statements, call);
        self.braced(Some(StmtBlock::new(statements, pos, Position::NONE)))
    }
}
