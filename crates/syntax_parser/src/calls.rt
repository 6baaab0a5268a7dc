//! Names and what they call.

use crate::error::ParseErrorType;
use crate::inside::Inside;
use crate::nodes::Callee;
use crate::parser::Parser;
use rhai_ast::Expr;
use rhai_base::{Ident, Namespace, Token};
use std::mem;
use syntax_lexer::{Lexeme, Mark};

impl<'a> Parser<'a> {
    /// A variable or a call, whose first name stands next.
    #[cycle(parse)]
    pub(crate) fn named(&self, word: &'a str, inside: Inside) -> Option<Expr> {
        let mut namespace = Namespace::none(self.alloc);
        let name = self.last_name(&mut namespace)?;
        let is_qualified = !namespace.is_empty();
        if self.is_operator(Token::Bang) {
            if is_qualified {
                self.refuse_begin();
            }
            return self.capturing(name, inside);
        }
        if self.opens_call() {
            let args = self.arguments(inside);
            return self.called(namespace, name, args, false);
        }
        if !is_qualified {
            self.uses(word);
        }
        self.qualified(namespace, name)
    }

    /// The last name of a path; those before it go to the namespace.
    fn last_name(&self, namespace: &mut Namespace) -> Option<Ident> {
        let mut name = self.ident()?;
        for _ in 0..self.most() {
            if !self.skip_operator(Token::DoubleColon) {
                break;
            }
            if let Some(next) = self.ident() {
                let module = mem::replace(&mut name, next);
                let pushed = namespace.path.push(module);
                self.made(pushed);
            }
        }
        Some(name)
    }

    /// A call that sees the names of its caller, whose `!` stands next.
    #[cycle(parse)]
    fn capturing(&self, name: Ident, inside: Inside) -> Option<Expr> {
        self.take();
        if !self.opens_call() {
            self.want("(", "to begin the arguments of this call");
        }
        let args = self.arguments(inside);
        self.called(Namespace::none(self.alloc), name, args, true)
    }

    /// One of the language's own words, which stands next: `this`, or what is called.
    #[cycle(parse)]
    pub(crate) fn reserved(&self, word: &'a str, inside: Inside) -> Option<Expr> {
        if word == "this" {
            return self.this(inside);
        }
        let next = self.next();
        let name = self.shared(word)?;
        let pos = self.take();
        let is_call = self.opens_call() || self.is_operator(Token::Bang);
        if !is_call || !is_function_name(word) {
            self.go_on(next.start);
            self.refuse_reserved(word);
            return None;
        }
        let name = Ident { name, pos };
        if self.is_operator(Token::Bang) {
            return self.capturing(name, inside);
        }
        let args = self.arguments(inside);
        self.called(Namespace::none(self.alloc), name, args, false)
    }

    fn this(&self, inside: Inside) -> Option<Expr> {
        if !inside.is_function {
            self.refuse_sign("it stands for the receiver of a function", self.here());
        }
        Some(Expr::ThisPtr(self.take()))
    }

    fn called(
        &self,
        namespace: Namespace,
        name: Ident,
        args: Vec<Expr>,
        captures: bool,
    ) -> Option<Expr> {
        let pos = name.pos;
        let callee = Callee {
            namespace,
            name,
            captures,
        };
        Some(Expr::FnCall(self.call_of(callee, args)?, pos))
    }

    /// Whether arguments stand next.
    pub(crate) fn opens_call(&self) -> bool {
        self.is_operator(Token::LeftParen) || self.is_operator(Token::Unit)
    }

    /// The arguments of a call, which stand next.
    #[cycle(parse)]
    pub(crate) fn arguments(&self, inside: Inside) -> Vec<Expr> {
        let mut args = Vec::new(self.alloc);
        if self.skip_operator(Token::Unit) || !self.skip_operator(Token::LeftParen) {
            return args;
        }
        for _ in 0..self.most() {
            if self.ends_arguments() {
                break;
            }
            self.push(&mut args, self.expr(inside));
            if !self.skip_mark(Mark::Comma) {
                break;
            }
        }
        self.end_arguments();
        args
    }

    fn ends_arguments(&self) -> bool {
        self.is_mark(Mark::RightParen) || self.is_at_end()
    }

    /// Goes past the end of arguments or parameters, which should stand next.
    pub(crate) fn end_arguments(&self) {
        if self.is_at_end() || self.is_mark(Mark::RightParen) {
            self.expect_mark(Mark::RightParen, ")", "to end this list");
        } else {
            self.want(",", "between the parts of this list");
        }
    }
}

/// Whether a word of the language is also the name of a function.
fn is_function_name(word: &str) -> bool {
    matches!(
        word,
        "eval"
            | "Fn"
            | "call"
            | "curry"
            | "is_shared"
            | "is_def_var"
            | "is_def_fn"
            | "type_of"
            | "print"
            | "debug"
    )
}
