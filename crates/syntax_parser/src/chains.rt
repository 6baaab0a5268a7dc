//! Chains: properties, methods and indices behind a base.

use crate::error::ParseErrorType;
use crate::inside::Inside;
use crate::nodes::{Callee, kind_of, prefixed};
use crate::parser::Parser;
use rhai_ast::{BinaryExpr, Expr, ExprQueries};
use rhai_base::{ASTFlags, Ident, Namespace, Position, Token};
use syntax_lexer::{Lexeme, Mark};

/// How a step of a chain begins.
#[derive(Clone, Copy)]
struct Link {
    is_dot: bool,
    /// NEGATED where a unit ends the chain.
    flags: ASTFlags,
}

impl Link {
    /// The link that this begins.
    fn of(lexeme: Lexeme<'_>) -> Option<Link> {
        let Lexeme::Operator(token) = lexeme else {
            return None;
        };
        let (is_dot, flags) = match token {
            Token::Period => (true, ASTFlags::NONE),
            Token::Elvis => (true, ASTFlags::NEGATED),
            Token::LeftBracket => (false, ASTFlags::NONE),
            Token::QuestionBracket => (false, ASTFlags::NEGATED),
            _ => return None,
        };
        Some(Link { is_dot, flags })
    }

    /// The flags of its node; an index that ends its chain says so.
    fn flags(self, is_last: bool) -> ASTFlags {
        if is_last && !self.is_dot {
            self.flags | ASTFlags::BREAK
        } else {
            self.flags
        }
    }
}

impl<'a> Parser<'a> {
    /// A base with the steps behind it, which nest to the right.
    #[cycle(parse)]
    pub(crate) fn chain(&self, base: Option<Expr>, inside: Inside) -> Option<Expr> {
        let Some(link) = Link::of(self.lexeme()) else {
            return base;
        };
        let inside = self.below(inside)?;
        let pos = self.take();
        let step = self.step(link, inside);
        let is_last = Link::of(self.lexeme()).is_none();
        let rest = self.chain(step, inside);
        self.linked(
            link.is_dot,
            link.flags(is_last),
            self.sides(base, rest),
            pos,
        )
    }

    /// What stands behind the sign of a link.
    #[cycle(parse)]
    fn step(&self, link: Link, inside: Inside) -> Option<Expr> {
        if link.is_dot {
            return self.member(inside);
        }
        let index = self.expr(inside);
        self.want_no_bool(&index);
        self.expect_mark(Mark::RightBracket, "]", "to end this index");
        index
    }

    fn linked(
        &self,
        is_dot: bool,
        flags: ASTFlags,
        sides: Option<BinaryExpr>,
        pos: Position,
    ) -> Option<Expr> {
        let sides = self.boxed(sides?)?;
        if is_dot {
            Some(Expr::Dot(sides, flags, pos))
        } else {
            Some(Expr::Index(sides, flags, pos))
        }
    }

    /// A property or a method.
    #[cycle(parse)]
    fn member(&self, inside: Inside) -> Option<Expr> {
        let name = self.member_name()?;
        if self.is_operator(Token::DoubleColon) {
            self.refuse(ParseErrorType::PropertyExpected, name.pos);
            return None;
        }
        if self.is_operator(Token::Bang) {
            if let Some(method) = self.owned(name.as_str()) {
                self.refuse(ParseErrorType::MalformedCapture(method), name.pos);
            }
            return None;
        }
        if !self.opens_call() {
            return self.property(name);
        }
        let args = self.arguments(inside);
        self.method(name, args)
    }

    /// The name behind a `.`: of the language's own words only those that methods may have, before their arguments.
    fn member_name(&self) -> Option<Ident> {
        let next = self.next();
        match next.lexeme {
            Lexeme::Name(_) => self.ident(),
            Lexeme::Reserved(word @ ("call" | "curry" | "is_shared" | "type_of")) => {
                let name = self.shared(word)?;
                let pos = self.take();
                if !self.opens_call() {
                    self.go_on(next.start);
                    self.refuse_reserved(word);
                }
                Some(Ident { name, pos })
            }
            _ => {
                self.refuse_name(ParseErrorType::PropertyExpected);
                None
            }
        }
    }

    /// A property with the names of the functions that read and write it.
    fn property(&self, name: Ident) -> Option<Expr> {
        let getter = self.made(prefixed(self.alloc, "get$", name.as_str()))?;
        let setter = self.made(prefixed(self.alloc, "set$", name.as_str()))?;
        let Ident { name, pos } = name;
        let names = self.boxed((getter, setter, name))?;
        Some(Expr::Property(names, pos))
    }

    fn method(&self, name: Ident, args: Vec<Expr>) -> Option<Expr> {
        let pos = name.pos;
        let callee = Callee {
            namespace: Namespace::none(self.alloc),
            name,
            captures: false,
        };
        Some(Expr::MethodCall(self.call_of(callee, args)?, pos))
    }

    /// Refuses an index that is written as a bool.
    fn want_no_bool(&self, index: &Option<Expr>) {
        if let Some(index @ (Expr::And(..) | Expr::Or(..) | Expr::BoolConstant(..))) = index {
            let reason = ParseErrorType::MalformedIndexExpr("no index is a bool");
            self.refuse(reason, index.start_position());
        }
    }

    /// Refuses an index that its base cannot have, where both are literals.
    pub(crate) fn want_index(&self, chain: &Option<Expr>) {
        if let Some(Expr::Index(sides, flags, _)) = chain {
            let sides = sides.get();
            let index = first_index(&sides.rhs, *flags);
            if let Some((reason, pos)) = malformed_index(&sides.lhs, index) {
                self.refuse(ParseErrorType::MalformedIndexExpr(reason), pos);
            }
        }
    }
}

/// The index of a step, behind which the chain may go on.
fn first_index(rhs: &Expr, flags: ASTFlags) -> &Expr {
    match rhs {
        _ if flags & ASTFlags::BREAK == ASTFlags::BREAK => rhs,
        Expr::Dot(sides, _, _) | Expr::Index(sides, _, _) => &sides.get().lhs,
        _ => rhs,
    }
}

/// Why a literal cannot be indexed by another, and where.
fn malformed_index(base: &Expr, index: &Expr) -> Option<(&'static str, Position)> {
    let kind = kind_of(index);
    match base {
        Expr::Map(..) if is_among(kind, &["an integer", "a float", "a character", "()"]) => {
            Some(("a map is indexed by texts", index.start_position()))
        }
        Expr::IntegerConstant(..)
        | Expr::Array(..)
        | Expr::StringConstant(..)
        | Expr::InterpolatedString(..)
            if is_among(kind, &["a float", "a text", "a character", "()"]) => {
            Some(("this is indexed by integers", index.start_position()))
        }
        Expr::FloatConstant(..) | Expr::CharConstant(..) | Expr::BoolConstant(..) | Expr::Unit(_) =>
            { Some(("this has no index", base.start_position())) }
        Expr::And(..) | Expr::Or(..) => Some(("a bool has no index", base.start_position())),
        _ => None,
    }
}

fn is_among(kind: Option<&'static str>, kinds: &[&'static str]) -> bool {
    match kind {
        Some(kind) => kinds.contains(&kind),
        None => false,
    }
}
