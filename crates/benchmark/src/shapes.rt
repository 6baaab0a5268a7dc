//! The shapes, and scripts of them.

use rhai_lang::{AST, ParseError, ParseOptions, compile_with};
use std::alloc::{AllocError, Global};

/// A shape of scripts: pieces that stand as often as the size says, and what stands between them. In a piece `@` is the
/// number of its turn.
#[derive(Clone, Copy)]
pub(crate) struct Shape {
    pub(crate) name: &'static str,
    before: &'static str,
    pub(crate) open: &'static str,
    pub(crate) middle: &'static str,
    pub(crate) close: &'static str,
    /// Stands as often too, behind what `close` ends.
    pub(crate) again: &'static str,
    after: &'static str,
}

/// Statements one after another.
fn row(name: &'static str, open: &'static str, after: &'static str) -> Shape {
    Shape {
        name,
        before: "",
        open,
        middle: "",
        close: "",
        again: "",
        after,
    }
}

/// Statements in one another.
fn nest(name: &'static str, open: &'static str, close: &'static str) -> Shape {
    Shape {
        name,
        before: "",
        open,
        middle: "n += 1;",
        close,
        again: "",
        after: "",
    }
}

/// Expressions in one another.
fn value(
    name: &'static str,
    open: &'static str,
    middle: &'static str,
    close: &'static str,
    again: &'static str,
) -> Shape {
    Shape {
        name,
        before: "n = ",
        open,
        middle,
        close,
        again,
        after: ";",
    }
}

/// All shapes. Their start scope is that of `Bench`.
pub(crate) fn shapes() -> [Shape; 24] {
    [
        row("folding", "n = 2 * 3 + 1;", ""),
        row("staying", "n = a * a + 1;", ""),
        row("variables", "let x@ = a; n = x@ + a;", ""),
        row("constants", "const C@ = a; const D@ = 5; n = D@ + a;", ""),
        row("chains", "n = m.x.y;", ""),
        row("written", "m.x.y = a;", ""),
        row("choices", "if a == 2 { n += 1; } else { n -= 1; }", ""),
        row("loops", "n = 0; while n < 10 { n += 1; }", ""),
        row(
            "calls",
            "f(5);",
            "fn f(k) { if k > 0 { f(k - 1); f(k - 2); } }",
        ),
        Shape {
            name: "switch",
            before: "switch a { ",
            open: "@ => n = @,",
            middle: " _ => n = 1",
            close: "",
            again: "",
            after: " }",
        },
        value("arrays", "[1, ", "a", "]", ""),
        value("maps", "#{k: ", "a", "}", ""),
        value("texts", "`b${", "a", "}`", ""),
        value("conditions", "(a == 2 && ", "true", ")", ""),
        value("map steps", "#{k: ", "7", "}", ".k"),
        value("array steps", "[", "7", "]", "[0]"),
        nest("blocks", "{ n += 1; ", " }"),
        nest("ifs", "if a == 2 { ", " }"),
        nest("whiles", "while n < 1 { ", " }"),
        nest("dos", "do { ", " } while n < 1;"),
        nest("fors", "for k in 0..1 { ", " }"),
        nest("tries", "try { ", " } catch { }"),
        nest("switches", "switch a { 2 => { ", " } }"),
        nest("returns", "return { ", " };"),
    ]
}

impl Shape {
    /// A script's text of this size.
    pub(crate) fn text(&self, alloc: Global, size: u16) -> Result<String, AllocError> {
        let mut text = String::from_str(alloc, self.before)?;
        push_often(&mut text, self.open, size)?;
        text.push_str(self.middle)?;
        push_often(&mut text, self.close, size)?;
        push_often(&mut text, self.again, size)?;
        text.push_str(self.after)?;
        Ok(text)
    }
}

fn push_often(text: &mut String, piece: &str, times: u16) -> Result<(), AllocError> {
    for number in 0..times {
        push_piece(text, piece, number)?;
    }
    Ok(())
}

/// Appends a piece with a number in the place of each `@`.
fn push_piece(text: &mut String, piece: &str, number: u16) -> Result<(), AllocError> {
    for (at, part) in piece.split("@").enumerate() {
        if at > 0 {
            write!(text, "{number}").map_err(|_| AllocError)?;
        }
        text.push_str(part)?;
    }
    Ok(())
}

/// Bounds that bar no nest.
pub(crate) fn unbounded() -> ParseOptions {
    ParseOptions {
        max_expr_depth: 0,
        max_function_expr_depth: 0,
        max_string_size: 0,
        first_closure: 1,
    }
}

/// The script of a text.
pub(crate) fn script_of(alloc: Global, text: &str) -> Result<AST, ParseError> {
    compile_with(alloc, text, unbounded())
}
