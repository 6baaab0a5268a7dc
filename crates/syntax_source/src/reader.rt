//! What reads texts.

ghost use Rattle.std.specs.Prelude.{◌≡◌, IfOk, None};
ghost use Rattle.rhai_base.specs.Value.{Text};
ghost use Rattle.theory_meaning.specs.Faults.{script_fault};
ghost use Rattle.theory_meaning.specs.Tree.{Script};
ghost use Rattle.rhai_script.specs.Script.{script_of};

use rhai_script::AST;
use std::alloc::Global;
use syntax_parser::{ParseError, ParseOptions, compile_with};

/// What reads texts as scripts. What is claimed of a text over any reader is claimed of what that reader reads: so
/// printing and optimising can't but read the texts that they speak of.
pub trait Reader {
    /// Which texts are read as which scripts.
    ghost reads: { Self → Text → Script → Type 0 };

    /// The script of a text.
    fn read(&self, alloc: Global, text: &str) -> Result<AST, ParseError>
        ensures { IfOk result (λ script. reads self.now text.now (script_of script)) };

    /// The same of a text that was printed, however deep it is.
    fn read_printed(&self, alloc: Global, text: &str) -> Result<AST, ParseError>
        ensures { IfOk result (λ script. reads self.now text.now (script_of script)) };
}

/// rhai's own syntax within these bounds. Of what is read this says that it has no fault, and no more.
impl Reader for ParseOptions {
    ghost reads = { λ options text p. script_fault p ≡ None };

    fn read(&self, alloc: Global, text: &str) -> Result<AST, ParseError> {
        compile_with(alloc, text, *self)
    }

    fn read_printed(&self, alloc: Global, text: &str) -> Result<AST, ParseError> {
        compile_with(alloc, text, unbounded())
    }
}

/// No bounds but the parser's own.
fn unbounded() -> ParseOptions {
    ParseOptions {
        max_expr_depth: 0,
        max_function_expr_depth: 0,
        max_string_size: 0,
        first_closure: 1,
    }
}
