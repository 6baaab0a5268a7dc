//! How texts are read, optimised and run.

ghost use Rattle.std.specs.Prelude.{IfOk};
ghost use Rattle.rhai_c.specs.Options.{IsLevel, IsSyntax};

use crate::codes::Failure;
use rhai_optimizer::OptimizationLevel;
use syntax_parser::ParseOptions;
use syntax_source::Syntax;

/// What a caller may choose.
#[repr(C)]
#[derive(Clone, Copy, Debug, PartialEq, Eq)]
pub struct BalvuzsomOptions {
    /// How many bytes this struct has: 48.
    pub size: u64,
    /// How many rounds and calls a run has.
    pub turns: u64,
    /// How much is optimised: 0 for nothing, 1 for `Simple`, 2 for `Full`.
    pub level: u32,
    /// 1 where texts are trees in print, 0 where they are in rhai's own syntax.
    pub flags: u32,
    /// How deep a text may nest; 0 for as deep as is ever read.
    pub max_expr_depth: u64,
    /// How deep a function may nest; 0 for as deep as is ever read.
    pub max_function_expr_depth: u64,
    /// How many bytes a literal text may have; 0 for any number.
    pub max_string_size: u64,
}

/// How many bytes the options have.
const SIZE: u64 = 48;

impl BalvuzsomOptions {
    /// How texts are written, and how much is optimised. Refused where the struct is another one, or has a level or flags
    /// that are none.
    pub(crate) fn chosen(&self) -> Result<(Syntax, OptimizationLevel), Failure>
        ensures syntax { IfOk result (λ c. IsSyntax self.now.flags c.0) }
        ensures level { IfOk result (λ c. IsLevel self.now.level c.1) }
    {
        if self.size != SIZE {
            return Err(Failure::Size);
        }
        let level = self.level()?;
        Ok((self.syntax()?, level))
    }

    fn level(&self) -> Result<OptimizationLevel, Failure>
        ensures { IfOk result (IsLevel self.now.level) }
    {
        match self.level {
            0 => Ok(OptimizationLevel::None),
            1 => Ok(OptimizationLevel::Simple),
            2 => Ok(OptimizationLevel::Full),
            _ => Err(Failure::Level),
        }
    }

    fn syntax(&self) -> Result<Syntax, Failure>
        ensures { IfOk result (IsSyntax self.now.flags) }
    {
        match self.flags {
            0 => Ok(Syntax::Rhai(self.bounds())),
            1 => Ok(Syntax::Notation),
            _ => Err(Failure::Flags),
        }
    }

    fn bounds(&self) -> ParseOptions {
        ParseOptions {
            max_expr_depth: self.max_expr_depth as usize,
            max_function_expr_depth: self.max_function_expr_depth as usize,
            max_string_size: self.max_string_size as usize,
            first_closure: 1,
        }
    }
}
