//! What `{}` and `{:?}` print: all that has a text in the notation.
#![tactic(auto)]

ghost use Rattle.std.specs.Prelude.{◌≡◌, ◌++◌, OnErr, OnOk, Some, string_bytes};
ghost use Rattle.rhai_base.specs.Value.{Text};
ghost use Rattle.ast_types.specs.Reading.{expr_of, function_of, stmt_of, stmts_of, table_of};
ghost use Rattle.notation_print.specs.Nodes.{block_text, expr_text, stmt_text, table_text};
ghost use Rattle.notation_print.specs.Notation.{function_text, script_text};
ghost use Rattle.rhai_script.specs.Script.{script_of};

use crate::nodes::{push_block, push_expr, push_stmt};
use crate::scripts::{write_function, write_script};
use crate::tables::push_table;
use rhai_ast::{Expr, ScriptFuncDef, Stmt, StmtBlock, SwitchCasesCollection};
use rhai_base::OutOfMemory;
use rhai_script::AST;
use std::alloc::Global;
use std::fmt;

/// What has a text in the notation: expressions, statements, blocks, tables of a `switch`, functions and scripts.
pub trait Notation {
    /// Its text.
    ghost notation: { Self → Text };

    /// Appends its text. A refused call can leave a part of it, where `push_notation` leaves none.
    fn write_notation(&self, text: &mut String) -> Result<(), OutOfMemory>
        ensures { OnOk result (string_bytes text.new ≡ string_bytes text.old ++ notation self.now) };

    /// Appends its text. A refused call leaves the text as it was.
    final fn push_notation(&self, text: &mut String) -> Result<(), OutOfMemory>
        ensures ok { OnOk result (string_bytes text.new ≡ string_bytes text.old ++ notation self.now) }
        ensures err { OnErr result (string_bytes text.new ≡ string_bytes text.old) }
    {
        let mut form = String::new(*text.allocator());
        self.write_notation(&mut form)?;
        text.push_str(form.as_str())?;
        Ok(())
    }

    /// What `{}` and `{:?}` print as its text. They make it with this allocator first, since `fmt` is given none.
    final fn printed(&self, alloc: Global) -> Printed<'_, Self>
    where
        Self: Sized,
        ensures { result.item.now ≡ self.now }
    {
        Printed { alloc, item: self }
    }
}

impl Notation for Expr {
    ghost notation = { λ expr. expr_text (expr_of expr) };

    fn write_notation(&self, text: &mut String) -> Result<(), OutOfMemory> {
        push_expr(self, text)
    }
}

impl Notation for Stmt {
    ghost notation = { λ stmt. stmt_text (stmt_of stmt) };

    fn write_notation(&self, text: &mut String) -> Result<(), OutOfMemory> {
        push_stmt(self, text)
    }
}

/// In braces, with semicolons between its statements.
impl Notation for StmtBlock {
    ghost notation = { λ block. block_text (stmts_of block.block) };

    fn write_notation(&self, text: &mut String) -> Result<(), OutOfMemory> {
        push_block(self, text)
    }
}

/// Without the arms: cases, ranges and default, with the numbers of their arms.
impl Notation for SwitchCasesCollection {
    ghost notation = { λ table. table_text (table_of table) };

    fn write_notation(&self, text: &mut String) -> Result<(), OutOfMemory> {
        push_table(self, text)
    }
}

impl Notation for ScriptFuncDef {
    ghost notation = { λ function. function_text (function_of function) };

    fn write_notation(&self, text: &mut String) -> Result<(), OutOfMemory> {
        write_function(self, text)
    }
}

/// Each statement and each function on a line, which it ends.
impl Notation for AST {
    ghost notation = { λ script. script_text (script_of script) };

    fn write_notation(&self, text: &mut String) -> Result<(), OutOfMemory> {
        write_script(self, text)
    }
}

/// What `{}` and `{:?}` print in the notation, made by `Notation::printed`. Refused memory is a `fmt::Error`.
#[derive(Drop)]
pub struct Printed<'a, T> {
    alloc: Global,
    item: &'a T,
}

impl<T: Notation> fmt::Display for Printed<'_, T> {
    ghost output = { λ printed. Some (T.notation printed.item.now) };

    fn fmt<W: fmt::Write>(&self, f: &mut fmt::Formatter<W>) -> fmt::Result {
        let mut text = String::new(self.alloc);
        self.item.write_notation(&mut text).map_err(|_| fmt::Error)?;
        f.write_str(text.as_str())
    }
}

impl<T: Notation> fmt::Debug for Printed<'_, T> {
    ghost debug_output = { λ printed. Some (T.notation printed.item.now) };

    fn fmt<W: fmt::Write>(&self, f: &mut fmt::Formatter<W>) -> fmt::Result {
        fmt::Display::fmt(self, f)
    }
}
