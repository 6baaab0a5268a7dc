//! The scripts that the program knows.
#![tactic(auto, using(ast_types::specs::Reading::shapes))]

ghost use Rattle.std.specs.Prelude.{◌≡◌, IfOk, map};
ghost use Rattle.std.specs.Rc.{rc_value};
ghost use Rattle.ast_types.specs.Reading.{function_of, stmts_of};

use crate::constants::constants_statements;
use crate::merge::{merge_functions, merge_statements};
use crate::modules::import_statements;
use crate::names::{base_statements, opassign_statements, rewrite_statements, shadow_statements};
use crate::statements::{
    bits_statements, coalesce_statements, divide_statements, endless_statements, first_statements,
    index_statements, return_statements, tail_statements,
};
use crate::switch::switch_statements;
use rhai_ast::{ScriptFuncDef, Stmt};
use rhai_base::OutOfMemory;
use std::alloc::Global;
use std::rc::Rc;

/// A built-in script.
#[derive(Clone, Copy, Debug, PartialEq, Eq)]
pub enum BuiltinScript {
    /// `if 1 + 1 == 2 { 40 + 2 } else { 1 / 0 }`
    First,
    /// no statements
    Empty,
    /// `[1, 2, 3][-1]`
    Index,
    /// `5[0]`
    Bits,
    /// `() ?? ()`
    Coalesce,
    /// `let x = 1; x = x + 2; x`
    OpAssign,
    /// `let x = 1; x = x + { x = 5; 1 }; x`
    Rewrite,
    /// `return 42`
    Return,
    /// `42; {}`
    Tail,
    /// `const x = 42; for x in [1, 2] { print(x); }`
    Shadow,
    /// `let a = []; {a}.push(1); a`
    Base,
    /// `switch [1] { [1] if f() => 1, [1] => 2, _ => 3 }`
    Switch,
    /// `1 / 0`
    Divide,
    /// `loop {} print(1)`
    Endless,
    /// `const A = 40 + 2; let b = 123; const B = b * A; const C = 999; b = A + C; { const Z = 0; print(Z); }`
    Constants,
    /// ``fn foo(n) { `hello${n}` } foo(1) foo("!")``
    Merge,
    /// `import "m" as a; export let x = a::v; x + 1`
    Import,
}

impl BuiltinScript {
    ghost use Rattle.demo.specs.BuiltinScripts.{name_of, script_functions, script_named, statements_of};

    /// Each script once.
    pub const ALL: [BuiltinScript; 17] = [
        BuiltinScript::First,
        BuiltinScript::Empty,
        BuiltinScript::Index,
        BuiltinScript::Bits,
        BuiltinScript::Coalesce,
        BuiltinScript::OpAssign,
        BuiltinScript::Rewrite,
        BuiltinScript::Return,
        BuiltinScript::Tail,
        BuiltinScript::Shadow,
        BuiltinScript::Base,
        BuiltinScript::Switch,
        BuiltinScript::Divide,
        BuiltinScript::Endless,
        BuiltinScript::Constants,
        BuiltinScript::Merge,
        BuiltinScript::Import,
    ];

    /// The name by which the program knows it.
    pub fn name(self) -> &'static str
        ensures { result.now ≡ name_of self }
    {
        match self {
            BuiltinScript::First => "first",
            BuiltinScript::Empty => "empty",
            BuiltinScript::Index => "index",
            BuiltinScript::Bits => "bits",
            BuiltinScript::Coalesce => "coalesce",
            BuiltinScript::OpAssign => "opassign",
            BuiltinScript::Rewrite => "rewrite",
            BuiltinScript::Return => "return",
            BuiltinScript::Tail => "tail",
            BuiltinScript::Shadow => "shadow",
            BuiltinScript::Base => "base",
            BuiltinScript::Switch => "switch",
            BuiltinScript::Divide => "divide",
            BuiltinScript::Endless => "endless",
            BuiltinScript::Constants => "constants",
            BuiltinScript::Merge => "merge",
            BuiltinScript::Import => "import",
        }
    }

    /// The script of this name, if there is one.
    pub fn named(name: &str) -> Option<BuiltinScript>
        ensures { result ≡ script_named name.now }
    {
        for script in BuiltinScript::ALL {
            if script.name() == name {
                return Some(script);
            }
        }
        None
    }

    /// Its statements, built by hand, without positions.
    pub fn statements(self, alloc: Global) -> Result<Vec<Stmt>, OutOfMemory>
        ensures { IfOk result (λ statements. stmts_of statements.items ≡ statements_of self) }
    {
        match self {
            BuiltinScript::First => first_statements(alloc),
            BuiltinScript::Empty => Ok(Vec::new(alloc)),
            BuiltinScript::Index => index_statements(alloc),
            BuiltinScript::Bits => bits_statements(alloc),
            BuiltinScript::Coalesce => coalesce_statements(alloc),
            BuiltinScript::OpAssign => opassign_statements(alloc),
            BuiltinScript::Rewrite => rewrite_statements(alloc),
            BuiltinScript::Return => return_statements(alloc),
            BuiltinScript::Tail => tail_statements(alloc),
            BuiltinScript::Shadow => shadow_statements(alloc),
            BuiltinScript::Base => base_statements(alloc),
            BuiltinScript::Switch => switch_statements(alloc),
            BuiltinScript::Divide => divide_statements(alloc),
            BuiltinScript::Endless => endless_statements(alloc),
            BuiltinScript::Constants => constants_statements(alloc),
            BuiltinScript::Merge => merge_statements(alloc),
            BuiltinScript::Import => import_statements(alloc),
        }
    }

    /// Its functions; only `merge` has any.
    pub fn functions(self, alloc: Global) -> Result<Vec<Rc<ScriptFuncDef>>, OutOfMemory>
        ensures { IfOk result (λ functions. map function_of (map rc_value functions.items) ≡ script_functions self) }
    {
        match self {
            BuiltinScript::Merge => merge_functions(alloc),
            _ => Ok(Vec::new(alloc)),
        }
    }
}
