//! A whole script.
ghost use Rattle.std.specs.Prelude.{◌≡◌, ◌≢◌, [], ℕ, List, ◌↔◌, IsTrue, IfOk, MatchOption, OnOk, OnErr, None, false};
ghost use Rattle.std.specs.Option.{option_copied};
ghost use Rattle.std.specs.List.Retain.{IsFiltered};
ghost use Rattle.ast_types.specs.Reading.{stmts_of};
ghost use Rattle.ast_types.specs.declared.script_fn.ScriptFuncDef.{ScriptFuncDef as definition};
ghost use Rattle.rhai_script.specs.Renamed.{Apart, IsRenamed, clash, tabled};
ghost use Rattle.rhai_script.specs.Contents.{Contents, contents, parts_contents, with_source, without_source, with_doc, with_table, with_functions, without_statements, joined_over, merged, combined};
ghost use Rattle.script_tables.specs.Filter.{Answers, AnswersShort};
ghost use Rattle.script_tables.specs.FnKey.{definitions_table};
ghost use Rattle.script_names.specs.Names.{stands};
ghost use Rattle.script_names.specs.declared.naming.Names.TheVariants.{Marked};
ghost use Rattle.theory_naming.specs.Renaming.{renamed_script};

use crate::apart::marks_apart;
use crate::tables::renamed_lib;
use rhai_ast::{FnAccess, FnNamespace, Stmt, StmtBlock};
use rhai_base::{ImmutableString, OutOfMemory, Position};
use script_names::{Names, renamed_block};
use script_tables::{
    Doc, FnLib, SharedLib, allocator_of, append, copy_of_id, joined, no_functions, only_chosen,
    own_copy, put_all, put_chosen, retained, take_name,
};
use std::alloc::{AllocError, Global};

/// A script: its source, its doc text, its statements and its functions. What its calls need of memory comes from
/// the allocator of its table.
pub struct AST {
    source: Option<ImmutableString>,
    doc: Doc,
    body: StmtBlock,
    lib: SharedLib,
}

impl Drop for AST {
    fn drop(self) {
        let AST {
            source: _source,
            doc: _doc,
            body: _body,
            lib: _lib,
        } = self;
    }
}

impl Clone for AST {
    ghost is_clone = { λ s t. (contents t ≡ contents s) × (t.body.span ≡ s.body.span) };

    fn clone(&self) -> Result<AST, AllocError> {
        let source = self.source.clone()?;
        let doc = self.doc.clone()?;
        let body = self.body.clone()?;
        let lib = self.lib.clone()?;
        Ok(AST {
            source,
            doc,
            body,
            lib,
        })
    }
}

/// What a script is made of.
#[derive(Drop)]
pub struct AstParts {
    /// Its source, where there is one.
    pub source: Option<ImmutableString>,
    /// Its doc text.
    pub doc: Doc,
    /// Its statements.
    pub body: StmtBlock,
    /// Its functions.
    pub lib: SharedLib,
}

impl AST {
    ghost use Rattle.script_tables.specs.FnLib.{functions_of};
    ghost use Rattle.rhai_script.specs.Script.{script_of};

    /// A script of these statements and functions, without a source and a doc. It takes no memory.
    pub fn new(statements: Vec<Stmt>, functions: SharedLib) -> AST
        ensures script { script_of result
            ≡ record { statements = stmts_of statements.items; functions = functions_of functions.value } }
        ensures body { result.body.block ≡ statements.items }
        ensures lib { result.lib ≡ functions }
        ensures contents { contents result
            ≡ record {
              source = None;
              doc = [];
              statements = statements.items;
              id = functions.value.id;
              functions = functions.value.functions;
            } }
    {
        AST {
            source: None,
            doc: Doc::none(),
            body: StmtBlock::new(statements, Position::NONE, Position::NONE),
            lib: functions,
        }
    }

    /// The same with a source, which the table's id follows. A table that other scripts share is copied.
    pub fn new_with_source(
        statements: Vec<Stmt>,
        functions: SharedLib,
        source: &str,
    ) -> Result<AST, OutOfMemory>
        ensures { IfOk result (λ s.
            contents s
            ≡ with_source source.now
            (record {
              source = None;
              doc = [];
              statements = statements.items;
              id = functions.value.id;
              functions = functions.value.functions;
            })) }
    {
        let mut script = AST::new(statements, functions);
        script.set_source(source)?;
        Ok(script)
    }

    /// A script of a table alone, whose id is the source.
    pub fn new_from_module(functions: SharedLib) -> Result<AST, OutOfMemory>
        ensures { IfOk result (λ s.
            contents s
            ≡ record {
              source = functions.value.id;
              doc = [];
              statements = [];
              id = functions.value.id;
              functions = functions.value.functions;
            }) }
    {
        let source = copy_of_id(&functions)?;
        Ok(AST {
            source,
            doc: Doc::none(),
            body: StmtBlock::none(allocator_of(&functions)),
            lib: functions,
        })
    }

    /// A script of nothing.
    pub fn empty(alloc: Global) -> Result<AST, OutOfMemory>
        ensures { IfOk result (λ s.
            contents s ≡ record { source = None; doc = []; statements = []; id = None; functions = [] }) }
    {
        let lib = no_functions(alloc)?;
        Ok(AST::new(Vec::new(alloc), lib))
    }

    /// The source, where there is one.
    pub fn source(&self) -> Option<&str>
        ensures { option_copied result ≡ self.now.source }
    {
        match &self.source {
            Some(source) => Some(source.as_str()),
            None => None,
        }
    }

    /// Sets the source, which the table's id follows; an empty one is none. A table that other scripts share is
    /// copied. A refused call changes nothing.
    pub fn set_source(&mut self, source: &str) -> Result<(), OutOfMemory>
        ensures ok { OnOk result (contents self.new ≡ with_source source.now (contents self.old)) }
        ensures err { OnErr result (contents self.new ≡ contents self.old) }
    {
        self.source = take_name(&mut self.lib, source)?;
        Ok(())
    }

    /// Leaves no source. The table's id stays.
    pub fn clear_source(&mut self)
        ensures { contents self.new ≡ without_source (contents self.old) }
    {
        self.source = None;
    }

    /// The doc text.
    pub fn doc(&self) -> &str
        ensures { result.now ≡ self.now.doc }
    {
        self.doc.as_str()
    }

    /// Sets the doc text. A refused call changes nothing.
    pub fn set_doc(&mut self, doc: &str) -> Result<(), OutOfMemory>
        ensures ok { OnOk result (contents self.new ≡ with_doc doc.now (contents self.old)) }
        ensures err { OnErr result (contents self.new ≡ contents self.old) }
    {
        self.doc = Doc::new(allocator_of(&self.lib), doc)?;
        Ok(())
    }

    /// The statements.
    pub fn statements(&self) -> &[Stmt]
        ensures { result.now ≡ self.now.body.block }
    {
        self.body.statements()
    }

    /// Whether there are functions.
    pub fn has_functions(&self) -> bool
        ensures { IsTrue result ↔ (self.now.lib.value.functions ≢ []) }
    {
        !self.lib.is_empty()
    }

    /// The table of functions.
    pub fn shared_lib(&self) -> &SharedLib
        ensures { result.now ≡ self.now.lib }
    {
        &self.lib
    }

    /// A script of the source, the doc and this table alone.
    fn only(&self, lib: SharedLib) -> Result<AST, OutOfMemory>
        requires { lib.value.id ≡ None }
        ensures { IfOk result (λ s.
            contents s ≡ without_statements (with_table lib.value.functions (contents self.now))) }
    {
        let source = self.source.clone()?;
        let doc = self.doc.clone()?;
        Ok(AST {
            source,
            doc,
            body: StmtBlock::none(allocator_of(&lib)),
            lib,
        })
    }

    /// A script of the source, the doc and the functions, in a table of its own without an id.
    pub fn clone_functions_only(&self) -> Result<AST, OutOfMemory>
        ensures { IfOk result (λ s.
            contents s ≡ without_statements (with_table self.now.lib.value.functions (contents self.now))) }
    {
        self.only(own_copy(&self.lib)?)
    }

    /// A script of the source, the doc and the functions that the filter chooses, by an answer for each, in the table's
    /// order.
    pub fn clone_functions_only_filtered<F: Fn(FnNamespace, FnAccess, bool, &str, usize) -> bool>(
        &self,
        filter: F,
    ) -> Result<AST, OutOfMemory>
        requires { F.IsAlwaysCallable filter }
        ensures { IfOk result (λ s.
            (chosen : List definition) × IsFiltered (Answers F.Fn) filter self.now.lib.value.functions chosen
            × (contents s ≡ without_statements (with_table chosen (contents self.now)))) }
    {
        let lib = only_chosen(&self.lib, &filter)?;
        self.only(lib)
    }

    /// A script of the source, the doc and the statements, with a table of its own.
    pub fn clone_statements_only(&self) -> Result<AST, OutOfMemory>
        ensures { IfOk result (λ s. contents s ≡ with_table [] (contents self.now)) }
    {
        let mut script = self.clone()?;
        script.clear_functions()?;
        Ok(script)
    }

    /// A script in place of two, with this table.
    fn merged_with(&self, other: &AST, lib: SharedLib) -> Result<AST, OutOfMemory>
        ensures { IfOk result (λ s.
            contents s ≡ joined_over lib.value other.now.source (contents self.now) (contents other.now)) }
    {
        let source = other.source.clone()?;
        let doc = self.doc.joined(allocator_of(&lib), &other.doc)?;
        let body = joined(&self.body, &other.body)?;
        Ok(AST {
            source,
            doc,
            body,
            lib,
        })
    }

    /// The script with other names of functions without a name of their own: constants point to them by these names, and
    /// where two functions have one key then, the later one takes the place of the earlier one; marks keep all apart. It
    /// is not in rhai.
    pub fn renamed(&self, names: &Names) -> Result<AST, OutOfMemory>
        ensures contents { IfOk result (λ s.
            (made : Contents) × IsRenamed (stands names.now) (contents self.now) made
            × (contents s ≡ with_functions (definitions_table made.functions) made)) }
        ensures marked { (n : ℕ) → names.now ≡ Marked n
            → IfOk result (λ s. IsRenamed (stands names.now) (contents self.now) (contents s)) }
        ensures script { IfOk result (λ s.
            script_of s ≡ tabled (renamed_script (stands names.now) (script_of self.now))) }
    {
        let alloc = allocator_of(&self.lib);
        let source = self.source.clone()?;
        let doc = self.doc.clone()?;
        let body = renamed_block(alloc, names, &self.body)?;
        let lib = renamed_lib(names, &self.lib)?;
        Ok(AST {
            source,
            doc,
            body,
            lib,
        })
    }

    /// A copy with the fewest marks with which no function without a name of its own has the name of one of the table;
    /// nothing, where none has so.
    fn marked_apart(&self, lib: &FnLib) -> Result<Option<AST>, OutOfMemory>
        ensures { IfOk result (λ copy.
            MatchOption copy (clash 0 lib.now.functions self.now.lib.value.functions ≡ false)
            (λ s. Apart lib.now.functions (contents self.now) (contents s))) }
    {
        let marks = marks_apart(lib, &self.lib)?;
        if marks == 0 {
            return Ok(None);
        }
        Ok(Some(self.renamed(&Names::Marked(marks))?))
    }

    /// A script in place of two: the second's statements come after the first's, and its functions take the places of
    /// those of their keys. Its source is the second's. Functions of the second without a name of their own are marked
    /// before, where one has the name of one of the first's.
    pub fn merge(&self, other: &AST) -> Result<AST, OutOfMemory>
        ensures { IfOk result (λ s.
            (second : Contents) × Apart self.now.lib.value.functions (contents other.now) second
            × (contents s ≡ merged (contents self.now) second second.functions)) }
    {
        let copy = other.marked_apart(&self.lib)?;
        match copy {
            Some(marked) => self.with_all_of(&marked),
            None => self.with_all_of(other),
        }
    }

    /// A script in place of two, whose names stay.
    fn with_all_of(&self, other: &AST) -> Result<AST, OutOfMemory>
        ensures { IfOk result (λ s.
            contents s ≡ merged (contents self.now) (contents other.now) other.now.lib.value.functions) }
    {
        let lib = put_all(&self.lib, &other.source, &other.lib)?;
        self.merged_with(other, lib)
    }

    /// The same with those functions of the second that the filter chooses, by an answer for each, in the table's order.
    /// It is asked with the names that they have then.
    pub fn merge_filtered<F: Fn(FnNamespace, FnAccess, bool, &str, usize) -> bool>(
        &self,
        other: &AST,
        filter: F,
    ) -> Result<AST, OutOfMemory>
        requires { F.IsAlwaysCallable filter }
        ensures { IfOk result (λ s.
            (second : Contents) × (chosen : List definition)
            × Apart self.now.lib.value.functions (contents other.now) second
            × IsFiltered (Answers F.Fn) filter second.functions chosen
            × (contents s ≡ merged (contents self.now) second chosen)) }
    {
        let copy = other.marked_apart(&self.lib)?;
        match copy {
            Some(marked) => self.with_some_of(&marked, &filter),
            None => self.with_some_of(other, &filter),
        }
    }

    /// A script in place of two, whose names stay, with the functions of the second that the filter chooses.
    fn with_some_of<F: Fn(FnNamespace, FnAccess, bool, &str, usize) -> bool>(
        &self,
        other: &AST,
        filter: &F,
    ) -> Result<AST, OutOfMemory>
        requires { F.IsAlwaysCallable filter.now }
        ensures { IfOk result (λ s.
            (chosen : List definition) × IsFiltered (Answers F.Fn) filter.now other.now.lib.value.functions chosen
            × (contents s ≡ merged (contents self.now) (contents other.now) chosen)) }
    {
        let lib = put_chosen(&self.lib, &other.source, &other.lib, filter)?;
        self.merged_with(other, lib)
    }

    /// What it is made of.
    pub fn into_parts(self) -> AstParts
        ensures contents { parts_contents result ≡ contents self }
        ensures body { result.body ≡ self.body }
    {
        let AST {
            source,
            doc,
            body,
            lib,
        } = self;
        AstParts {
            source,
            doc,
            body,
            lib,
        }
    }

    /// The script of these parts.
    pub fn from_parts(parts: AstParts) -> AST
        ensures contents { contents result ≡ parts_contents parts }
        ensures body { result.body ≡ parts.body }
    {
        let AstParts {
            source,
            doc,
            body,
            lib,
        } = parts;
        AST {
            source,
            doc,
            body,
            lib,
        }
    }

    /// The statements; the rest goes.
    pub fn into_statements(self) -> Vec<Stmt>
        ensures { result.items ≡ self.body.block }
    {
        self.into_body().into_statements().into_vec()
    }

    fn into_body(self) -> StmtBlock
        ensures { result ≡ self.body }
    {
        let AST {
            source: _source,
            doc: _doc,
            body,
            lib: _lib,
        } = self;
        body
    }

    /// Takes in the doc and the statements of a second script, and this table.
    fn combine_with(&mut self, other: AST, lib: SharedLib) -> Result<(), OutOfMemory>
        ensures ok { OnOk result
            (contents self.new ≡ joined_over lib.value self.old.source (contents self.old) (contents other)) }
        ensures err { OnErr result (contents self.new ≡ contents self.old) }
    {
        let doc = self.doc.joined(allocator_of(&lib), &other.doc)?;
        append(&mut self.body, other.into_body())?;
        self.doc = doc;
        self.lib = lib;
        Ok(())
    }

    /// Takes in a second script: its statements come after the first's, and its functions take the places of those of
    /// their keys. The source stays. Functions of the second without a name of their own are marked before, where one
    /// has the name of one of the first's. A refused call changes nothing.
    pub fn combine(&mut self, other: AST) -> Result<(), OutOfMemory>
        ensures ok { OnOk result
            ((second : Contents) × Apart self.old.lib.value.functions (contents other) second
            × (contents self.new ≡ combined (contents self.old) second second.functions)) }
        ensures err { OnErr result (contents self.new ≡ contents self.old) }
    {
        let other = other.apart_from(&self.lib)?;
        let lib = put_all(&self.lib, &None, &other.lib)?;
        self.combine_with(other, lib)
    }

    /// The script itself where no function without a name of its own has the name of one of the table, else a copy with
    /// the fewest marks with which none has.
    fn apart_from(self, lib: &FnLib) -> Result<AST, OutOfMemory>
        ensures { IfOk result (λ s. Apart lib.now.functions (contents self) (contents s)) }
    {
        let copy = self.marked_apart(lib)?;
        match copy {
            Some(marked) => Ok(marked),
            None => Ok(self),
        }
    }

    /// The same with those functions of the second that the filter chooses, by an answer for each, in the table's order.
    /// It is asked with the names that they have then.
    pub fn combine_filtered<F: Fn(FnNamespace, FnAccess, bool, &str, usize) -> bool>(
        &mut self,
        other: AST,
        filter: F,
    ) -> Result<(), OutOfMemory>
        requires { F.IsAlwaysCallable filter }
        ensures ok { OnOk result
            ((second : Contents) × (chosen : List definition)
            × Apart self.old.lib.value.functions (contents other) second
            × IsFiltered (Answers F.Fn) filter second.functions chosen
            × (contents self.new ≡ combined (contents self.old) second chosen)) }
        ensures err { OnErr result (contents self.new ≡ contents self.old) }
    {
        let other = other.apart_from(&self.lib)?;
        let lib = put_chosen(&self.lib, &None, &other.lib, &filter)?;
        self.combine_with(other, lib)
    }

    /// Keeps the functions that the filter chooses, by an answer for each, in the table's order, and the table's id. A
    /// table that other scripts share stays as it is. A refused call changes nothing.
    pub fn retain_functions<F: Fn(FnNamespace, FnAccess, &str, usize) -> bool>(
        &mut self,
        filter: F,
    ) -> Result<(), OutOfMemory>
        requires { F.IsAlwaysCallable filter }
        ensures ok { OnOk result
            ((kept : List definition) × IsFiltered (AnswersShort F.Fn) filter self.old.lib.value.functions kept
            × (contents self.new ≡ with_functions kept (contents self.old))) }
        ensures err { OnErr result (contents self.new ≡ contents self.old) }
    {
        self.lib = retained(&self.lib, &filter)?;
        Ok(())
    }

    /// Leaves no functions, in a table of its own without an id. A refused call changes nothing.
    pub fn clear_functions(&mut self) -> Result<(), OutOfMemory>
        ensures ok { OnOk result (contents self.new ≡ with_table [] (contents self.old)) }
        ensures err { OnErr result (contents self.new ≡ contents self.old) }
    {
        self.lib = no_functions(allocator_of(&self.lib))?;
        Ok(())
    }

    /// Leaves no statements.
    pub fn clear_statements(&mut self)
        ensures { contents self.new ≡ without_statements (contents self.old) }
    {
        self.body = StmtBlock::none(allocator_of(&self.lib));
    }
}
