//! The table of a script's functions.
ghost use Rattle.std.specs.Prelude.{◌≡◌, [], length, map, ◌↔◌, IsTrue, IfOk, OnOk, OnErr, None};
ghost use Rattle.std.specs.Option.{option_copied, option_map};
ghost use Rattle.std.specs.Rc.{rc_value};
ghost use Rattle.ast_types.specs.Reading.{function_of};
ghost use Rattle.script_tables.specs.FnKey.{definition_key, definitions_table, key_meant};
ghost use Rattle.script_tables.specs.Table.{table_of, are_distinct, key_of, put_all_by, find_by};
ghost use Rattle.script_tables.specs.Ids.{named, first_name};

use crate::fn_table::{FnKey, FnLibIter, FnTable};
use crate::id::name_of;
use rhai_ast::ScriptFuncDef;
use rhai_base::{ImmutableString, OutOfMemory};
use std::alloc::{AllocError, Global};
use std::rc::Rc;

/// The functions of a script by name, number of parameters and receiver type, in the order in which their keys
/// came first; and the table's id.
pub struct FnLib {
    id: Option<ImmutableString>,
    functions: FnTable,
}

impl Drop for FnLib {
    fn drop(self) {
        let FnLib {
            id: _id,
            functions: _functions,
        } = self;
    }
}

/// A table that scripts share.
pub type SharedLib = Rc<FnLib>;

impl Clone for FnLib {
    ghost is_clone = { λ l m. m ≡ l };

    fn clone(&self) -> Result<FnLib, AllocError> {
        let id = self.id.clone()?;
        let functions = self.functions.clone()?;
        Ok(FnLib { id, functions })
    }
}

impl FnLib {
    ghost use Rattle.script_tables.specs.FnLib.{functions_of};

    /// A table without functions and id.
    pub fn new(alloc: Global) -> FnLib
        ensures id { result.id ≡ None }
        ensures functions { result.functions ≡ [] }
    {
        unnamed(FnTable::new(alloc))
    }

    /// The table of these functions: a later one takes the place of an earlier one of its key.
    pub fn from_functions(
        alloc: Global,
        functions: Vec<Rc<ScriptFuncDef>>,
    ) -> Result<FnLib, OutOfMemory>
        ensures table { IfOk result (λ lib.
            functions_of lib ≡ table_of (map function_of (map rc_value functions.items))) }
        ensures definitions { IfOk result (λ lib. lib.functions ≡ definitions_table (map rc_value functions.items)) }
        ensures id { IfOk result (λ lib. lib.id ≡ None) }
    {
        let functions = FnTable::new(alloc).with_all(functions)?;
        Ok(unnamed(functions))
    }

    /// The table's id.
    pub fn id(&self) -> Option<&str>
        ensures { option_copied result ≡ self.now.id }
    {
        match &self.id {
            Some(id) => Some(id.as_str()),
            None => None,
        }
    }

    /// Sets the id; an empty one is none.
    pub fn set_id(&mut self, id: &str) -> Result<(), OutOfMemory>
        ensures ok { OnOk result (self.new.id ≡ named id.now) }
        ensures err { OnErr result (self.new.id ≡ self.old.id) }
        ensures functions { self.new.functions ≡ self.old.functions }
    {
        self.id = name_of(self.functions.allocator(), id)?;
        Ok(())
    }

    /// The id, and the functions in the table's order.
    pub fn into_parts(self) -> Result<(Option<ImmutableString>, Vec<Rc<ScriptFuncDef>>), AllocError>
        ensures id { IfOk result (λ parts. parts.0 ≡ self.id) }
        ensures functions { IfOk result (λ parts. map rc_value parts.1.items ≡ self.functions) }
        ensures table { IfOk result (λ parts. definitions_table (map rc_value parts.1.items) ≡ self.functions) }
    {
        let FnLib { id, functions } = self;
        Ok((id, functions.into_functions()?))
    }

    /// How many functions there are.
    pub fn len(&self) -> usize
        ensures { result ≡ length self.now.functions }
    {
        self.functions.len()
    }

    /// Whether there are none.
    pub fn is_empty(&self) -> bool
        ensures { IsTrue result ↔ (self.now.functions ≡ []) }
    {
        self.len() == 0
    }

    /// The function of a key.
    pub fn get(&self, key: &FnKey) -> Option<&Rc<ScriptFuncDef>>
        ensures { option_map rc_value (option_copied result)
            ≡ find_by definition_key (key_meant key.now) self.now.functions }
    {
        self.functions.get(key)
    }

    /// The functions, in the table's order.
    pub fn iter(&self) -> FnLibIter<'_>
        ensures rest { result ≡ self.now.functions }
        ensures distinct { IsTrue (are_distinct (map key_of (functions_of self.now))) }
    {
        self.functions.iter()
    }
}

/// The table of these functions, without an id.
fn unnamed(functions: FnTable) -> FnLib
    ensures id { result.id ≡ None }
    ensures functions { result.functions ≡ functions }
{
    FnLib {
        id: None,
        functions,
    }
}

/// The table itself where nothing else shares it, else a copy of it, which shares its functions.
pub fn unshared(lib: SharedLib) -> Result<FnLib, AllocError>
    ensures { IfOk result (λ own. own ≡ lib.value) }
{
    match Rc::try_unwrap(lib) {
        Ok(own) => Ok(own),
        Err(shared) => shared.as_ref().clone(),
    }
}

/// The allocator of a table.
pub fn allocator_of(lib: &FnLib) -> Global {
    lib.functions.allocator()
}

/// A copy of the id.
pub fn copy_of_id(lib: &FnLib) -> Result<Option<ImmutableString>, OutOfMemory>
    ensures { IfOk result (λ id. id ≡ lib.now.id) }
{
    Ok(lib.id.clone()?)
}

/// Sets the id. It takes no memory.
pub fn take_id(lib: &mut FnLib, id: Option<ImmutableString>)
    ensures id { lib.new.id ≡ id }
    ensures functions { lib.new.functions ≡ lib.old.functions }
{
    lib.id = id;
}

/// A table of the same functions and these, each put in in turn, with the id, or else that of the table.
pub fn with_all(
    lib: &FnLib,
    id: &Option<ImmutableString>,
    functions: Vec<Rc<ScriptFuncDef>>,
) -> Result<FnLib, OutOfMemory>
    ensures id { IfOk result (λ made. made.id ≡ first_name id.now lib.now.id) }
    ensures functions { IfOk result (λ made.
        made.functions ≡ put_all_by definition_key lib.now.functions (map rc_value functions.items)) }
{
    let id = match id {
        Some(id) => Some(id.clone()?),
        None => lib.id.clone()?,
    };
    let functions = lib.functions.clone()?.with_all(functions)?;
    Ok(FnLib { id, functions })
}

/// A table of the same functions without an id.
pub fn without_id(lib: &FnLib) -> Result<FnLib, OutOfMemory>
    ensures id { IfOk result (λ made. made.id ≡ None) }
    ensures functions { IfOk result (λ made. made.functions ≡ lib.now.functions) }
{
    Ok(unnamed(lib.functions.clone()?))
}

/// A table of these functions with the id of the table.
pub fn replaced(lib: &FnLib, functions: Vec<Rc<ScriptFuncDef>>) -> Result<FnLib, OutOfMemory>
    ensures id { IfOk result (λ made. made.id ≡ lib.now.id) }
    ensures functions { IfOk result (λ made. made.functions ≡ definitions_table (map rc_value functions.items)) }
{
    let id = lib.id.clone()?;
    let functions = FnTable::new(allocator_of(lib)).with_all(functions)?;
    Ok(FnLib { id, functions })
}
