//! Functions by their keys.
ghost use Rattle.std.specs.Prelude.{◌≡◌, [], length, map, IsTrue, IfOk, OnOk, OnErr};
ghost use Rattle.std.specs.Option.{option_copied, option_map};
ghost use Rattle.std.specs.Rc.{rc_value};
ghost use Rattle.std.specs.Iterator.{YieldsFirstBy, item_count};
ghost use Rattle.ast_types.specs.Reading.{function_of};
ghost use Rattle.script_tables.specs.Table.{are_distinct, key_of, put_by, put_all_by, find_by};
ghost use Rattle.script_tables.specs.FnKey.{definition_key, definitions_table, fn_key_of, key_meant, shown};

use indexmap::IndexMap;
use indexmap::map::Values;
use rhai_ast::ScriptFuncDef;
use rhai_base::{ImmutableString, OutOfMemory};
use std::alloc::{AllocError, Global};
use std::marker::Model;
use std::rc::Rc;

/// What tells the functions of a table apart.
#[derive(Debug, PartialEq, Eq, Hash)]
pub struct FnKey {
    /// The name.
    pub name: ImmutableString,
    /// How many parameters there are.
    pub params: usize,
    /// The type of the receiver, where the function is a method of one type alone.
    pub this_type: Option<ImmutableString>,
}

impl Drop for FnKey {
    fn drop(self) {
        let FnKey {
            name: _name,
            params: _params,
            this_type: _this_type,
        } = self;
    }
}

impl Clone for FnKey {
    ghost is_clone = { λ k l. l ≡ k };

    fn clone(&self) -> Result<FnKey, AllocError> {
        Ok(FnKey {
            name: self.name.clone()?,
            params: self.params,
            this_type: self.this_type.clone()?,
        })
    }
}

impl FnKey {
    fn of(function: &ScriptFuncDef) -> Result<FnKey, AllocError>
        ensures { IfOk result (λ k. k ≡ fn_key_of function.now) }
    {
        Ok(FnKey {
            name: function.name.clone()?,
            params: function.params.len(),
            this_type: function.this_type.clone()?,
        })
    }
}

/// Functions by name, number of parameters and receiver type, in the order in which their keys came first.
pub struct FnTable {
    functions: IndexMap<FnKey, Rc<ScriptFuncDef>>,
}

impl Drop for FnTable {
    fn drop(self) {
        let FnTable {
            functions: _functions,
        } = self;
    }
}

impl Model for FnTable {
    ghost use Rattle.std.specs.Prelude.{List, map};
    ghost use Rattle.std.specs.Coded.{coded_list};
    ghost use Rattle.std.specs.Rc.{rc_value};
    ghost use Rattle.indexmap.specs.IndexMap.{keys, values};
    ghost use Rattle.ast_types.specs.declared.script_fn.ScriptFuncDef.{ScriptFuncDef};
    ghost use Rattle.ast_types.specs.contracts.script_fn.ScriptFuncDef as function;
    ghost use Rattle.script_tables.specs.FnKey.{IsTable};

    ghost Value = { List ScriptFuncDef };

    ghost coded = { coded_list function.the_row.coded };

    ghost view = { λ l. map rc_value (values l.functions) };

    ghost invariant = { λ l. IsTable (keys l.functions) (map rc_value (values l.functions)) };
}

impl Clone for FnTable {
    ghost is_clone = { λ t u. u ≡ t };

    fn clone(&self) -> Result<FnTable, AllocError> {
        Ok(FnTable {
            functions: self.functions.clone()?,
        })
    }
}

impl FnTable {
    /// A table without functions.
    pub fn new(alloc: Global) -> FnTable
        ensures { result ≡ [] }
    {
        FnTable {
            functions: IndexMap::new(alloc),
        }
    }

    pub fn allocator(&self) -> Global {
        *self.functions.allocator()
    }

    /// Puts a function in the place of the one of its key, else last.
    pub fn put(&mut self, function: Rc<ScriptFuncDef>) -> Result<(), OutOfMemory>
        ensures ok { OnOk result (self.new ≡ put_by definition_key self.old function.value) }
        ensures err { OnErr result (self.new ≡ self.old) }
    {
        let key = FnKey::of(&function)?;
        self.functions.insert(key, function)?;
        Ok(())
    }

    /// The table with these functions put in, each in turn.
    pub fn with_all(self, functions: Vec<Rc<ScriptFuncDef>>) -> Result<FnTable, OutOfMemory>
        ensures { IfOk result (λ t. t ≡ put_all_by definition_key self (map rc_value functions.items)) }
    {
        let mut table = self;
        for function in functions {
            table.put(function)?;
        }
        Ok(table)
    }

    /// The functions alone, in the table's order.
    pub(crate) fn into_functions(self) -> Result<Vec<Rc<ScriptFuncDef>>, AllocError>
        ensures functions { IfOk result (λ all. map rc_value all.items ≡ self) }
        ensures table { IfOk result (λ all. definitions_table (map rc_value all.items) ≡ self) }
    {
        let mut all = Vec::new(self.allocator());
        let FnTable { functions } = self;
        for function in functions.into_values() {
            all.push(function)?;
        }
        Ok(all)
    }

    /// How many functions there are.
    pub fn len(&self) -> usize
        ensures { result ≡ length self.now }
    {
        self.functions.len()
    }

    /// The function of a key.
    pub fn get(&self, key: &FnKey) -> Option<&Rc<ScriptFuncDef>>
        ensures { option_map rc_value (option_copied result) ≡ find_by definition_key (key_meant key.now) self.now }
    {
        self.functions.get(key)
    }

    /// The functions, in the table's order.
    pub fn iter(&self) -> FnLibIter<'_>
        ensures rest { result ≡ self.now }
        ensures distinct { IsTrue (are_distinct (map key_of (map function_of self.now))) }
    {
        FnLibIter {
            values: self.functions.values(),
        }
    }
}

/// The functions of a table, in its order.
#[derive(Drop)]
pub struct FnLibIter<'a> {
    values: Values<'a, FnKey, Rc<ScriptFuncDef>>,
}

impl<'a> Model for FnLibIter<'a> {
    ghost use Rattle.std.specs.Prelude.{List, map};
    ghost use Rattle.std.specs.Coded.{coded_list};
    ghost use Rattle.std.specs.Rc.{rc_value};
    ghost use Rattle.ast_types.specs.declared.script_fn.ScriptFuncDef.{ScriptFuncDef};
    ghost use Rattle.ast_types.specs.contracts.script_fn.ScriptFuncDef as function;

    ghost Value = { List ScriptFuncDef };

    ghost coded = { coded_list function.the_row.coded };

    ghost view = { λ i. map rc_value i.values };
}

impl<'a> Iterator for FnLibIter<'a> {
    type Item = &'a Rc<ScriptFuncDef>;

    ghost next_gives = { YieldsFirstBy shown (λ i. i) };

    ghost remaining = { item_count (λ i. i) };

    fn next(&mut self) -> Option<&'a Rc<ScriptFuncDef>> {
        self.values.next()
    }
}
