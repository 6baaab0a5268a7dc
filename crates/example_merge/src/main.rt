//! Merges two scripts, takes away private functions that nothing names, and prints the script as text and as a tree.
#![tactic(auto)]

use rhai_lang::prelude::*;
use rhai_lang::{
    AST, ASTNode, Dynamic, Expr, FnAccess, OutOfMemory, Refusal, Stmt, compile, push_script,
    push_source,
};
use std::alloc::Global;
use std::{env, fs, io};

/// Whether an expression names a function: calls it, points to it, or has its name as a text.
fn is_naming_expr(expr: &Expr, name: &str) -> bool {
    match expr {
        Expr::FnCall(call, _) | Expr::MethodCall(call, _) => call.get().name.as_str() == name,
        Expr::StringConstant(text, _) => text.as_str() == name,
        Expr::DynamicConstant(value, _) => match value.get() {
            Dynamic::FnPtr(pointer) => pointer.fn_name() == name,
            _ => false,
        },
        _ => false,
    }
}

/// Whether the last node of a path names a function.
fn is_naming_end(path: &[ASTNode], name: &str) -> bool {
    match path.last() {
        Some(ASTNode::Expr(expr)) => is_naming_expr(expr, name),
        Some(ASTNode::Stmt(Stmt::FnCall(call, _))) => call.get().name.as_str() == name,
        _ => false,
    }
}

/// Whether any node of a script names a function: the walk stops at the first one.
fn is_named(script: &AST, name: &str) -> Result<bool, OutOfMemory> {
    let is_finished = script.walk(&mut |path: &[ASTNode]| !is_naming_end(path, name))?;
    Ok(!is_finished)
}

/// The names of the private functions that no node of a script names.
fn unused_names(alloc: Global, script: &AST) -> Result<Vec<String>, OutOfMemory> {
    let mut unused = Vec::new(alloc);
    for function in script.iter_functions() {
        if function.access == FnAccess::Private && !is_named(script, function.name)? {
            unused.push(String::from_str(alloc, function.name)?)?;
        }
    }
    Ok(unused)
}

/// Whether a name is among these.
fn is_among(names: &[String], name: &str) -> bool {
    for known in names {
        if known.as_str() == name {
            return true;
        }
    }
    false
}

/// Two scripts as one: a function of the second takes the place of one of the first with its name and as many
/// parameters. Private functions that are not named go.
fn merged(alloc: Global, first: &AST, second: &AST) -> Result<AST, OutOfMemory> {
    let mut script = first.merge(second)?;
    let unused = unused_names(alloc, &script)?;
    let unused = unused.as_slice();
    script.retain_functions(|_, _, name, _| !is_among(unused, name))?;
    Ok(script)
}

/// The merged script in rhai's own syntax, and then in the notation of trees.
fn told(alloc: Global, first: &AST, second: &AST) -> Result<String, Refusal> {
    let script = merged(alloc, first, second)?;
    let mut text = String::new(alloc);
    push_source(&script, &mut text)?;
    text.push_str("// and as a tree\n")?;
    push_script(&script, &mut text)?;
    Ok(text)
}

/// The script in a file. Where there is none, it is printed why.
fn read_script(rt: &HostRuntime, file: &str) -> io::Result<Option<AST>> {
    let text = match fs::read_to_string(rt, file) {
        Ok(text) => text,
        Err(error) => {
            println!(rt; "{file}: {error}")?;
            return Ok(None);
        }
    };
    match compile(rt.alloc(), text.as_str()) {
        Ok(script) => Ok(Some(script)),
        Err(error) => {
            println!(rt; "{file}: {error}")?;
            Ok(None)
        }
    }
}

/// Prints the script that is merged of two files, or why there is none.
fn print_merged(rt: &HostRuntime, first: &str, second: &str) -> io::Result<()> {
    let Some(first) = read_script(rt, first)? else {
        return Ok(());
    };
    let Some(second) = read_script(rt, second)? else {
        return Ok(());
    };
    match told(rt.alloc(), &first, &second) {
        Ok(text) => rt.print(text.as_str()),
        Err(refusal) => println!(rt; "{refusal}"),
    }
}

/// The words name the two files.
fn main(rt: HostRuntime) -> io::Result<()> {
    let files: Vec<String> = env::args(&rt)?.skip(1).collect(rt.alloc())?;
    match files.as_slice() {
        [first, second] => print_merged(&rt, first.as_str(), second.as_str()),
        _ => println!(rt; "expected the names of two scripts"),
    }
}
