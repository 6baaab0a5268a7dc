//! All that keeps a text from being read.

use crate::refusal::Refusal;
use crate::syntax::Syntax;
use notation_read::read_script;
use rhai_base::OutOfMemory;
use std::alloc::Global;
use syntax_parser::parse_errors;

/// Why a text is not read: in rhai's own syntax all that `parse_errors` finds, in the notation the first fault.
pub fn refusals(alloc: Global, syntax: Syntax, text: &str) -> Result<Vec<Refusal>, OutOfMemory> {
    let mut refusals = Vec::new(alloc);
    match syntax {
        Syntax::Rhai(options) => {
            for error in parse_errors(alloc, text, options)? {
                refusals.push(Refusal::from(error))?;
            }
        }
        Syntax::Notation => {
            if let Err(error) = read_script(alloc, text) {
                refusals.push(Refusal::from(error))?;
            }
        }
    }
    Ok(refusals)
}
