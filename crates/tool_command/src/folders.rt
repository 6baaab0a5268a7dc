//! The files that names stand for.

use crate::files::{Files, Found};
use std::alloc::{AllocError, Global};
use std::io;

/// How the names of scripts in a folder end.
const ENDING: &str = ".rhai";

/// The files that a name stands for: of a folder the scripts in it, at any depth, in the order of their names; else the
/// name alone.
pub(crate) fn scripts_of<F: Files>(
    alloc: Global,
    files: &mut F,
    name: &str,
) -> io::Result<Vec<String>> {
    match files.inside(name)? {
        Some(found) => Ok(scripts_among(alloc, files, found)?),
        None => Ok(vec![in alloc; String::from_str(alloc, name)?]?),
    }
}

fn scripts_among<F: Files>(
    alloc: Global,
    files: &mut F,
    found: Vec<Found>,
) -> io::Result<Vec<String>> {
    let mut waiting = found;
    let mut scripts = Vec::new(alloc);
    for _ in 0..u64::MAX {
        let Some(Found { name, is_folder }) = waiting.pop() else {
            break;
        };
        if is_folder {
            push_all(&mut waiting, files.inside(name.as_str())?)?;
        } else if name.as_str().ends_with(ENDING) {
            scripts.push(name)?;
        }
    }
    scripts.sort()?;
    Ok(scripts)
}

fn push_all(waiting: &mut Vec<Found>, found: Option<Vec<Found>>) -> Result<(), AllocError> {
    let Some(found) = found else {
        return Ok(());
    };
    for one in found {
        waiting.push(one)?;
    }
    Ok(())
}
