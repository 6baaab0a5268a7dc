//! The bindings of names: for each name a list, the newest last. A name whose list is empty counts as absent; a variable
//! stands in one only where it hides something.

ghost use Rattle.std.specs.Prelude.{◌≡◌, Some, OnErr, OnOk};
ghost use Rattle.std.specs.Option.{option_copied};
ghost use Rattle.opt_base.specs.Bindings.{read, laid, newest, newest_first, held_in, with_newest, without_newest};

use rhai_base::{Dynamic, ImmutableString, OutOfMemory};
use std::alloc::Global;
use std::borrow::Cow;
use std::collections::BTreeMap;

/// A value, lent or owned; none of a variable.
pub type Binding<'a> = Option<Cow<'a, Dynamic>>;

/// The bindings of each name, the newest last.
pub type Bindings<'a> = BTreeMap<String, Vec<Binding<'a>>>;

/// The value of the newest binding of a name.
pub(crate) fn latest<'b>(bindings: &'b Bindings<'_>, name: &str) -> Option<&'b Dynamic>
    ensures { option_copied result ≡ newest (held_in bindings.now name.now) }
{
    newest_of(bindings.get(name)?.as_slice())
}

fn newest_of<'b>(bindings: &'b [Binding<'_>]) -> Option<&'b Dynamic>
    ensures { option_copied result ≡ newest (newest_first bindings.now) }
{
    match bindings.split_last() {
        Some((Some(value), _)) => Some(value_of(value)),
        _ => None,
    }
}

fn value_of<'b>(value: &'b Cow<'_, Dynamic>) -> &'b Dynamic
    ensures { read (Some value.now) ≡ Some result.now }
{
    match value {
        Cow::Borrowed(value) => value,
        Cow::Owned(value) => value,
    }
}

/// Lays a binding over those of a name. A variable over nothing hides nothing, and is not noted.
fn lay<'a>(list: &mut Vec<Binding<'a>>, binding: Binding<'a>) -> Result<(), OutOfMemory>
    ensures ok { OnOk result (newest_first list.new.items ≡ laid (read binding.entry) (newest_first list.old.items)) }
    ensures err { OnErr result (list.new.items ≡ list.old.items) }
{
    if binding.is_none() && list.is_empty() {
        return Ok(());
    }
    list.push(binding)?;
    Ok(())
}

/// Adds a binding of a name. A refused call adds nothing.
pub(crate) fn add<'a>(
    alloc: Global,
    bindings: &mut Bindings<'a>,
    name: &str,
    binding: Binding<'a>,
) -> Result<(), OutOfMemory>
    ensures ok { OnOk result (held_in bindings.new ≡ with_newest name.now (read binding.entry) (held_in bindings.old)) }
    ensures err { OnErr result (held_in bindings.new ≡ held_in bindings.old) }
{
    if let Some(list) = bindings.get_mut(name) {
        return lay(list, binding);
    }
    if binding.is_none() {
        return Ok(());
    }
    let key = String::from_str(alloc, name)?;
    let list = vec![in alloc; binding]?;
    match bindings.insert(key, list) {
        Ok(_) => Ok(()),
        Err(_) => Err(OutOfMemory),
    }
}

/// Takes the newest binding of a name away.
pub(crate) fn take_newest(bindings: &mut Bindings<'_>, name: &str)
    ensures { held_in bindings.new ≡ without_newest name.now (held_in bindings.old) }
{
    if let Some(list) = bindings.get_mut(name) {
        let _ = list.pop();
    }
}
