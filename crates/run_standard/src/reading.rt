//! What `parse_int` reads.

ghost use Rattle.std.specs.Prelude.{◌≡◌};
ghost use Rattle.run_standard.specs.Reading as spec;

use rhai_base::INT;

/// The number that a text is between white space: digits behind a sign or none.
pub(crate) fn number_read(text: &str) -> Option<INT>
    ensures { result ≡ spec.number_read text.now }
{
    number_in(text.trim())
}

fn number_in(text: &str) -> Option<INT>
    ensures { result ≡ spec.number_in text.now }
{
    match text.parse::<INT>() {
        Ok(number) => Some(number),
        Err(_) => None,
    }
}
