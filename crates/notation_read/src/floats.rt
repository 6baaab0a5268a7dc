//! Floats: digits with a point or a power of ten; what has no digits by its bits.

use crate::letters::Letters;
use crate::marks::Marks;
use rhai_base::FloatWrapper;

impl<'a, M: Marks> Letters<'a, M> {
    /// A float, where one stands next. It is refused where its digits are not those that it is written by.
    pub(crate) fn float(&self) -> Option<FloatWrapper> {
        let before = self.place();
        let text = self.first(float_len(self.rest())?)?;
        let float = float_of(text);
        if !self.is_written(float, text) {
            self.come_back(before);
            self.want("a float as it is written");
        }
        Some(float)
    }

    fn is_written(&self, float: FloatWrapper, text: &str) -> bool {
        let mut written = String::new(self.alloc);
        let appended = write!(written, "{float}");
        self.made(appended);
        written.as_str() == text
    }
}

fn float_of(text: &str) -> FloatWrapper {
    match text.strip_prefix("f64(") {
        Some(bits) => {
            let digits = bits.strip_suffix(")").unwrap_or(bits);
            FloatWrapper::from_bits(digits.parse::<u64>().unwrap_or(0))
        }
        None => FloatWrapper::new(fast_float::parse::<f64, &str>(text).unwrap_or(0.0)),
    }
}

/// How many letters are a float's.
fn float_len(letters: &[u8]) -> Option<usize> {
    let bits = digits_end(letters, 0, b"f64(");
    if bits > 0 {
        return Some(bits.saturating_add(1));
    }
    let start = usize::from(letters.first() == Some(&b'-'));
    let whole = digits_end(letters, start, b"");
    let fraction = digits_end(letters, whole, b".");
    let power = digits_end(letters, fraction, b"e").max(digits_end(letters, fraction, b"e-"));
    (start < whole && whole < power).then_some(power)
}

/// Where the digits end behind a mark that stands here; here, if none do.
fn digits_end(letters: &[u8], here: usize, mark: &[u8]) -> usize {
    let rest = letters.get(here..).unwrap_or(&[]);
    if !rest.starts_with(mark) {
        return here;
    }
    let first = here.saturating_add(mark.len());
    let mut end = first;
    for letter in letters.get(first..).unwrap_or(&[]) {
        if !letter.is_ascii_digit() {
            break;
        }
        end = end.saturating_add(1);
    }
    if end == first { here } else { end }
}
