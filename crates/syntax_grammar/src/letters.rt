//! Letters by their place in a text.
#![tactic(auto, using(crate::proofs::LetterSteps::letter_steps))]

ghost use Rattle.std.specs.Prelude.{◌≡◌, ◌∷◌, ◌++◌, ◌+◌, ◌<◌, [], IfSome, MatchOption, drop, length, false};
ghost use Rattle.theory_grammar.specs.Words.{goes_on, has_letter};
ghost use Rattle.base_tokens.specs.Names.{is_letter, is_word};

/// The letter that stands at a place, if the text does not end there.
pub(crate) fn letter_at(text: &[u8], at: usize) -> Option<u8>
    ensures { MatchOption result (drop at text.now ≡ [])
        (λ c. (at < length text.now) × (drop at text.now ≡ c ∷ drop (at + 1) text.now)) }
{
    if at < text.len() {
        Some(text[at])
    } else {
        None
    }
}

/// The place behind the letter at a place; the end stays where it is.
#[tactic(auto, using(crate::proofs::LetterSteps::one_steps))]
pub(crate) fn behind_one(text: &[u8], at: usize) -> usize
    ensures { drop result text.now ≡ drop 1 (drop at text.now) }
{
    match letter_at(text, at) {
        Some(_) => at + 1,
        None => at,
    }
}

/// The place behind a letter, where it stands at a place.
pub(crate) fn past(text: &[u8], at: usize, letter: u8) -> Option<usize>
    ensures { IfSome result (λ next. drop at text.now ≡ letter ∷ drop next text.now) }
{
    if letter_at(text, at)? == letter {
        Some(at + 1)
    } else {
        None
    }
}

/// The place behind these letters, where they stand at a place.
pub(crate) fn past_all(text: &[u8], at: usize, letters: &[u8]) -> Option<usize>
    ensures { IfSome result (λ next. drop at text.now ≡ letters.now ++ drop next text.now) }
{
    let mut place = at;
    for letter in letters {
        place = past(text, place, *letter)?;
    }
    Some(place)
}

/// Whether one of these letters stands at a place.
pub(crate) fn goes_on_with(text: &[u8], at: usize, letters: &[u8]) -> bool
    ensures { result ≡ goes_on (has_letter letters.now) (drop at text.now) }
{
    match letter_at(text, at) {
        Some(letter) => has_letter(letters, letter),
        None => false,
    }
}

fn has_letter(letters: &[u8], letter: u8) -> bool
    ensures { result ≡ has_letter letters.now letter }
{
    for other in letters {
        if *other == letter {
            return true;
        }
    }
    false
}

/// Whether a letter, a digit or `_` stands at a place.
pub(crate) fn goes_on_as_word(text: &[u8], at: usize) -> bool
    ensures { result ≡ goes_on is_word (drop at text.now) }
{
    match letter_at(text, at) {
        Some(letter) => is_word(letter),
        None => false,
    }
}

/// Whether it is a letter, a digit or `_`.
pub(crate) fn is_word(letter: u8) -> bool
    ensures { result ≡ is_word letter }
{
    letter.is_ascii_alphanumeric() || letter == b'_'
}

/// Whether it is a letter.
pub(crate) fn is_letter(letter: u8) -> bool
    ensures { result ≡ is_letter letter }
{
    letter.is_ascii_alphabetic()
}
