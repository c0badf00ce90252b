// Patterns matched against texts.
ghost use Rattle.std.specs.Prelude.{◌≡◌, ◌<◌, ◌≤◌, ◌||◌, ◌==◌, ◌∷◌, ℕ, List, [], length, IfSome, MatchOption};
ghost use Rattle.model_events.specs.Patterns.{is_any};
ghost use Rattle.model_events.specs.Matching.{fits, matches, plain, small, some_rest};
ghost use Rattle.lab_match.specs.Walks.{WalkEnds, WalkIs};

use mc_text::is_blank;

/// The end of a walk of a pattern along a text.
pub enum Walk<'a> {
    /// Pattern and text both ended.
    Whole,
    /// At a `*`: the rest of the pattern after it, and the rest of the text.
    Star(&'a [u8], &'a [u8]),
    /// At characters that do not match.
    Apart,
}

/// Returns a capital letter as the small one, and any other character as it is.
pub fn small(character: u8) -> u8
    ensures { result ≡ small character }
{
    match character {
        b'A'..=b'Z' => character + 32,
        _ => character,
    }
}

// The first character of a text that is not a blank, a capital letter as the small one, and the rest after it.
fn first_of(text: &[u8]) -> Option<(u8, &[u8])>
    ensures parts { MatchOption result (plain text.now ≡ []) (λ p. plain text.now ≡ p.0 ∷ plain p.1.now) }
    ensures shorter { IfSome result (λ p. length p.1.now < length text.now) }
{
    let mut rest = text;
    while let [first, behind @ ..] = rest {
        if !is_blank(*first) {
            return Some((small(*first), behind));
        }
        rest = behind;
    }
    None
}

// Whether a sign of a pattern matches a character.
fn stands_for(sign: u8, character: u8) -> bool
    ensures { result ≡ (is_any sign || (character == sign)) }
{
    sign == b'?' || character == sign
}

// Walks a pattern along a text, up to its first `*`. Blanks are ignored, and letters match in either case.
fn walk_to_star<'a>(pattern: &'a [u8], text: &'a [u8]) -> Walk<'a>
    ensures is { WalkIs pattern.now text.now result }
    ensures ends { WalkEnds pattern.now text.now result }
{
    let mut signs = pattern;
    let mut rest = text;
    while let Some((sign, next_signs)) = first_of(signs) {
        if sign == b'*' {
            return Walk::Star(next_signs, rest);
        }
        let Some((character, behind)) = first_of(rest) else {
            return Walk::Apart;
        };
        if !stands_for(sign, character) {
            return Walk::Apart;
        }
        signs = next_signs;
        rest = behind;
    }
    match first_of(rest) {
        None => Walk::Whole,
        Some(_) => Walk::Apart,
    }
}

// The text from the first character on that a sign matches, or its end if no character does; the whole text if the sign
// is `?` or `*`.
fn from_sign<'a>(sign: u8, text: &'a [u8]) -> &'a [u8]
    ensures same { (ps : List ℕ) → some_rest (matches (sign ∷ ps)) (plain result.now)
        ≡ some_rest (matches (sign ∷ ps)) (plain text.now) }
    ensures shorter { length result.now ≤ length text.now }
{
    if sign == b'?' || sign == b'*' {
        return text;
    }
    let mut rest = text;
    while let [first, behind @ ..] = rest {
        if small(*first) == sign {
            return rest;
        }
        rest = behind;
    }
    rest
}

// The text without characters at its front at which no match of a pattern begins: some rest of it matches exactly if one
// of the text does. Of a pattern that has ended it is the end of the text.
fn from_match<'a>(pattern: &[u8], text: &'a [u8]) -> &'a [u8]
    ensures same { some_rest (matches (plain pattern.now)) (plain result.now)
        ≡ some_rest (matches (plain pattern.now)) (plain text.now) }
    ensures shorter { length result.now ≤ length text.now }
{
    match first_of(pattern) {
        Some((sign, _)) => from_sign(sign, text),
        None => &[],
    }
}

// Whether some rest of a text matches a pattern. Blanks are ignored, and letters match in either case.
fn matches_some_rest(pattern: &[u8], text: &[u8]) -> bool
    ensures { result ≡ some_rest (matches (plain pattern.now)) (plain text.now) }
{
    let mut signs = pattern;
    let mut rest = text;
    loop {
        let from = from_match(signs, rest);
        match walk_to_star(signs, from) {
            Walk::Whole => return true,
            Walk::Star(next_signs, behind) => {
                signs = next_signs;
                rest = behind;
            }
            Walk::Apart => {
                let Some((_, behind)) = first_of(from) else {
                    return false;
                };
                rest = behind;
            }
        }
    }
}

/// Returns whether a pattern fits a text: `?` matches any one character, `*` any characters or none, a letter itself in
/// either case, and every other sign itself. Blanks are ignored in both. A pattern of blanks alone fits no text.
///
/// It allocates no memory. A pattern with at most one `*` takes time linear in both; each `*` restarts the
/// walk at each place of the text at most once.
#[tactic(auto, unfolding(model_events::specs::Matching::fits))]
pub fn fits(pattern: &[u8], text: &[u8]) -> bool
    ensures { result ≡ fits pattern.now text.now }
{
    if first_of(pattern).is_none() {
        return false;
    }
    match walk_to_star(pattern, text) {
        Walk::Whole => true,
        Walk::Star(signs, rest) => matches_some_rest(signs, rest),
        Walk::Apart => false,
    }
}
