// Reading texts: characters, numbers, cuts, lines, and trimmed blanks.
ghost use Rattle.std.specs.Prelude.{◌≡◌, ◌+◌, ◌*◌, ◌<◌, ◌≤◌, ◌==◌, length, position, option_map, IfSome};
ghost use Rattle.model_text.specs.Text.{decimal_number, every, first_cut, hex_value, is_blank, is_digit, is_name_character, trim, trim_front, trim_end};
ghost use Rattle.mc_text.specs.Reading.{capped_number, halves_at, next_line, without_return};

/// Returns whether a character is a space or a tab.
pub fn is_blank(character: u8) -> bool
    ensures { result ≡ is_blank character }
{
    character == b' ' || character == b'\t'
}

/// Returns whether a character is a decimal digit.
pub fn is_digit(character: u8) -> bool
    ensures { result ≡ is_digit character }
{
    character.is_ascii_digit()
}

// Whether a character is a letter, a digit or the underscore.
fn is_name_character(character: u8) -> bool
    ensures { result ≡ is_name_character character }
{
    character.is_ascii_alphanumeric() || character == b'_'
}

/// Returns whether each character of a text is a letter, a digit or the underscore.
pub fn has_name_characters(text: &[u8]) -> bool
    ensures { result ≡ every is_name_character text.now }
{
    for character in text {
        if !is_name_character(*character) {
            return false;
        }
    }
    true
}

/// Returns the value of a hexadecimal digit in either case, or `None` if the character is no digit.
pub fn hex_value(digit: u8) -> Option<u8>
    ensures value { result ≡ hex_value digit }
    ensures bound { IfSome result (λ v. v < 16) }
{
    match digit {
        b'0'..=b'9' => Some(digit - b'0'),
        b'A'..=b'F' => Some(digit - b'A' + 10),
        b'a'..=b'f' => Some(digit - b'a' + 10),
        _ => None,
    }
}

// A bound above each number that a deck, an operand or a word may have.
const LIMIT: u64 = 4294967296;

// The number after one more decimal digit, at most `LIMIT`.
fn with_digit(number: u64, digit: u8) -> u64
    requires number { number ≤ 4294967296 }
    requires digit { digit < 10 }
    ensures { result ≡ capped_number (number * 10 + digit) }
{
    LIMIT.min(number * 10 + digit as u64)
}

/// Returns the number of decimal digits, or 4,294,967,296 if it is greater; leading zeros are allowed.
/// Returns `None` if there is no character, or one that is no digit.
pub fn decimal_number(digits: &[u8]) -> Option<u64>
    ensures { result ≡ option_map capped_number (decimal_number digits.now) }
{
    if digits.is_empty() {
        return None;
    }
    let mut number = 0;
    for digit in digits {
        if !is_digit(*digit) {
            return None;
        }
        number = with_digit(number, *digit - b'0');
    }
    Some(number)
}

// The text before an index and the text after it, or the whole text if there is no index.
fn cut_at(text: &[u8], place: Option<usize>) -> (&[u8], Option<&[u8]>)
    requires { IfSome place (λ i. i < length text.now) }
    ensures parts { (result.0.now, option_map (λ rest. rest.now) result.1) ≡ halves_at text.now place }
    ensures shorter { IfSome result.1 (λ rest. length rest.now < length text.now) }
{
    match place {
        Some(i) => (&text[..i], Some(&text[i + 1..])),
        None => (text, None),
    }
}

// The index of the first `character`.
fn place(text: &[u8], character: u8) -> Option<usize>
    ensures value { result ≡ position (λ c. c == character) text.now }
    ensures inside { IfSome result (λ i. i < length text.now) }
{
    text.iter().position(|c| *c == character)
}

// The index of the first blank.
fn blank_place(text: &[u8]) -> Option<usize>
    ensures value { result ≡ position is_blank text.now }
    ensures inside { IfSome result (λ i. i < length text.now) }
{
    text.iter().position(|c| is_blank(*c))
}

/// Returns the text before the first `character` and the text after it, or the whole text and `None` if there
/// is none.
#[tactic(auto, using(crate::proofs::ReadingLemmas::first_cut_at))]
pub fn cut(text: &[u8], character: u8) -> (&[u8], Option<&[u8]>)
    ensures front { result.0.now ≡ (first_cut (λ c. c == character) text.now).0 }
    ensures behind { option_map (λ rest. rest.now) result.1 ≡ (first_cut (λ c. c == character) text.now).1 }
    ensures shorter { IfSome result.1 (λ rest. length rest.now < length text.now) }
{
    cut_at(text, place(text, character))
}

/// Returns the text before the first blank and the text after it, or the whole text and `None` if there is
/// none.
#[tactic(auto, using(crate::proofs::ReadingLemmas::first_cut_at))]
pub fn cut_blank(text: &[u8]) -> (&[u8], Option<&[u8]>)
    ensures front { result.0.now ≡ (first_cut is_blank text.now).0 }
    ensures behind { option_map (λ rest. rest.now) result.1 ≡ (first_cut is_blank text.now).1 }
    ensures shorter { IfSome result.1 (λ rest. length rest.now < length text.now) }
{
    cut_at(text, blank_place(text))
}

// A line without a trailing carriage return.
fn without_return(line: &[u8]) -> &[u8]
    ensures { result.now ≡ without_return line.now }
{
    match line {
        [front @ .., b'\r'] => front,
        _ => line,
    }
}

/// Returns the first line of a text, and the text after it, or `None` if the text is empty. A line ends with
/// a line feed, which the last line may lack; a carriage return right before the line feed is not part of it.
pub fn next_line(text: &[u8]) -> Option<(&[u8], &[u8])>
    ensures line { option_map (λ l. (l.0.now, l.1.now)) result ≡ next_line text.now }
    ensures shorter { IfSome result (λ l. length l.1.now < length text.now) }
{
    match cut(text, b'\n') {
        ([], None) => None,
        (line, None) => Some((line, &[])),
        (line, Some(rest)) => Some((without_return(line), rest)),
    }
}

/// Returns a text without leading blanks.
pub fn trim_front(text: &[u8]) -> &[u8]
    ensures { result.now ≡ trim_front text.now }
{
    let mut rest = text;
    while let [first, behind @ ..] = rest {
        if !is_blank(*first) {
            return rest;
        }
        rest = behind;
    }
    rest
}

// A text without trailing blanks.
fn trim_end(text: &[u8]) -> &[u8]
    ensures { result.now ≡ trim_end text.now }
{
    let mut rest = text;
    while let [before @ .., last] = rest {
        if !is_blank(*last) {
            return rest;
        }
        rest = before;
    }
    rest
}

/// Returns a text without leading and trailing blanks.
pub fn trim(text: &[u8]) -> &[u8]
    ensures { result.now ≡ trim text.now }
{
    trim_end(trim_front(text))
}
