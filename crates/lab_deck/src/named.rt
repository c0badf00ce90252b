// The words of rules, and whether the rules of a deck speak of one application.
ghost use Rattle.std.specs.Prelude.{◌≡◌, ◌&&◌, codes, not};
ghost use Rattle.law_histories.specs.model_text.specs.Text.{fields};
ghost use Rattle.law_histories.specs.Histories.{is_rule_of, names_application};

use lab_match::{begins_with, first_field, stays_inside};
use mc_text::next_line;

/// Returns whether a line is a rule that begins with a word.
pub fn is_rule_of(word: &[u8], line: &[u8]) -> bool
    ensures { result ≡ is_rule_of word.now (fields line.now) }
{
    match first_field(line) {
        Some((mark, after)) => mark == b"#@".as_slice() && begins_with(after, word),
        None => false,
    }
}

// Whether a line names the application, by whether it is in a section.
fn names_it(inside: bool, line: &[u8]) -> bool
    ensures { result ≡ (not inside && is_rule_of (codes "app") (fields line.now)) }
{
    !inside && is_rule_of(b"app", line)
}

/// Returns whether the rules of a deck's text speak of one application: one of its lines outside of sections is a rule that
/// begins with `app`.
pub fn names_application(text: &[u8]) -> bool
    ensures { result ≡ names_application text.now }
{
    let mut inside = false;
    let mut rest = text;
    while let Some((line, after)) = next_line(rest) {
        if names_it(inside, line) {
            return true;
        }
        inside = stays_inside(inside, line);
        rest = after;
    }
    false
}
