// The classes of commands by their numbers.
ghost use Rattle.std.specs.Prelude.{◌≡◌, true, false, [], get_or, IfSome};
ghost use Rattle.prove_keys.specs.Tables.{AreDistinct};
ghost use Rattle.prove_closed.specs.Classes.{lists_of, is_among};

use prove_patterns::same_matches;

/// Returns the number of the first of some classes that these lines match.
pub fn number_of(classes: &[Vec<bool>], matches: &[bool]) -> Option<usize>
    ensures { IfSome result (λ number. get_or (lists_of classes.now) number [] ≡ matches.now) }
{
    for (number, class) in classes.iter().enumerate() {
        if same_matches(class.as_slice(), matches) {
            return Some(number);
        }
    }
    None
}

// Whether these lines match one of some classes.
fn is_among(matches: &[bool], classes: &[Vec<bool>]) -> bool
    ensures { result ≡ false → is_among matches.now (lists_of classes.now) ≡ false }
{
    for class in classes {
        if same_matches(matches, class.as_slice()) {
            return true;
        }
    }
    false
}

/// Returns whether no two of some classes are equal.
pub fn are_distinct(classes: &[Vec<bool>]) -> bool
    ensures { result ≡ true → AreDistinct (lists_of classes.now) }
{
    for (number, class) in classes.iter().enumerate() {
        if is_among(class.as_slice(), &classes[number + 1..]) {
            return false;
        }
    }
    true
}
