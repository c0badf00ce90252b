// Conditions that are calls, so that what is known before them stays known after them.
ghost use Rattle.std.specs.Prelude.{◌≡◌, ◌&&◌};

/// Returns whether both hold.
pub fn both(a: bool, b: bool) -> bool
    ensures { result ≡ (a && b) }
{
    a && b
}
