// The limits of an application.
ghost use Rattle.std.specs.Prelude.{◌≡◌};
ghost use Rattle.model_device.specs.Limits.{most_code};

/// The most bytes of an application's code.
pub const MOST_CODE: usize = 8192;

/// The limit of code is that of the definitions.
pub fn limits_code()
    ensures { MOST_CODE ≡ most_code }
{}
