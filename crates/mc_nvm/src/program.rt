// The device of a program.
ghost use Rattle.std.specs.Prelude.{◌≡◌};
ghost use Rattle.mc_words.specs.model_device.specs.Device.{device_words};

/// The number of words of the device that a program plays on.
pub const DEVICE_WORDS: u32 = 8192;

/// A program's device has the words of the definitions.
pub fn counts_device_words()
    ensures { DEVICE_WORDS ≡ device_words }
{}
