ghost use Rattle.std.specs.Prelude.{◌≡◌, ◌+◌, ◌*◌};
ghost use Rattle.model_device.specs.Bytes.{bytes2};

/// Returns the number in two bytes, the high byte first.
pub fn number_of(high: u8, low: u8) -> u16
    ensures { result ≡ 256 * high + low }
{
    256 * high as u16 + low as u16
}

/// Returns the two bytes of a number, the high byte first.
pub fn bytes_of(number: u16) -> [u8; 2]
    ensures { result ≡ bytes2 number }
{
    [(number / 256) as u8, (number % 256) as u8]
}
