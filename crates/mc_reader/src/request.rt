// The request in a frame of the host.
ghost use Rattle.std.specs.Prelude.{◌≡◌, option_map, IfSome};
ghost use Rattle.mc_deck.specs.Lines.{line_of, GoodLine};
ghost use Rattle.mc_reader.specs.Meanings.{control, meaning, power_after};
ghost use Rattle.mc_reader.specs.Lines.{line_in};
ghost use Rattle.mc_reader.specs.Requests.{meaning_of, IsGoodRequest};

use crate::order::{Order, Refusal, read_order};
use mc_deck::Line;

/// The class of commands to the reader itself, which no card uses (ISO/IEC 7816-3).
const CLASS: u8 = 0xFF;

/// The request of a frame: power on or a reset, power off, the answer to reset, nothing, a line by a command
/// to the reader, such a command that is refused, or a command to the card, which receives it only under
/// power.
#[derive(Clone, Copy, Debug)]
pub enum Request<'a> {
    PowerOn,
    PowerOff,
    Atr,
    Nothing,
    Order(Order),
    Refused(Refusal),
    ToCard(&'a [u8]),
    Unheard,
}

// The request of a byte alone.
fn control<'a>(byte: u8) -> Request<'a>
    ensures meaning { meaning_of result ≡ control byte }
    ensures good { IsGoodRequest result }
{
    match byte {
        0 => Request::PowerOff,
        1 | 2 => Request::PowerOn,
        4 => Request::Atr,
        _ => Request::Nothing,
    }
}

impl<'a> Request<'a> {
    /// Returns the request of a frame, by whether the card has power.
    pub fn of(frame: &'a [u8], powered: bool) -> Request<'a>
        ensures meaning { meaning_of result ≡ meaning powered frame.now }
        ensures good { IsGoodRequest result }
    {
        match frame {
            [] => Request::Nothing,
            [byte] => control(*byte),
            [CLASS, ..] => match read_order(frame) {
                Ok(order) => Request::Order(order),
                Err(refusal) => Request::Refused(refusal),
            },
            _ => {
                if powered {
                    Request::ToCard(frame)
                } else {
                    Request::Unheard
                }
            }
        }
    }

    /// Returns the line that the request represents, or `None` if it represents none.
    pub fn line(&self) -> Option<Line<'a>>
        requires { IsGoodRequest self.now }
        ensures line { option_map line_of result ≡ line_in (meaning_of self.now) }
        ensures good { IfSome result (λ l. GoodLine (line_of l)) }
    {
        match self {
            Request::PowerOn => Some(Line::Power),
            Request::Order(order) => Some(order.line()),
            Request::ToCard(bytes) => Some(Line::Apdu(bytes)),
            _ => None,
        }
    }

    /// Returns whether the card has power after the request, by whether it had power before it.
    pub fn power(&self, powered: bool) -> bool
        ensures { result ≡ power_after powered (meaning_of self.now) }
    {
        match self {
            Request::PowerOn => true,
            Request::PowerOff => false,
            _ => powered,
        }
    }
}
