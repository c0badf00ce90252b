// Commands to the reader itself, by which a host arms a stop or sets the budget.
ghost use Rattle.std.specs.Prelude.{◌≡◌, ℕ, length, IfOk, OnOk, Result, MatchResult};
ghost use Rattle.mc_words.specs.model_device.specs.Bytes.{bytes2, num};
ghost use Rattle.mc_deck.specs.model_play.specs.DeckGrammar.{DeckLine};
ghost use Rattle.mc_deck.specs.Lines.{line_of, GoodLine};
ghost use Rattle.mc_reader.specs.Meanings.{plain_order, cut_order, fail_order, budget_order, order};
ghost use Rattle.mc_reader.specs.Requests.{order_line, status_of, Orders};

use mc_deck::Line;
use mc_words::Word;

/// The maximum budget of a command.
const MOST_STEPS: u32 = 65_536;

/// The order of a command to the reader: the line of a deck that it represents.
#[derive(Clone, Copy, Debug, PartialEq, Eq)]
pub enum Order {
    Cut { k: u32, fill: Word },
    Fail(u32),
    Budget(u32),
}

/// Why a command to the reader is refused.
#[derive(Clone, Copy, Debug, PartialEq, Eq)]
pub enum Refusal {
    /// Its length is not five bytes and the number that its Lc states, or its instruction has another Lc.
    WrongLength,
    /// It has another instruction.
    WrongInstruction,
    /// Its P1 or P2 is not 0.
    WrongParameters,
    /// Its number is outside its range.
    WrongValue,
}

impl Order {
    /// Returns the line of the order.
    pub fn line<'a>(&self) -> Line<'a>
        ensures { line_of result ≡ order_line self.now }
    {
        match self {
            Order::Cut { k, fill } => Line::Cut { k: *k, fill: *fill },
            Order::Fail(k) => Line::Fail(*k),
            Order::Budget(count) => Line::Budget(*count),
        }
    }
}

impl Refusal {
    /// Returns the status word that answers the command (ISO/IEC 7816-4).
    pub fn status(self) -> [u8; 2]
        ensures { result ≡ bytes2 (status_of self) }
    {
        match self {
            Refusal::WrongLength => [0x67, 0x00],
            Refusal::WrongInstruction => [0x6D, 0x00],
            Refusal::WrongParameters => [0x6A, 0x86],
            Refusal::WrongValue => [0x6A, 0x80],
        }
    }
}

// The value of four bytes, big endian.
fn number(bytes: &[u8]) -> u32
    requires { length bytes.now ≡ 4 }
    ensures { result ≡ num bytes.now }
{
    let [a, b, c, d] = bytes else {
        return 0;
    };
    ((*a as u32 * 256 + *b as u32) * 256 + *c as u32) * 256 + *d as u32
}

// Whether an order has `size` bytes of data, and P1 and P2 are 0.
fn check_form(size: usize, p1: u8, p2: u8, body: &[u8]) -> Result<(), Refusal>
    ensures size { OnOk result (length body.now ≡ size) }
    ensures form { (order : Result DeckLine ℕ)
        → MatchResult result (λ _. plain_order size p1 p2 body.now order ≡ order)
        (λ r. plain_order size p1 p2 body.now order ≡ Err (status_of r)) }
{
    if body.len() != size {
        return Err(Refusal::WrongLength);
    }
    if p1 != 0 || p2 != 0 {
        return Err(Refusal::WrongParameters);
    }
    Ok(())
}

// `cut K FILL`.
fn read_cut(p1: u8, p2: u8, body: &[u8]) -> Result<Order, Refusal>
    ensures value { Orders (plain_order 12 p1 p2 body.now (cut_order body.now)) result }
    ensures good { IfOk result (λ o. GoodLine (order_line o)) }
{
    check_form(12, p1, p2, body)?;
    let k = number(&body[..4]);
    if k == 0 {
        return Err(Refusal::WrongValue);
    }
    let mut fill = [0; 8];
    fill.copy_from_slice(&body[4..]);
    Ok(Order::Cut { k, fill })
}

// `fail K`.
fn read_fail(p1: u8, p2: u8, body: &[u8]) -> Result<Order, Refusal>
    ensures value { Orders (plain_order 4 p1 p2 body.now (fail_order body.now)) result }
    ensures good { IfOk result (λ o. GoodLine (order_line o)) }
{
    check_form(4, p1, p2, body)?;
    let k = number(body);
    if k == 0 {
        return Err(Refusal::WrongValue);
    }
    Ok(Order::Fail(k))
}

// `budget N`.
fn read_budget(p1: u8, p2: u8, body: &[u8]) -> Result<Order, Refusal>
    ensures value { Orders (plain_order 4 p1 p2 body.now (budget_order body.now)) result }
    ensures good { IfOk result (λ o. GoodLine (order_line o)) }
{
    check_form(4, p1, p2, body)?;
    let count = number(body);
    if count == 0 || count > MOST_STEPS {
        return Err(Refusal::WrongValue);
    }
    Ok(Order::Budget(count))
}

/// Reads the order of a command of class FF.
///
/// # Errors
///
/// Returns the first refusal.
pub fn read_order(bytes: &[u8]) -> Result<Order, Refusal>
    ensures value { Orders (order bytes.now) result }
    ensures good { IfOk result (λ o. GoodLine (order_line o)) }
{
    let [_class, ins, p1, p2, lc, body @ ..] = bytes else {
        return Err(Refusal::WrongLength);
    };
    if body.len() != *lc as usize {
        return Err(Refusal::WrongLength);
    }
    match *ins {
        0xC0 => read_cut(*p1, *p2, body),
        0xC1 => read_fail(*p1, *p2, body),
        0xC2 => read_budget(*p1, *p2, body),
        _ => Err(Refusal::WrongInstruction),
    }
}
