ghost use Rattle.std.specs.Prelude.{◌≡◌, ◌≢◌, ◌+◌, ◌*◌, ◌≤◌, length, Some, None, IfOk, IfSome, MatchOption, MatchResult};
ghost use Rattle.model_machine.specs.Apdu.{apdu_read, apdu_case, extended_body, extended_le, extended_rest, rest_read, short_le, short_rest};
ghost use Rattle.mc_apdu.specs.Command.{parts_of, rest_of};

/// A command APDU of ISO/IEC 7816-4: its header, P3, its data, and Le, the greatest number of data bytes that
/// its reply may have. P3 is the fifth byte in the short cases 2 to 4, and else 0. An extended Le of 65,536
/// is held as 65,535.
#[derive(Clone, Copy, Debug, PartialEq, Eq)]
pub struct Apdu<'a> {
    pub cla: u8,
    pub ins: u8,
    pub p1: u8,
    pub p2: u8,
    pub p3: u8,
    pub body: &'a [u8],
    pub le: Option<u16>,
}

/// The bytes have the length of none of the cases that [`parse`] reads.
#[derive(Clone, Copy, Debug, PartialEq, Eq)]
pub struct WrongLength;

impl Apdu<'_> {
    /// Returns the number of the command's case in ISO/IEC 7816-4: 1 without data and Le, 2 with Le alone, 3
    /// with data alone, 4 with both.
    pub fn case(&self) -> u8
        ensures { result ≡ apdu_case (parts_of self.now) }
    {
        match (self.body, self.le) {
            ([], None) => 1,
            ([], Some(_)) => 2,
            (_, None) => 3,
            (_, Some(_)) => 4,
        }
    }
}

// The fields after the header.
struct Fields<'a> {
    p3: u8,
    body: &'a [u8],
    le: Option<u16>,
}

/// Parses a command by the four short cases and the three extended ones of ISO/IEC 7816-4, with at most 1,024
/// bytes of data. The data are borrowed from `bytes`.
///
/// # Errors
///
/// Returns `WrongLength` if the bytes have none of these cases.
#[tactic(auto, unfolding(model_machine::specs::Apdu::apdu_read))]
pub fn parse(bytes: &[u8]) -> Result<Apdu<'_>, WrongLength>
    ensures read { MatchResult result (λ a. apdu_read bytes.now ≡ Some (parts_of a)) (λ _. apdu_read bytes.now ≡ None) }
    ensures body { IfOk result (λ a. length a.body.now ≤ 1024) }
{
    let [cla, ins, p1, p2, rest @ ..] = bytes else {
        return Err(WrongLength);
    };
    match fields_of(rest) {
        Some(Fields { p3, body, le }) => Ok(Apdu {
            cla: *cla,
            ins: *ins,
            p1: *p1,
            p2: *p2,
            p3,
            body,
            le,
        }),
        None => Err(WrongLength),
    }
}

fn fields_of(bytes: &[u8]) -> Option<Fields<'_>>
    ensures read { MatchOption result (rest_read bytes.now ≡ None) (λ r. rest_read bytes.now ≡ Some (rest_of r)) }
    ensures body { IfSome result (λ r. length r.body.now ≤ 1024) }
{
    match bytes {
        [] => Some(Fields {
            p3: 0,
            body: bytes,
            le: None,
        }),
        [p3] => Some(Fields {
            p3: *p3,
            body: &[],
            le: Some(if *p3 == 0 { 256 } else { *p3 as u16 }),
        }),
        [0, rest @ ..] => extended_fields(rest),
        [lc, rest @ ..] => short_fields(*lc, rest),
    }
}

// The short cases 3 and 4: Lc, and the bytes after it.
fn short_fields(lc: u8, rest: &[u8]) -> Option<Fields<'_>>
    ensures read { MatchOption result (short_rest lc rest.now ≡ None) (λ r. short_rest lc rest.now ≡ Some (rest_of r)) }
    ensures body { IfSome result (λ r. length r.body.now ≤ 1024) }
{
    let count = lc as usize;
    if rest.len() == count {
        return Some(Fields {
            p3: lc,
            body: rest,
            le: None,
        });
    }
    if rest.len() == count + 1 {
        let le = rest[count];
        return Some(Fields {
            p3: lc,
            body: &rest[..count],
            le: Some(if le == 0 { 256 } else { le as u16 }),
        });
    }
    None
}

// The extended cases, after the zero byte: a two-byte number, which is Le if no byte follows, and else Lc.
fn extended_fields(bytes: &[u8]) -> Option<Fields<'_>>
    ensures read { MatchOption result (extended_rest bytes.now ≡ None)
        (λ r. extended_rest bytes.now ≡ Some (rest_of r)) }
    ensures body { IfSome result (λ r. length r.body.now ≤ 1024) }
{
    let [high, low, rest @ ..] = bytes else {
        return None;
    };
    let number = u16::from_be_bytes([*high, *low]);
    if rest.is_empty() {
        return Some(Fields {
            p3: 0,
            body: rest,
            le: Some(extended_number(number)),
        });
    }
    if number == 0 || number > 1024 {
        return None;
    }
    extended_data(number, rest)
}

// The extended cases 3 and 4: Lc, and the bytes after it.
fn extended_data(lc: u16, rest: &[u8]) -> Option<Fields<'_>>
    requires { lc ≤ 1024 }
    ensures read { MatchOption result (extended_body lc rest.now ≡ None)
        (λ r. extended_body lc rest.now ≡ Some (rest_of r)) }
    ensures body { IfSome result (λ r. length r.body.now ≤ 1024) }
{
    let len = lc as usize;
    if rest.len() == len {
        return Some(Fields {
            p3: 0,
            body: rest,
            le: None,
        });
    }
    if rest.len() == len + 2 {
        let le = u16::from_be_bytes([rest[len], rest[len + 1]]);
        return Some(Fields {
            p3: 0,
            body: &rest[..len],
            le: Some(extended_number(le)),
        });
    }
    None
}

// An extended Le, of which 0 means 65,536; that is held as 65,535.
fn extended_number(le: u16) -> u16
    ensures { result ≡ extended_le le }
{
    if le == 0 { u16::MAX } else { le }
}
