ghost use Rattle.std.specs.Prelude.{◌≡◌, ◌≢◌, ◌<◌, true, length, IfSome, IfNone};
ghost use Rattle.model_card.specs.Manager.{fits_limits, p1p2, sizes_in};
ghost use Rattle.mc_apdu.specs.Command.{parts_of};
ghost use Rattle.mc_bank.specs.Bank.{FitsLimits};

use mc_apdu::Apdu;
use model_card::Sizes;

/// Returns P1 and P2 as one number.
pub fn parameters(apdu: &Apdu) -> u16
    ensures { result ≡ p1p2 (parts_of apdu.now) }
{
    u16::from_be_bytes([apdu.p1, apdu.p2])
}

/// Returns the sizes in the data of an OPEN (code, static segment, data, session, DIR and FCI, two bytes
/// each) with P1 P2 as the access list, or `None` if the data are not 12 bytes.
pub fn sizes_in(apdu: &Apdu) -> Option<Sizes>
    ensures sizes { IfSome result (λ sizes. (sizes ≡ sizes_in (parts_of apdu.now)) × (length apdu.now.body.now ≡ 12)) }
    ensures none { IfNone result (length apdu.now.body.now ≢ 12) }
{
    let [c0, c1, f0, f1, i0, i1, s0, s1, d0, d1, k0, k1] = apdu.body else {
        return None;
    };
    Some(Sizes {
        code: u16::from_be_bytes([*c0, *c1]),
        fixed: u16::from_be_bytes([*f0, *f1]),
        init: u16::from_be_bytes([*i0, *i1]),
        session: u16::from_be_bytes([*s0, *s1]),
        dir: u16::from_be_bytes([*d0, *d1]),
        fci: u16::from_be_bytes([*k0, *k1]),
        deny: parameters(apdu),
    })
}

/// Returns whether sizes are within the limits of an application.
pub fn fits_limits(sizes: &Sizes) -> bool
    ensures value { result ≡ fits_limits sizes.now }
    ensures limits { result ≡ true → sizes.now.deny < 16 → FitsLimits sizes.now }
{
    1 <= sizes.code
        && sizes.code <= 8192
        && sizes.fixed <= 4096
        && sizes.init <= sizes.fixed
        && sizes.session <= 256
        && sizes.dir <= 128
        && sizes.fci <= 128
}
