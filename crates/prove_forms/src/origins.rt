// Where bytes come from.
ghost use Rattle.std.specs.Prelude.{◌≡◌, ◌+◌, ◌^◌, ◌<◌, ◌||◌, true, nat_lt, nat_le, [], ◌++◌, length, filter, OnOk, IfOk};
ghost use Rattle.model_sums.specs.model_machine.specs.Frame.{public_base};
ghost use Rattle.model_sums.specs.Origins as origins;
ghost use Rattle.prove_forms.specs.Origins.{origin_value, origin_values, listed_values, origins_value, listed_from};

use model_device::NoMemory;
use prove_facts::push;
use std::alloc::Global;

/// The address of the first dynamic byte.
const DYNAMIC: u32 = 0x8000;

/// The address of the first public byte.
const PUBLIC: u32 = 0xC000;

/// Where a byte comes from: not known, a constant, or the public byte at a place of the public segment as the frame
/// began.
#[derive(Clone, Copy, PartialEq, Eq, Debug)]
pub enum Origin {
    Unknown,
    Constant(u8),
    Public(u32),
}

/// The origin of the byte at an address.
#[derive(Clone, Copy, PartialEq, Eq, Debug)]
pub struct Listed {
    pub at: u32,
    pub origin: Origin,
}

/// The origins of bytes.
#[derive(Drop)]
pub struct Origins {
    /// Whether a public byte that is not listed is what it was as the frame began.
    pub own: bool,
    /// The origins that are listed, the newest first.
    pub listed: Vec<Listed>,
}

// Returns the origin of a byte that is not listed.
fn unlisted(own: bool, at: u32) -> Origin
    ensures { origin_value result ≡ origins.unlisted own at }
{
    if own && at >= PUBLIC {
        return Origin::Public(at - PUBLIC);
    }
    Origin::Unknown
}

// Returns the first origin of a byte in a list, or another.
fn listed_or(other: Origin, list: &[Listed], at: u32) -> Origin
    ensures { origin_value result ≡ origins.listed_or (origin_value other) (listed_values list.now) at }
{
    for listed in list {
        if listed.at == at {
            return listed.origin;
        }
    }
    other
}

// Appends the origins of the bytes from an address on.
fn list_from(list: &mut Vec<Listed>, at: u32, bytes: &[Origin]) -> Result<(), NoMemory>
    requires { at + length bytes.now < 2 ^ 32 }
    ensures { OnOk result (listed_values list.new.items
        ≡ listed_values list.old.items ++ listed_from at (origin_values bytes.now)) }
{
    let mut next = at;
    for origin in bytes {
        push(
            list,
            Listed {
                at: next,
                origin: *origin,
            },
        )?;
        next += 1;
    }
    Ok(())
}

// Returns whether a listed byte is not dynamic, or lies below an address.
fn is_below(listed: &Listed, dt: u32) -> bool
    ensures { result ≡ (nat_lt listed.now.at dt || nat_le public_base listed.now.at) }
{
    listed.at < dt || listed.at >= PUBLIC
}

// Returns the listed bytes that are not dynamic, or lie below an address.
fn list_below(alloc: Global, list: &[Listed], dt: u32) -> Result<Vec<Listed>, NoMemory>
    ensures { IfOk result (λ kept. listed_values kept.items
        ≡ filter (λ e. nat_lt e.0 dt || nat_le public_base e.0) (listed_values list.now)) }
{
    let mut kept = Vec::new(alloc);
    for listed in list {
        if is_below(listed, dt) {
            push(&mut kept, *listed)?;
        }
    }
    Ok(kept)
}

// Returns the listed bytes that are not public.
fn list_without_public(alloc: Global, list: &[Listed]) -> Result<Vec<Listed>, NoMemory>
    ensures { IfOk result (λ kept. listed_values kept.items
        ≡ filter (λ e. nat_lt e.0 public_base) (listed_values list.now)) }
{
    let mut kept = Vec::new(alloc);
    for listed in list {
        if listed.at < PUBLIC {
            push(&mut kept, *listed)?;
        }
    }
    Ok(kept)
}

impl Origin {
    /// Returns whether it says what another does, or more.
    pub fn follows(self, other: Origin) -> bool
        ensures { result ≡ origins.origin_follows (origin_value self) (origin_value other) }
    {
        match (self, other) {
            (_, Origin::Unknown) => true,
            (Origin::Constant(a), Origin::Constant(b)) => a == b,
            (Origin::Public(a), Origin::Public(b)) => a == b,
            _ => false,
        }
    }
}

impl Origins {
    /// Returns the origins as a frame begins: each public byte is what it is.
    pub fn own(alloc: Global) -> Origins
        ensures { origins_value result ≡ record { own = true; listed = [] } }
    {
        Origins {
            own: true,
            listed: Vec::new(alloc),
        }
    }

    /// Returns a copy.
    ///
    /// # Errors
    ///
    /// Returns `NoMemory` if it is out of memory.
    pub fn copied(&self, alloc: Global) -> Result<Origins, NoMemory>
        ensures { IfOk result (λ copy. origins_value copy ≡ origins_value self.now) }
    {
        Ok(Origins {
            own: self.own,
            listed: Vec::from_slice(alloc, self.listed.as_slice())?,
        })
    }

    /// Returns the origin of the byte at an address. Static bytes have none.
    pub fn at(&self, at: u32) -> Origin
        ensures { origin_value result ≡ origins.origin_at (origins_value self.now) at }
    {
        if at < DYNAMIC {
            return Origin::Unknown;
        }
        listed_or(unlisted(self.own, at), self.listed.as_slice(), at)
    }

    /// Returns the origins of n bytes from an address on.
    ///
    /// # Errors
    ///
    /// Returns `NoMemory` if it is out of memory.
    pub fn from(&self, alloc: Global, at: u32, n: u16) -> Result<Vec<Origin>, NoMemory>
        requires { at + n < 2 ^ 32 }
        ensures { IfOk result (λ bytes. origin_values bytes.items
            ≡ origins.origins_from (origins_value self.now) at n) }
    {
        let mut bytes = Vec::new(alloc);
        for i in 0..n {
            push(&mut bytes, self.at(at + i as u32))?;
        }
        Ok(bytes)
    }

    /// Returns the origins after bytes from an address on were written that come from these.
    ///
    /// # Errors
    ///
    /// Returns `NoMemory` if it is out of memory.
    pub fn with(&self, alloc: Global, at: u32, bytes: &[Origin]) -> Result<Origins, NoMemory>
        requires { at + length bytes.now < 2 ^ 32 }
        ensures { IfOk result (λ after. origins_value after
            ≡ origins.with_origins at (origin_values bytes.now) (origins_value self.now)) }
    {
        let mut listed = Vec::new(alloc);
        list_from(&mut listed, at, bytes)?;
        listed.extend_from_slice(self.listed.as_slice())?;
        Ok(Origins {
            own: self.own,
            listed,
        })
    }

    /// Returns the origins without those of dynamic bytes from an address on.
    ///
    /// # Errors
    ///
    /// Returns `NoMemory` if it is out of memory.
    pub fn below(&self, alloc: Global, dt: u16) -> Result<Origins, NoMemory>
        ensures { IfOk result (λ left. origins_value left ≡ origins.origins_below dt (origins_value self.now)) }
    {
        Ok(Origins {
            own: self.own,
            listed: list_below(alloc, self.listed.as_slice(), dt as u32)?,
        })
    }

    /// Returns the origins without those of public bytes.
    ///
    /// # Errors
    ///
    /// Returns `NoMemory` if it is out of memory.
    pub fn without_public(&self, alloc: Global) -> Result<Origins, NoMemory>
        ensures { IfOk result (λ left. origins_value left ≡ origins.without_public (origins_value self.now)) }
    {
        Ok(Origins {
            own: false,
            listed: list_without_public(alloc, self.listed.as_slice())?,
        })
    }

    // Returns whether the origins of some listed bytes here say what those there do, or more.
    fn listed_follow(&self, other: &Origins, list: &[Listed]) -> bool
        ensures { result ≡ origins.listed_follow (origins_value self.now) (origins_value other.now)
            (listed_values list.now) }
    {
        for listed in list {
            if !self.at(listed.at).follows(other.at(listed.at)) {
                return false;
            }
        }
        true
    }

    /// Returns whether the others follow from these.
    pub fn follows(&self, other: &Origins) -> bool
        ensures { result ≡ origins.origins_follow (origins_value self.now) (origins_value other.now) }
    {
        (self.own || !other.own)
            && self.listed_follow(other, self.listed.as_slice())
            && self.listed_follow(other, other.listed.as_slice())
    }
}
