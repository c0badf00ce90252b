// The applications of a card, but for their static bytes.
ghost use Rattle.std.specs.Prelude.{◌≡◌, IfOk};
ghost use Rattle.lab_branch.specs.Rosters.{resident_value, roster_value, resident_of, roster_of, statics_of};

use crate::application::Application;
use crate::growth::push;
use mc_words::NoMemory;
use std::alloc::Global;

/// An application of a card, but for its static bytes: its name, the place of its block, its number of session bytes,
/// its access list, the bytes of its code, DIR and FCI, and the number of its static bytes.
#[derive(PartialEq, Eq, Hash, Drop)]
pub struct Resident {
    name: Vec<u8>,
    place: u16,
    session: u16,
    deny: u16,
    code: Vec<u8>,
    fixed: usize,
    dir: Vec<u8>,
    fci: Vec<u8>,
}

impl Resident {
    // Returns an application without its static bytes.
    fn new(application: Application) -> Resident
        ensures { resident_value result ≡ resident_of application }
    {
        let fixed = application.fixed.len();
        Resident {
            name: application.name,
            place: application.place,
            session: application.session,
            deny: application.deny,
            code: application.code,
            fixed,
            dir: application.dir,
            fci: application.fci,
        }
    }
}

/// The applications of a card in the order of their names, but for their static bytes.
#[derive(PartialEq, Eq, Hash, Drop)]
pub struct Roster {
    residents: Vec<Resident>,
}

impl Roster {
    /// Returns the roster of applications, without their static bytes.
    ///
    /// # Errors
    ///
    /// Returns `NoMemory` if it is out of memory.
    pub fn new(alloc: Global, applications: Vec<Application>) -> Result<Roster, NoMemory>
        ensures { IfOk result (λ roster. roster_value roster ≡ roster_of applications.items) }
    {
        let mut residents = Vec::with_capacity(alloc, applications.len())?;
        for application in applications {
            push(&mut residents, Resident::new(application))?;
        }
        Ok(Roster { residents })
    }
}

/// Returns the static bytes of applications, one after the other.
///
/// # Errors
///
/// Returns `NoMemory` if it is out of memory.
pub fn static_bytes(alloc: Global, applications: &[Application]) -> Result<Vec<u8>, NoMemory>
    ensures { IfOk result (λ bytes. bytes.items ≡ statics_of applications.now) }
{
    let mut bytes = Vec::new(alloc);
    for application in applications {
        bytes.extend_from_slice(application.fixed.as_slice())?;
    }
    Ok(bytes)
}
