// The applications of a card in the order of their names.
ghost use Rattle.std.specs.Prelude.{◌≡◌, ◌<◌, None, IfOk, OnOk, true};
ghost use Rattle.mc_words.specs.model_device.specs.Bytes.{lookup, insert, name_before};
ghost use Rattle.mc_words.specs.model_device.specs.Card.{name_at, card_of};
ghost use Rattle.mc_words.specs.model_device.specs.Layout.{words_fault};
ghost use Rattle.mc_store.specs.Slots.{IsUsedBlock};
ghost use Rattle.lab_branch.specs.Applications.{place_of_name, with_block};

use crate::application::Application;
use mc_blocks::{HEAP, read_header};
use mc_nvm::Nvm;
use mc_words::NoMemory;
use std::alloc::Global;

/// Reads the applications of the card in the words of a device, which have no fault and no open journal. They come in
/// the order of their names.
///
/// # Errors
///
/// Returns `NoMemory` if it is out of memory.
pub fn read_applications<N: Nvm>(alloc: Global, device: &N) -> Result<Vec<Application>, NoMemory>
    requires { words_fault (N.state device.now).words ≡ None }
    ensures { IfOk result (λ applications. applications.items ≡ (card_of (N.state device.now).words).apps) }
{
    let size = device.len();
    let mut applications = Vec::new(alloc);
    let mut place = HEAP;
    while place < size {
        let header = read_header(device, place);
        add_block(alloc, device, place, header.used, &mut applications)?;
        place += header.words as u32;
    }
    Ok(applications)
}

// Puts the application of a block among others, whose names are not its own, if the block is used.
fn add_block<N: Nvm>(
    alloc: Global,
    device: &N,
    place: u32,
    used: bool,
    applications: &mut Vec<Application>,
) -> Result<(), NoMemory>
    requires block { used ≡ true → IsUsedBlock (N.state device.now).words place }
    requires fresh { used ≡ true
        → lookup applications.old.items (name_at (N.state device.now).words place) ≡ None }
    ensures { OnOk result (applications.new.items
        ≡ with_block (N.state device.now).words used place applications.old.items) }
{
    if !used {
        return Ok(());
    }
    let application = Application::read(alloc, device, place)?;
    put(applications, application)
}

// Puts an application among others in the order of their names, none of which is its own.
#[tactic(auto, using(crate::proofs::Insertions::insert_at_place, crate::proofs::Insertions::place_within))]
fn put(applications: &mut Vec<Application>, application: Application) -> Result<(), NoMemory>
    requires { lookup applications.old.items application.0 ≡ None }
    ensures { OnOk result (applications.new.items ≡ insert applications.old.items application.0 application.1) }
{
    let place = place_of(applications.as_slice(), application.name());
    match applications.insert(place, application) {
        Ok(()) => Ok(()),
        Err(_) => Err(NoMemory),
    }
}

// Returns the number of applications before the first whose name comes after a name.
fn place_of(applications: &[Application], name: &[u8]) -> usize
    ensures { result ≡ place_of_name applications.now name.now }
{
    let mut place = 0;
    for application in applications {
        if comes_before(name, application.name()) {
            return place;
        }
        place += 1;
    }
    place
}

// Returns whether a name comes before another: lexicographic by bytes, a proper prefix first.
#[tactic(auto, using(crate::proofs::Insertions::before_is))]
fn comes_before(name: &[u8], other: &[u8]) -> bool
    ensures { result ≡ name_before name.now other.now }
{
    name.cmp(other).is_lt()
}
