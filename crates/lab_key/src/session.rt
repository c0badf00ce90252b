// The key of a session state: the selection with the session bytes, and the open load with the bytes that it received.
ghost use Rattle.std.specs.Prelude.{◌≡◌, IfOk, option_map};
ghost use Rattle.mc_store.specs.Store.{store_site_bytes};
ghost use Rattle.mc_manager.specs.ManagerState.{FitsLoad, open_of, got_at, selected_of as selected_in, load_of as load_in};
ghost use Rattle.mc_card.specs.Saved.{FitsWords, session_state_on, view_of_words, device_with};
ghost use Rattle.lab_key.specs.Sessions.{session_value, selected_value, load_value, boxed_value, IsCard};

use lab_branch::read_section;
use mc_bank::Part;
use mc_card::SavedSession;
use mc_manager::Load;
use mc_nvm::Nvm;
use mc_store::part_place;
use mc_words::NoMemory;
use std::alloc::Global;

/// A selection: the name of its application, and the session bytes.
#[derive(PartialEq, Eq, Hash, Drop)]
struct SelectedKey {
    name: Vec<u8>,
    bytes: Vec<u8>,
}

/// An open load: its place, the sizes of its sections, of its static segment and of its session bytes, its access list,
/// and the bytes that its sections have received.
#[derive(PartialEq, Eq, Hash, Drop)]
struct LoadKey {
    place: u16,
    code_size: u16,
    fixed_size: u16,
    init_size: u16,
    session_size: u16,
    dir_size: u16,
    fci_size: u16,
    deny: u16,
    code: Vec<u8>,
    init: Vec<u8>,
    dir: Vec<u8>,
    fci: Vec<u8>,
}

/// The key of a session state: two session states have equal keys exactly if they are equal.
#[derive(PartialEq, Eq, Hash, Drop)]
pub struct SessionKey {
    selected: Option<SelectedKey>,
    load: Option<Box<LoadKey>>,
}

impl SessionKey {
    /// Reads the key of a session state that was saved. The bytes that its open load has received are in the words of
    /// the device.
    ///
    /// # Errors
    ///
    /// Returns `NoMemory` if it is out of memory.
    pub fn read<N: Nvm>(
        alloc: Global,
        device: &N,
        saved: &SavedSession,
    ) -> Result<SessionKey, NoMemory>
        requires card { IsCard (N.state device.now).words }
        requires fits { FitsWords (N.state device.now).words saved.now }
        ensures { IfOk result (λ key. session_value key ≡ session_state_on (N.state device.now).words saved.now) }
    {
        Ok(SessionKey {
            selected: selected_of(alloc, saved)?,
            load: load_of(alloc, device, saved)?,
        })
    }
}

// Returns the key of the selection of a session state.
fn selected_of(alloc: Global, saved: &SavedSession) -> Result<Option<SelectedKey>, NoMemory>
    ensures { IfOk result (λ key. option_map selected_value key
        ≡ selected_in saved.now.session saved.now.manager) }
{
    match saved.selected() {
        Some(aid) => Ok(Some(SelectedKey {
            name: Vec::from_slice(alloc, aid.bytes())?,
            bytes: Vec::from_slice(alloc, saved.session())?,
        })),
        None => Ok(None),
    }
}

// Reads the key of the open load of a session state.
fn load_of<N: Nvm>(
    alloc: Global,
    device: &N,
    saved: &SavedSession,
) -> Result<Option<Box<LoadKey>>, NoMemory>
    requires card { IsCard (N.state device.now).words }
    requires fits { FitsWords (N.state device.now).words saved.now }
    ensures { IfOk result (λ key. option_map boxed_value key
        ≡ load_in (store_site_bytes (device_with (N.state device.now).words)) saved.now.manager) }
{
    match saved.load() {
        Some(load) => Ok(Some(boxed(alloc, LoadKey::read(alloc, device, load)?)?)),
        None => Ok(None),
    }
}

// Moves the key of an open load to the heap.
fn boxed(alloc: Global, load: LoadKey) -> Result<Box<LoadKey>, NoMemory>
    ensures { IfOk result (λ key. key.value ≡ load) }
{
    match Box::new(alloc, load) {
        Ok(load) => Ok(load),
        Err(_) => Err(NoMemory),
    }
}

impl LoadKey {
    // Reads the key of an open load.
    fn read<N: Nvm>(alloc: Global, device: &N, load: &Load) -> Result<LoadKey, NoMemory>
        requires card { IsCard (N.state device.now).words }
        requires fits { FitsLoad (view_of_words (N.state device.now).words) load.now }
        ensures { IfOk result (λ key. load_value key
            ≡ open_of (store_site_bytes (device_with (N.state device.now).words)) load.now) }
    {
        let site = load.site();
        let sizes = site.sizes();
        Ok(LoadKey {
            place: site.place(),
            code_size: sizes.code,
            fixed_size: sizes.fixed,
            init_size: sizes.init,
            session_size: sizes.session,
            dir_size: sizes.dir,
            fci_size: sizes.fci,
            deny: sizes.deny,
            code: read_part(alloc, device, load, Part::Code)?,
            init: read_part(alloc, device, load, Part::Data)?,
            dir: read_part(alloc, device, load, Part::Dir)?,
            fci: read_part(alloc, device, load, Part::Fci)?,
        })
    }
}

// Reads the bytes that a section of an open load has received.
fn read_part<N: Nvm>(
    alloc: Global,
    device: &N,
    load: &Load,
    part: Part,
) -> Result<Vec<u8>, NoMemory>
    requires card { IsCard (N.state device.now).words }
    requires fits { FitsLoad (view_of_words (N.state device.now).words) load.now }
    ensures { IfOk result (λ bytes. bytes.items
        ≡ got_at (store_site_bytes (device_with (N.state device.now).words)) load.now part) }
{
    let _size = device.len();
    let first = part_place(part, &load.site().sizes(), load.site().place());
    read_section(alloc, device, first, load.got(part))
}
