// An application of a card, as the words of its device hold it.
ghost use Rattle.std.specs.Prelude.{◌≡◌, ◌+◌, slice_index, IfOk};
ghost use Rattle.mc_words.specs.model_device.specs.Bytes.{be2};
ghost use Rattle.mc_words.specs.model_device.specs.Card.{name_at, app_at};
ghost use Rattle.mc_store.specs.Slots.{IsUsedBlock};

use crate::section::read_section;
use mc_blocks::{Record, name_of, read_record, words_of};
use mc_nvm::Nvm;
use mc_words::{NoMemory, number_of};
use std::alloc::Global;
use std::marker::Model;

/// An application of a card: its name, the place of its block, its number of session bytes, its access list, and the
/// bytes of its code, static segment, DIR and FCI.
#[derive(Drop)]
pub struct Application {
    pub(crate) name: Vec<u8>,
    pub(crate) place: u16,
    pub(crate) session: u16,
    pub(crate) deny: u16,
    pub(crate) code: Vec<u8>,
    pub(crate) fixed: Vec<u8>,
    pub(crate) dir: Vec<u8>,
    pub(crate) fci: Vec<u8>,
}

impl Model for Application {
    ghost use Rattle.std.specs.Prelude.{ℕ, List};
    ghost use Rattle.mc_words.specs.model_device.specs.Card.{App};

    ghost Value = { List ℕ × App };

    ghost view = { λ a. (
      a.name.items,
      record {
        code = a.code.items;
        fixed = a.fixed.items;
        session = a.session;
        deny = a.deny;
        dir = a.dir.items;
        fci = a.fci.items;
        place = a.place;
      },
    ) };
}

impl Application {
    /// Returns the name of the application.
    pub fn name(&self) -> &[u8]
        ensures { result.now ≡ self.now.0 }
    {
        self.name.as_slice()
    }

    /// Reads the application of the used block at a place.
    ///
    /// # Errors
    ///
    /// Returns `NoMemory` if it is out of memory.
    pub fn read<N: Nvm>(alloc: Global, device: &N, place: u32) -> Result<Application, NoMemory>
        requires { IsUsedBlock (N.state device.now).words place }
        ensures { IfOk result (λ application. application
            ≡ (name_at (N.state device.now).words place, app_at (N.state device.now).words place)) }
    {
        let _size = device.len();
        let entry = read_record(device, place);
        let sizes = sizes_of(&entry);
        let code = place + 5;
        let fixed = code + words_of(sizes.code);
        let dir = fixed + words_of(sizes.fixed);
        let fci = dir + words_of(sizes.dir);
        Ok(Application {
            name: Vec::from_slice(alloc, name_of(&entry))?,
            place: place as u16,
            session: number_of(entry[24], entry[25]),
            deny: number_of(entry[26], entry[27]),
            code: read_section(alloc, device, code, sizes.code)?,
            fixed: read_section(alloc, device, fixed, sizes.fixed)?,
            dir: read_section(alloc, device, dir, sizes.dir)?,
            fci: read_section(alloc, device, fci, sizes.fci)?,
        })
    }
}

/// The lengths of the sections of an application, in bytes.
#[derive(Clone, Copy, Debug, PartialEq, Eq)]
struct Lengths {
    code: u16,
    fixed: u16,
    dir: u16,
    fci: u16,
}

// Returns the lengths of the sections in a record.
fn sizes_of(entry: &Record) -> Lengths
    ensures { result ≡ record {
      code = be2 entry.now 20;
      fixed = be2 entry.now 22;
      dir = slice_index entry.now 17;
      fci = slice_index entry.now 18;
    } }
{
    Lengths {
        code: number_of(entry[20], entry[21]),
        fixed: number_of(entry[22], entry[23]),
        dir: entry[17] as u16,
        fci: entry[18] as u16,
    }
}
