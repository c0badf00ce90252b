ghost use Rattle.std.specs.Prelude.{◌≡◌, ◌+◌, ◌≤◌, length};
ghost use Rattle.mc_bank.specs.Bank.{part_len, FitsLimits};
ghost use Rattle.mc_manager.specs.ManagerState.{Loaded, got_len};
ghost use Rattle.mc_manager.specs.Load.{empty_load, with_more};

use arrayvec::ArrayVec;
use mc_bank::{Part, Site};
use std::marker::Model;

/// The maximum length of a DIR record in bytes.
pub const DIR_BYTES: usize = 128;

/// An open load: its site, the number of bytes that code, data and FCI have received, and the bytes of the
/// DIR, which name the application. All other bytes are in the bank.
#[derive(Debug, Drop)]
pub struct Load {
    site: Site,
    code: u16,
    init: u16,
    dir: ArrayVec<u8, DIR_BYTES>,
    fci: u16,
}

impl Model for Load {
    ghost use Rattle.mc_manager.specs.ManagerState.{Loaded};

    ghost Value = { Loaded };

    ghost view = { λ l. record { site = l.site; code = l.code; init = l.init; dir = l.dir.items; fci = l.fci } };
}

impl Load {
    /// Returns a load at `site` of which no section has received a byte.
    pub fn new(site: Site) -> Load
        ensures { result ≡ empty_load site }
    {
        Load {
            site,
            code: 0,
            init: 0,
            dir: ArrayVec::new(),
            fci: 0,
        }
    }

    /// Returns a copy of the load.
    pub fn copy(&self) -> Load
        ensures { result ≡ self.now }
    {
        let mut dir = ArrayVec::new();
        let _room = dir.try_extend_from_slice(self.dir.as_slice());
        Load {
            site: Site::new(self.site.sizes(), self.site.place()),
            code: self.code,
            init: self.init,
            dir,
            fci: self.fci,
        }
    }

    /// Returns the site that the load fills.
    pub fn site(&self) -> &Site
        ensures { result.now ≡ self.now.site }
    {
        &self.site
    }

    /// Returns the bytes of the DIR record that were received.
    pub fn dir(&self) -> &[u8]
        ensures { result.now ≡ self.now.dir }
    {
        self.dir.as_slice()
    }

    /// Returns the number of bytes that a section has received.
    pub fn got(&self, part: Part) -> u16
        ensures { result ≡ got_len part self.now }
    {
        match part {
            Part::Code => self.code,
            Part::Data => self.init,
            Part::Dir => self.dir.len() as u16,
            Part::Fci => self.fci,
        }
    }

    /// Returns the size of a section in bytes.
    pub fn size(&self, part: Part) -> u16
        ensures { result ≡ part_len part self.now.site.sizes }
    {
        let sizes = self.site.sizes();
        match part {
            Part::Code => sizes.code,
            Part::Data => sizes.init,
            Part::Dir => sizes.dir,
            Part::Fci => sizes.fci,
        }
    }

    /// Records that a section has received `piece`. The section stays within its size, and the sizes within
    /// their limits.
    pub fn add(&mut self, part: Part, piece: &[u8])
        requires room { got_len part self.old + length piece.now ≤ part_len part self.old.site.sizes }
        requires limits { FitsLimits self.old.site.sizes }
        ensures { self.new ≡ with_more part piece.now self.old }
    {
        match part {
            Part::Code => self.code += piece.len() as u16,
            Part::Data => self.init += piece.len() as u16,
            Part::Dir => {
                let _room = self.dir.try_extend_from_slice(piece);
            }
            Part::Fci => self.fci += piece.len() as u16,
        }
    }
}
