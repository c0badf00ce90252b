ghost use Rattle.std.specs.Prelude.{◌≡◌, ◌≤◌, true, length, OnOk};
ghost use Rattle.mc_words.specs.model_device.specs.Device.{Makes};
ghost use Rattle.mc_words.specs.model_device.specs.Image.{targets};
ghost use Rattle.mc_words.specs.model_device.specs.Stopped.{entries};
ghost use Rattle.mc_gate.specs.Layouts.{journal_of};
ghost use Rattle.mc_gate.specs.Look.{target_list};

use crate::layouts::Layout;
use crate::look::Targets;
use mc_nvm::Nvm;
use mc_words::{Stop, Word};

/// The journal of one layout: how the targets and the values of its pairs are written, and how its targets are read.
/// All else is the same in both layouts, and `write_words` and `recover` are generic over it.
pub trait Journal {
    ghost use Rattle.mc_gate.specs.declared.layouts.Layout.{Layout};

    /// The layout whose journal it is.
    const LAYOUT: Layout;

    /// The layout, as contracts cite it.
    ghost LAYOUT: { Layout };

    /// Writes the targets and the values of at most 64 pairs, each a target and its word, into the journal.
    ///
    /// # Errors
    ///
    /// Returns the `Stop` of the first device write that stopped; no write is tried after it.
    fn put_entries<N: Nvm>(device: &mut N, list: &[(u16, Word)]) -> Result<(), Stop>
        requires power { (N.state device.old).on ≡ true }
        requires size { 256 ≤ length (N.state device.old).words }
        requires few { length list.now ≤ 64 }
        ensures makes { Makes N.wrote device.old (entries (journal_of LAYOUT) list.now) result device.new }
        ensures on { OnOk result ((N.state device.new).on ≡ true) }
        ensures size { length (N.state device.new).words ≡ length (N.state device.old).words };

    /// Returns the targets of the first `count` pairs, at most 64, as the journal holds them.
    ///
    /// # Errors
    ///
    /// Returns the place of the first bad target word.
    fn read_targets<N: Nvm>(device: &N, count: usize) -> Result<Targets, u16>
        requires size { 256 ≤ length (N.state device.now).words }
        requires few { count ≤ 64 }
        ensures { targets (journal_of LAYOUT) (N.state device.now).words count ≡ target_list result };
}
