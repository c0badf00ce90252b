use mc_bank::Slot;
use mc_words::Aid;

/// The selected application: its slot and its name.
#[derive(Clone, Copy, Debug)]
pub struct Selection {
    pub slot: Slot,
    pub aid: Aid,
}
