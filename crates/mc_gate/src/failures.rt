use mc_words::Stop;

/// Why a recovery did not end: a device write of it stopped, or the word of an open journal at this place is bad and
/// nothing was written.
#[derive(Clone, Copy, Debug, PartialEq, Eq)]
pub enum Recover {
    Stop(Stop),
    BadJournal(u16),
}
