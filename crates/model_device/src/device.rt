/// Why a write stopped: power went, or the write failed. The word that it was to write may hold anything.
#[derive(Clone, Copy, Debug, PartialEq, Eq)]
pub enum Stop {
    Off,
    Worn,
}
