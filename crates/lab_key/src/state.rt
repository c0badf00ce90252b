/// A state of an exploration, a card with the allowances: the number of the card among those that are kept, whether it
/// runs, and the amount of each allowance.
#[derive(PartialEq, Eq, Hash, Drop)]
pub struct CardState {
    pub card: usize,
    pub runs: bool,
    pub allowances: Vec<u32>,
}
