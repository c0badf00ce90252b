/// What a row knows besides its frame: the length of the name of the frame that delegated to this one, if there is one.
#[derive(Clone, Copy, Debug, PartialEq, Eq)]
pub struct Around {
    pub delegator: Option<u8>,
}
