// A text that was made from a draft.

/// A text that was made from a draft, and whether the draft passes it, as it does each text but that of verdicts.
#[derive(Drop)]
pub struct DraftText {
    pub text: Vec<u8>,
    pub passes: bool,
}
