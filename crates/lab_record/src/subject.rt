// The application that is recorded.
use lab_app_rules::Rules;
use mc_words::Aid;

/// An application: its rules, and its AID.
#[derive(Clone, Copy)]
pub struct Subject<'a> {
    pub rules: &'a Rules<'a>,
    pub aid: &'a Aid,
}
