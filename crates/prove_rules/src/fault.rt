// Why a line is no rule.
ghost use Rattle.std.specs.Prelude.{◌≡◌};
ghost use Rattle.model_rule_text.specs.model_play.specs.declared.deck.DeckCause.TheVariants.{BadLine};
ghost use Rattle.prove_rules.specs.declared.fault.Fault.TheVariants.{Cause};
ghost use Rattle.prove_rules.specs.declared.fault.RuleCause.TheVariants.{Deck};
ghost use Rattle.prove_rules.specs.Refused.{cause_value, cause_word};

use mc_deck::DeckCause;
use mc_words::NoMemory;
use std::alloc::AllocError;

/// Why a line is no rule: a cause that lines of decks have too, or that no line above names the application.
#[derive(Clone, Copy, Debug, PartialEq, Eq)]
pub enum RuleCause {
    Deck(DeckCause),
    NoApplication,
}

impl RuleCause {
    /// Returns the word that a refusal prints.
    pub fn word(&self) -> &'static str
        ensures { result.now ≡ cause_word (cause_value self.now) }
    {
        match self {
            RuleCause::Deck(cause) => cause.word(),
            RuleCause::NoApplication => "NoApplication",
        }
    }
}

/// Why the lines of a deck are no rules: the first refused line, counted from 1, or 0 if no line names an application, and
/// its cause.
#[derive(Clone, Copy, Debug, PartialEq, Eq)]
pub enum RuleRefusal {
    At(u32, RuleCause),
    NoMemory,
}

/// Why a line is no rule, without its number.
#[derive(Clone, Copy, Debug, PartialEq, Eq)]
pub enum Fault {
    Cause(RuleCause),
    NoMemory,
}

impl From<DeckCause> for Fault {
    ghost from_gives = { λ c e. e ≡ Cause (Deck c) };

    fn from(cause: DeckCause) -> Self {
        Fault::Cause(RuleCause::Deck(cause))
    }
}

impl From<NoMemory> for Fault {
    ghost use Rattle.std.specs.Prelude.{◌≡◌};
    ghost use Rattle.prove_rules.specs.declared.fault.Fault.TheVariants.{NoMemory};

    ghost from_gives = { λ f e. e ≡ NoMemory };

    fn from(_error: NoMemory) -> Self {
        Fault::NoMemory
    }
}

impl From<AllocError> for Fault {
    ghost use Rattle.std.specs.Prelude.{◌≡◌};
    ghost use Rattle.prove_rules.specs.declared.fault.Fault.TheVariants.{NoMemory};

    ghost from_gives = { λ f e. e ≡ NoMemory };

    fn from(_error: AllocError) -> Self {
        Fault::NoMemory
    }
}

/// Returns the fault of a line of another form.
pub fn bad_line() -> Fault
    ensures { result ≡ Cause (Deck BadLine) }
{
    Fault::Cause(RuleCause::Deck(DeckCause::BadLine))
}

/// Returns the fault of a cause.
pub fn refused(cause: DeckCause) -> Fault
    ensures { result ≡ Cause (Deck cause) }
{
    Fault::Cause(RuleCause::Deck(cause))
}
