ghost use Rattle.law_rules.specs.Law.{Covering, CoversRules, KeptInAll};
ghost use Rattle.model_rule_text.specs.model_rules.specs.Rules.{AppRules, Target};

/// An analysis of rules: what it covers at each moment and each place of the application that they speak of.
pub trait RuleAnalysis {
    /// The rules.
    ghost rules: { AppRules };

    /// The application.
    ghost target: { Target };

    /// What is covered.
    ghost covering: { Covering };

    /// It is sound, and no rule is broken under it.
    ghost covers: { CoversRules rules target covering };
}

/// Rules that no covered moment breaks are kept along every play of lines of bytes from an image of words of bytes.
pub fn covers<A: RuleAnalysis>()
    ensures { KeptInAll A.rules A.target }
{}
