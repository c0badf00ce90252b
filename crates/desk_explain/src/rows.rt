// Worked rows: a line of what is explained, and which causes are said of code.
ghost use Rattle.std.specs.Prelude.{◌≡◌, ◌∷◌, [], codes, false, true};
ghost use Rattle.mc_check.specs.declared.verdict.Verdict.TheVariants.{Accept, Refuse};
ghost use Rattle.mc_text.specs.model_text.specs.declared.checker.CheckCause.TheVariants.{Deep, Under};
ghost use Rattle.desk_draft.specs.Listings.{Desk};
ghost use Rattle.desk_explain.specs.Explained.{after_verdict, explained_line, with_cause};

/// A line has the name of the file, the number of the line, the column, the word of the cause, and a text.
pub fn a_line()
    ensures { explained_line (codes "pin.rat") 12 7 (codes "Under") (codes "nothing stands here")
        ≡ codes "pin.rat:12:7: Under: nothing stands here\n" }
{}

/// A cause is said once of a line.
pub fn a_cause_is_said_once()
    ensures first { with_cause [] (3, codes "Deep") ≡ (3, codes "Deep") ∷ [] }
    ensures known { with_cause ((3, codes "Deep") ∷ []) (3, codes "Deep") ≡ (3, codes "Deep") ∷ [] }
    ensures line { with_cause ((3, codes "Deep") ∷ []) (4, codes "Deep") ≡ (3, codes "Deep") ∷ (4, codes "Deep") ∷ [] }
    ensures word { with_cause ((3, codes "Deep") ∷ []) (3, codes "Wild") ≡ (3, codes "Deep") ∷ (3, codes "Wild") ∷ [] }
{}

/// Code that is refused ends the draft's passing; code that is accepted changes nothing.
pub fn one_refusal_is_enough()
    ensures accepted { let draft : Desk = record { deck = codes "format\n"; sources = []; lines = [] } in
        after_verdict draft 2 (Accept 9) (true, []) ≡ (true, []) }
    ensures refused { let draft : Desk = record { deck = codes "format\n"; sources = []; lines = [] } in
        after_verdict draft 2 (Refuse 5 Under) (true, []) ≡ (false, (2, codes "Under") ∷ []) }
    ensures later { let draft : Desk = record { deck = codes "format\n"; sources = []; lines = [] } in
        after_verdict draft 3 (Accept 9) (false, (2, codes "Under") ∷ []) ≡ (false, (2, codes "Under") ∷ []) }
    ensures both { let draft : Desk = record { deck = codes "format\n"; sources = []; lines = [] } in
        after_verdict draft 3 (Refuse 7 Deep) (false, (2, codes "Under") ∷ [])
        ≡ (false, (2, codes "Under") ∷ (3, codes "Deep") ∷ []) }
{}
