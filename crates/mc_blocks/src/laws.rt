ghost use Rattle.std.specs.Prelude.{◌≡◌, ℕ, ◌-◌, ◌<◌, ◌≤◌, List, [], ◌∷◌, length, slice_index, true, false, Some, None};
ghost use Rattle.std.specs.List.{AllByRecursion};
ghost use Rattle.mc_words.specs.model_device.specs.Bytes.{be2, lookup, insert, remove};
ghost use Rattle.mc_words.specs.model_device.specs.Image.{Closed, Two, look, after, shut_word};
ghost use Rattle.mc_words.specs.model_device.specs.Device.{IsImage, IsSized};
ghost use Rattle.mc_words.specs.model_device.specs.Stopped.{LaidWhole as WrittenBy};
ghost use Rattle.mc_words.specs.model_device.specs.Card.{App, Card, words_of_app, blocks, card_of, heap_start, means, words_after, word, record_at, name_at, app_at};
ghost use Rattle.mc_words.specs.model_device.specs.Layout.{spans, spans_of, put_at, gaps, hole_header, root, first_place, first_fitting, layout, step_of, is_record, words_fault, IsWellLaid};
ghost use Rattle.mc_blocks.specs.Blocks.{used_spans, hole_spans, is_root_word, WordsAgree};
ghost use Rattle.mc_blocks.specs.Chains.{IsChain};
ghost use Rattle.mc_blocks.specs.Outcomes.{AgreeBut, Planned, HoldsApplications};
ghost use Rattle.mc_blocks.specs.Plans.{changes, layout_of, plan, has_room, has_span, without};

/// On a well laid image with no open journal the holes of the walk by lengths are the gaps of the card, and
/// its used blocks are the spans of the card's applications.
pub fn walks_card()
    ensures gaps { (m : List (List ℕ)) → IsSized m → look m ≡ Closed → IsWellLaid m
        → gaps (means m) ≡ hole_spans (blocks m) }
    ensures spans { (m : List (List ℕ)) → IsSized m → look m ≡ Closed → IsWellLaid m
        → spans (means m) ≡ used_spans (blocks m) }
    ensures count { (m : List (List ℕ)) → IsSized m → look m ≡ Closed → IsWellLaid m
        → length (means m).apps ≡ length (used_spans (blocks m)) }
{}

/// The root of a well laid image names the first gap, and the header of each gap the next: the chain of holes
/// is the ascending list of gaps.
pub fn chains_gaps()
    ensures root { (m : List (List ℕ)) → IsSized m → look m ≡ Closed → IsWellLaid m
        → be2 (word m 0) 6 ≡ first_place (gaps (means m)) }
    ensures holes { (m : List (List ℕ)) → IsSized m → look m ≡ Closed → IsWellLaid m → IsChain m (gaps (means m)) }
{}

/// A well laid image has at most 32 applications.
pub fn counts_applications()
    ensures { (m : List (List ℕ)) → IsSized m → look m ≡ Closed → IsWellLaid m → length (means m).apps ≤ 32 }
{}

/// The recovery of an image without a fault leaves the layout of the card that it holds: its root, and the
/// header of each block and each gap.
pub fn holds_layout()
    ensures { (m : List (List ℕ)) → IsImage m → IsWellLaid m
        → AllByRecursion (λ p. word (words_after (after m) m) p.0 ≡ p.1) (layout (means m)) }
{}

/// Words that agree in the root, the header of each block and all words of used blocks hold the same card.
pub fn keeps_card()
    ensures laid { (m n : List (List ℕ)) → IsSized m → words_fault m ≡ None → length n ≡ length m
        → word n 0 ≡ word m 0 → WordsAgree m n (blocks m) → words_fault n ≡ None }
    ensures card { (m n : List (List ℕ)) → IsSized m → words_fault m ≡ None → length n ≡ length m
        → word n 0 ≡ word m 0 → WordsAgree m n (blocks m) → card_of n ≡ card_of m }
{}

/// The first gap of at least `need` words has room for them.
pub fn fits_room()
    ensures { (need p : ℕ) (gs : List (ℕ × ℕ)) → first_fitting need gs ≡ Some p → has_room p need gs ≡ true }
{}

/// Inserting a new application at a place where none begins adds its span.
pub fn inserts_span()
    ensures { (apps : List (List ℕ × App)) (name : List ℕ) (app : App) → lookup apps name ≡ None
        → has_span app.place (spans_of apps) ≡ false
        → spans_of (insert apps name app) ≡ put_at app.place (words_of_app app) (spans_of apps) }
{}

/// An application of a well laid image that is found by its name has a span at its place, and removing it
/// removes this span.
pub fn removes_span()
    ensures there { (m : List (List ℕ)) (name : List ℕ) (app : App) → IsSized m → look m ≡ Closed → IsWellLaid m
        → lookup (means m).apps name ≡ Some app → has_span app.place (spans (means m)) ≡ true }
    ensures gone { (m : List (List ℕ)) (name : List ℕ) (app : App) → IsSized m → look m ≡ Closed → IsWellLaid m
        → lookup (means m).apps name ≡ Some app
        → spans_of (remove (means m).apps name) ≡ without app.place (spans (means m)) }
{}

/// After the plan for words at a place where there is room, with a good record of `need` words under a new
/// name at this place, the words hold the card with that application.
pub fn creates_application()
    ensures { (m n : List (List ℕ)) (p need : ℕ) → IsSized m → look m ≡ Closed → IsWellLaid m → 1 ≤ need
        → has_room p need (gaps (means m)) ≡ true → Planned m n (put_at p need (spans (means m)))
        → is_record (record_at n p) need ≡ true → lookup (means m).apps (name_at n p) ≡ None
        → length (means m).apps < 32
        → HoldsApplications m n (insert (means m).apps (name_at n p) (app_at n p)) }
{}

/// After the plan that frees the block of an application the words hold the card without it.
pub fn deletes_application()
    ensures { (m n : List (List ℕ)) (name : List ℕ) (app : App) → IsSized m → look m ≡ Closed → IsWellLaid m
        → lookup (means m).apps name ≡ Some app → Planned m n (without app.place (spans (means m)))
        → HoldsApplications m n (remove (means m).apps name) }
{}

/// After words of one used block are set after its record, the words hold the card with the application that
/// this block then holds.
pub fn sets_application()
    ensures { (m n : List (List ℕ)) (p : ℕ) → IsSized m → look m ≡ Closed → IsWellLaid m
        → has_span p (spans (means m)) ≡ true → length n ≡ length m → word n 0 ≡ word m 0 → AgreeBut m n p (blocks m)
        → record_at n p ≡ record_at m p
        → HoldsApplications m n (insert (means m).apps (name_at m p) (app_at n p)) }
{}

/// Words with the other version in a root that names the same hole hold the same card in that layout.
pub fn changes_layout()
    ensures laid { (m n : List (List ℕ)) → IsSized m → words_fault m ≡ None → length n ≡ length m
        → is_root_word (word n 0) (length n) ≡ true → be2 (word n 0) 6 ≡ be2 (word m 0) 6 → WordsAgree m n (blocks m)
        → words_fault n ≡ None }
    ensures card { (m n : List (List ℕ)) → IsSized m → words_fault m ≡ None → length n ≡ length m
        → is_root_word (word n 0) (length n) ≡ true → be2 (word n 0) 6 ≡ be2 (word m 0) 6 → WordsAgree m n (blocks m)
        → card_of n ≡ record (card_of m) { layout = slice_index (word n 0) 3 } }
{}

/// An atomic write of a plan in the journal of layout 2 leaves the words after that plan.
pub fn writes_plan()
    ensures { (m n : List (List ℕ)) (ss : List (ℕ × ℕ)) → WrittenBy Two m (plan (means m) ss) n → Planned m n ss }
{}

/// The words of an empty card of 8,192 words that `format_words` sets.
pub fn format_rows()
    ensures root { root 2 8192 heap_start ≡ 0x4D ∷ 0x45 ∷ 0x4C ∷ 2 ∷ 0x20 ∷ 0 ∷ 0 ∷ 0x83 ∷ [] }
    ensures gate { shut_word ≡ 0x53 ∷ 0x48 ∷ 0x55 ∷ 0x54 ∷ 0x2D ∷ 0x2D ∷ 0x2D ∷ 0x2D ∷ [] }
    ensures hole { hole_header (8192 - heap_start) 0 ≡ 0x48 ∷ 0 ∷ 0x1F ∷ 0x7D ∷ 0 ∷ 0 ∷ 0 ∷ 0 ∷ [] }
{}

/// Words taken from the front of a hole, a whole hole taken, a block freed between two holes, and one freed
/// that touches none.
#[tactic(auto, unfolding(crate::specs::Plans::layout_of))]
pub fn plan_rows()
    ensures taken { changes (layout_of 2 8192 []) (layout_of 2 8192 ((131, 12) ∷ []))
        ≡ (0, 0x4D ∷ 0x45 ∷ 0x4C ∷ 2 ∷ 0x20 ∷ 0 ∷ 0 ∷ 0x8F ∷ []) ∷ (131, 0x55 ∷ 0 ∷ 0 ∷ 0x0C ∷ 0 ∷ 0 ∷ 0 ∷ 0 ∷ [])
        ∷ (143, 0x48 ∷ 0 ∷ 0x1F ∷ 0x71 ∷ 0 ∷ 0 ∷ 0 ∷ 0 ∷ []) ∷ [] }
    ensures whole { changes (layout_of 2 8192 ((155, 12) ∷ [])) (layout_of 2 8192 ((131, 24) ∷ (155, 12) ∷ []))
        ≡ (0, 0x4D ∷ 0x45 ∷ 0x4C ∷ 2 ∷ 0x20 ∷ 0 ∷ 0 ∷ 0xA7 ∷ []) ∷ (131, 0x55 ∷ 0 ∷ 0 ∷ 0x18 ∷ 0 ∷ 0 ∷ 0 ∷ 0 ∷ [])
        ∷ [] }
    ensures freed { changes (layout_of 2 8192 ((131, 12) ∷ (155, 12) ∷ (179, 192) ∷ []))
        (layout_of 2 8192 ((131, 12) ∷ (179, 192) ∷ []))
        ≡ (143, 0x48 ∷ 0 ∷ 0 ∷ 0x24 ∷ 1 ∷ 0x73 ∷ 0 ∷ 0 ∷ []) ∷ [] }
    ensures alone { changes (layout_of 2 8192 ((131, 12) ∷ (143, 12) ∷ (155, 12) ∷ []))
        (layout_of 2 8192 ((131, 12) ∷ (155, 12) ∷ []))
        ≡ (0, 0x4D ∷ 0x45 ∷ 0x4C ∷ 2 ∷ 0x20 ∷ 0 ∷ 0 ∷ 0x8F ∷ [])
        ∷ (143, 0x48 ∷ 0 ∷ 0 ∷ 0x0C ∷ 0 ∷ 0xA7 ∷ 0 ∷ 0 ∷ []) ∷ [] }
{}

/// The plan for spans is the atomic write to every card of the same version and size whose applications have them.
pub fn plans_steps()
    ensures { (a b : Card) (ss : List (ℕ × ℕ)) → b.layout ≡ a.layout → b.size ≡ a.size → spans b ≡ ss
        → step_of a b ≡ plan a ss }
{}
