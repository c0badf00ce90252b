ghost use Rattle.std.specs.Prelude.{◌≡◌, ◌≤◌, ℕ, List, [], ◌∷◌, length, map};
ghost use Rattle.model_device.specs.Image.{Journal, One, Two, look_j, owed_j};
ghost use Rattle.model_device.specs.Stopped.{IsAtomic, cost, opens_at, writes, owed_writes};

/// The number of device writes of an atomic write of 1, 2, 3, 33 and 64 words in the journal of layout 1.
pub fn costs_of_journal_1()
    ensures { map (cost One) (1 ∷ 2 ∷ 3 ∷ 33 ∷ 64 ∷ []) ≡ 6 ∷ 9 ∷ 12 ∷ 102 ∷ 195 ∷ [] }
{}

/// The number of the device write that opens the gate, in layout 1.
pub fn openings_of_journal_1()
    ensures { map (opens_at One) (1 ∷ 2 ∷ 3 ∷ 33 ∷ 64 ∷ []) ≡ 4 ∷ 6 ∷ 8 ∷ 68 ∷ 130 ∷ [] }
{}

/// The number of device writes of an atomic write of 1, 2, 3, 33 and 64 words in the journal of layout 2.
pub fn costs_of_journal_2()
    ensures { map (cost Two) (1 ∷ 2 ∷ 3 ∷ 33 ∷ 64 ∷ []) ≡ 6 ∷ 8 ∷ 10 ∷ 78 ∷ 147 ∷ [] }
{}

/// The number of the device write that opens the gate, in layout 2.
pub fn openings_of_journal_2()
    ensures { map (opens_at Two) (1 ∷ 2 ∷ 3 ∷ 33 ∷ 64 ∷ []) ≡ 4 ∷ 5 ∷ 6 ∷ 44 ∷ 82 ∷ [] }
{}

/// The list of the device writes has the length that the cost states, for each list of 1 to 64 words.
pub fn as_many_as_the_cost()
    ensures { (j : Journal) (size : ℕ) (list : List (ℕ × List ℕ)) → size ≤ 16384 → IsAtomic size list
        → length (writes j list) ≡ cost j (length list) }
{}

/// A recovery makes at most 65 writes, on any image.
pub fn at_most_65_writes()
    ensures few { (j : Journal) (m : List (List ℕ)) → owed_j j m ≤ 65 }
    ensures all { (j : Journal) (m : List (List ℕ)) → length (owed_writes (look_j j m)) ≡ owed_j j m }
{}
