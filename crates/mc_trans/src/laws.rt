ghost use Rattle.std.specs.Prelude.{◌≡◌, ◌+◌, ◌-◌, ◌*◌, ◌/◌, ◌%◌, ◌<◌, ◌≤◌, ℕ, List, [], ◌∷◌, ◌++◌, length, option_map, slice_index, unwrap_or, Some, None};
ghost use Rattle.model_device.specs.Bytes.{splice, zeros};
ghost use Rattle.model_device.specs.Pieces.{covering_byte, laid_pieces, laid_words, not_pending, pending_at, put_word, touched_words, HoldPieces, LieIn};
ghost use Rattle.mc_trans.specs.Rows.{word_fronts};

/// A byte of a list with pieces written over it is that of the last piece that covers it, and else the
/// list's.
pub fn reads_pieces()
    ensures { (l : List ℕ) (ps : List (ℕ × List ℕ)) (i : ℕ) → LieIn (length l) ps → i < length l
        → slice_index (laid_pieces l ps) i ≡ unwrap_or (covering_byte ps i) (slice_index l i) }
{}

/// A byte of a list with pieces written over it is that of the pending word that holds it, and else the
/// list's.
pub fn reads_words()
    ensures { (l : List ℕ) (ps ws : List (ℕ × List ℕ)) (i : ℕ) → LieIn (length l) ps → HoldPieces l ps ws
        → i < length l
        → slice_index (laid_pieces l ps) i
        ≡ unwrap_or (option_map (λ b. slice_index b (i % 8)) (pending_at ws (i / 8))) (slice_index l i) }
{}

/// Writing pending words over a list makes the same bytes as writing the pieces that they hold over it, in
/// order.
pub fn lays_words()
    ensures { (l : List ℕ) (ps ws : List (ℕ × List ℕ)) → LieIn (length l) ps → HoldPieces l ps ws
        → laid_words l ws ≡ laid_pieces l ps }
{}

/// No words hold no pieces.
pub fn holds_none()
    ensures { (l : List ℕ) → HoldPieces l [] [] }
{}

/// A piece within one word is held after that word, with the piece's bytes in it, is put.
pub fn puts_piece()
    ensures { (l : List ℕ) (ps ws : List (ℕ × List ℕ)) (n j : ℕ) (word b : List ℕ) → LieIn (length l) ps
        → HoldPieces l ps ws → length word ≡ 8
        → ((k : ℕ) → k < 8 → 8 * n + k < length l → slice_index word k ≡ slice_index (laid_pieces l ps) (8 * n + k))
        → 0 < length b → j + length b ≤ 8 → 8 * n + j + length b ≤ length l
        → HoldPieces l (ps ++ (8 * n + j, b) ∷ []) (put_word n (splice word j b) ws) }
{}

/// Words that hold two adjacent pieces hold the one piece that joins them.
pub fn joins_pieces()
    ensures { (l : List ℕ) (ps ws : List (ℕ × List ℕ)) (at : ℕ) (a b : List ℕ) → LieIn (length l) ps
        → at + length a ≤ length l → HoldPieces l (ps ++ (at, a) ∷ (at + length a, b) ∷ []) ws
        → HoldPieces l (ps ++ (at, a ++ b) ∷ []) ws }
{}

/// A piece adds as many pending words as it touches words that are not yet pending.
pub fn counts_words()
    ensures { (l : List ℕ) (ps ws : List (ℕ × List ℕ)) (at : ℕ) (b : List ℕ) → HoldPieces l ps ws → 0 < length b
        → length (touched_words (ps ++ (at, b) ∷ []))
        ≡ length ws + not_pending (at / 8) ((at + length b - 1) / 8 + 1 - at / 8) ws }
{}

/// Two words of a segment of nine bytes, pieces over each other, and the words of many pieces.
#[tactic(auto, unfolding(model_device::specs::Pieces::touched_words))]
pub fn piece_rows()
    ensures two_words { laid_pieces (zeros 9) ((0, 0x11 ∷ []) ∷ (8, 0x22 ∷ []) ∷ [])
        ≡ 0x11 ∷ 0 ∷ 0 ∷ 0 ∷ 0 ∷ 0 ∷ 0 ∷ 0 ∷ 0x22 ∷ [] }
    ensures two_numbers { touched_words ((8, 0x22 ∷ []) ∷ (0, 0x11 ∷ []) ∷ []) ≡ 0 ∷ 1 ∷ [] }
    ensures last_counts { laid_pieces (zeros 5) ((1, 1 ∷ 2 ∷ []) ∷ (2, 7 ∷ 8 ∷ []) ∷ []) ≡ 0 ∷ 1 ∷ 7 ∷ 8 ∷ 0 ∷ [] }
    ensures last_covers { covering_byte ((1, 1 ∷ 2 ∷ []) ∷ (2, 7 ∷ 8 ∷ []) ∷ []) 2 ≡ Some 7 }
    ensures none_covers { covering_byte ((1, 1 ∷ 2 ∷ []) ∷ (2, 7 ∷ 8 ∷ []) ∷ []) 4 ≡ None }
    ensures scattered { touched_words ((7, 1 ∷ 2 ∷ []) ∷ (30, 1 ∷ []) ∷ (2, 1 ∷ []) ∷ (22, 9 ∷ 9 ∷ 9 ∷ []) ∷ [])
        ≡ 0 ∷ 1 ∷ 2 ∷ 3 ∷ [] }
    ensures limit { length (touched_words (word_fronts 64)) ≡ 64 }
    ensures past_limit { length (touched_words (word_fronts 65)) ≡ 65 }
{}
