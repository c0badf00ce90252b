ghost use Rattle.std.specs.Prelude.{◌≡◌, ◌≤◌, ℕ, List, length, Some, None};
ghost use Rattle.mc_words.specs.model_device.specs.declared.cause.Cause.{Cause};
ghost use Rattle.mc_words.specs.model_device.specs.Image.{One, Closed, look, image_with};
ghost use Rattle.mc_words.specs.model_device.specs.Device.{IsSized};
ghost use Rattle.mc_words.specs.model_device.specs.Stopped.{image_after_stop};
ghost use Rattle.mc_words.specs.model_device.specs.Layout.{fault, words_fault};
ghost use Rattle.mc_bank.specs.model_card.specs.Items.{BankItem};
ghost use Rattle.mc_words.specs.model_device.specs.PowerUp.{base_after_migration};
ghost use Rattle.mc_store.specs.Store.{settled_words, item_writes, Allows};
ghost use Rattle.mc_store.specs.Power.{base_of_words, power_writes, power_count, HoldsBase, IsHalted};
ghost use Rattle.mc_store.specs.Stops.{IsStoppedAt};

/// The writes of a power-up on every image: whatever word a stop leaves at any of them, a stop in recovery leaves an
/// image that holds what it held, and a stop in the migration a card of layout 1 or 2 with the same applications.
pub fn power_stops()
    ensures count { (m : List (List ℕ)) → IsSized m → length (power_writes m) ≡ power_count m }
    ensures halted { (m : List (List ℕ)) (k : ℕ) (x : List ℕ) → IsSized m → 1 ≤ k → k ≤ power_count m
        → IsHalted m k x (image_after_stop m (power_writes m) k x) }
{}

/// The device writes of an item on words with no open journal and no fault: at each of them, whatever word a stop
/// leaves, the image is the card before the item, or the one after it if its atomic write is durable, and recovery
/// still has to make what that atomic write leaves to it.
pub fn item_stops()
    ensures { (m : List (List ℕ)) (i : BankItem) (k : ℕ) (x : List ℕ) → IsSized m → look m ≡ Closed
        → words_fault m ≡ None → Allows m i → 1 ≤ k → k ≤ length (item_writes m i)
        → IsStoppedAt m i k x (image_after_stop m (item_writes m i) k x) }
{}

/// After all writes of a power-up, a card has layout 2 and the same applications, and on an image that is no card
/// recovery has made its writes and no other was made.
pub fn power_ends()
    ensures card { (m : List (List ℕ)) → IsSized m → fault m ≡ None
        → HoldsBase (base_after_migration (base_of_words m)) 0 One (image_with m (power_writes m)) }
    ensures fault { (m : List (List ℕ)) (f : Cause × ℕ) → IsSized m → fault m ≡ Some f
        → image_with m (power_writes m) ≡ settled_words m }
    ensures base { (m : List (List ℕ)) (f : Cause × ℕ) → IsSized m → fault m ≡ Some f
        → HoldsBase (base_of_words m) 0 One (settled_words m) }
{}
