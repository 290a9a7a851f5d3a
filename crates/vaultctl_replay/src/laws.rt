//! What holds of the lines of every input.
ghost use Rattle.std.specs.Prelude.{◌≡◌, ℕ, List};
ghost use Rattle.vaultctl_replay.specs.Lines.{Splits};

/// An input has its lines and its rest in one way only.
pub fn input_has_one_reading()
    ensures { (input : List ℕ) (lines others : List (List ℕ)) (rest other : List ℕ) → Splits input lines rest → Splits input others other
        → (lines ≡ others) × (rest ≡ other) }
{}
