//! What holds of every text.

ghost use Rattle.std.specs.Prelude.{◌≡◌, ◌⊎◌, ℕ, List};
ghost use Rattle.rds_script.specs.declared.cause.Cause.{Cause};
ghost use Rattle.rds_script.specs.Grammar.{Meaning, Spells};
ghost use Rattle.rds_script.specs.Refusal.{Refused};

/// No text spells two scripts.
pub fn one_script()
    ensures { (text : List ℕ) (s t : Meaning) → Spells text s → Spells text t → s ≡ t }
{}

/// No text is refused at two places or for two causes.
pub fn one_refusal()
    ensures { (text : List ℕ) (m n : ℕ) (c d : Cause) → Refused text m c → Refused text n d
        → (m ≡ n) × (c ≡ d) }
{}

/// Each text spells a script or is refused, and none does both.
pub fn spelled_or_refused()
    ensures either { (text : List ℕ)
        → ((s : Meaning) × Spells text s) ⊎ ((n : ℕ) × (c : Cause) × Refused text n c) }
    ensures never_both { (text : List ℕ) (s : Meaning) (n : ℕ) (c : Cause)
        → Spells text s → Refused text n c → ⊥ }
{}
