ghost use Rattle.std.specs.Prelude.{◌≡◌, ℕ, List};
ghost use Rattle.rds_wire.specs.declared.frame.Frame.{Frame};
ghost use Rattle.rds_wire.specs.Bytes.{IsBytes};
ghost use Rattle.rds_frame.specs.Splitting.{Splits};

/// Each list of bytes is exactly one list of frames, and then less than a whole frame.
pub fn one_split()
    ensures some { (bytes : List ℕ) → IsBytes bytes
        → (frames : List Frame) × (rest : List ℕ) × Splits bytes frames rest }
    ensures only { (bytes : List ℕ) (frames others : List Frame) (rest rest_too : List ℕ)
        → Splits bytes frames rest → Splits bytes others rest_too
        → (frames ≡ others) × (rest ≡ rest_too) }
{}
