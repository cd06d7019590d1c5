ghost use Rattle.std.specs.Prelude.{◌≡◌, ℕ, List, length};
ghost use Rattle.rds_wire.specs.declared.ext.Ext.{Ext};
ghost use Rattle.rds_wire.specs.declared.header.Header.{Header};
ghost use Rattle.rds_wire.specs.Bytes.{header_bytes, IsBytes, IsHeader};
ghost use Rattle.rds_wire.specs.Extensions.{StandsAt};

/// Each 48 bytes are the bytes of exactly one header.
pub fn one_header()
    ensures bytes { (h : Header) → IsHeader h
        → (length (header_bytes h) ≡ 48) × IsBytes (header_bytes h) }
    ensures some { (b : List ℕ) → length b ≡ 48 → IsBytes b
        → (h : Header) × IsHeader h × (header_bytes h ≡ b) }
    ensures only { (g h : Header) → IsHeader g → IsHeader h
        → header_bytes g ≡ header_bytes h → g ≡ h }
{}

/// No two extensions stand at one place, so one that was put is found again.
pub fn one_ext()
    ensures { (area : List ℕ) (pos : ℕ) (d e : Ext)
        → StandsAt area pos d → StandsAt area pos e → d ≡ e }
{}
