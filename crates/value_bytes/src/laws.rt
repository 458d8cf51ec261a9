//! That spellings differ as values do.

ghost use Rattle.std.specs.Prelude.{◌≡◌, ◌<◌, ◌++◌, List, ℕ, Ok, length, slice_index};
ghost use Rattle.orca_base.specs.declared.limits.TheConstants.{VALUE_NESTING};
ghost use Rattle.value_core.specs.Datum.{Datum};
ghost use Rattle.value_core.specs.Lengths.{value_length};
ghost use Rattle.value_core.specs.Sound.{IsSound};
ghost use Rattle.value_bytes.specs.Reading.{value_at};
ghost use Rattle.value_bytes.specs.Spelling.{spelling};

/// The laws of spellings, for proofs that stand on this crate; it does nothing.
pub fn spelling_law()
    // Where the spellings of two sound values stand in front of the same bytes, the values are the same, and so is what follows.
    // So a spelling has one value, and none is a proper prefix of another.
    ensures prefix { (v w : Datum) (behind more : List ℕ) → IsSound v → IsSound w →
        spelling v ++ behind ≡ spelling w ++ more → (v ≡ w) × (behind ≡ more) }
    // How many bytes spell a value.
    ensures length { (v : Datum) → length (spelling v) ≡ value_length v }
{}

/// The laws of the reading function, for readers of longer forms; it does nothing.
pub fn reading_law()
    // What is read from the front of bytes is sound, and spelled there.
    ensures found { (end : ℕ) (bytes : List ℕ) (x : Datum × List ℕ) → ((i : ℕ) → slice_index bytes i < 256) →
        value_at end VALUE_NESTING bytes ≡ Ok x → IsSound x.0 × (bytes ≡ spelling x.0 ++ x.1) }
    // What is sound and spelled there is read, whatever follows.
    ensures again { (end : ℕ) (v : Datum) (behind : List ℕ) → IsSound v →
        value_at end VALUE_NESTING (spelling v ++ behind) ≡ Ok (v, behind) }
{}
