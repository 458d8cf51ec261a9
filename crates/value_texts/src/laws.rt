//! That spellings differ as values do.

ghost use Rattle.std.specs.Prelude.{◌≡◌, ◌<◌, ◌^◌, ◌++◌, ◌∷◌, FitsSigned, List, ℕ, ℤ, Some, length};
ghost use Rattle.std.specs.Fmt.{decimal, signed_decimal};
ghost use Rattle.std.specs.Int.{w64};
ghost use Rattle.std.specs.Str.{IsAscii};
ghost use Rattle.orca_base.specs.declared.ids.ObjectId.{ObjectId};
ghost use Rattle.orca_base.specs.declared.limits.TheConstants.{VALUE_NESTING};
ghost use Rattle.value_core.specs.Datum.{Data, Datum, data_of, list_of};
ghost use Rattle.value_core.specs.Sound.{AreSound, IsSound};
ghost use Rattle.value_texts.specs.Reading.{integer_at, natural_at, object_id_at, value_at, values_at};
ghost use Rattle.value_texts.specs.Spelling.{BeginsWithNoDigit, parts_text, value_text};

/// The laws of spellings, for proofs that stand on this crate; it does nothing.
pub fn spelling_law()
    // A text is the spelling of at most one sound value.
    ensures one { (v w : Datum) → IsSound v → IsSound w → value_text v ≡ value_text w → v ≡ w }
    // Where the spellings of two sound values stand in front of texts that begin with no digit, and the whole is the same, the values
    // are the same, and so is what follows.
    ensures prefix { (v w : Datum) (behind more : List ℕ) → IsSound v → IsSound w → BeginsWithNoDigit behind → BeginsWithNoDigit more →
        value_text v ++ behind ≡ value_text w ++ more → (v ≡ w) × (behind ≡ more) }
    // The text of a sound value is ASCII, and so is that of sound values with spaces between them.
    ensures ascii { (v : Datum) → IsSound v → IsAscii (value_text v) }
    ensures listed_ascii { (values : Data) → AreSound values → IsAscii (parts_text values) }
{}

/// The laws of the reading function, for readers of longer forms; it does nothing.
pub fn reading_law()
    // What is read from the front of a text is sound, and spelled there.
    ensures found { (text : List ℕ) (x : Datum × List ℕ) → length text < 2 ^ 32 → value_at VALUE_NESTING text ≡ Some x →
        IsSound x.0 × (text ≡ value_text x.0 ++ x.1) }
    // What is sound and spelled there is read, where what follows begins with no digit.
    ensures again { (v : Datum) (behind : List ℕ) → IsSound v → BeginsWithNoDigit behind →
        value_at VALUE_NESTING (value_text v ++ behind) ≡ Some (v, behind) }
    // The same of values in round brackets.
    ensures listed { (text : List ℕ) (x : List Datum × List ℕ) → length text < 2 ^ 32 → values_at text ≡ Some x →
        AreSound (data_of x.0) × (text ≡ 40 ∷ (parts_text (data_of x.0) ++ 41 ∷ x.1)) }
    ensures listed_again { (values : Data) (behind : List ℕ) → AreSound values →
        values_at (40 ∷ (parts_text values ++ 41 ∷ behind)) ≡ Some (list_of values, behind) }
    // A number that is read fits 64 bits, and stands there in decimal; a number that fits and stands there is read, where what
    // follows begins with no digit.
    ensures number { (text : List ℕ) (x : ℕ × List ℕ) → natural_at text ≡ Some x → (x.0 < 2 ^ 64) × (text ≡ decimal x.0 ++ x.1) }
    ensures number_again { (number : ℕ) (behind : List ℕ) → number < 2 ^ 64 → BeginsWithNoDigit behind →
        natural_at (decimal number ++ behind) ≡ Some (number, behind) }
    // The same of integers.
    ensures integer { (text : List ℕ) (x : ℤ × List ℕ) → integer_at text ≡ Some x → FitsSigned w64 x.0 × (text ≡ signed_decimal x.0 ++ x.1) }
    ensures integer_again { (number : ℤ) (behind : List ℕ) → FitsSigned w64 number → BeginsWithNoDigit behind →
        integer_at (signed_decimal number ++ behind) ≡ Some (number, behind) }
    // The same of an object's process and number.
    ensures object { (text : List ℕ) (x : ObjectId × List ℕ) → object_id_at text ≡ Some x →
        (x.0.process < 2 ^ 16) × (x.0.number < 2 ^ 32) × (text ≡ (decimal x.0.process ++ 46 ∷ decimal x.0.number) ++ x.1) }
    ensures object_again { (object : ObjectId) (behind : List ℕ) → object.process < 2 ^ 16 → object.number < 2 ^ 32 →
        BeginsWithNoDigit behind → object_id_at ((decimal object.process ++ 46 ∷ decimal object.number) ++ behind) ≡ Some (object, behind) }
{}
