//! The laws of the operators.

ghost use Rattle.std.specs.Prelude.{◌≡◌, ◌↔◌, ◌⊎◌, ◌+◌, ◌<◌, ◌≤◌, ◌+ℤ◌, ◌++◌, ◌∷◌, [], List, ℕ, ℤ, pos, negsuc, true, Ok, Err, FitsSigned, IsTrue, codes, length};
ghost use Rattle.std.specs.Int.{w64};
ghost use Rattle.std.specs.List.{All, Contains};
ghost use Rattle.std.specs.List.Sorted.{IsPermutation, IsSorted};
ghost use Rattle.std.specs.Result.{IsOkUnless, OkIff};
ghost use Rattle.orca_base.specs.declared.fault.FaultKind.TheVariants.{DivideByZero, FromEmpty, IndexOutside, Overflow, TooLarge};
ghost use Rattle.orca_base.specs.declared.fault.FaultKind.{FaultKind};
ghost use Rattle.orca_base.specs.declared.limits.TheConstants.{TEXT_LENGTH, VALUE_NESTING, VALUE_SIZE};
ghost use Rattle.value_core.specs.Datum as datum;
ghost use Rattle.value_core.specs.Datum.{Data, Datum, list_of};
ghost use Rattle.value_core.specs.Order.{datum_cmp};
ghost use Rattle.value_core.specs.Size.{size_of};
ghost use Rattle.value_core.specs.Sound.{IsCode, IsShort, IsSound, nesting};
ghost use Rattle.value_ops.specs.Elements.{IsInOrder, IsNotBelow, deleted, elements, has, inserted, least_of, without_least};
ghost use Rattle.value_ops.specs.Integers.{IsDivision, fitted, negative_of, product_of, quotient_of, remainder_of, sum_of};
ghost use Rattle.value_ops.specs.Rows.{bag_of, one, set_of, three, two};
ghost use Rattle.value_ops.specs.Sizes.{IsOutside, number_in, place_of, told_size};
ghost use Rattle.value_ops.specs.Texts.{joined, text_of};

/// The laws of the operators on integers, for proofs that stand on this crate; it does nothing.
pub fn integers_law()
    // A result is the integer of mathematics exactly where that fits 64 bits, and else Overflow.
    ensures fits { (z : ℤ) → OkIff (fitted z) (FitsSigned w64 z) z }
    ensures overflow { (z : ℤ) → IsOkUnless (fitted z) Overflow }
    // DivideByZero comes exactly where the divisor is 0.
    ensures quotient_by_zero { (x y : ℤ) → (quotient_of x y ≡ Err DivideByZero) ↔ (y ≡ pos 0) }
    ensures remainder_by_zero { (x y : ℤ) → (remainder_of x y ≡ Err DivideByZero) ↔ (y ≡ pos 0) }
    // Overflow comes exactly where the least integer is divided by -1, and there is no third fault.
    ensures quotient_above { (x y : ℤ) → FitsSigned w64 x →
        (quotient_of x y ≡ Err Overflow) ↔ ((x ≡ negsuc 9223372036854775807) × (y ≡ negsuc 0)) }
    ensures remainder_above { (x y : ℤ) → FitsSigned w64 x →
        (remainder_of x y ≡ Err Overflow) ↔ ((x ≡ negsuc 9223372036854775807) × (y ≡ negsuc 0)) }
    ensures quotient_faults { (x y : ℤ) (fault : FaultKind) → quotient_of x y ≡ Err fault → (fault ≡ Overflow) ⊎ (fault ≡ DivideByZero) }
    ensures remainder_faults { (x y : ℤ) (fault : FaultKind) → remainder_of x y ≡ Err fault → (fault ≡ Overflow) ⊎ (fault ≡ DivideByZero) }
    // A quotient is cut toward zero, and a remainder has the sign of what is divided.
    ensures divides { (x y q r : ℤ) → quotient_of x y ≡ Ok q → remainder_of x y ≡ Ok r → IsDivision x y q r }
{}

/// The laws of the elements of sets and bags, for proofs that stand on this crate; it does nothing.
pub fn elements_law()
    ensures has { (e : Datum) (xs : List Datum) → IsTrue (has e xs) ↔ Contains xs e }
    // A bag has one more equal element, and a set has the element beside those it had.
    ensures bag_grows { (e : Datum) (w : Data) → IsPermutation (e ∷ list_of w) (elements (inserted e (datum.bag w))) }
    ensures set_grows { (e : Datum) (w : Data) → ¬ Contains (list_of w) e →
        IsPermutation (e ∷ list_of w) (elements (inserted e (datum.set w))) }
    ensures set_stays { (e : Datum) (w : Data) → Contains (list_of w) e → inserted e (datum.set w) ≡ datum.set w }
    // One equal element is taken out where there is one, and else nothing changes.
    ensures shrinks { (e v : Datum) → Contains (elements v) e → IsPermutation (elements v) (e ∷ elements (deleted e v)) }
    ensures stays { (e v : Datum) → ¬ Contains (elements v) e → deleted e v ≡ v }
    // FromEmpty comes exactly where there is no element, and no other fault comes.
    ensures from_none { (v : Datum) → (elements v ≡ []) ↔ (least_of v ≡ Err FromEmpty) }
    ensures from_faults { (v : Datum) → IsOkUnless (least_of v) FromEmpty }
    // `from` takes an element out to which no other is less.
    ensures least { (v e : Datum) → IsInOrder v → least_of v ≡ Ok e →
        (elements v ≡ e ∷ elements (without_least v)) × All (λ x. IsNotBelow x e) (elements v) }
    // What is in order never falls.
    ensures sorted { (v : Datum) → IsInOrder v → IsSorted datum_cmp (elements v) }
    // Elements stay in order, and values sound.
    ensures inserted_in_order { (e v : Datum) → IsInOrder v → IsInOrder (inserted e v) }
    ensures deleted_in_order { (e v : Datum) → IsInOrder v → IsInOrder (deleted e v) }
    ensures rest_in_order { (v : Datum) → IsInOrder v → IsInOrder (without_least v) }
    ensures sound_in_order { (v : Datum) → IsSound v → IsInOrder v }
    ensures inserted_sound { (e v : Datum) → IsSound e → IsSound v → nesting e < VALUE_NESTING → IsShort (e ∷ elements v) →
        IsSound (inserted e v) }
    ensures deleted_sound { (e v : Datum) → IsSound v → IsSound (deleted e v) }
    ensures rest_sound { (v : Datum) → IsSound v → IsSound (without_least v) }
    // A value that a variable may hold has fewer than 10,000 characters or elements, so that one more keeps them short.
    ensures few { (v : Datum) → size_of v ≤ VALUE_SIZE → number_in v < VALUE_SIZE }
    ensures short { (e v : Datum) → size_of v ≤ VALUE_SIZE → IsShort (e ∷ elements v) }
    // The sizes of elements add up.
    ensures bag_size { (e : Datum) (w : Data) → size_of (inserted e (datum.bag w)) ≡ size_of (datum.bag w) + size_of e }
    ensures set_size { (e : Datum) (w : Data) → ¬ Contains (list_of w) e →
        size_of (inserted e (datum.set w)) ≡ size_of (datum.set w) + size_of e }
    ensures deleted_size { (e v : Datum) → Contains (elements v) e → size_of (deleted e v) + size_of e ≡ size_of v }
    ensures rest_size { (v e : Datum) → least_of v ≡ Ok e → size_of (without_least v) + size_of e ≡ size_of v }
{}

/// The laws of places in arrays, for proofs that stand on this crate; it does nothing.
pub fn places_law()
    // A place is one of an array's, as far behind its first as the index is above the low bound.
    ensures found { (count p : ℕ) (low index : ℤ) → place_of count low index ≡ Ok p → (p < count) × ((low +ℤ pos p) ≡ index) }
    ensures outside { (count : ℕ) (low index : ℤ) (fault : FaultKind) → place_of count low index ≡ Err fault →
        (fault ≡ IndexOutside) × IsOutside count low index }
    ensures inside { (count p : ℕ) (low : ℤ) → p < count → place_of count low (low +ℤ pos p) ≡ Ok p }
{}

/// The laws of strings, for proofs that stand on this crate; it does nothing.
pub fn texts_law()
    // Strings are joined where they are no longer than a string may be, and else too large.
    ensures joins { (s t : List ℕ) → OkIff (joined s t) (length s + length t ≤ TEXT_LENGTH) (s ++ t) }
    ensures too_large { (s t : List ℕ) → IsOkUnless (joined s t) TooLarge }
    // What is written has the codes of chars alone.
    ensures joined_codes { (s t u : List ℕ) → All IsCode s → All IsCode t → joined s t ≡ Ok u → All IsCode u }
    ensures told_codes { (names : List (List ℕ)) (v : Datum) → All (All IsCode) names → IsSound v → All IsCode (text_of names v) }
{}

/// What operators give on numbers at the edges, small sets and bags, and texts, computed; it does nothing.
pub fn operator_rows()
    ensures sum_above { sum_of (pos 9223372036854775807) (pos 1) ≡ Err Overflow }
    ensures sum_below { sum_of (negsuc 9223372036854775807) (negsuc 0) ≡ Err Overflow }
    ensures sum_at { sum_of (negsuc 9223372036854775807) (pos 9223372036854775807) ≡ Ok (negsuc 0) }
    ensures product_above { product_of (pos 4611686018427387904) (pos 2) ≡ Err Overflow }
    ensures product_at { product_of (pos 4611686018427387904) (negsuc 1) ≡ Ok (negsuc 9223372036854775807) }
    ensures quotient_above { quotient_of (negsuc 9223372036854775807) (negsuc 0) ≡ Err Overflow }
    ensures remainder_above { remainder_of (negsuc 9223372036854775807) (negsuc 0) ≡ Err Overflow }
    ensures negative_above { negative_of (negsuc 9223372036854775807) ≡ Err Overflow }
    ensures by_zero { (quotient_of (pos 7) (pos 0) ≡ Err DivideByZero) × (remainder_of (pos 7) (pos 0) ≡ Err DivideByZero) }
    // -7 / 2 is -3 and leaves -1; 7 / -2 is -3 and leaves 1.
    ensures cut_below { (quotient_of (negsuc 6) (pos 2) ≡ Ok (negsuc 2)) × (remainder_of (negsuc 6) (pos 2) ≡ Ok (negsuc 0)) }
    ensures cut_above { (quotient_of (pos 7) (negsuc 1) ≡ Ok (negsuc 2)) × (remainder_of (pos 7) (negsuc 1) ≡ Ok (pos 1)) }
    // 7 is divided by -1 without a fault.
    ensures turned { (quotient_of (pos 7) (negsuc 0) ≡ Ok (negsuc 6)) × (remainder_of (pos 7) (negsuc 0) ≡ Ok (pos 0)) }
    // A size is told up to 10,001.
    ensures sizes { (told_size 10000 ≡ 10000) × (told_size 10001 ≡ 10001) × (told_size 10002 ≡ 10001) }
    // An array of three from -1 on has its parts at -1, 0 and 1.
    ensures places { (place_of 3 (negsuc 0) (negsuc 0) ≡ Ok 0) × (place_of 3 (negsuc 0) (pos 1) ≡ Ok 2) }
    ensures no_places { (place_of 3 (negsuc 0) (negsuc 1) ≡ Err IndexOutside) × (place_of 3 (negsuc 0) (pos 2) ≡ Err IndexOutside) }
    ensures joined { joined (codes "ab") (codes "c") ≡ Ok (codes "abc") }
    ensures told { (text_of [] (datum.char 65) ≡ codes "A") × (text_of [] (datum.truth true) ≡ codes "true") }
    ensures told_least { text_of [] (datum.int (negsuc 9223372036854775807)) ≡ codes "-9223372036854775808" }
    ensures named { text_of (codes "red" ∷ codes "blue" ∷ []) (datum.enumerated 1) ≡ codes "blue" }
    ensures set_with { inserted two (set_of (one ∷ three ∷ [])) ≡ set_of (one ∷ two ∷ three ∷ []) }
    ensures set_same { inserted one (set_of (one ∷ three ∷ [])) ≡ set_of (one ∷ three ∷ []) }
    ensures bag_with { inserted one (bag_of (one ∷ three ∷ [])) ≡ bag_of (one ∷ one ∷ three ∷ []) }
    ensures bag_without { deleted one (bag_of (one ∷ one ∷ three ∷ [])) ≡ bag_of (one ∷ three ∷ []) }
    ensures from_first { (least_of (set_of (one ∷ three ∷ [])) ≡ Ok one) ×
        (without_least (set_of (one ∷ three ∷ [])) ≡ set_of (three ∷ [])) }
    ensures from_equals { without_least (bag_of (one ∷ one ∷ [])) ≡ bag_of (one ∷ []) }
    ensures from_empty { least_of (bag_of []) ≡ Err FromEmpty }
{}
