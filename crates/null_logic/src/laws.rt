//! Laws of the definitions: each is the contract of a function that does nothing.
ghost use Rattle.std.specs.Prelude.{◌≡◌, ◌≢◌, ◌↔◌, ◌<◌, ◌-◌, ◌^◌, ℕ, ℤ, pos, negsuc, neg_ℤ, ◌+ℤ◌, ◌*ℤ◌, ◌≤ℤ◌, unsigned_abs, FitsSigned, Bool, true, false, not, ◌&&◌, List, [], ◌∷◌, ◌++◌, length, map, All, Contains, IsTrue, IsFalse, IsNone, IfSome, Some, Ok, Err};
ghost use Rattle.std.specs.Bool.{Decides};
ghost use Rattle.std.specs.Int.{w64};
ghost use Rattle.std.specs.List.{list_any};
ghost use Rattle.null_logic.specs.Arithmetic.{exact, divides, fits_64, calculate, negate};
ghost use Rattle.null_logic.specs.Comparison.{compare_values, opposite, mirrored, between, in_list};
ghost use Rattle.null_logic.specs.Like.{any_run, any_one, like, IsLiteral};
ghost use Rattle.null_logic.specs.Logic.{truth_and, truth_or, truth_not, is_true};
ghost use Rattle.null_logic.specs.Operators.{HasKey, entry_of, keys_differ, operator_table, row_spelling, row_of};
ghost use Rattle.null_logic.specs.declared.arith.Arith.{Arith};
ghost use Rattle.null_logic.specs.declared.compare.Compare.{Compare};
ghost use Rattle.null_logic.specs.declared.operator.OpRow.{OpRow};
ghost use Rattle.null_logic.specs.declared.run_fault.RunFault.{RunFault};
ghost use Rattle.null_logic.specs.declared.truth.Truth.{Truth};
ghost use Rattle.null_logic.specs.declared.truth.Truth.TheVariants.{False};
ghost use Rattle.perm_values.specs.Values.{same_value, is_null};
ghost use Rattle.perm_values.specs.declared.value.Value.{Value as Cell};

use crate::OPERATORS;

/// AND, OR and NOT: De Morgan's laws, double negation, and that order and grouping don't count.
pub fn connectives_have_their_laws()
    ensures not_and { (a b : Truth) → truth_not (truth_and a b) ≡ truth_or (truth_not a) (truth_not b) }
    ensures not_or { (a b : Truth) → truth_not (truth_or a b) ≡ truth_and (truth_not a) (truth_not b) }
    ensures not_not { (a : Truth) → truth_not (truth_not a) ≡ a }
    ensures and_commutes { (a b : Truth) → truth_and a b ≡ truth_and b a }
    ensures or_commutes { (a b : Truth) → truth_or a b ≡ truth_or b a }
    ensures and_associates { (a b c : Truth) →
        truth_and (truth_and a b) c ≡ truth_and a (truth_and b c) }
    ensures or_associates { (a b c : Truth) → truth_or (truth_or a b) c ≡ truth_or a (truth_or b c) }
{}

/// `NOT (a = b)` is `a <> b` and its kin, `a < b` is `b > a` and its kin, and `a = b` is true exactly where the values
/// are the same and neither is NULL.
pub fn comparisons_have_their_laws()
    ensures negated { (op : Compare) (a b : Cell) →
        truth_not (compare_values op a b) ≡ compare_values (opposite op) a b }
    ensures turned { (op : Compare) (a b : Cell) →
        compare_values op a b ≡ compare_values (mirrored op) b a }
    ensures equality { (a b : Cell) →
        is_true (compare_values Compare.Equal a b) ≡ (not (is_null a) && not (is_null b) && same_value a b) }
{}

/// `a BETWEEN x AND y` is `a >= x AND a <= y`, and `NOT` of it is `a < x OR a > y`. `a IN (..)` is the OR of the
/// equalities: true exactly where some equality is, false exactly where all are, and `NOT` of it is the AND of `a <> ..`.
pub fn between_and_in_are_short_for_comparisons()
    ensures between { (a low high : Cell) →
        between a low high ≡ truth_and (compare_values Compare.GreaterEqual a low)
        (compare_values Compare.LessEqual a high) }
    ensures not_between { (a low high : Cell) →
        truth_not (between a low high)
        ≡ truth_or (compare_values Compare.Less a low) (compare_values Compare.Greater a high) }
    ensures in_none { (a : Cell) → in_list a [] ≡ False }
    ensures in_more { (a v : Cell) (vs : List Cell) →
        in_list a (v ∷ vs) ≡ truth_or (compare_values Compare.Equal a v) (in_list a vs) }
    ensures in_true { (a : Cell) (vs : List Cell) →
        is_true (in_list a vs) ≡ list_any (λ v. is_true (compare_values Compare.Equal a v)) vs }
    ensures in_false { (a : Cell) (vs : List Cell) →
        (in_list a vs ≡ False) ↔ All (λ v. compare_values Compare.Equal a v ≡ False) vs }
    ensures not_in { (a v : Cell) (vs : List Cell) →
        truth_not (in_list a (v ∷ vs))
        ≡ truth_and (compare_values Compare.NotEqual a v) (truth_not (in_list a vs)) }
{}

/// Quotient and remainder give back the dividend; the remainder is smaller than the divisor and has the dividend's
/// sign. At the least integer only `% -1` has a result that fits.
pub fn division_goes_towards_zero()
    ensures whole { (a b : ℤ) → (exact Arith.Divide a b *ℤ b) +ℤ exact Arith.Remainder a b ≡ a }
    ensures smaller { (a b : ℤ) →
        b ≢ pos 0 → unsigned_abs (exact Arith.Remainder a b) < unsigned_abs b }
    ensures of_positive { (a b : ℤ) → pos 0 ≤ℤ a → pos 0 ≤ℤ exact Arith.Remainder a b }
    ensures of_negative { (a b : ℤ) → a ≤ℤ pos 0 → exact Arith.Remainder a b ≤ℤ pos 0 }
    ensures least_quotient { calculate Arith.Divide (negsuc (2 ^ 63 - 1)) (negsuc 0)
        ≡ Err RunFault.OutOfRange }
    ensures least_remainder { calculate Arith.Remainder (negsuc (2 ^ 63 - 1)) (negsuc 0) ≡ Ok (pos 0) }
    ensures least_negated { negate (negsuc (2 ^ 63 - 1)) ≡ Err RunFault.OutOfRange }
{}

/// When arithmetic has which fault. A number fits exactly where it is an `i64`.
pub fn arithmetic_faults_have_their_causes()
    ensures fits { (z : ℤ) → IsTrue (fits_64 z) ↔ FitsSigned w64 z }
    ensures by_zero { (op : Arith) (a b : ℤ) →
        (calculate op a b ≡ Err RunFault.DivideByZero) ↔ (IsTrue (divides op) × (b ≡ pos 0)) }
    ensures out_of_range { (op : Arith) (a b : ℤ) →
        (calculate op a b ≡ Err RunFault.OutOfRange)
        ↔ (¬ (IsTrue (divides op) × (b ≡ pos 0)) × IsFalse (fits_64 (exact op a b))) }
    ensures negated { (a : ℤ) →
        IsTrue (fits_64 a) → (negate a ≡ Err RunFault.OutOfRange) ↔ (a ≡ negsuc (2 ^ 63 - 1)) }
{}

/// LIKE: a pattern without wildcards matches itself alone, `%` every text, `_` the texts of one character, and two
/// patterns in a row match what falls into two parts that they match.
pub fn like_has_its_laws()
    ensures literal { (text pattern : List ℕ) →
        All IsLiteral pattern → Decides (like text pattern) (text ≡ pattern) }
    ensures run { (text : List ℕ) → like text (any_run ∷ []) ≡ true }
    ensures one { (text : List ℕ) → Decides (like text (any_one ∷ [])) (length text ≡ 1) }
    ensures joined { (text pattern more further : List ℕ) →
        like text pattern ≡ true → like more further ≡ true
        → like (text ++ more) (pattern ++ further) ≡ true }
    ensures parted { (text pattern further : List ℕ) →
        like text (pattern ++ further) ≡ true
        → (front : List ℕ) × (back : List ℕ) × (text ≡ front ++ back) × (like front pattern ≡ true)
        × (like back further ≡ true) }
{}

/// What a look-up in a table finds has the key and stands in the table, and it finds nothing exactly where no row has
/// the key. Where the keys differ, it finds each row.
pub fn look_up_is_exact()
    ensures found { (rows : List OpRow) (spelling : List ℕ) (prefix : Bool) →
        IfSome (row_of rows spelling prefix) (λ row. HasKey spelling prefix row × Contains rows row) }
    ensures absent { (rows : List OpRow) (spelling : List ℕ) (prefix : Bool) →
        IsNone (row_of rows spelling prefix) ↔ All (λ row. ¬ (HasKey spelling prefix row)) rows }
    ensures each { (rows : List OpRow) →
        IsTrue (keys_differ rows) → (row : OpRow) → Contains rows row
        → row_of rows (row_spelling row) row.prefix ≡ Some row }
{}

/// `OPERATORS` has the rows of the table, and no two of them have one key.
pub fn operators_are_their_table()
    ensures rows { map entry_of OPERATORS.rows ≡ operator_table }
    ensures distinct { IsTrue (keys_differ OPERATORS.rows) }
{}
