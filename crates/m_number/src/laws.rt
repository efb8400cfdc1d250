ghost use Rattle.std.specs.Prelude.{◌≡◌, ◌<◌, ◌≤◌, ℕ, length, All, slice_index};
ghost use Rattle.std.specs.Ordering.{nat_cmp, int_cmp};
ghost use Rattle.std.specs.Cmp.Lexicographic.{slice_cmp};
ghost use Rattle.m_number.specs.Numeral.{Numeral, IsNumeral};
ghost use Rattle.m_number.specs.Text.{text_of};
ghost use Rattle.m_number.specs.Bytes.{bytes_of};
ghost use Rattle.m_number.specs.Order.{number_cmp};
ghost use Rattle.m_number.specs.Value.{value_of};

/// No two numbers have the same text.
pub fn one_text()
    ensures { (a b : Numeral) → IsNumeral a → IsNumeral b → text_of a ≡ text_of b → a ≡ b }
{}

/// No two numbers have the same bytes.
pub fn one_encoding()
    ensures { (a b : Numeral) → IsNumeral a → IsNumeral b → bytes_of a ≡ bytes_of b → a ≡ b }
{}

/// The bytes of numbers, compared one after another, are in the order of the numbers.
pub fn order()
    ensures { (a b : Numeral) → IsNumeral a → IsNumeral b
        → slice_cmp nat_cmp (bytes_of a) (bytes_of b) ≡ number_cmp a b }
{}

/// No text of a number is longer.
pub fn text_bound()
    ensures { (n : Numeral) → IsNumeral n → length (text_of n) ≤ 62 }
{}

/// What the bytes of each number keep to.
pub fn byte_bounds()
    ensures count { (n : Numeral) → IsNumeral n → (1 ≤ length (bytes_of n)) × (length (bytes_of n) ≤ 11) }
    ensures first { (n : Numeral) → IsNumeral n → slice_index (bytes_of n) 0 < 255 }
    ensures each { (n : Numeral) → IsNumeral n → All (λ b. (0 < b) × (b < 256)) (bytes_of n) }
{}

/// The order of numbers is that of their values.
pub fn order_by_value()
    ensures { (a b : Numeral) → IsNumeral a → IsNumeral b → int_cmp (value_of a) (value_of b) ≡ number_cmp a b }
{}
