ghost use Rattle.std.specs.Prelude.{◌≡◌, ◌<◌, ℕ, List, All, length};
ghost use Rattle.m_key.specs.Node.{Node, IsNode};
ghost use Rattle.m_text.specs.Grammar.{IsValueText, IsReferenceText, IsNullReferenceText};
ghost use Rattle.m_text.specs.Written.{value_text, reference_text, null_reference_text};

/// The text in which a value is written stands for that value.
pub fn written_value()
    ensures { (value : List ℕ) → All (λ b. b < 256) value → IsValueText (value_text value) value }
{}

/// A text stands for one value at most.
pub fn one_value()
    ensures { (text a b : List ℕ) → IsValueText text a → IsValueText text b → a ≡ b }
{}

/// The text in which a reference is written stands for that reference.
pub fn written_reference()
    ensures { (node : Node) → IsNode node → IsReferenceText (reference_text node) node }
{}

/// A text stands for one reference at most.
pub fn one_reference()
    ensures { (text : List ℕ) (a b : Node) → IsReferenceText text a → IsReferenceText text b → a ≡ b }
{
    m_number::one_text();
}

/// The text in which a reference is written with the null subscript behind its own stands for that.
pub fn written_null_reference()
    ensures { (node : Node) → IsNode node → length node.subscripts < 31
        → IsNullReferenceText (null_reference_text node) node }
{}

/// A text with the null subscript stands for one node at most, and for none without it.
pub fn one_null_reference()
    ensures one { (text : List ℕ) (a b : Node) → IsNullReferenceText text a → IsNullReferenceText text b → a ≡ b }
    ensures apart { (text : List ℕ) (a b : Node) → IsReferenceText text a → IsNullReferenceText text b → ⊥ }
{
    m_number::one_text();
}
