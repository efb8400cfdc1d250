ghost use Rattle.std.specs.Prelude.{◌≡◌, ◌≢◌, ◌↔◌, ℕ, List, ◌++◌, IsTrue};
ghost use Rattle.std.specs.Ordering.{nat_cmp};
ghost use Rattle.std.specs.Cmp.{IsTotalOrder};
ghost use Rattle.std.specs.FinMap.{IsAntisymmetric, get};
ghost use Rattle.std.specs.Cmp.Lexicographic.{slice_cmp};
ghost use Rattle.m_key.specs.Node.{Node, IsNode};
ghost use Rattle.m_key.specs.Key.{key_bytes, lead_bytes, past_bytes, AtMost, Below};
ghost use Rattle.m_key.specs.Collation.{reference_cmp, Leads};
ghost use Rattle.m_key.specs.Globals.{Place, Globals, place_cmp, set_value, kill, after, is_led};

/// Keys, compared byte by byte, stand in the order of their nodes.
pub fn order()
    ensures { (a b : Node) → IsNode a → IsNode b
        → slice_cmp nat_cmp (key_bytes a) (key_bytes b) ≡ reference_cmp a b }
{}

/// No node's key begins another's, so no two nodes have the same key.
pub fn no_key_begins_another()
    ensures same { (a b : Node) → IsNode a → IsNode b → key_bytes a ≡ key_bytes b → a ≡ b }
    ensures begun { (a b : Node) (rest : List ℕ) → IsNode a → IsNode b
        → key_bytes b ≡ key_bytes a ++ rest → a ≡ b }
{}

/// The keys of a node and its descendants are those that begin with the node's key but for its last byte,
/// and those that stand from the node's key up to these bytes with a last 1.
pub fn descendants()
    ensures begun { (a b : Node) → IsNode a → IsNode b
        → Leads a b ↔ ((rest : List ℕ) × (key_bytes b ≡ lead_bytes a ++ rest)) }
    ensures between { (a b : Node) → IsNode a → IsNode b
        → Leads a b ↔ (AtMost (key_bytes a) (key_bytes b) × Below (key_bytes b) (past_bytes a)) }
    ensures test { (a b : Node) → IsNode a → IsNode b → IsTrue (is_led a b) ↔ Leads a b }
{}

/// The order of the nodes that there are is total, and no two of them tie.
pub fn places()
    ensures total { IsTotalOrder place_cmp }
    ensures same { IsAntisymmetric place_cmp }
{}

/// A SET gives its node the value and leaves the others; a KILL takes the values of its node and that
/// node's descendants, and leaves the others.
pub fn changes()
    ensures set_here { (m : Globals) (p : Place) (v : List ℕ) → get (after m (set_value p v)) p ≡ Some v }
    ensures set_elsewhere { (m : Globals) (p q : Place) (v : List ℕ) → q ≢ p
        → get (after m (set_value p v)) q ≡ get m q }
    ensures killed { (m : Globals) (p q : Place) → Leads p.node q.node → get (after m (kill p)) q ≡ None }
    ensures spared { (m : Globals) (p q : Place) → (Leads p.node q.node → ⊥)
        → get (after m (kill p)) q ≡ get m q }
{}
