ghost use Rattle.std.specs.Prelude.{◌≡◌, ◌<◌, ◌+◌, ◌↔◌, ℕ, List, length, All, IsTrue};
ghost use Rattle.host_model.specs.Units.{block_length, unit_bytes};
ghost use Rattle.m_number.specs.Numeral.{Numeral, IsNumeral};
ghost use Rattle.m_number.specs.Text.{text_of};
ghost use Rattle.m_number.specs.Bytes.{bytes_of};
ghost use Rattle.m_key.specs.Node.{Node, IsNode};
ghost use Rattle.m_key.specs.Key.{key_bytes};
ghost use Rattle.m_key.specs.KeyEnd.{key_len};
ghost use Rattle.gds_header.specs.Fields.{fields_of, block_of};
ghost use Rattle.gds_law.specs.Number.{is_number_text, is_number_bytes};
ghost use Rattle.gds_law.specs.Key.{key_fault};

/// The blocks of a file's units are as long as its header says, and unit n + 1 is block n.
pub fn units_are_blocks()
    ensures length { (file : List ℕ) → block_length file ≡ (fields_of file).block_size }
    ensures bytes { (file : List ℕ) (n : ℕ) → unit_bytes file (n + 1) ≡ block_of file n }
{}

/// The test of numbers' texts passes those that a number has.
pub fn text_test()
    ensures { (text : List ℕ) → IsTrue (is_number_text text)
        ↔ ((n : Numeral) × IsNumeral n × (text_of n ≡ text)) }
{}

/// The test of numbers' bytes passes those that a number has.
pub fn bytes_test()
    ensures { (bytes : List ℕ) → IsTrue (is_number_bytes bytes)
        ↔ ((n : Numeral) × IsNumeral n × (bytes_of n ≡ bytes)) }
{}

/// Bytes that end with their first two neighbouring 0 bytes have no fault of their name and their subscripts exactly
/// where they are a node's key.
pub fn key_test()
    ensures { (key : List ℕ) → key_len key ≡ Some (length key) → All (λ b. b < 256) key
        → (key_fault key ≡ None) ↔ ((n : Node) × IsNode n × (key_bytes n ≡ key)) }
{}
