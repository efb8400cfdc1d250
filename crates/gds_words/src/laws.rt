ghost use Rattle.std.specs.Prelude.{◌≡◌, ◌≤◌, ℕ, List, length};
ghost use Rattle.gds_words.specs.Script.{Request, Asks, IsRight, request_text};

use crate::script::LINE_MAX;

/// A line asks for one thing at most.
pub fn one_request()
    ensures { (line : List ℕ) (a b : Request) → Asks line a → Asks line b → a ≡ b }
{
    m_text::one_reference();
    m_text::one_null_reference();
    m_text::one_value();
}

/// The line in which a request is written asks for it, where it isn't too long.
pub fn written_request()
    ensures { (request : Request) → IsRight request → length (request_text request) ≤ LINE_MAX
        → Asks (request_text request) request }
{
    m_text::written_reference();
    m_text::written_null_reference();
    m_text::written_value();
}
