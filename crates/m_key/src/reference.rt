ghost use Rattle.std.specs.Prelude.{◌≡◌, ◌≤◌, length, vec_len};

use crate::{Name, Subscript};

/// No reference has more subscripts.
pub const SUBSCRIPT_LIMIT: usize = 31;

/// At most 31 subscripts.
#[derive(Debug, PartialEq, Eq, Drop)]
pub struct Subscripts {
    items: Vec<Subscript>,
    pub ghost count: { vec_len items ≤ 31 },
}

impl Subscripts {
    ghost use Rattle.m_key.specs.Reference.{subscript_list};

    /// These subscripts, of which there are at most 31.
    pub fn new(items: Vec<Subscript>) -> Self
        requires { vec_len items ≤ 31 }
        ensures { subscript_list result ≡ items.items }
    {
        Subscripts { items }
    }

    /// The subscripts.
    pub fn as_slice(&self) -> &[Subscript]
        ensures items { result.now ≡ subscript_list self.now }
        ensures count { length result.now ≤ 31 }
    {
        self.items.as_slice()
    }

    /// The subscripts, without their limit.
    pub fn into_vec(self) -> Vec<Subscript>
        ensures items { result.items ≡ subscript_list self }
        ensures count { vec_len result ≤ 31 }
    {
        self.items
    }
}

/// A reference to a node of a global.
#[derive(Debug, PartialEq, Eq, Drop)]
pub struct Reference {
    /// The name of the global.
    pub name: Name,
    /// The node's subscripts.
    pub subscripts: Subscripts,
}
