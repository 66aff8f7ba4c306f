ghost use Rattle.std.specs.Prelude.{◌≡◌, ◌≤◌, Some, [], length};
ghost use Rattle.std.specs.Cmp.{on_po};
ghost use Rattle.std.specs.Cmp.Lexicographic.{texts_po};
ghost use Rattle.names.specs.Order.{by_bytes};
ghost use Rattle.names.specs.Names.{text_of};
ghost use Rattle.names.specs.Refusals.{Answers, oversize_over};

use crate::error::Refusal;
use bounded::list::Bounded;
use std::cmp::Ordering;

/// The most bytes of one part of a name.
pub const NAME_BYTES: usize = 32;

/// The most bytes of a full name: four parts and the points between them.
pub const FULL_NAME_BYTES: usize = 131;

/// A text of at most `N` bytes, any of them.
#[derive(Clone, Copy, PartialEq, Eq, Ord)]
pub struct Text<const N: usize> {
    pub(crate) bytes: Bounded<u8, N>,
}

/// A part of a name: at most 32 bytes.
pub type Name = Text<NAME_BYTES>;

/// A column's name with the parts of its reference: at most 131 bytes.
pub type FullName = Text<FULL_NAME_BYTES>;

// Calls of `Bounded`, as each list has them in its own crate.
impl<const N: usize> Text<N> {
    pub fn empty() -> Self
        ensures { text_of result ≡ [] }
    {
        Text {
            bytes: Bounded::new(0),
        }
    }

    pub fn new(text: &[u8]) -> Result<Self, Refusal>
        ensures { Answers result (oversize_over N text.now) (λ n. text_of n ≡ text.now) }
    {
        Ok(Text {
            bytes: Bounded::from_slice(0, text)?,
        })
    }

    pub fn as_bytes(&self) -> &[u8]
        ensures value { result.now ≡ text_of self.now }
        ensures few { length result.now ≤ N }
    {
        self.bytes.as_slice()
    }
}

// Not derived: the library orders lists of elements one by one, and lists of bytes by whole words, which `cmp` does.
impl<const N: usize> PartialOrd for Text<N> {
    ghost partial_cmp = { λ a b. Some (by_bytes (text_of a) (text_of b)) };

    ghost laws = { on_po text_of texts_po };

    fn partial_cmp(&self, other: &Text<N>) -> Option<Ordering> {
        Some(self.cmp(other))
    }
}
