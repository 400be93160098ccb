//! Whether parts of texts are the same.

ghost use Rattle.std.specs.Prelude.{◌≡◌};
ghost use Rattle.std.specs.Bool.{Decides};

use norm_lang::text::{CasEntry, FieldDecl, Name, NodeDecl, RootDecl, Start};

/// What can be compared with another of its type.
pub(crate) trait Same {
    fn is_same(&self, other: &Self) -> bool
        ensures { Decides result (self.now ≡ other.now) };
}

impl Same for Start {
    fn is_same(&self, other: &Start) -> bool {
        *self == *other
    }
}

impl Same for CasEntry {
    fn is_same(&self, other: &CasEntry) -> bool {
        self.place == other.place
            && self.expected == other.expected
            && self.replacement == other.replacement
            && self.retire == other.retire
    }
}

impl Same for Name {
    fn is_same(&self, other: &Name) -> bool {
        self.items() == other.items()
    }
}

impl Same for FieldDecl {
    fn is_same(&self, other: &FieldDecl) -> bool {
        self.name.items() == other.name.items()
            && self.owner == other.owner
            && self.kind == other.kind
    }
}

impl Same for RootDecl {
    fn is_same(&self, other: &RootDecl) -> bool {
        self.name.items() == other.name.items()
            && self.kind == other.kind
            && self.start == other.start
    }
}

impl Same for NodeDecl {
    fn is_same(&self, other: &NodeDecl) -> bool {
        self.owner == other.owner && are_same(self.values.items(), other.values.items())
    }
}

/// Whether two lists have the same items.
pub(crate) fn are_same<T: Same>(items: &[T], others: &[T]) -> bool
    ensures { Decides result (items.now ≡ others.now) }
{
    let mut rest = others;
    for item in items {
        let Some((first, behind)) = rest.split_first() else {
            return false;
        };
        if !item.is_same(first) {
            return false;
        }
        rest = behind;
    }
    rest.is_empty()
}
