//! The labels of a text.

use octets::Word;
use std::alloc::{AllocFailed, Global};
use std::marker::Model;

/// A label of a text, with the place of its statement in bytes from the start of the code.
#[derive(Drop)]
pub struct Label {
    pub name: Word,
    pub place: u32,
}

/// The labels of a text in their order. A contract sees them as a list.
#[derive(Drop)]
pub struct Labels {
    items: Vec<Label>,
}

impl Model for Labels {
    ghost use Rattle.std.specs.Prelude.{List};
    ghost use Rattle.armv6m_asm.specs.declared.labels.Label.{Label};

    ghost Value = { List Label };

    ghost view = { λ l. l.items.items };
}

impl Labels {
    ghost use Rattle.std.specs.Prelude.{◌≡◌, ◌∷◌, ◌++◌, [], Contains, IfSome, MatchOption, OnOk};
    ghost use Rattle.armv6m_asm.specs.Label.{names_of, IsFirstNamed};

    /// Takes a vector of labels, without a copy.
    pub fn from_vec(items: Vec<Label>) -> Labels
        ensures { result ≡ items.items }
    {
        Labels { items }
    }

    /// An empty list of labels.
    pub(crate) fn new(alloc: Global) -> Labels
        ensures { result ≡ [] }
    {
        Labels {
            items: Vec::new(alloc),
        }
    }

    /// Adds a label at the end.
    pub(crate) fn push(&mut self, label: Label) -> Result<(), AllocFailed<Label>>
        ensures { OnOk result (self.new ≡ self.old ++ label ∷ []) }
    {
        self.items.push(label)
    }

    /// Turns the labels into a vector, without a copy.
    pub fn into_vec(self) -> Vec<Label>
        ensures { result.items ≡ self }
    {
        self.items
    }

    /// The labels as a slice.
    pub fn as_slice(&self) -> &[Label]
        ensures { result.now ≡ self.now }
    {
        self.items.as_slice()
    }

    /// The place of the first label with this name.
    pub fn get(&self, name: &[u8]) -> Option<u32>
        ensures cases { MatchOption result (Contains (names_of self.now) name.now → ⊥)
            (λ place. Contains self.now (record { name = name.now; place = place })) }
        ensures first { IfSome result (IsFirstNamed self.now name.now) }
    {
        for label in &self.items {
            if label.name.bytes() == name {
                return Some(label.place);
            }
        }
        None
    }
}
