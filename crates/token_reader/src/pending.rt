//! What has to come of a text.

ghost use Rattle.std.specs.Prelude.{◌≡◌, [], ◌∷◌, ◌++◌, MatchOption, OnOk};

use std::alloc::{AllocError, Global};
use std::marker::Model;

/// The symbols that have to come. Contracts see the list of them, the next one first. They are parts of
/// productions, and no symbol is copied: each part is what is left of one production.
#[derive(Drop)]
pub(crate) struct Pending<'a, T> {
    /// What comes first.
    front: &'a [T],
    /// What comes behind it, the next part last.
    behind: Vec<&'a [T]>,
}

impl<'a, T> Model for Pending<'a, T> {
    ghost use Rattle.std.specs.Prelude.{List, ◌++◌};
    ghost use Rattle.std.specs.Coded.{coded_list};
    ghost use Rattle.token_reader.specs.Pending.{joined};

    ghost Value = { List T };

    ghost coded = { coded_list T.code };

    ghost view = { λ p. p.front.now ++ joined p.behind.items };
}

impl<'a, T: Copy + Drop> Pending<'a, T> {
    /// These symbols alone, which take no memory.
    pub(crate) fn new(alloc: Global, symbols: &'a [T]) -> Pending<'a, T>
        ensures { result ≡ symbols.now }
    {
        Pending {
            front: symbols,
            behind: Vec::new(alloc),
        }
    }

    /// Takes the next symbol, if there is one.
    pub(crate) fn pop(&mut self) -> Option<T>
        ensures { MatchOption result ((self.old ≡ []) × (self.new ≡ [])) (λ top. self.old ≡ top ∷ self.new) }
    {
        loop {
            if let [first, rest @ ..] = self.front {
                self.front = rest;
                return Some(*first);
            }
            match self.behind.pop() {
                Some(next) => self.front = next,
                None => return None,
            }
        }
    }

    /// Puts the symbols before all others.
    pub(crate) fn push_all(&mut self, symbols: &'a [T]) -> Result<(), AllocError>
        ensures { OnOk result (self.new ≡ symbols.now ++ self.old) }
    {
        if !self.front.is_empty() {
            self.behind.push(self.front)?;
        }
        self.front = symbols;
        Ok(())
    }
}
