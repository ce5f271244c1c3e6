//! Tables of texts.
ghost use Rattle.std.specs.Prelude.{◌≡◌, ℕ, [], ◌∷◌, ◌↔◌, ◌<◌, length, slice_get, IsSome, IfOk, OnErr, None};
ghost use Rattle.std.specs.Option.{option_copied};
ghost use Rattle.values.specs.Texts.{index_of, with_text, IsTable};

use crate::limits::MOST_TEXTS;
use crate::memory::NoMemory;
use indexmap::IndexSet;
use std::alloc::{AllocError, Global};
use std::marker::Model;
use thiserror::Error;

/// Why a text was not added.
#[derive(Clone, Copy, Debug, PartialEq, Eq, Error)]
pub enum TextRefusal {
    /// The table holds 65,536 texts, and this is none of them.
    #[error("the table of texts is full")]
    Full,
    /// Memory could not be had.
    #[error("out of memory")]
    NoMemory,
}

/// Texts by number, each held once. Text 0 is the empty text. Contracts see the list of the texts'
/// bytes.
#[derive(Drop)]
pub struct Texts {
    texts: IndexSet<String>,
}

impl Model for Texts {
    ghost use Rattle.std.specs.Prelude.{ℕ, List, map};
    ghost use Rattle.std.specs.String.{string_bytes};
    ghost use Rattle.values.specs.Texts.{IsTable};

    ghost Value = { List (List ℕ) };

    ghost view = { λ t. map string_bytes t.texts.keys };

    ghost invariant = { λ t. IsTable (map string_bytes t.texts.keys) };
}

impl Texts {
    /// The table of the empty text alone.
    pub fn new(alloc: Global) -> Result<Texts, NoMemory>
        ensures { IfOk result (λ table. table ≡ [] ∷ []) }
    {
        let mut texts = IndexSet::new(alloc);
        let empty = String::from_str(alloc, "")?;
        texts.insert(empty)?;
        Ok(Texts { texts })
    }

    /// How many texts the table holds, the empty one included.
    pub fn len(&self) -> usize
        ensures count { result ≡ length self.now }
        ensures table { IsTable self.now }
    {
        self.texts.len()
    }

    /// The number of the text, where the table holds it.
    pub fn find(&self, text: &str) -> Option<u32>
        ensures { result ≡ index_of text.now self.now }
    {
        let index = self.texts.get_index_of(text)?;
        Some(index as u32)
    }

    /// The text of this number.
    pub fn get(&self, index: u32) -> Option<&str>
        ensures text { option_copied result ≡ slice_get self.now index }
        ensures within { IsSome result ↔ (index < length self.now) }
    {
        let text = self.texts.get_index(index as usize)?;
        Some(text.as_str())
    }

    /// The number of the text, which is added at the end where the table does not hold it yet. After
    /// an error the table is as it was.
    pub fn add(&mut self, text: &str) -> Result<u32, TextRefusal>
        ensures table { IfOk result (λ index. self.new ≡ with_text text.now self.old) }
        ensures index { IfOk result (λ index. index_of text.now self.new ≡ Some index) }
        ensures full { (result ≡ Err TextRefusal.Full)
            ↔ ((index_of text.now self.old ≡ None) × (length self.old ≡ MOST_TEXTS)) }
        ensures unchanged { OnErr result (self.new ≡ self.old) }
    {
        if let Some(index) = self.find(text) {
            return Ok(index);
        }
        let index = self.texts.len();
        if index == MOST_TEXTS {
            return Err(TextRefusal::Full);
        }
        let alloc = *self.texts.allocator();
        let text = String::from_str(alloc, text).map_err(|_| TextRefusal::NoMemory)?;
        self.texts.insert(text).map_err(|_| TextRefusal::NoMemory)?;
        Ok(index as u32)
    }
}
