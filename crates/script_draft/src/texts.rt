//! The texts of a script.

ghost use Rattle.std.specs.Prelude.{◌≡◌, ◌+◌, ◌++◌, ◌<◌, ◌≤◌, true, false, Ok, Err, map, drop, slice_get, length, IfOk, OnOk, IfErr, ◌↔◌};
ghost use Rattle.std.specs.Option.{option_copied};
ghost use Rattle.std.specs.String.{string_bytes};
ghost use Rattle.values.specs.Texts.{index_of, with_text, IsTable};
ghost use Rattle.text_lexer.specs.Token.{IsTokenOf};
ghost use Rattle.text_grammar.specs.declared.kind.Kind.TheVariants.{Text};
ghost use Rattle.text_grammar.specs.Class.{is_same};
ghost use Rattle.text_grammar.specs.Kind.{kind_of};
ghost use Rattle.component_meaning.specs.Names as names;
ghost use Rattle.token_parts.specs.Parts.{RefusesText};

use component_items::{Count, Refusal, Why};
use std::alloc::{AllocError, Global};
use std::marker::Model;
use text_lexer::{Lexer, Token};
use token_parts::{content, refused};
use values::limits::MOST_TEXTS;
use values::{NoMemory, TextRefusal, Texts};

/// The texts of a component, and behind them those that a script adds. Contracts see the bytes of all of them, in order of
/// number.
#[derive(Drop)]
pub struct ScriptTexts<'a> {
    base: &'a Texts,
    /// The empty text, and the texts that are added.
    added: Texts,
}

impl<'a> Model for ScriptTexts<'a> {
    ghost use Rattle.std.specs.Prelude.{◌≤◌, ℕ, List, length};
    ghost use Rattle.values.specs.Texts.{IsTable};
    ghost use Rattle.values.specs.declared.limits.TheConstants.{MOST_TEXTS};
    ghost use Rattle.script_draft.specs.Named.{both};
    ghost use Rattle.script_draft.specs.Added.{IsAdded};

    ghost Value = { List (List ℕ) };

    ghost view = { λ t. both t.base.now t.added };

    ghost invariant = { λ t. IsAdded t.base.now t.added };
}

impl<'a> ScriptTexts<'a> {
    /// The texts of a component alone.
    pub fn new(alloc: Global, base: &'a Texts) -> Result<ScriptTexts<'a>, NoMemory>
        ensures { IfOk result (λ texts. texts ≡ base.entry.now) }
    {
        let _ = base.len();
        Ok(ScriptTexts {
            base,
            added: Texts::new(alloc)?,
        })
    }

    /// How many texts there are.
    pub fn len(&self) -> usize
        ensures count { result ≡ length self.now }
        ensures table { IsTable self.now }
    {
        self.base.len() + self.added.len() - 1
    }

    /// The number of the text, where it is one of them.
    pub fn find(&self, text: &str) -> Option<u32>
        ensures { result ≡ index_of text.now self.now }
    {
        if let Some(number) = self.base.find(text) {
            return Some(number);
        }
        let number = self.added.find(text)?;
        let number = self.base.len() + number as usize - 1;
        Some(number as u32)
    }

    /// The text of this number.
    pub fn get(&self, number: usize) -> Option<&str>
        requires { number < length self.now }
        ensures { option_copied result ≡ slice_get self.now number }
    {
        match number.checked_sub(self.base.len()) {
            None => self.base.get(number as u32),
            Some(behind) => self.added.get(behind as u32 + 1),
        }
    }

    /// Copies of the texts from this number on.
    pub fn copies(&self, alloc: Global, first: usize) -> Result<Vec<String>, AllocError>
        requires { first ≤ length self.now }
        ensures { IfOk result (λ texts. map string_bytes texts.items ≡ drop first self.now) }
    {
        let mut texts = Vec::new(alloc);
        for number in first..self.len() {
            self.push_copy(alloc, &mut texts, number)?;
        }
        Ok(texts)
    }

    /// Adds a copy of the text of this number.
    fn push_copy(
        &self,
        alloc: Global,
        texts: &mut Vec<String>,
        number: usize,
    ) -> Result<(), AllocError>
        requires { number < length self.now }
        ensures { OnOk result (map string_bytes texts.new.items ++ drop (number + 1) self.now ≡ map string_bytes texts.old.items ++ drop number self.now) }
    {
        if let Some(text) = self.get(number) {
            texts.push(String::from_str(alloc, text)?)?;
        }
        Ok(())
    }

    /// The number of the text, which is added at the end where it is none of them yet.
    pub fn add(&mut self, text: &str) -> Result<u32, TextRefusal>
        ensures table { OnOk result (self.new ≡ with_text text.now self.old) }
        ensures number { IfOk result (λ number. number ≡ names.number_with text.now self.old) }
        ensures room { OnOk result (names.is_full text.now self.old ≡ false) }
        ensures full { (result ≡ Err TextRefusal.Full) ↔ (names.is_full text.now self.old ≡ true) }
    {
        if let Some(number) = self.find(text) {
            return Ok(number);
        }
        let number = self.len();
        if number == MOST_TEXTS {
            return Err(TextRefusal::Full);
        }
        if let Err(_) = self.added.add(text) {
            return Err(TextRefusal::NoMemory);
        }
        Ok(number as u32)
    }

    /// The number of what a text says, which is added where it is none of them yet. Where there is no room it is refused at
    /// the token's place.
    pub fn add_content(
        &mut self,
        alloc: Global,
        lexer: &Lexer<'_>,
        token: Token,
    ) -> Result<u32, Refusal>
        requires of_text { IsTokenOf lexer.now.text token }
        requires text { is_same Text (kind_of lexer.now.text (Ok token)).kind ≡ true }
        ensures table { OnOk result (self.new ≡ with_text (names.content_in lexer.now.text token) self.old) }
        ensures number { IfOk result (λ number. number ≡ names.number_with (names.content_in lexer.now.text token) self.old) }
        ensures room { OnOk result (names.is_full (names.content_in lexer.now.text token) self.old ≡ false) }
        ensures refused { IfErr result (RefusesText (names.is_full (names.content_in lexer.now.text token) self.old) (names.place_of token)) }
    {
        let text = content(alloc, lexer, token).map_err(|_| Refusal::NoMemory)?;
        match self.add(text.as_str()) {
            Ok(number) => Ok(number),
            Err(TextRefusal::Full) => Err(refused(Why::TooLarge(Count::Texts), token)),
            Err(TextRefusal::NoMemory) => Err(Refusal::NoMemory),
        }
    }
}
