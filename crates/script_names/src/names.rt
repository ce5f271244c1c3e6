//! The names of a component.

ghost use Rattle.std.specs.Prelude.{◌≡◌, ◌==◌, ◌&&◌, ℕ, [], ◌++◌, None, Some, is_some, if◌then◌else◌, nat_eq, slice_get, OnOk, OnErr};
ghost use Rattle.std.specs.HashMap.{get};
ghost use Rattle.std.specs.Option.{option_copied, option_map};
ghost use Rattle.script_meaning.specs.Names.{declared, find_name};
ghost use Rattle.script_names.specs.Named.{named_as};

use crate::what::What;
use std::alloc::{AllocError, Global};
use std::collections::HashMap;
use std::marker::Model;

/// A name that is declared directly in the area with this owner, or at the top, which is owner 0.
#[derive(Drop)]
pub(crate) struct Declared<'a> {
    owner: u32,
    name: u32,
    what: What<'a>,
}

/// The names that a component declares, in text order. Contracts see the list of them. What a name stands for in an area
/// is found at once.
#[derive(Drop)]
pub struct Names<'a> {
    declared: Vec<Declared<'a>>,
    /// The place of the first declaration of each name, by the owner and the name's number.
    places: HashMap<(u32, u32), usize>,
}

impl<'a> Model for Names<'a> {
    ghost use Rattle.std.specs.Prelude.{◌≡◌, ◌==◌, ◌&&◌, ℕ, List, map, position, nat_eq};
    ghost use Rattle.std.specs.HashMap.{get};
    ghost use Rattle.script_meaning.specs.Names.{Declaration};

    ghost Value = { List Declaration };

    ghost use Rattle.script_names.specs.Named.{declaration_of};

    ghost view = { λ n. map declaration_of n.declared.items };

    ghost invariant = { λ n. (owner name : ℕ) → get (λ a b. nat_eq a.0 b.0 && nat_eq a.1 b.1) n.places (owner, name) ≡ position (λ d. d.owner == owner && d.name == name) (map declaration_of n.declared.items) };
}

/// What the declaration at a place stands for.
fn what_at<'n, 'a>(declared: &'n [Declared<'a>], place: usize) -> Option<&'n What<'a>>
    ensures { option_copied result ≡ option_map (λ d. d.what) (slice_get declared.now place) }
{
    let declared = declared.get(place)?;
    Some(&declared.what)
}

/// Notes the place of a name, where the name has none yet.
fn note_place(
    places: &mut HashMap<(u32, u32), usize>,
    owner: u32,
    name: u32,
    place: usize,
) -> Result<(), AllocError>
    ensures noted { OnOk result ((o n : ℕ) → get (λ a b. nat_eq a.0 b.0 && nat_eq a.1 b.1) places.new (o, n) ≡
        (if is_some (get (λ a b. nat_eq a.0 b.0 && nat_eq a.1 b.1) places.old (o, n)) then get (λ a b. nat_eq a.0 b.0 && nat_eq a.1 b.1) places.old (o, n)
        else (if owner == o && name == n then Some place else None))) }
    ensures unchanged { OnErr result ((o n : ℕ) → get (λ a b. nat_eq a.0 b.0 && nat_eq a.1 b.1) places.new (o, n) ≡ get (λ a b. nat_eq a.0 b.0 && nat_eq a.1 b.1) places.old (o, n)) }
{
    if !places.contains_key(&(owner, name)) {
        places.insert((owner, name), place)?;
    }
    Ok(())
}

impl<'a> Names<'a> {
    /// No names.
    pub(crate) fn empty(alloc: Global) -> Names<'a>
        ensures { result ≡ [] }
    {
        Names {
            declared: Vec::new(alloc),
            places: HashMap::new(alloc),
        }
    }

    /// What the name stands for, where it is declared directly in the area with this owner, or at the top for owner 0.
    pub fn find(&self, owner: u32, name: u32) -> Option<&What<'a>>
        ensures { option_map named_as (option_copied result) ≡ find_name owner name self.now }
    {
        let place = *self.places.get(&(owner, name))?;
        what_at(self.declared.as_slice(), place)
    }

    /// Declares a name behind the others.
    pub(crate) fn declare(
        &mut self,
        owner: u32,
        name: u32,
        what: What<'a>,
    ) -> Result<(), AllocError>
        ensures { OnOk result (self.new ≡ self.old ++ declared owner name (named_as what.entry)) }
    {
        let place = self.declared.len();
        self.declared.push(Declared { owner, name, what })?;
        if let Err(error) = note_place(&mut self.places, owner, name, place) {
            self.declared.pop();
            return Err(error);
        }
        Ok(())
    }
}
