//! The name of a tag or attribute, which is made of one token or more.

ghost use Rattle.std.specs.Prelude.{◌≡◌, [], ◌++◌, OnOk, Some, None};
ghost use Rattle.component_meaning.specs.Names.{first_of};
ghost use Rattle.component_meaning.specs.State as spec;

use component_items::Place;
use std::alloc::{AllocError, Global};
use std::marker::Model;

/// The name of a tag or attribute, as far as it was read. Its bytes stand in memory that is used again for each
/// name, so a further name takes none.
#[derive(Drop)]
pub struct Spelling {
    bytes: String,
    place: Place,
    wide: Option<Place>,
}

impl Model for Spelling {
    ghost use Rattle.std.specs.String.{string_bytes};
    ghost use Rattle.component_meaning.specs.State.{Spelling as Spelled};

    ghost Value = { Spelled };

    ghost view = { λ s. record { bytes = string_bytes s.bytes; place = s.place; wide = s.wide } };
}

impl Spelling {
    /// No name yet.
    pub fn new(alloc: Global) -> Spelling
        ensures { result ≡ spec.unspelled }
    {
        Spelling {
            bytes: String::new(alloc),
            place: Place { line: 1, column: 1 },
            wide: None,
        }
    }

    /// Its bytes.
    pub fn as_str(&self) -> &str
        ensures { result.now ≡ self.now.bytes }
    {
        self.bytes.as_str()
    }

    /// The place of its first token.
    pub fn place(&self) -> Place
        ensures { result ≡ self.now.place }
    {
        self.place
    }

    /// The place of the first number in it that is too great.
    pub fn wide(&self) -> Option<Place>
        ensures { result ≡ self.now.wide }
    {
        self.wide
    }

    /// A name begins with this token, which stands at this place.
    pub fn begin(&mut self, bytes: &str, place: Place) -> Result<(), AllocError>
        ensures { OnOk result (self.new ≡ record { bytes = bytes.now; place = place; wide = None }) }
    {
        self.bytes.clear();
        self.bytes.push_str(bytes)?;
        self.place = place;
        self.wide = None;
        Ok(())
    }

    /// The name goes on with these bytes.
    pub fn extend(&mut self, bytes: &str) -> Result<(), AllocError>
        ensures { OnOk result (self.new ≡ record self.old { bytes = self.old.bytes ++ bytes.now }) }
    {
        self.bytes.push_str(bytes)
    }

    /// A number in the name is too great, at this place.
    pub fn widen(&mut self, place: Place)
        ensures { self.new ≡ record self.old { wide = first_of self.old.wide (Some place) } }
    {
        if self.wide.is_none() {
            self.wide = Some(place);
        }
    }
}
