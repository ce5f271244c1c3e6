//! What a view sees of a settled graph.
ghost use Rattle.std.specs.Prelude.{◌≡◌, [], if◌then◌else◌};
ghost use Rattle.std.specs.Option.{option_map};
ghost use Rattle.values.specs.Packing.{unpacked};
ghost use Rattle.plain_evaluation.specs.Place.{place_at};
ghost use Rattle.view_slots.specs.Seen.{ArePacked, row_at, seen_by};

use component_items::{Component, Item};
use held_state::Held;
use node_names::{Names, NodePlace};
use sources::Opened;
use std::marker::Model;
use values::Code;

/// A component with its held state, and the rows of its plan with their places. Contracts see these.
#[derive(Drop)]
pub struct Sight<'a> {
    component: &'a Component,
    held: &'a Held,
    names: &'a Names,
    rows: &'a [Opened],
}

impl<'a> Model for Sight<'a> {
    ghost use Rattle.std.specs.Coded.{codes};
    ghost use Rattle.component_items.specs.contracts.component.Component as parts_model;
    ghost use Rattle.held_state.specs.contracts.held.Held as held_model;
    ghost use Rattle.view_slots.specs.Seen.{Sighted, ArePacked};

    ghost Value = { Sighted };

    ghost coded = { Prim.hlevel (codes, parts_model.the_row.coded, held_model.the_row.coded) };

    ghost view = { λ s. record { component = s.component.now; state = s.held.now; places = s.names.now; rows = s.rows.now } };

    ghost invariant = { λ s. ArePacked s.rows.now };
}

/// The node of a place: its row, its value, and the version of that.
#[derive(Clone, Copy, Debug, PartialEq, Eq)]
pub(crate) struct Found {
    pub row: u32,
    pub code: Code,
    pub version: u64,
}

impl<'a> Sight<'a> {
    /// What is seen of this component in this state, where these are the rows of its plan with their places.
    pub fn new(
        component: &'a Component,
        held: &'a Held,
        names: &'a Names,
        rows: &'a [Opened],
    ) -> Sight<'a>
        requires { ArePacked rows.now }
        ensures { result ≡ record { component = component.now; state = held.now; places = names.now; rows = rows.now } }
    {
        Sight {
            component,
            held,
            names,
            rows,
        }
    }

    /// The items of the component, or none where its top is dead.
    pub(crate) fn top_items(&self) -> &[Item]
        ensures { result.now ≡ (if (seen_by self.now).view.live 0 then self.now.component.items else []) }
    {
        if self.held.is_live(0) {
            self.component.items()
        } else {
            &[]
        }
    }

    /// Whether the owner is live.
    pub(crate) fn is_live(&self, owner: u32) -> bool
        ensures { result ≡ (seen_by self.now).view.live owner }
    {
        self.held.is_live(owner)
    }

    /// What stands at the id in the row with the key, or in none; it is looked for first at the row `near`. What
    /// has no row shows nothing.
    pub(crate) fn look(&self, id: u32, key: Option<Code>, near: u32) -> Found
        ensures code { result.code ≡ (seen_by self.now).view.value (place_at id key) }
        ensures version { result.version ≡ (seen_by self.now).version (place_at id key) }
    {
        match self.found(id, key, near) {
            Some(found) => found,
            None => Found {
                row: near,
                code: Code::Empty,
                version: 0,
            },
        }
    }

    /// The same, if it has a row.
    fn found(&self, id: u32, key: Option<Code>, near: u32) -> Option<Found>
        ensures code { option_map (λ found. found.code) result ≡ option_map (λ row. unpacked row.code) (row_at self.now.places self.now.rows (place_at id key)) }
        ensures version { option_map (λ found. found.version) result ≡ option_map (λ row. row.version) (row_at self.now.places self.now.rows (place_at id key)) }
    {
        let row = self.names.row_near(NodePlace::new(id, key), near)?;
        let kept = self.rows.get(row as usize)?;
        Some(Found {
            row,
            code: Code::from_packed(kept.code),
            version: kept.version,
        })
    }
}
