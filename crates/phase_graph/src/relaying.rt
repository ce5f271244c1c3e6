//! Going over to another layout.
ghost use Rattle.std.specs.Prelude.{◌≡◌, ◌<◌, ◌+◌, ◌^◌, ℕ, false, List, [], length, slice_get, Some, IfOk};
ghost use Rattle.values.specs.Plan.{IsLawful};
ghost use Rattle.values.specs.Packing.{packed};
ghost use Rattle.values.specs.declared.code.Code.TheVariants as code;
ghost use Rattle.sources.specs.declared.opening.Opened.{Opened as OpenedValue};
ghost use Rattle.plain_evaluation.specs.Place.{Place};
ghost use Rattle.plan_meaning.specs.Carried.{IsCarried, rows_to};
ghost use Rattle.carried_rows.specs.Moved.{GoOver};
ghost use Rattle.carried_rows.specs.Named.{AreFresh};
ghost use Rattle.row_carrying.specs.Target.{AreTargets, IsNoTarget};
ghost use Rattle.phase_graph.specs.Graph.{ticks_of};
ghost use Rattle.phase_graph.specs.Relaying.{GoesBetween, IsLaid, IsTakenOver};

use crate::graph::Graph;
use crate::table::Table;
use row_carrying::carry_over;
use std::alloc::Global;
use std::marker::Model;
use std::mem;
use still_readers::Readers;
use still_rows::{Clock, Work, fresh_rows};
use store_fields::Edit;
use values::{NoMemory, Plan, Reserved};

/// All that the rows of another layout need, in memory that was taken before.
#[derive(Drop)]
pub struct Relaid {
    table: Table,
    to: Vec<Option<u32>>,
    edits: Vec<Reserved<Edit>>,
    inside: Vec<bool>,
}

impl Model for Relaid {
    ghost use Rattle.std.specs.Coded.{codes};
    ghost use Rattle.values.specs.contracts.expr.Expr as expr;
    ghost use Rattle.phase_graph.specs.Relaying.{Relaying, IsRelaid};

    ghost Value = { Relaying };

    ghost coded = { Prim.hlevel (codes, expr.the_row.coded) };

    ghost view = { λ r. record { plan = r.table.plan; live = r.table.live.items; to = r.to.items } };

    ghost invariant = { λ r. IsRelaid r.table r.edits.items r.inside.items };
}

impl Relaid {
    /// `to` says for each row of the graph which row of this plan has its place, where one has. `live` says of each
    /// owner whether it is live.
    pub fn new(
        alloc: Global,
        plan: Plan,
        live: Vec<bool>,
        to: Vec<Option<u32>>,
    ) -> Result<Relaid, NoMemory>
        requires lawful { IsLawful plan }
        requires owners { length live.items ≡ length plan.owners }
        ensures is { IfOk result (λ relaid. relaid ≡ record { plan = plan; live = live.items; to = to.items }) }
    {
        let table = Table::laid(alloc, plan, live)?;
        let inside = vec![in alloc; false; table.live.len()]?;
        Ok(Relaid {
            table,
            to,
            edits: Vec::new(alloc),
            inside,
        })
    }
}

impl Graph {
    /// Goes over to the other layout: each row whose place stays keeps its value, version, colour and body, with the
    /// new numbers of the rows that it names. All others are empty and have not run. It takes no memory.
    pub fn relay(&mut self, relaid: Relaid)
        requires closed { self.old.is_open ≡ false }
        requires ticks { ticks_of self.old < 2 ^ 62 }
        requires goes { GoesBetween self.old.plan.nodes relaid }
        ensures plan { self.new.plan ≡ relaid.plan }
        ensures live { self.new.live ≡ relaid.live }
        ensures closed { self.new.is_open ≡ false }
        ensures base { self.new.base ≡ ticks_of self.old }
        ensures drawn { self.new.drawn ≡ 0 }
        ensures entries { self.new.entries ≡ [] }
        ensures edits { self.new.edits ≡ [] }
        ensures room { self.new.edit_room ≡ 0 }
        ensures rows { (old new : List Place) → relaid.to ≡ rows_to old new → IsCarried old new self.old.plan.nodes relaid.plan.nodes → length old ≡ length self.old.plan.nodes → length new ≡ length relaid.plan.nodes → (fresh : List OpenedValue) × AreFresh relaid.plan.nodes fresh × GoOver old new self.old.rows fresh self.new.rows }
        ensures empty { (later : ℕ) (row : OpenedValue) → IsNoTarget relaid.to later → slice_get self.new.rows later ≡ Some row → (row.code ≡ packed code.Empty) × (row.version ≡ 0) }
    {
        let Relaid {
            table,
            to,
            edits,
            inside,
        } = relaid;
        let old = mem::replace(&mut self.table, table);
        self.table.take_over(old, to.as_slice());
        self.edits = edits;
        self.edit_room = 0;
        self.idle = None;
        self.inside = inside;
        self.renewed = true;
    }
}

impl Table {
    /// The table of a plan where all rows are empty, and each memo and effect is dirty and never ran.
    fn laid(alloc: Global, plan: Plan, live: Vec<bool>) -> Result<Table, NoMemory>
        requires lawful { IsLawful plan }
        requires owners { length live.items ≡ length plan.owners }
        ensures laid { IfOk result IsLaid }
        ensures plan { IfOk result (λ table. table.plan ≡ plan) }
        ensures live { IfOk result (λ table. table.live ≡ live) }
    {
        let rows = fresh_rows(alloc, plan.nodes.as_slice())?;
        let readers = Readers::new(alloc, plan.nodes.as_slice())?;
        let work = Work::new(alloc, plan.nodes.as_slice())?;
        let entries = Reserved::with_room(alloc, 0)?;
        Ok(Table {
            plan,
            rows,
            readers,
            work,
            clock: Clock {
                base: 0,
                drawn: 0,
                in_phase: false,
                entries,
            },
            live,
            full: None,
        })
    }

    /// Takes the rows of another table over that go to any row of this one, with its count of ticks.
    fn take_over(&mut self, old: Table, to: &[Option<u32>])
        requires paired { length old.rows.items ≡ length to.now }
        requires targets { AreTargets to.now (length self.old.rows.items) }
        requires ticks { old.clock.base + old.clock.drawn < 2 ^ 62 }
        ensures { IsTakenOver self.old old to.now self.new }
    {
        self.clock.base = old.clock.base + u64::from(old.clock.drawn);
        carry_over(to, old.rows, self.rows.as_mut_slice());
        self.readers.renew(self.rows.as_slice());
    }
}
