//! What a graph begins with.
ghost use Rattle.std.specs.Prelude.{◌≡◌, ◌≤◌, length, IfOk};
ghost use Rattle.values.specs.Plan.{IsLawful};
ghost use Rattle.phase_graph.specs.Table.{IsGivenRow, AreGiven, ArePartsOf, IsMade};

use crate::table::Table;
use sources::Opened;
use std::alloc::Global;
use still_readers::Readers;
use still_rows::{Clock, Work, fresh_rows};
use values::{Code, NoMemory, Noted, Plan, PlanNode, Reserved};

/// What a table has beside its plan and its owners.
#[derive(Drop)]
pub(crate) struct Parts {
    pub(crate) rows: Vec<Opened>,
    pub(crate) readers: Readers,
    pub(crate) work: Work,
    pub(crate) entries: Reserved<Noted>,
}

impl Parts {
    fn new(alloc: Global, nodes: &[PlanNode], codes: &[Code]) -> Result<Parts, NoMemory>
        requires few { length nodes.now ≤ 4096 }
        requires paired { length codes.now ≡ length nodes.now }
        ensures made { IfOk result (ArePartsOf nodes.now codes.now) }
    {
        let mut rows = fresh_rows(alloc, nodes)?;
        give_all(nodes, rows.as_mut_slice(), codes);
        Ok(Parts {
            rows,
            readers: Readers::new(alloc, nodes)?,
            work: Work::new(alloc, nodes)?,
            entries: Reserved::with_room(alloc, 0)?,
        })
    }
}

impl Table {
    /// The table of a plan before anything ran: each source has its value of `codes`.
    pub(crate) fn new(
        alloc: Global,
        plan: Plan,
        live: Vec<bool>,
        codes: &[Code],
    ) -> Result<Table, NoMemory>
        requires lawful { IsLawful plan }
        requires owners { length live.items ≡ length plan.owners }
        requires paired { length codes.now ≡ length plan.nodes }
        ensures made { IfOk result (IsMade plan live.items codes.now) }
    {
        let parts = Parts::new(alloc, plan.nodes.as_slice(), codes)?;
        let Parts {
            rows,
            readers,
            work,
            entries,
        } = parts;
        Ok(Table {
            plan,
            rows,
            readers,
            work,
            clock: Clock {
                base: 0,
                drawn: 0,
                in_phase: false,
                entries,
            },
            live,
            full: None,
        })
    }
}

/// Gives each row that is not derived its value.
fn give_all(nodes: &[PlanNode], rows: &mut [Opened], codes: &[Code])
    requires rows { length rows.old ≡ length nodes.now }
    requires codes { length codes.now ≡ length nodes.now }
    ensures { AreGiven nodes.now codes.now (length nodes.now) rows.old rows.new }
{
    for (at, node) in nodes.iter().enumerate() {
        give(&mut rows[at], node.kind.is_derived(), codes[at]);
    }
}

fn give(row: &mut Opened, derived: bool, code: Code)
    ensures { IsGivenRow derived code row.old row.new }
{
    if !derived {
        row.code = code.pack();
    }
}
