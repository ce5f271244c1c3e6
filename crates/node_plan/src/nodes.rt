//! The nodes of a plan, from the lines.
ghost use Rattle.std.specs.Prelude.{◌≡◌, map, slice_index_or, false, IfOk, Some};
ghost use Rattle.plain_evaluation.specs.Keyed.{stands_for, stands_in};
ghost use Rattle.plain_evaluation.specs.Place.{place_at};
ghost use Rattle.plan_meaning.specs.Layout.{read_by, read_row, row_of};
ghost use Rattle.plan_meaning.specs.Renamed.{renamed};
ghost use Rattle.plan_lines.specs.Flags.{flag_at};
ghost use Rattle.plan_lines.specs.Lines.{placed_in};
ghost use Rattle.plan_lines.specs.Scenes.{row_in, scene_in};
ghost use Rattle.node_plan.specs.Rows.{node_placed};

use node_names::{Names, NodePlace};
use plan_lines::{Line, RowAround, Scene};
use sqlite_items::Boxed;
use std::alloc::Global;
use values::{Code, Expr, NoMemory, Op, PlanNode, PlanNodes, Sequence};

/// The nodes of the rows. `keyed` says which ids have a place for each row of a store.
pub(crate) fn nodes_of(
    alloc: Global,
    rows: &[Line<'_>],
    names: &Names,
    keyed: &[bool],
) -> Result<PlanNodes, NoMemory>
    ensures { IfOk result (λ nodes. nodes ≡ map (node_placed (flag_at keyed.now) names.now) (map placed_in rows.now)) }
{
    let reader = Reader { names, keyed };
    let mut found = vec![in alloc; Found { row: 0, step: 0 }; keyed.len()]?;
    let mut nodes = Vec::with_capacity(alloc, rows.len())?;
    for row in rows {
        nodes.push(reader.node(alloc, row, found.as_mut_slice())?)?;
    }
    Ok(Sequence::from_vec(nodes))
}

/// Where an id was found last, and how far from where it was found before. In the rows of a store an id goes on in even
/// steps.
#[derive(Clone, Copy)]
struct Found {
    row: u32,
    step: u32,
}

impl Found {
    /// The row that the id is looked for first.
    fn near(self) -> u32 {
        self.row.wrapping_add(self.step)
    }

    /// Where it is found in this row next.
    fn then(self, row: u32) -> Found {
        Found {
            row,
            step: row.wrapping_sub(self.row),
        }
    }
}

/// What stands in a plan for the ids that an expression of a component reads.
#[derive(Drop)]
struct Reader<'n> {
    names: &'n Names,
    keyed: &'n [bool],
}

impl Reader<'_> {
    fn node(
        &self,
        alloc: Global,
        line: &Line<'_>,
        found: &mut [Found],
    ) -> Result<PlanNode, NoMemory>
        ensures { IfOk result (λ node. node ≡ node_placed (flag_at self.now.keyed.now) self.now.names.now (placed_in line.now)) }
    {
        let expr = match line.expr {
            None => Expr::Lit(Code::Empty),
            Some(expr) => self.rename(alloc, expr, line.scene, found)?,
        };
        Ok(PlanNode {
            kind: line.kind,
            expr,
            owner: line.scene.owner,
        })
    }

    /// The expression over rows, where it stands in this scene.
    #[cycle(expr)]
    fn rename(
        &self,
        alloc: Global,
        expr: &Expr,
        scene: Scene,
        found: &mut [Found],
    ) -> Result<Expr, NoMemory>
        ensures { IfOk result (λ e. e ≡ renamed (λ id. read_by self.now.names.now (stands_for (flag_at self.now.keyed.now) (scene_in scene) id)) expr.now) }
    {
        match expr {
            Expr::Lit(code) => Ok(Expr::Lit(*code)),
            Expr::Read(id) => Ok(self.read(*id, scene, found)),
            Expr::Binary(op, left, right) => {
                let left = self.rename(alloc, left.get(), scene, found)?;
                let right = self.rename(alloc, right.get(), scene, found)?;
                operation(alloc, *op, left, right)
            }
            Expr::If(test, first, second) => {
                let test = self.rename(alloc, test.get(), scene, found)?;
                let first = self.rename(alloc, first.get(), scene, found)?;
                let second = self.rename(alloc, second.get(), scene, found)?;
                choice(alloc, test, first, second)
            }
        }
    }

    /// What stands for an id that is read in this scene.
    fn read(&self, id: u32, scene: Scene, found: &mut [Found]) -> Expr
        ensures { result ≡ read_by self.now.names.now (stands_for (flag_at self.now.keyed.now) (scene_in scene) id) }
    {
        match scene.row {
            None => self.row(NodePlace::outside(id), found),
            Some(row) => self.read_in_row(id, row, found),
        }
    }

    /// The key of the row itself, or the id's place in this row or in none.
    fn read_in_row(&self, id: u32, row: RowAround, found: &mut [Found]) -> Expr
        ensures { result ≡ read_by self.now.names.now (stands_in (slice_index_or self.now.keyed.now id false) (Some (row_in row)) id) }
    {
        if id > 0 && id - 1 == row.store {
            return Expr::Lit(row.key);
        }
        let keyed = self.keyed.get(id as usize).copied().unwrap_or(false);
        self.row(NodePlace::new(id, keyed.then_some(row.key)), found)
    }

    /// A read of the row of a place; of what has no row, nothing comes.
    fn row(&self, place: NodePlace, found: &mut [Found]) -> Expr
        ensures { result ≡ read_row (row_of self.now.names.now place) }
    {
        match self.look_up(place, found) {
            Some(row) => Expr::Read(row),
            None => Expr::Lit(Code::Empty),
        }
    }

    /// The row of a place, which is looked for first where its id is found next.
    fn look_up(&self, place: NodePlace, found: &mut [Found]) -> Option<u32>
        ensures { result ≡ row_of self.now.names.now place }
    {
        let id = place.id() as usize;
        let Some(last) = found.get(id).copied() else {
            return self.names.row(place);
        };
        let row = self.names.row_near(place, last.near())?;
        found[id] = last.then(row);
        Some(row)
    }
}

fn operation(alloc: Global, op: Op, left: Expr, right: Expr) -> Result<Expr, NoMemory>
    ensures { IfOk result (λ e. e ≡ Expr.Binary op left right) }
{
    let left = Boxed::new(alloc, left)?;
    let right = Boxed::new(alloc, right)?;
    Ok(Expr::Binary(op, left, right))
}

fn choice(alloc: Global, test: Expr, first: Expr, second: Expr) -> Result<Expr, NoMemory>
    ensures { IfOk result (λ e. e ≡ Expr.If test first second) }
{
    let test = Boxed::new(alloc, test)?;
    let first = Boxed::new(alloc, first)?;
    let second = Boxed::new(alloc, second)?;
    Ok(Expr::If(test, first, second))
}
