//! A line of what is written out.
ghost use Rattle.std.specs.Prelude.{◌≡◌, [], ◌∷◌, ◌++◌, map, is_some, OnOk};
ghost use Rattle.plan_lines.specs.Scenes.{scene_in};
ghost use Rattle.plan_lines.specs.Lines.{placed_in, place_placed, source_placed, computed_placed};

use crate::scene::Scene;
use node_names::NodePlace;
use values::{Expr, Kind, NoMemory};

/// A place with what a plan says of it.
#[derive(Clone, Copy, Debug)]
pub struct Line<'c> {
    /// Its id.
    pub id: u32,
    /// What stands around it.
    pub scene: Scene,
    /// What it is.
    pub kind: Kind,
    /// What computes it, over ids; a source has none.
    pub expr: Option<&'c Expr>,
}

impl<'c> Line<'c> {
    /// A signal, a field or a load.
    pub(crate) fn source(id: u32, scene: Scene, kind: Kind) -> Line<'c>
        ensures { placed_in result ≡ source_placed id (scene_in scene) kind }
    {
        Line {
            id,
            scene,
            kind,
            expr: None,
        }
    }

    /// A memo or an effect.
    pub(crate) fn computed(id: u32, scene: Scene, kind: Kind, expr: &'c Expr) -> Line<'c>
        ensures { placed_in result ≡ computed_placed id (scene_in scene) kind expr.now }
    {
        Line {
            id,
            scene,
            kind,
            expr: Some(expr),
        }
    }

    /// Its place.
    pub fn place(&self) -> NodePlace
        ensures { result ≡ place_placed (placed_in self.now) }
    {
        NodePlace::new(self.id, self.scene.key())
    }
}

/// Adds a line.
pub(crate) fn put<'c>(lines: &mut Vec<Line<'c>>, line: Line<'c>) -> Result<(), NoMemory>
    ensures { OnOk result (map placed_in lines.new.items ≡ map placed_in lines.old.items ++ placed_in line.entry ∷ []) }
{
    lines.push(line)?;
    Ok(())
}
