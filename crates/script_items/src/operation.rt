//! What a lane of a script does.

use store_fields::Edit;
use values::Code;

/// One operation of a lane. Ids and owners are those of the component.
#[derive(Debug, Drop)]
pub enum ScriptOp {
    /// Writes the value. The key names the store row of a field; a signal has none.
    Set {
        id: u32,
        key: Option<Code>,
        code: Code,
    },
    /// Reads the value of a signal, memo or load, or of a field of the row with the key.
    Get {
        id: u32,
        key: Option<Code>,
    },
    /// Runs the effects.
    Pump,
    /// Disposes the area with this owner.
    Dispose {
        owner: u32,
    },
    /// Edits a store.
    Change(Edit),
}
