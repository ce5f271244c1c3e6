//! Worked rows, with ample memory.

use crate::{Script, ScriptOp};
use std::test::Fail;
use values::NoMemory;
use values::limits::{MOST_LANES, MOST_PHASES};

/// Adds a phase at the end, where there is room for one.
fn add_phase(script: &mut Script) -> Result<(), NoMemory> {
    if (script.phases() as usize) < MOST_PHASES {
        script.begin_phase()?;
    }
    Ok(())
}

/// Adds a lane of `Dispose` operations with these owners, where there is room for one.
fn add_lane(script: &mut Script, owners: &[u32]) -> Result<(), NoMemory> {
    let Some(lanes) = script.lanes(script.phases()) else {
        return Ok(());
    };
    if (lanes as usize) < MOST_LANES {
        script.begin_lane()?;
    }
    for owner in owners {
        if let Some(1..) = script.lanes(script.phases()) {
            script.add(ScriptOp::Dispose { owner: *owner })?;
        }
    }
    Ok(())
}

/// The owner of the `Dispose` there.
fn owner_at(script: &Script, phase: u32, lane: u32, op: u32) -> Option<u32> {
    match script.op(phase, lane, op)? {
        ScriptOp::Dispose { owner } => Some(*owner),
        _ => None,
    }
}

#[test]
fn a_script_is_read_as_it_was_built(rt: HostRuntime) -> Result<(), Fail> {
    let mut script = Script::new(rt.alloc());
    assert_eq!(rt; script.phases(), 0);
    assert_eq!(rt; script.lanes(0), None);
    assert_eq!(rt; script.lanes(1), None);
    add_phase(&mut script)?;
    add_lane(&mut script, &[11, 12])?;
    add_lane(&mut script, &[13])?;
    add_phase(&mut script)?;
    add_phase(&mut script)?;
    add_lane(&mut script, &[])?;
    add_lane(&mut script, &[14])?;
    assert_eq!(rt; script.phases(), 3);
    let lanes = [
        (0, None),
        (1, Some(2)),
        (2, Some(0)),
        (3, Some(2)),
        (4, None),
        (u32::MAX, None),
    ];
    for (phase, count) in lanes {
        assert_eq!(rt; script.lanes(phase), count);
    }
    let owners = [
        (1, 1, 1, Some(11)),
        (1, 1, 2, Some(12)),
        (1, 2, 1, Some(13)),
        (3, 2, 1, Some(14)),
        (0, 1, 1, None),
        (1, 0, 1, None),
        (1, 1, 0, None),
        (1, 1, 3, None),
        (1, 2, 2, None),
        (1, 3, 1, None),
        (2, 1, 1, None),
        (3, 1, 1, None),
        (4, 1, 1, None),
        (u32::MAX, u32::MAX, u32::MAX, None),
    ];
    for (phase, lane, op, owner) in owners {
        assert_eq!(rt; owner_at(&script, phase, lane, op), owner);
    }
    Ok(())
}
