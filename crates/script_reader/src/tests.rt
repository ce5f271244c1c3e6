//! What scripts are refused for, and where, by one component.

use crate::read_script;
use component_items::Refusal;
use component_reader::read_component;
use std::alloc::Global;
use std::test::Fail;

const COMPONENT: &[u8] =
    b"component 1 signal a = 1 memo m = a store s max 2 { t = 0 u = empty } area side { signal x = 2 } if a { memo h = a }";

/// The number of the reason, with the line and the column; `None` where it is a script. Lines count from 8.
fn refused(alloc: Global, script: &[u8]) -> Result<Option<(u8, u32, u32)>, Refusal> {
    let mut component = read_component(alloc, COMPONENT)?;
    if script.len() > 1000 {
        return Ok(None);
    }
    match read_script(alloc, &mut component, script, 8) {
        Err(Refusal::Bad(why, place)) => Ok(Some((why.number(), place.line, place.column))),
        Err(Refusal::NoMemory) => Err(Refusal::NoMemory),
        Ok(_) => Ok(None),
    }
}

#[test]
fn scripts_are_read_or_refused(rt: HostRuntime) -> Result<(), Fail> {
    let alloc = rt.alloc();
    let rows: [(&[u8], Option<(u8, u32, u32)>); 12] = [
        (b"", None),
        (b"phase lane\nset a = 2 get s[1].t pump dispose side", None),
        (
            b"phase lane\ninsert s 7 { u = \"k\" } at 0 move s -1 to 1 remove s \"k\"",
            None,
        ),
        (b"phase lane\n$", Some((2, 8 + 1, 1))),
        (b"phase lane\nget", Some((3, 9, 4))),
        (b"phase lane\nget h", Some((4, 9, 5))),
        (b"phase lane\nset s[1].key = 0", Some((4, 9, 10))),
        (b"phase lane\ninsert s 1 { t = 1 t = 2 }", Some((5, 9, 20))),
        (b"phase lane\nset m = 2", Some((6, 9, 5))),
        (b"phase lane\nmove s 1 to 2147483648", Some((7, 9, 13))),
        (
            b"phase lane lane lane lane lane lane lane lane lane lane lane lane lane lane lane lane",
            None,
        ),
        (
            b"phase lane lane lane lane lane lane lane lane lane lane lane lane lane lane lane lane lane",
            Some((10, 8, 87)),
        ),
    ];
    for (script, refusal) in rows {
        assert_eq!(rt; refused(alloc, script)?, refusal);
    }
    Ok(())
}
