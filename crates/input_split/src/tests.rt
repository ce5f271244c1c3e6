//! Worked rows.

use crate::{Split, split_input};

#[test]
fn the_first_separator_parts_the_input(rt: HostRuntime) {
    let rows: [(&str, usize, usize, u32); 9] = [
        ("component 1\n---\nphase", 12, 16, 3),
        ("component 1\r\n---\r\nphase", 13, 18, 3),
        ("---", 0, 3, 2),
        ("a\n---", 2, 5, 3),
        ("---\n---\n", 0, 4, 2),
        ("a ---\n----\n--\n", 14, 14, 4),
        ("", 0, 0, 1),
        ("component 1", 11, 11, 1),
        ("\n\n", 2, 2, 3),
    ];
    for (input, component_end, script_start, script_line) in rows {
        let split = Split {
            component_end,
            script_start,
            script_line,
        };
        assert_eq!(rt; split_input(input.as_bytes()), split, "{input}");
    }
}
