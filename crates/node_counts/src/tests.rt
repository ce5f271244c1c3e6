//! Worked rows.

use crate::has_too_many_nodes;
use component_items::{Item, Items};
use std::alloc::{AllocError, Global};
use std::test::Fail;
use values::{Code, Codes, Expr, Numbers};

/// A store of at most so many rows, with one field, and an `each` over it that shows so many values.
fn shown_rows(alloc: Global, max: u32, values: usize) -> Result<Items, AllocError> {
    let mut shown = Items::new(alloc);
    for _ in 0..values {
        shown.push(Item::Shown {
            id: 4,
            expr: Expr::Lit(Code::Empty),
        })?;
    }
    let mut items = Items::new(alloc);
    items.push(Item::Each {
        id: 3,
        store: 0,
        items: shown,
    })?;
    items.push(Item::Store {
        id: 0,
        name: 1,
        max,
        fields: Numbers::new(alloc),
        starts: Codes::new(alloc),
    })?;
    Ok(items)
}

#[test]
fn each_value_counts_for_each_row(rt: HostRuntime) -> Result<(), Fail> {
    for (max, values, too_many) in [
        (4096, 0, false),
        (4096, 1, false),
        (2048, 2, false),
        (2049, 2, true),
        (0, 5000, false),
        (1, 4097, true),
    ] {
        let items = shown_rows(rt.alloc(), max, values)?;
        assert_eq!(rt;
            has_too_many_nodes(rt.alloc(), items.as_slice())?,
            too_many,
            "{max} rows of {values}"
        );
    }
    Ok(())
}
