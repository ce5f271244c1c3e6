//! A node with two recorded sources, from its first step to its last.

use crate::{Due, Frame, Next, needs_number, next_on, next_with};
use sources::{Cause, Colour, Read};
use std::test::Fail;
use values::{Code, Expr, Tried};

const RECORDED: [Read; 2] = [
    Read {
        row: 0,
        version: 4,
        code: 21,
    },
    Read {
        row: 1,
        version: 6,
        code: 0,
    },
];

/// What is next on a node of this colour, before anything was read.
fn next(colour: Colour, frame: Frame) -> Next {
    next_on(colour, &RECORDED, frame, Tried::Needs(1))
}

#[test]
fn a_dirty_node_is_compared_then_checked_then_run(rt: HostRuntime) -> Result<(), Fail> {
    let frame = Frame::new(3, Some(Cause::First));
    assert_eq!(rt; next(Colour::Clean, frame), Next::Answer);
    assert_eq!(rt; next(Colour::Check, frame), Next::Clear);
    assert_eq!(rt; next(Colour::Dirty, frame), Next::Compare(0));
    let compared = frame.compared(4, 4);
    assert_eq!(rt; next(Colour::Dirty, compared), Next::Compare(1));
    assert_eq!(rt; compared.at, 1);
    let all = compared.compared(6, 6);
    assert_eq!(rt; next(Colour::Dirty, all), Next::Clear);
    let check = all.cleared();
    assert!(rt; !check.is_run());
    assert_eq!(rt; next(Colour::Dirty, check), Next::Check(0));
    assert_eq!(rt; check.at, 0);
    let second = check.compared(4, 4);
    assert_eq!(rt; next(Colour::Dirty, second), Next::Check(1));
    assert_eq!(rt; second.at, 1);
    assert_eq!(rt; next(Colour::Dirty, second.compared(6, 6)), Next::Keep);
    let run = second.compared(6, 7);
    assert_eq!(rt; run.due, Due::Differs);
    assert!(rt; run.is_run());
    assert_eq!(rt; next(Colour::Dirty, run), Next::Read(1));
    let expr = Expr::Lit(Code::Number(5));
    assert_eq!(rt;
        next_with(&expr, &[], Colour::Dirty, &RECORDED, run),
        Next::Finish(Code::Number(5))
    );
    assert_eq!(rt;
        next_with(&expr, &[], Colour::Dirty, &RECORDED, second),
        Next::Check(1)
    );
    Ok(())
}

#[test]
fn a_node_that_never_ran_runs(rt: HostRuntime) -> Result<(), Fail> {
    let frame = Frame::new(3, None);
    assert_eq!(rt;
        next_on(Colour::Dirty, &[], frame, Tried::Needs(0)),
        Next::Clear
    );
    let run = frame.cleared();
    assert_eq!(rt;
        next_on(Colour::Dirty, &[], run, Tried::Needs(0)),
        Next::Read(0)
    );
    assert!(rt; needs_number(Code::Empty.pack(), Code::Number(5)));
    assert!(rt; !needs_number(Code::Number(5).pack(), Code::Number(5)));
    Ok(())
}
