//! Worked rows, and what a loader is asked.

use crate::{Loading, Polled};
use outside::{Arrival, Delays, FailingLoader, Loader};
use std::test::Fail;
use values::Code;

const KEY: Code = Code::Word(3);

const OTHER: Code = Code::Number(-4);

/// What a loader was asked.
#[derive(Clone, Copy, Debug, PartialEq, Eq)]
struct Asked {
    resource: u32,
    key: Code,
    after: u32,
    asked: u32,
}

/// Answers as it is told, and keeps what it was last asked and how often it was.
#[derive(Drop)]
struct Telling {
    answer: Arrival,
    last: Option<Asked>,
    calls: u64,
    not_yets: u64,
    faults: u64,
}

impl Loader for Telling {
    ghost use Rattle.std.specs.Prelude.{◌≡◌, false};

    ghost faults = { λ l. l.faults };

    ghost not_yets = { λ l. l.not_yets };

    ghost is_prompt = { false };

    ghost answers = { λ before _ answer _. answer ≡ before.answer };

    fn ask(&mut self, resource: u32, key: Code, after: u32, asked: u32) -> Arrival {
        self.last = Some(Asked {
            resource,
            key,
            after,
            asked,
        });
        self.calls = self.calls.saturating_add(1);
        match self.answer {
            Arrival::Ready => {}
            Arrival::NotYet => self.not_yets = self.not_yets.saturating_add(1),
            Arrival::Failed => self.faults = self.faults.saturating_add(1),
        }
        self.answer
    }
}

/// A row: the key, what the loader answers, what the poll then answers, and what the loader was asked
/// since the key changed, where it was asked.
type Row = (Code, Arrival, Polled, Option<u32>);

const ROWS: [Row; 7] = [
    (KEY, Arrival::NotYet, Polled::Waiting, Some(0)),
    (KEY, Arrival::Failed, Polled::Failed, Some(1)),
    (KEY, Arrival::Ready, Polled::Arrived, Some(2)),
    (KEY, Arrival::Failed, Polled::Arrived, None),
    (OTHER, Arrival::NotYet, Polled::Waiting, Some(0)),
    (KEY, Arrival::Ready, Polled::Arrived, Some(0)),
    (KEY, Arrival::NotYet, Polled::Arrived, None),
];

#[test]
fn a_loader_is_asked_once_until_the_key_has_arrived(rt: HostRuntime) {
    let mut loading = Loading::new();
    let mut loader = Telling {
        answer: Arrival::Ready,
        last: None,
        calls: 0,
        not_yets: 0,
        faults: 0,
    };
    for (key, answer, polled, asked) in ROWS {
        loader.answer = answer;
        loader.last = None;
        loader.calls = 0;
        assert_eq!(rt; loading.poll(key, 7, 9, &mut loader), polled);
        let wanted = asked.map(|asked| Asked {
            resource: 7,
            key,
            after: 9,
            asked,
        });
        assert_eq!(rt; loader.last, wanted);
        assert_eq!(rt; loader.calls, if asked.is_some() { 1 } else { 0 });
    }
    assert_eq!(rt; loader.not_yets, 2);
    assert_eq!(rt; loader.faults, 1);
}

#[test]
fn a_delayed_load_arrives_after_its_asks(rt: HostRuntime) -> Result<(), Fail> {
    let mut loading = Loading::new();
    let mut loader = Delays::new();
    for polled in [
        Polled::Waiting,
        Polled::Waiting,
        Polled::Arrived,
        Polled::Arrived,
    ] {
        assert_eq!(rt; loading.poll(KEY, 0, 2, &mut loader), polled);
    }
    assert_eq!(rt; loading.asked, 3);
    assert_eq!(rt; loading.arrived, Some(KEY));
    let mut failing = FailingLoader::new(vec![in rt.alloc(); 1]?);
    let mut other = Loading::new();
    assert_eq!(rt; other.poll(OTHER, 0, 0, &mut failing), Polled::Failed);
    assert_eq!(rt; other.poll(OTHER, 0, 0, &mut failing), Polled::Arrived);
    Ok(())
}
