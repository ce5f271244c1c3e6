//! Words, and what they stand for.

use crate::{Settings, WordsError, read_words};
use std::alloc::Global;
use std::test::Fail;

fn read(alloc: Global, words: &[&str]) -> Result<Result<Settings, WordsError>, Fail> {
    let mut owned = Vec::new(alloc);
    for word in words {
        owned.push(String::from_str(alloc, word)?)?;
    }
    Ok(read_words(alloc, &owned))
}

#[test]
fn words_stand_for_settings(rt: HostRuntime) -> Result<(), Fail> {
    let rows: [(&[&str], bool, u32); 9] = [
        (&[], false, 1),
        (&["-a"], true, 1),
        (&["--rounds", "3"], false, 3),
        (&["--rounds=3"], false, 3),
        (&["--rounds", "1000", "-a"], true, 1000),
        (&["-a", "--rounds", "1"], true, 1),
        (&["-a", "--rounds=20"], true, 20),
        (&["--"], false, 1),
        (&["-a", "--rounds", "7", "--"], true, 7),
    ];
    for (words, answers, rounds) in rows {
        let expected = Ok(Settings { answers, rounds });
        assert_eq!(rt; read(rt.alloc(), words)?, expected, "{words:?}");
    }
    Ok(())
}

#[test]
fn other_words_are_refused(rt: HostRuntime) -> Result<(), Fail> {
    let rows: [&[&str]; 26] = [
        &["--rounds", "0"],
        &["--rounds", "1001"],
        &["--rounds", "01"],
        &["--rounds", "+5"],
        &["--rounds", "-5"],
        &["--rounds", "5 "],
        &["--rounds", "99999999999"],
        &["--rounds", ""],
        &["--rounds="],
        &["--rounds"],
        &["--rounds", "-a"],
        &["--rounds", "--", "5"],
        &["--rounds", "3", "--rounds", "3"],
        &["--rounds=3", "--rounds", "3"],
        &["-a", "-a"],
        &["-aa"],
        &["-a", "word"],
        &[""],
        &["-"],
        &["-h"],
        &["--help"],
        &["help"],
        &["--version"],
        &["-V"],
        &["--", "-a"],
        &["big", "4"],
    ];
    for words in rows {
        let expected = Err(WordsError::BadWords);
        assert_eq!(rt; read(rt.alloc(), words)?, expected, "{words:?}");
    }
    Ok(())
}
