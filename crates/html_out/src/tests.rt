//! Worked texts, and that whole runs are written at once.

use crate::{escape_text, escape_value, put, show};
use outside::MemorySink;
use std::alloc::Global;
use std::test::Fail;
use values::{Code, NoMemory, Texts};

/// A sink with room for so many bytes, whose calls with these numbers fail.
fn sink_of(alloc: Global, room: usize, fails: &[u32]) -> Result<MemorySink, NoMemory> {
    let fails = Vec::from_slice(alloc, fails)?;
    MemorySink::new(alloc, room, 64, fails)
}

#[test]
fn texts_are_escaped_as_texts_and_as_values(rt: HostRuntime) -> Result<(), Fail> {
    let rows = [
        ("", "", ""),
        ("Ann", "Ann", "Ann"),
        ("<&\"", "&lt;&amp;\"", "&lt;&amp;&quot;"),
        (
            "1 < 2 > 0 & so",
            "1 &lt; 2 &gt; 0 &amp; so",
            "1 &lt; 2 &gt; 0 &amp; so",
        ),
        ("'ä'", "'ä'", "'ä'"),
    ];
    for (text, as_text, as_value) in rows {
        let mut sink = sink_of(rt.alloc(), 64, &[])?;
        assert!(rt; escape_text(&mut sink, text).is_ok(), "{text}");
        assert_eq!(rt; sink.bytes(), as_text.as_bytes());
        let mut sink = sink_of(rt.alloc(), 64, &[])?;
        assert!(rt; escape_value(&mut sink, text).is_ok(), "{text}");
        assert_eq!(rt; sink.bytes(), as_value.as_bytes());
    }
    Ok(())
}

#[test]
fn values_are_shown(rt: HostRuntime) -> Result<(), Fail> {
    let mut texts = Texts::new(rt.alloc())?;
    let quoted = texts.add("\"&\"")?;
    let rows = [
        (Code::Empty, false, ""),
        (Code::Number(0), false, "0"),
        (Code::Number(i32::MAX), true, "2147483647"),
        (Code::Number(i32::MIN), false, "-2147483648"),
        (Code::Word(0), false, ""),
        (Code::Word(quoted), false, "\"&amp;\""),
        (Code::Word(quoted), true, "&quot;&amp;&quot;"),
        (Code::Word(7), true, ""),
    ];
    for (code, in_value, shown) in rows {
        let mut sink = sink_of(rt.alloc(), 64, &[])?;
        assert!(rt; show(&mut sink, code, &texts, in_value).is_ok(), "{shown}");
        assert_eq!(rt; sink.bytes(), shown.as_bytes());
    }
    Ok(())
}

#[test]
fn each_run_is_one_write_and_a_failure_is_the_last(rt: HostRuntime) -> Result<(), Fail> {
    // The calls that fail, whether all was written, and what was.
    let rows: [(&[u32], bool, &str); 4] = [
        (&[6], true, "one &lt; two &amp;"),
        (&[1], false, ""),
        (&[3], false, "one &lt;"),
        (&[4], false, "one &lt; two "),
    ];
    for (fails, is_whole, written) in rows {
        let mut sink = sink_of(rt.alloc(), 64, fails)?;
        assert_eq!(rt; escape_text(&mut sink, "one < two &").is_ok(), is_whole);
        assert_eq!(rt; sink.bytes(), written.as_bytes());
    }
    let mut sink = sink_of(rt.alloc(), 4, &[])?;
    assert!(rt; put(&mut sink, b"<p>6</p>").is_err());
    assert_eq!(rt; sink.bytes(), "<p>6".as_bytes());
    Ok(())
}
