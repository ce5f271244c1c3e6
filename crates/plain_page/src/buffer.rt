//! The bytes of a page in memory, as a sink.
ghost use Rattle.std.specs.Prelude.{◌≡◌, [], ◌++◌, true, false, Some, OnOk};
ghost use Rattle.html_out.specs.Shown.{escaped, shown};
ghost use Rattle.plain_page.specs.Buffer.{bytes_of};

use html_out::{escape_text, escape_value, put, show};
use outside::{Failed, Sink};
use std::alloc::Global;
use values::{Code, NoMemory, Texts};

/// Bytes that grow. A write fails only where memory can't be had.
#[derive(Drop)]
pub(crate) struct Buffer {
    bytes: Vec<u8>,
    faults: u64,
}

impl Sink for Buffer {
    ghost faults = { λ buffer. buffer.faults };

    ghost taken = { λ buffer. Some (bytes_of buffer) };

    fn write(&mut self, from: &[u8]) -> Result<usize, Failed> {
        if self.bytes.extend_from_slice(from).is_err() {
            self.faults = self.faults.saturating_add(1);
            return Err(Failed);
        }
        Ok(from.len())
    }
}

impl Buffer {
    pub(crate) fn new(alloc: Global) -> Buffer
        ensures { bytes_of result ≡ [] }
    {
        Buffer {
            bytes: Vec::new(alloc),
            faults: 0,
        }
    }

    /// The bytes, in the memory that they have.
    pub(crate) fn into_bytes(self) -> Vec<u8>
        ensures { result.items ≡ bytes_of self }
    {
        let Buffer { bytes, .. } = self;
        bytes
    }

    /// Bytes that stand for themselves.
    pub(crate) fn put(&mut self, bytes: &[u8]) -> Result<(), NoMemory>
        ensures { OnOk result (bytes_of self.new ≡ bytes_of self.old ++ bytes.now) }
    {
        put(self, bytes).map_err(|_| NoMemory)
    }

    /// A text with its escapes.
    pub(crate) fn put_text(&mut self, text: &str) -> Result<(), NoMemory>
        ensures { OnOk result (bytes_of self.new ≡ bytes_of self.old ++ escaped false text.now) }
    {
        escape_text(self, text).map_err(|_| NoMemory)
    }

    /// The value of an attribute with its escapes.
    pub(crate) fn put_value(&mut self, text: &str) -> Result<(), NoMemory>
        ensures { OnOk result (bytes_of self.new ≡ bytes_of self.old ++ escaped true text.now) }
    {
        escape_value(self, text).map_err(|_| NoMemory)
    }

    /// A value, in an attribute's value or as a text.
    pub(crate) fn put_code(
        &mut self,
        code: Code,
        texts: &Texts,
        in_value: bool,
    ) -> Result<(), NoMemory>
        ensures { OnOk result (bytes_of self.new ≡ bytes_of self.old ++ shown texts.now in_value code) }
    {
        show(self, code, texts, in_value).map_err(|_| NoMemory)
    }
}
