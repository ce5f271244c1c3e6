//! The two parts of an input: the component text, and behind a line `---` the script text.
#![tactic(auto)]

mod laws;

ghost use Rattle.std.specs.Prelude.{◌≡◌, ◌≢◌, ◌⊎◌, ℕ, ◌<◌, ◌≤◌, ◌+◌, ◌^◌, length, slice_index};
ghost use Rattle.input_split.specs.Separator as spec;
ghost use Rattle.input_split.specs.Parts.{SplitsAt, IsUndivided};

pub use laws::{one_split, split_computes, worked_splits};

/// Where the parts of an input are. The component text is what stands before `component_end`, and the
/// script text what stands from `script_start` on, whose first line has the number `script_line` in the
/// whole input.
#[derive(Clone, Copy, Debug, PartialEq, Eq)]
pub struct Split {
    pub component_end: usize,
    pub script_start: usize,
    pub script_line: u32,
}

/// The end of the line that begins at `start`: the place of its line feed, or the length.
fn line_end(bytes: &[u8], start: usize) -> usize
    requires { start ≤ length bytes.now }
    ensures ordered { start ≤ result }
    ensures within { result ≤ length bytes.now }
    ensures inside { (k : ℕ) → start ≤ k → k < result → slice_index bytes.now k ≢ 10 }
    ensures ends { result < length bytes.now → slice_index bytes.now result ≡ 10 }
{
    for at in start..bytes.len() {
        if bytes[at] == b'\n' {
            return at;
        }
    }
    bytes.len()
}

/// Whether the line, with no line feed, parts the component from the script.
fn is_separator(line: &[u8]) -> bool
    ensures { result ≡ spec.is_separator line.now }
{
    match line {
        b"---" | b"---\r" => true,
        _ => false,
    }
}

/// The parts of an input. The separator is the first line that holds exactly `---`, with or without a
/// carriage return; where there is none, all of the input is the component text.
pub fn split_input(bytes: &[u8]) -> Split
    requires { length bytes.now + 1 < 2 ^ 31 }
    ensures { SplitsAt bytes.now result ⊎ IsUndivided bytes.now result }
{
    let mut start = 0;
    let mut line = 1;
    'lines: loop {
        let stop = line_end(bytes, start);
        if is_separator(&bytes[start..stop]) {
            let script_start = if stop < bytes.len() { stop + 1 } else { stop };
            return Split {
                component_end: start,
                script_start,
                script_line: line + 1,
            };
        }
        if stop == bytes.len() {
            return Split {
                component_end: stop,
                script_start: stop,
                script_line: line,
            };
        }
        start = stop + 1;
        line += 1;
    }
}

#[cfg(test)]
mod tests;
