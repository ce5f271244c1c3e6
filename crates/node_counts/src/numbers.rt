//! Counts that are held to one more than the most that is allowed.

ghost use Rattle.std.specs.Prelude.{◌≡◌, ◌+◌, ◌*◌, ◌≤◌};
ghost use Rattle.node_counts.specs.Nodes.{capped};

use values::limits::MOST_NODES;

/// One more than as many nodes as a component may lay out.
pub const TOO_MANY: usize = MOST_NODES + 1;

/// The count, or `TOO_MANY` where it is more.
pub fn cap(count: usize) -> usize
    ensures { result ≡ capped count }
{
    count.min(TOO_MANY)
}

/// The sum of two counts.
pub fn add(a: usize, b: usize) -> usize
    requires a { a ≤ TOO_MANY }
    requires b { b ≤ TOO_MANY }
    ensures { result ≡ capped (a + b) }
{
    cap(a + b)
}

/// The product of two counts.
pub fn multiply(a: usize, b: usize) -> usize
    requires a { a ≤ TOO_MANY }
    requires b { b ≤ TOO_MANY }
    ensures { result ≡ capped (a * b) }
{
    cap(a * b)
}
