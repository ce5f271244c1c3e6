//! The traits, with what each call promises.

ghost use Rattle.std.specs.Prelude.{◌≡◌, ℕ, ◌<◌, ◌≤◌, Bool, List, Option, Result, None, length, take, IfOk, OnErr};
ghost use Rattle.std.specs.Bool.{OnTrue};
ghost use Rattle.std.specs.Io.KnownBytes.{Appends, Consumes, Keeps};
ghost use Rattle.outside.specs.Asks.{Ask};
ghost use Rattle.outside.specs.Bytes.{IsZeroAtEnd};
ghost use Rattle.outside.specs.Counts.{NeverFalls, Rose};
ghost use Rattle.outside.specs.Prompt.{prompt_arrival};

use values::Code;

/// A read or a write failed. The source or the sink has counted it.
#[derive(Clone, Copy, Debug, PartialEq, Eq)]
pub struct Failed;

/// Where bytes come from.
pub trait Source {
    /// How many calls have failed so far. It stays at the last value of a `u64`.
    ghost faults: { Self → ℕ };

    /// The bytes that it still holds, where it tells them.
    ghost held: { Self → Option (List ℕ) } = { λ _. None };

    /// Moves bytes into the front of `into`, and says how many. None is the end of the input.
    fn read(&mut self, into: &mut [u8]) -> Result<usize, Failed>
        requires { 0 < length into.old }

        ensures bound { IfOk result (λ n. n ≤ length into.new) }
        ensures moved { IfOk result (λ n. Consumes (held self.old) (held self.new) (take n into.new)) }
        ensures end { IfOk result (IsZeroAtEnd (held self.old)) }

        ensures failed { OnErr result (Rose (faults self.old) (faults self.new)) }
        ensures kept { OnErr result (Keeps (held self.old) (held self.new)) }

        ensures counted { NeverFalls (faults self.old) (faults self.new) };
}

/// Where bytes go to.
pub trait Sink {
    /// How many calls have failed so far. It stays at the last value of a `u64`.
    ghost faults: { Self → ℕ };

    /// The bytes that it has taken, where it tells them.
    ghost taken: { Self → Option (List ℕ) } = { λ _. None };

    /// Takes bytes from the front of `from`, at least one, and says how many.
    fn write(&mut self, from: &[u8]) -> Result<usize, Failed>
        requires { 0 < length from.now }

        ensures some { IfOk result (λ n. 0 < n) }
        ensures bound { IfOk result (λ n. n ≤ length from.now) }
        ensures appended { IfOk result (λ n. Appends (taken self.old) (taken self.new) (take n from.now)) }

        ensures failed { OnErr result (Rose (faults self.old) (faults self.new)) }
        ensures kept { OnErr result (Keeps (taken self.old) (taken self.new)) }

        ensures counted { NeverFalls (faults self.old) (faults self.new) };
}

/// What a loader answers.
#[derive(Clone, Copy, Debug, PartialEq, Eq)]
pub enum Arrival {
    /// The load's value is here.
    Ready,
    /// The load's value is not here yet. The loader has counted it.
    NotYet,
    /// This call failed. The loader has counted it.
    Failed,
}

/// Says when the value of a load has arrived.
pub trait Loader {
    ghost use Rattle.outside.specs.declared.traits.Arrival.{Arrival};

    /// How many calls have failed so far. It stays at the last value of a `u64`.
    ghost faults: { Self → ℕ };

    /// How many calls have answered that it is not yet time. It stays at the last value of a `u64`.
    ghost not_yets: { Self → ℕ };

    /// Whether loaders of this type go by `after` and `asked` alone.
    ghost is_prompt: { Bool };

    /// What one ask does: a loader in the first state, asked this, gives this answer and is in the second
    /// state then. Only an ask tells its caller so, thus a caller's contract can say which asks it made.
    ghost answers: { Self → Ask → Arrival → Self → Type 0 };

    /// Asks for the value of `resource` at `key`. `after` is how many calls the resource wants
    /// before it is ready, and `asked` is how often this load has been asked since its key changed.
    fn ask(&mut self, resource: u32, key: Code, after: u32, asked: u32) -> Arrival
        ensures answered { answers self.old (record { resource = resource; key = key; after = after; asked = asked }) result self.new }

        ensures not_yet { result ≡ Arrival.NotYet → Rose (not_yets self.old) (not_yets self.new) }
        ensures failed { result ≡ Arrival.Failed → Rose (faults self.old) (faults self.new) }

        ensures prompt { OnTrue is_prompt (result ≡ prompt_arrival after asked) }

        ensures not_yets_counted { NeverFalls (not_yets self.old) (not_yets self.new) }
        ensures faults_counted { NeverFalls (faults self.old) (faults self.new) };
}

/// Is stepped through before each operation of a lane. It promises nothing, and may hold a lane up.
pub trait Gate: Sync {
    /// The lane and the operation, both counted from 1.
    fn step(&self, lane: u32, op: u32);
}
