//! Numbers that are drawn.
ghost use Rattle.std.specs.Prelude.{◌≡◌, ◌≤◌, ◌<◌, ◌^◌, ◌+◌, ◌++◌, ◌∷◌, [], true, false, length, IfOk, OnErr};
ghost use Rattle.values.specs.declared.plan.Fact.{Fact as FactValue};
ghost use Rattle.values.specs.Reserved.{room_of};
ghost use Rattle.still_rows.specs.Clock.{IsClock, IsTicked, IsNoted, now_of, refused, filled, entry_at};

use values::{Fact, Noted, Reserved};

/// The last number of a phase.
const LAST: u32 = 65_536;

/// As many entries a phase has room for: one for each of its 65,536 numbers, and one for each of 1,024
/// owners that are disposed past them.
pub const PHASE_ROOM: usize = 66_560;

/// Counts the new values of rows. In a phase each is noted with its number; between phases the clock
/// ticks, and nothing is noted.
#[derive(Debug, Drop)]
pub struct Clock {
    /// The count of ticks when the phase, or the settling, began.
    pub base: u64,
    /// As many numbers were drawn since. A version is the base plus its number.
    pub drawn: u32,
    /// Whether what is drawn is noted.
    pub in_phase: bool,
    /// What was noted in this phase: the entry of number n stands at place n - 1, up to the last
    /// number. A phase has room for `PHASE_ROOM` entries.
    pub entries: Reserved<Noted>,
}

/// The next number is above the last of a phase, 65,536.
#[derive(Clone, Copy, Debug, PartialEq, Eq)]
pub struct Full;

impl Clock {
    /// Draws the next number, and notes the fact with it where a phase is open. The answer is the
    /// version that has the number. After `Full` the clock is as it was.
    pub fn tick(&mut self, fact: Fact) -> Result<u64, Full>
        requires { IsClock self.old }
        ensures ticked { IfOk result (λ version. IsTicked self.old self.new fact) }
        ensures version { IfOk result (λ version. version ≡ now_of self.old + 1) }
        ensures clock { IsClock self.new }
        ensures full { OnErr result (65536 ≤ self.old.drawn) }
        ensures unchanged { OnErr result (self.new ≡ self.old) }
    {
        if self.drawn >= LAST {
            return Err(Full);
        }
        self.note(fact);
        Ok(self.base + u64::from(self.drawn))
    }

    /// Draws a number above the last of a phase, which comes to nothing. The answer is the number.
    pub fn refuse(&mut self) -> u32
        requires clock { IsClock self.old }
        requires past { 65536 ≤ self.old.drawn }
        requires few { self.old.drawn + 1 < 2 ^ 31 }
        ensures refused { self.new ≡ refused self.old }
        ensures number { result ≡ self.old.drawn + 1 }
        ensures clock { IsClock self.new }
    {
        self.drawn += 1;
        self.drawn
    }

    /// Draws the next number, and notes with it that the owner was disposed, however many were drawn.
    /// The answer is the number.
    pub fn dispose(&mut self, owner: u32) -> u32
        requires clock { IsClock self.old }
        requires phase { self.old.in_phase ≡ true }
        requires room { length self.old.entries.list < room_of self.old.entries }
        requires few { self.old.drawn + 1 < 2 ^ 31 }
        ensures noted { IsNoted self.old self.new (Fact.Disposed owner) }
        ensures number { result ≡ self.old.drawn + 1 }
        ensures clock { IsClock self.new }
    {
        let number = self.drawn + 1;
        self.drawn = number;
        let fact = Fact::Disposed { owner };
        self.entries.push(Noted { number, fact });
        number
    }

    /// The entry of the number `place + 1`, which was drawn before, says this fact from now on.
    pub fn fill(&mut self, place: u32, fact: Fact)
        requires clock { IsClock self.old }
        requires drawn { place < self.old.drawn }
        requires noted { place < length self.old.entries.list }
        ensures filled { self.new ≡ filled self.old place fact }
        ensures clock { IsClock self.new }
    {
        let number = place + 1;
        self.entries.set(place as usize, Noted { number, fact });
    }

    fn note(&mut self, fact: Fact)
        requires clock { IsClock self.old }
        requires few { self.old.drawn < 65536 }
        ensures ticked { IsTicked self.old self.new fact }
        ensures clock { IsClock self.new }
    {
        let number = self.drawn + 1;
        self.drawn = number;
        if self.in_phase {
            self.entries.push(Noted { number, fact });
        }
    }
}
