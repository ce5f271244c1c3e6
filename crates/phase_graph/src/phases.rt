//! Where a phase opens and ends, and settling.
ghost use Rattle.std.specs.Prelude.{◌≡◌, ◌≤◌, ◌<◌, ◌+◌, ◌^◌, true, false, [], length, OnOk, OnErr};
ghost use Rattle.values.specs.Reserved.{room_of};
ghost use Rattle.still_readers.specs.Readers.{IsExact};
ghost use Rattle.still_rows.specs.Works.{unclean_count};
ghost use Rattle.phase_graph.specs.Graph.{AreSettledTo};
ghost use Rattle.phase_graph.specs.Table.{IsTable, IsStirred, IsSettled, IsSpanSettled, begun, ended, rebased};

use crate::table::Table;
use std::mem;
use still_rows::{Full, settle_memos, settle_span};
use values::{Noted, Reserved};

impl Table {
    /// Opens a phase, which notes in this list. The answer is the list that was there.
    pub(crate) fn begin(&mut self, entries: Reserved<Noted>) -> Reserved<Noted>
        requires table { IsTable self.old }
        requires ticks { self.old.clock.base + self.old.clock.drawn < 2 ^ 62 }
        requires empty { entries.list ≡ [] }
        requires room { 66560 ≤ room_of entries }
        ensures table { IsTable self.new }
        ensures begun { self.new ≡ begun self.old entries }
    {
        self.full = None;
        self.clock.base += u64::from(self.clock.drawn);
        self.clock.drawn = 0;
        self.clock.in_phase = true;
        mem::replace(&mut self.clock.entries, entries)
    }

    /// Makes exact who has read what: each node has read the rows that its body records, and no others.
    pub(crate) fn subscribe(&mut self)
        requires table { IsTable self.old }
        requires ticks { self.old.clock.base < 2 ^ 62 }
        ensures table { IsTable self.new }
        ensures exact { IsExact self.new.rows.items (length self.new.readers.list) self.new.readers }
        ensures rest { self.new ≡ record self.old { readers = self.new.readers } }
    {
        self.readers.renew(self.rows.as_slice());
    }

    /// Ends the phase, and puts this list in the place of what was noted, which is the answer.
    pub(crate) fn end(&mut self, idle: Reserved<Noted>) -> Reserved<Noted>
        requires table { IsTable self.old }
        requires open { self.old.clock.in_phase ≡ true }
        ensures table { IsTable self.new }
        ensures ended { self.new ≡ ended self.old idle }
        ensures entries { result ≡ self.old.clock.entries }
    {
        self.full = None;
        self.clock.base += u64::from(self.clock.drawn);
        self.clock.drawn = 0;
        self.clock.in_phase = false;
        mem::replace(&mut self.clock.entries, idle)
    }

    /// Brings every memo up to date. There are numbers for all.
    pub(crate) fn settle(&mut self)
        requires table { IsTable self.old }
        requires closed { self.old.clock.in_phase ≡ false }
        requires few { self.old.clock.drawn ≤ 61440 }
        requires ticks { self.old.clock.base < 2 ^ 62 }
        ensures table { IsTable self.new }
        ensures settled { IsSettled self.old self.new }
    {
        let _ = self.stir_all();
    }

    /// Brings every memo up to date, as far as there are numbers for their new values.
    fn stir_all(&mut self) -> Result<(), Full>
        requires table { IsTable self.old }
        requires ticks { self.old.clock.base < 2 ^ 62 }
        ensures stirred { IsStirred self.old self.new }
        ensures settled { OnOk result (IsSettled self.old self.new) }
        ensures full { OnErr result (65536 ≤ self.new.clock.drawn) }
        ensures left { OnErr result (0 < unclean_count self.new.rows.items) }
    {
        settle_memos(
            self.plan.nodes.as_slice(),
            self.rows.as_mut_slice(),
            &mut self.readers,
            &mut self.clock,
            &mut self.work,
        )
    }

    /// Brings the memos of the rows from one up to another up to date. There are numbers for all.
    pub(crate) fn settle_span(&mut self, from: u32, to: u32)
        requires table { IsTable self.old }
        requires closed { self.old.clock.in_phase ≡ false }
        requires few { self.old.clock.drawn ≤ 61440 }
        requires ticks { self.old.clock.base < 2 ^ 62 }
        requires span { from ≤ to }
        requires within { to ≤ length self.old.plan.nodes }
        requires behind { AreSettledTo self.old.plan.nodes self.old.rows.items from }
        ensures table { IsTable self.new }
        ensures settled { IsSpanSettled self.old self.new from to }
    {
        let _ = self.stir_span(from, to);
    }

    /// Brings the memos of the rows from one up to another up to date, as far as there are numbers for their new values.
    fn stir_span(&mut self, from: u32, to: u32) -> Result<(), Full>
        requires table { IsTable self.old }
        requires ticks { self.old.clock.base < 2 ^ 62 }
        requires span { from ≤ to }
        requires within { to ≤ length self.old.plan.nodes }
        requires behind { AreSettledTo self.old.plan.nodes self.old.rows.items from }
        ensures stirred { IsStirred self.old self.new }
        ensures settled { OnOk result (IsSpanSettled self.old self.new from to) }
        ensures full { OnErr result (65536 ≤ self.new.clock.drawn) }
        ensures left { OnErr result (0 < unclean_count self.new.rows.items) }
    {
        settle_span(
            self.plan.nodes.as_slice(),
            self.rows.as_mut_slice(),
            &mut self.readers,
            &mut self.clock,
            &mut self.work,
            from,
            to,
        )
    }

    /// Counts numbers anew from here.
    pub(crate) fn rebase(&mut self)
        requires table { IsTable self.old }
        requires closed { self.old.clock.in_phase ≡ false }
        requires ticks { self.old.clock.base + self.old.clock.drawn < 2 ^ 62 }
        ensures table { IsTable self.new }
        ensures rebased { self.new ≡ rebased self.old }
    {
        self.full = None;
        let drawn = mem::replace(&mut self.clock.drawn, 0);
        self.clock.base += u64::from(drawn);
    }
}
