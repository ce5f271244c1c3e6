//! Plans, and what is noted and answered while one runs.

ghost use Rattle.std.specs.Prelude.{◌≡◌};
ghost use Rattle.values.specs.PlanValues.{is_derived};

use crate::code::Code;
use crate::expr::Expr;
use crate::sequence::{Numbers, Sequence};

/// What a node is. A memo and an effect are derived: they have the value of their expression over
/// the rows before them. The others are sources, whose values are given.
#[derive(Clone, Copy, Debug, PartialEq, Eq)]
pub enum Kind {
    /// A value that is written.
    Signal,
    /// A field of a store's row.
    Field,
    /// What a resource gives for the key that has arrived.
    Load,
    /// A value that is computed when it is asked for, and kept.
    Memo,
    /// A value that is computed when effects run. No expression reads it.
    Effect,
}

impl Kind {
    /// Whether the node is computed: whether it is a memo or an effect.
    pub fn is_derived(self) -> bool
        ensures { result ≡ is_derived self }
    {
        matches!(self, Kind::Memo | Kind::Effect)
    }
}

/// A node of a plan. Of a signal, a field and a load the expression is not used.
#[derive(Debug, Drop)]
pub struct PlanNode {
    /// What the node is.
    pub kind: Kind,
    /// What a derived node computes. It names smaller rows alone.
    pub expr: Expr,
    /// The owner's number in the plan.
    pub owner: u32,
}

/// An owner of a plan. Owner 0 alone has no parent.
#[derive(Debug, Drop)]
pub struct PlanOwner {
    /// The owner that it is inside of, which has a smaller number.
    pub parent: Option<u32>,
    /// The numbers of the cleanups that its disposal runs.
    pub cleanups: Numbers,
}

/// The nodes of a plan. A node's number is its place.
pub type PlanNodes = Sequence<PlanNode>;

/// The owners of a plan. An owner's number is its place.
pub type PlanOwners = Sequence<PlanOwner>;

/// All nodes and owners of a graph. It is lawful where it has at most 4,096 nodes and from 1 to
/// 1,024 owners, each expression names smaller rows that are no effects, each node's owner is there,
/// and each owner but owner 0 has a parent with a smaller number.
#[derive(Debug, Drop)]
pub struct Plan {
    /// The nodes, in order of number.
    pub nodes: PlanNodes,
    /// The owners, in order of number.
    pub owners: PlanOwners,
}

/// Why a call drew no number.
#[derive(Clone, Copy, Debug, PartialEq, Eq)]
pub enum Stop {
    /// This owner was found disposed.
    Disposed(u32),
    /// This number, above the last of a phase, was drawn.
    Full(u32),
}

/// How many owners a disposal turned, and how many it found turned.
#[derive(Clone, Copy, Debug, PartialEq, Eq)]
pub struct Disposal {
    /// As many owners this call turned.
    pub now: u32,
    /// As many others were turned before.
    pub before: u32,
}

/// Why an effect was left.
#[derive(Clone, Copy, Debug, PartialEq, Eq)]
pub enum Left {
    /// This node was claimed by another pass.
    Busy(u32),
    /// This node was marked while it ran.
    Again(u32),
    /// This number, above the last of a phase, was drawn.
    Full(u32),
}

/// How many effects ran, were as before, were gone with their owner, and were left.
#[derive(Clone, Copy, Debug, PartialEq, Eq)]
pub struct Pumped {
    /// As many ran.
    pub ran: u32,
    /// As many needed no run.
    pub same: u32,
    /// As many had a disposed owner.
    pub gone: u32,
    /// As many were left for a later call.
    pub left: u32,
    /// The first effect that was left, and why.
    pub first_left: Option<(u32, Left)>,
}

/// What an entry of the journal says.
#[derive(Clone, Copy, Debug, PartialEq, Eq)]
pub enum Fact {
    /// A signal was written.
    Write { row: u32, code: Code },
    /// A memo has a new value.
    Change { row: u32, code: Code },
    /// An effect ran.
    Ran { row: u32, code: Code },
    /// A number that was drawn for this row came to nothing.
    Void { row: u32 },
    /// An owner was disposed.
    Disposed { owner: u32 },
    /// The edit of this place in the list of this pass.
    Edit { pass: u32, index: u32 },
}

/// A fact with its number in the phase.
#[derive(Clone, Copy, Debug, PartialEq, Eq)]
pub struct Noted {
    /// Its number, from 1 on.
    pub number: u32,
    /// What is noted.
    pub fact: Fact,
}

/// Facts in order of number.
pub type Facts = Sequence<Noted>;

/// What a number is drawn for.
#[derive(Clone, Copy, Debug, PartialEq, Eq)]
pub enum Aim {
    /// A write of this value to this signal.
    Write { signal: u32, code: Code },
    /// A new value of this memo.
    Run { node: u32 },
    /// A run of this effect.
    Effect { node: u32 },
    /// The disposal of this owner.
    Owner { owner: u32 },
    /// An edit of a list that this owner owns.
    Edit { owner: u32 },
}
