//! How far the work on a node is.
ghost use Rattle.std.specs.Prelude.{◌≡◌, ◌<◌, ◌^◌, ◌↔◌, IsTrue};
ghost use Rattle.work_order.specs.Order.{first_frame, cleared_frame, compared_frame, is_run};

use sources::Cause;

/// Why a run of the node is due.
#[derive(Clone, Copy, Debug, PartialEq, Eq)]
pub enum Due {
    /// No run is due, as far as the work has come.
    Not,
    /// The node never ran.
    First,
    /// The recorded source at the frame's place has another version than the recorded one.
    Differs,
}

/// How far the work on a node is. The work begins before it is cleared: the recorded sources of a dirty
/// node are compared. Once it is cleared it is a check, in which they are brought up to date, or a run.
#[derive(Clone, Copy, Debug, PartialEq, Eq)]
pub struct Frame {
    /// So many recorded sources, from the first on, are as they were recorded. Where the next one
    /// differs, its place.
    pub at: usize,
    /// The node's row. It stands here, and not first, so that a frame has 16 bytes.
    pub node: u32,
    /// Why a run is due.
    pub due: Due,
    /// Whether the work on the node is past its beginning.
    pub cleared: bool,
}

impl Frame {
    /// The frame of a node that is taken up. `cause` is that of its last run, if it ever ran.
    #[inline]
    pub fn new(node: u32, cause: Option<Cause>) -> Frame
        ensures { result ≡ first_frame node cause }
    {
        Frame {
            node,
            at: 0,
            due: match cause {
                None => Due::First,
                Some(_) => Due::Not,
            },
            cleared: false,
        }
    }

    /// The frame once the node is cleared. Where no run is due, a check begins with the first recorded
    /// source.
    #[inline]
    pub fn cleared(self) -> Frame
        ensures { result ≡ cleared_frame self }
    {
        match self.due {
            Due::Not => Frame {
                at: 0,
                cleared: true,
                ..self
            },
            Due::First | Due::Differs => Frame {
                cleared: true,
                ..self
            },
        }
    }

    /// The frame once the recorded source at its place was seen to have version `now`, where `recorded`
    /// is the recorded one.
    #[inline]
    pub fn compared(self, recorded: u64, now: u64) -> Frame
        requires { self.at < 2 ^ 63 }
        ensures { result ≡ compared_frame self recorded now }
    {
        if recorded == now {
            Frame {
                at: self.at + 1,
                ..self
            }
        } else {
            Frame {
                due: Due::Differs,
                ..self
            }
        }
    }

    /// Whether the frame is of a run: whether the node is cleared and a run is due.
    #[inline]
    pub fn is_run(&self) -> bool
        ensures { result ≡ is_run self.now }
    {
        self.cleared && self.due != Due::Not
    }
}
