//! What a production is made of.

/// One symbol of a production: a terminal, which one token stands for; a rule, which one of its
/// productions stands for; or an action on what was read so far, which no token stands for.
#[derive(Clone, Copy, Debug, Drop)]
pub enum Symbol<W, R, D> {
    Terminal(W),
    Rule(R),
    Action(D),
}
