//! Why a place is no more probable than it is.

/// What a reason is about.
#[derive(Clone, Copy, Debug, PartialEq, Eq)]
pub enum ReasonKind {
    /// The route turns back.
    TurningBack,
    /// A leg is longer than the reference says, by thousandths of the first length behind its interval.
    Longer,
    /// A leg is shorter than the reference says, likewise.
    Shorter,
    /// A point lies beside its line, by centimetres.
    Distance,
    /// The bearing at a point and that of its line differ, by sectors.
    Direction,
    /// A point lies away from the proper end of its line, by decimetres.
    End,
    /// Another place costs less, by thirtieths of a penalty point.
    Behind,
    /// Any line of the route may be missing on the sender's map: how many there are.
    Lines,
}

/// Why a place is no more probable than it is.
#[derive(Clone, Copy, Debug, PartialEq, Eq)]
pub struct Reason {
    /// What it is about.
    pub kind: ReasonKind,
    /// The number of the point or of the leg, from 1, where it is about one.
    pub at: Option<usize>,
    /// By how much, in the unit of its kind; 1 for turning back.
    pub by: u64,
}

/// A reason, and what it loses.
#[derive(Clone, Copy, Debug, PartialEq, Eq)]
pub(crate) struct WeighedReason {
    /// The reason.
    pub reason: Reason,
    /// What it loses: 2^24 halves the share.
    pub lost: u64,
}
