//! The files of a map.

/// One of the three files of a map.
#[derive(Clone, Copy, Debug, PartialEq, Eq)]
pub enum File {
    /// The file of nodes.
    Nodes,
    /// The file of lines.
    Lines,
    /// The file of bans on turns.
    Bans,
}
