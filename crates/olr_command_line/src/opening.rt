//! What opens files, and the open files of a map.

use either::Either;
use olr_app::{Fault, File, In, Source};
use olr_words::Files;
use std::alloc::Global;

/// Why a file isn't open.
#[derive(Clone, Copy, Debug, PartialEq, Eq)]
pub enum NotOpened {
    /// The allocator refused memory.
    NoMemory,
    /// There is no such file, or it can't be read.
    Failed,
}

/// What opens files, and where standard input comes from.
pub trait Disk {
    /// An open file.
    type Opened: Source + Drop;

    /// Standard input.
    type Standard: Source + Drop;

    /// Opens the file of a path, to be read from its start.
    ///
    /// # Errors
    ///
    /// [`NotOpened`] where it can't be opened.
    fn open(&mut self, path: &str) -> Result<Self::Opened, NotOpened>;

    /// Whether something has this path, even if it can't be opened.
    fn has(&mut self, path: &str) -> bool;

    /// Standard input.
    fn standard_input(&mut self) -> Self::Standard;
}

/// Opens a file, whose fault is this where it can't be opened.
pub(crate) fn open<D: Disk>(disk: &mut D, path: &str, fault: Fault) -> Result<D::Opened, Fault> {
    match disk.open(path) {
        Ok(opened) => Ok(opened),
        Err(NotOpened::NoMemory) => Err(Fault::NoMemory),
        Err(NotOpened::Failed) => Err(fault),
    }
}

/// What a file of bans holds where a map has none: its header alone.
const NO_BANS: &[u8] = b"from,to\n";

/// The open files of a map. Where it has no file of bans, its bans are [`NO_BANS`].
#[derive(Drop)]
pub(crate) struct MapFiles<F: Drop> {
    pub(crate) nodes: F,
    pub(crate) lines: F,
    pub(crate) bans: Either<F, In<&'static [u8]>>,
}

/// Opens the files of these paths, the nodes first.
fn open_paths<D: Disk>(
    disk: &mut D,
    nodes: &str,
    lines: &str,
    bans: Option<&str>,
) -> Result<MapFiles<D::Opened>, Fault> {
    let nodes = open(disk, nodes, Fault::OpenFailed(File::Nodes))?;
    let lines = open(disk, lines, Fault::OpenFailed(File::Lines))?;
    let bans = match bans {
        Some(path) => Either::Left(open(disk, path, Fault::OpenFailed(File::Bans))?),
        None => Either::Right(In::new(NO_BANS)),
    };
    Ok(MapFiles { nodes, lines, bans })
}

/// The path of a file in a folder.
fn path_in(alloc: Global, folder: &str, name: &str) -> Result<String, Fault> {
    let Ok(path) = format!(in alloc; "{folder}/{name}") else {
        return Err(Fault::NoMemory);
    };
    Ok(path)
}

/// A path, if something has it.
fn existing<'a, D: Disk>(disk: &mut D, path: &'a str) -> Option<&'a str> {
    if disk.has(path) { Some(path) } else { None }
}

/// Opens the files of a map in a folder, the nodes first.
fn open_folder<D: Disk>(
    alloc: Global,
    disk: &mut D,
    folder: &str,
) -> Result<MapFiles<D::Opened>, Fault> {
    let nodes = path_in(alloc, folder, "nodes.csv")?;
    let lines = path_in(alloc, folder, "lines.csv")?;
    let bans = path_in(alloc, folder, "bans.csv")?;
    let bans = existing(disk, &bans);
    open_paths(disk, &nodes, &lines, bans)
}

/// Opens the files of a map, the nodes first.
pub(crate) fn open_files<D: Disk>(
    alloc: Global,
    disk: &mut D,
    files: &Files<'_>,
) -> Result<MapFiles<D::Opened>, Fault> {
    match *files {
        Files::At { nodes, lines, bans } => open_paths(disk, nodes, lines, bans),
        Files::Folder(folder) => open_folder(alloc, disk, folder),
    }
}
