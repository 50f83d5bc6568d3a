//! The nodes of a file.

ghost use Rattle.std.specs.Prelude.{IfOk, IfErr, OnOk};
ghost use Rattle.olr_map.specs.inner.Ending.{FaultOfFile};
ghost use Rattle.olr_map.specs.Files.{IsReadWhole};
ghost use Rattle.olr_road.specs.Entries.{nodes_of};
ghost use Rattle.olr_map.specs.inner.Reading.{HasText};
ghost use Rattle.olr_map.specs.Tables.{IsNodesFault, IsNodeSet};

use crate::fault::MapFault;
use crate::rows::read_node;
use crate::table::{Stop, TableFile, has_names, read_table};
use olr_base::NoMemory;
use olr_index::{keys_of, sort_or_repeat};
use olr_records::{File, Record, Source};
use olr_road::Node;
use std::alloc::Global;

/// The most nodes of a map.
const NODES: u32 = 100_000;

/// The file of nodes.
#[derive(Drop)]
struct NodeFile {
    nodes: Vec<Node>,
}

impl TableFile for NodeFile {
    ghost use Rattle.std.specs.Prelude.{⊤};
    ghost use Rattle.olr_road.specs.RoadMap.{Node as NodeOfText};
    ghost use Rattle.olr_map.specs.Tables.{nodes_table};

    ghost Row = { NodeOfText };

    ghost Earlier = { ⊤ };

    ghost table_of = { λ _. nodes_table };

    ghost before = { λ _. tt };

    ghost rows = { λ file. nodes_of file.nodes.items };

    ghost IsSound = { λ _. ⊤ };

    fn file(&self) -> File {
        File::Nodes
    }

    fn limit(&self) -> u32 {
        NODES
    }

    fn is_header(&self, row: &Record) -> bool {
        has_names(row, &["id", "lon", "lat"])
    }

    fn add(&mut self, row: &Record) -> Result<Option<Stop>, NoMemory> {
        let number = self.nodes.len() as u32 + 1;
        match read_node(row) {
            Ok(node) => {
                self.nodes.push(node)?;
                Ok(None)
            }
            Err(error) => {
                let fault = error.in_record(File::Nodes, number);
                Ok(Some(Stop { fault, key: None }))
            }
        }
    }

    #[tactic(auto, using(olr_road::proofs::Sets::ids_of_rows))]
    fn keys(&self, alloc: Global) -> Result<Vec<u64>, NoMemory> {
        let keys = keys_of(alloc, &self.nodes)?;
        Ok(keys)
    }

    #[tactic(auto, using(olr_road::proofs::Sets::option_cases, olr_road::proofs::Sets::ids_of_rows, olr_road::proofs::Sets::sorted_nodes))]
    fn sort(&mut self, alloc: Global) -> Result<Option<usize>, NoMemory> {
        let repeat = sort_or_repeat(alloc, &mut self.nodes)?;
        Ok(repeat)
    }
}

/// The nodes of a source, by rising id. Its bytes go into `text`.
///
/// # Errors
///
/// The fault of the text, [`MapFault::ReadFailed`] or [`MapFault::NoMemory`].
pub(crate) fn read_nodes<S: Source>(
    alloc: Global,
    source: &mut S,
    text: &mut Vec<u8>,
) -> Result<Vec<Node>, MapFault>
    ensures nodes { IfOk result (λ rows. HasText (S.left source.old)
        (λ text. IsNodeSet text (nodes_of rows.items))) }
    ensures whole { OnOk result (IsReadWhole S.left S.failed source.old source.new) }
    ensures fault { IfErr result
        (FaultOfFile S.left S.failed source.old source.new File.Nodes IsNodesFault) }
{
    let mut file = NodeFile {
        nodes: Vec::new(alloc),
    };
    read_table(alloc, source, text, &mut file)?;
    Ok(file.nodes)
}
