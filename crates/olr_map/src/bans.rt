//! The bans of a file.

ghost use Rattle.std.specs.Prelude.{◌+◌, ◌<◌, IfOk, IfErr, OnOk};
ghost use Rattle.olr_map.specs.inner.Ending.{FaultOfFile};
ghost use Rattle.olr_map.specs.Files.{IsReadWhole};
ghost use Rattle.olr_map.specs.Rows.{IsBan};
ghost use Rattle.olr_map.specs.Tables.{IsBansFault, IsBanSet};
ghost use Rattle.std.specs.List.Sorted.{IsStrictlyIncreasing};
ghost use Rattle.olr_road.specs.RoadMap.{line_ids};
ghost use Rattle.olr_map.specs.inner.Reading.{StopsBan, HasText};

use crate::fault::MapFault;
use crate::rows::named_lines;
use crate::table::{Stop, TableFile, has_names, read_table};
use olr_base::NoMemory;
use olr_index::{Keyed, keys_of, sort_or_repeat};
use olr_records::{File, Record, Source};
use olr_road::{Ban, LineSet};
use std::alloc::Global;

/// The most bans of a map.
const BANS: u32 = 200_000;

/// The ban of a record, or why the record is none; `number` is the record's, from 1.
#[tactic(auto, using(crate::proofs::BanRows::rank_inside, crate::proofs::BanRows::names, crate::proofs::BanRows::meets))]
fn ban_of(row: &Record, lines: &LineSet, number: u32) -> Result<Ban, Stop>
    requires { IsStrictlyIncreasing (line_ids lines.now) }
    ensures ban { IfOk result (IsBan lines.now row.now) }
    ensures stop { IfErr result (StopsBan lines.now row.now number) }
{
    let (from, to) = match named_lines(row) {
        Ok(ids) => ids,
        Err(error) => {
            let fault = error.in_record(File::Bans, number);
            return Err(Stop { fault, key: None });
        }
    };
    let (Some(from), Some(to)) = (lines.find(from), lines.find(to)) else {
        let fault = MapFault::UnknownLine(number);
        return Err(Stop { fault, key: None });
    };
    let ban = Ban { from, to };
    if lines.line(from).to != lines.line(to).from {
        let fault = MapFault::NotAdjacent(number);
        let key = Some(ban.key());
        return Err(Stop { fault, key });
    }
    Ok(ban)
}

/// The file of bans.
#[derive(Drop)]
struct BanFile<'a> {
    lines: &'a LineSet,
    bans: Vec<Ban>,
}

impl<'a> TableFile for BanFile<'a> {
    ghost use Rattle.std.specs.Prelude.{List};
    ghost use Rattle.olr_road.specs.declared.ban.Ban.{Ban};
    ghost use Rattle.std.specs.List.Sorted.{IsStrictlyIncreasing};
    ghost use Rattle.olr_road.specs.RoadMap.{RoadLine, line_ids};
    ghost use Rattle.olr_map.specs.Tables.{bans_table};

    ghost Row = { Ban };

    ghost Earlier = { List RoadLine };

    ghost table_of = { bans_table };

    ghost before = { λ file. file.lines.now };

    ghost rows = { λ file. file.bans.items };

    ghost IsSound = { λ file. IsStrictlyIncreasing (line_ids file.lines.now) };

    fn file(&self) -> File {
        File::Bans
    }

    fn limit(&self) -> u32 {
        BANS
    }

    fn is_header(&self, row: &Record) -> bool {
        has_names(row, &["from", "to"])
    }

    fn add(&mut self, row: &Record) -> Result<Option<Stop>, NoMemory> {
        let number = self.bans.len() as u32 + 1;
        match ban_of(row, self.lines, number) {
            Ok(ban) => {
                self.bans.push(ban)?;
                Ok(None)
            }
            Err(stop) => Ok(Some(stop)),
        }
    }

    fn keys(&self, alloc: Global) -> Result<Vec<u64>, NoMemory> {
        let keys = keys_of(alloc, &self.bans)?;
        Ok(keys)
    }

    fn sort(&mut self, alloc: Global) -> Result<Option<usize>, NoMemory> {
        let repeat = sort_or_repeat(alloc, &mut self.bans)?;
        Ok(repeat)
    }
}

/// The bans of a source, by the rising ranks of their lines.
///
/// # Errors
///
/// The fault of the text, [`MapFault::ReadFailed`] or [`MapFault::NoMemory`].
pub(crate) fn read_bans<S: Source>(
    alloc: Global,
    source: &mut S,
    lines: &LineSet,
) -> Result<Vec<Ban>, MapFault>
    requires { IsStrictlyIncreasing (line_ids lines.now) }
    ensures bans { IfOk result (λ bans. HasText (S.left source.old)
        (λ text. IsBanSet lines.now text bans.items)) }
    ensures whole { OnOk result (IsReadWhole S.left S.failed source.old source.new) }
    ensures fault { IfErr result (FaultOfFile S.left S.failed source.old source.new
        File.Bans (IsBansFault lines.now)) }
{
    let mut file = BanFile {
        lines,
        bans: Vec::new(alloc),
    };
    read_table(alloc, source, &mut Vec::new(alloc), &mut file)?;
    Ok(file.bans)
}
