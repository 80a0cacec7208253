//! A certificate's file, judged by the grids of a window's stations.

ghost use Rattle.std.specs.Prelude.{◌≡◌, ◌≢◌, ◌≤◌, Err, IfOk, IsErrOf, vec_len};
ghost use Rattle.signal_base.specs.declared.limits.TheConstants.{GREATEST_COST};
ghost use Rattle.bank_files.specs.Seen.{OnlyReads, ReadFails, SameCounts};
ghost use Rattle.bank_files.specs.Told.{output_name};
ghost use Rattle.definitions.specs.sequences.Windows.{IsWindow};
ghost use Rattle.field_tables.specs.Grids.{AreGrids, grid_costs};
ghost use Rattle.field_tables.specs.Scopes.{scopes_of};
ghost use Rattle.certificate_judge.specs.Outcomes.{IsOutcome};
ghost use Rattle.bank.specs.Loading.{IsReadAs};

use crate::reading::judge_file;
use bank::Stop;
use bank_files::Files;
use bounds::items;
use certificate_judge::Outcome;
use civil::Civil;
use field_tables::{StationParts, Tables};
use signal_base::Window;
use std::alloc::{AllocError, Global};
use symbol_cost::CostGrid;

// How many bytes of a certificate are asked for at once.
const PIECE: usize = 65_536;

/// What comes of the bytes of a file as a certificate of a window under a ceiling, by the parts and the grids of its stations. All
/// memory is taken before the file is read.
pub fn judge_window<F: Files>(
    alloc: Global,
    civil: &Civil,
    parts: &[StationParts],
    grids: &[CostGrid],
    window: &Window,
    ceiling: u32,
    files: &mut F,
    name: &str,
) -> Result<Outcome, Stop>
    requires window { IsWindow window.now }
    requires parts { parts.now ≡ scopes_of window.now.stations window.now.seconds }
    requires grids { AreGrids window.now grids.now }
    requires ceiling { ceiling ≤ GREATEST_COST }
    requires name { name.now ≢ output_name }
    ensures outcome { IfOk result (λ outcome. IsReadAs (F.view files.old) name.now (λ bytes. IsOutcome (grid_costs grids.now) window.now ceiling bytes outcome)) }
    ensures failed { IsErrOf result Stop.Failed → ReadFails name.now (F.view files.old) (F.view files.new) }
    ensures same_counts { result ≢ Err Stop.Failed → SameCounts (F.view files.old) (F.view files.new) }
    ensures only { OnlyReads (F.view files.old) (F.view files.new) }
{
    let list = items(alloc, civil, window)?;
    let tables = Tables::make_with_days(alloc, parts, grids, civil, window)?;
    let mut piece = room_for(alloc, PIECE)?;
    let outcome = judge_file(files, name, &mut piece, &tables, list.as_slice(), ceiling)?;
    Ok(outcome)
}

// That many bytes, to read into.
fn room_for(alloc: Global, count: usize) -> Result<Vec<u8>, AllocError>
    ensures { IfOk result (λ room. vec_len room ≡ count) }
{
    vec![in alloc; 0u8; count]
}
