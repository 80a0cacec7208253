//! The report of what valid certificates name.

ghost use Rattle.std.specs.Prelude.{◌≡◌, IfErr, IfOk};
ghost use Rattle.definitions.specs.sequences.Windows.{IsWindow};
ghost use Rattle.sweep_due.specs.declared.offsets.TheConstants.{OFFSETS};
ghost use Rattle.sweep_due.specs.Searches.{IsSearched};
ghost use Rattle.bank.specs.Hearing.{IsBank, bank_seen};
ghost use Rattle.bank.specs.declared.stop.Stop.TheVariants as stops;
ghost use Rattle.judges.specs.Judging.{IsCertified, swept_below};
ghost use Rattle.judges.specs.Seen.{CanBeWritten};

use crate::owed::JudgeOwed;
use bank::{Bank, Stop, duts_of, grids_of};
use civil::Civil;
use sequence::answer_of;
use signal_base::Window;
use std::alloc::Global;
use sweep::told_window;
use sweep_due::{Standing, searches_decide_a_sweep};

/// The report of the swept answer, where the window is that of a decode and this is what searches at all swept offsets would find.
pub fn report_of(
    alloc: Global,
    civil: &Civil,
    bank: &Bank,
    window: &Window,
    standing: Standing,
) -> Result<JudgeOwed, Stop>
    requires bank { IsBank bank.now }
    requires window { IsWindow window.now }
    requires searched { IsSearched window.now (bank_seen bank.now) (swept_below window.now.phase OFFSETS) standing }
    ensures reported { IfOk result (IsCertified window.now (bank_seen bank.now)) }
    ensures can_be_written { IfOk result CanBeWritten }
    ensures memory { IfErr result (λ stop. stop ≡ stops.NoMemory) }
{
    searches_decide_a_sweep();
    let answer = answer_of(standing.first_key(), standing.second);
    let told = told_window(window, standing);
    let grids = grids_of(alloc, bank, &told)?;
    let duts = duts_of(civil, grids.as_slice(), &told, &answer);
    Ok(JudgeOwed::Certified {
        window: told,
        answer,
        duts,
    })
}
