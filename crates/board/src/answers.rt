//! The answers to queries: askers ask while windows are decoded and published.

ghost use Rattle.std.specs.Prelude.{◌≡◌, [], IfErr, IfOk, OnOk, map};
ghost use Rattle.std.specs.Thread.{IsSync};
ghost use Rattle.definitions.specs.sequences.Windows.{IsWindow};
ghost use Rattle.follow_due.specs.FollowOrders.{first_window};
ghost use Rattle.follow_due.specs.Windows.{StartInTime};
ghost use Rattle.bank.specs.declared.stop.Stop.TheVariants.{NoMemory};
ghost use Rattle.bank.specs.Hearing.{IsBank, bank_seen};
ghost use Rattle.board_due.specs.declared.board_due.BoardDue.TheVariants.{Answers};
ghost use Rattle.board_due.specs.Queries.QueriesTold.{Read};
ghost use Rattle.board_due.specs.BoardRules.{IsAnswered};
ghost use Rattle.board_entries.specs.Plain.{plain};
ghost use Rattle.clock_board.specs.Seats.{published};
ghost use Rattle.board.specs.Asking.{told_seen};
ghost use Rattle.board.specs.Finding.{CanBeWritten};
ghost use Rattle.board.specs.Publishing.{ArePublished};
ghost use Rattle.board.specs.Tasks.{IsInRange, order_seen};

use crate::counts::counts_of;
use crate::desk::{Desk, ask_all, ask_behind_the_news, desks_of};
use crate::publish::publish_windows;
use crate::text::QueryText;
use crate::words::BoardTask;
use bank::{Bank, Stop};
use board_due::{BoardDue, Entries, Numbers};
use board_entries::Entry;
use civil::Civil;
use clock_board::{Asker, Tracker, make};
use follow::WindowGate;
use signal_base::Window;
use std::alloc::Global;
use std::sync::Wait;
use std::thread::{Threads, join_mut};
use workers::Gate;

/// What is due of a bank by what is told of the text of its queries.
pub fn due_of<R: Threads + Wait + Sync, G: Gate + WindowGate + Sync>(
    rt: &R,
    alloc: Global,
    civil: &Civil,
    bank: &Bank,
    first: &Window,
    task: &BoardTask<'_>,
    text: QueryText,
    gate: &G,
) -> Result<BoardDue, Stop>
    requires bank { IsBank bank.now }
    requires window { IsWindow first.now }
    requires task { IsInRange task.now }
    requires last { StartInTime first.now task.now.step task.now.count }
    requires first { first.now ≡ first_window (order_seen task.now).follow (bank_seen bank.now) }
    ensures answered { IfOk result (IsAnswered (order_seen task.now) (bank_seen bank.now) (told_seen text)) }
    ensures can_be_written { IfOk result CanBeWritten }
    ensures memory { IfErr result (λ stop. stop ≡ NoMemory) }
{
    match text {
        QueryText::TooLarge => Ok(BoardDue::TooLarge),
        QueryText::BadLine { line } => Ok(BoardDue::BadLine { line }),
        QueryText::Read { queries } => {
            answer_queries(rt, alloc, civil, bank, first, task, queries, gate)
        }
    }
}

// The answers to queries by the entries of a bank's decided windows.
fn answer_queries<R: Threads + Wait + Sync, G: Gate + WindowGate + Sync>(
    rt: &R,
    alloc: Global,
    civil: &Civil,
    bank: &Bank,
    first: &Window,
    task: &BoardTask<'_>,
    queries: Numbers,
    gate: &G,
) -> Result<BoardDue, Stop>
    requires bank { IsBank bank.now }
    requires window { IsWindow first.now }
    requires task { IsInRange task.now }
    requires last { StartInTime first.now task.now.step task.now.count }
    requires first { first.now ≡ first_window (order_seen task.now).follow (bank_seen bank.now) }
    ensures answered { IfOk result (IsAnswered (order_seen task.now) (bank_seen bank.now) (Read queries)) }
    ensures can_be_written { IfOk result CanBeWritten }
    ensures memory { IfErr result (λ stop. stop ≡ NoMemory) }
{
    let asked = queries.as_slice();
    let (entries, desks) = ask_board(rt, alloc, civil, bank, first, task, asked, gate)?;
    let counts = counts_of(
        alloc,
        civil,
        entries.as_slice(),
        asked,
        desks.as_slice(),
        task.readers as usize,
    )?;
    Ok(answers_of(entries, queries, counts))
}

// What is due where queries were answered by the first so many entries.
fn answers_of(entries: Vec<Entry>, queries: Numbers, counts: Vec<u64>) -> BoardDue
    ensures { result ≡ Answers (map plain entries.items) queries counts.items }
{
    BoardDue::Answers {
        entries: Entries::new(entries),
        queries,
        counts: Numbers::new(counts),
    }
}

// Makes a board, publishes the entries of the windows while askers ask, and ends it behind the last question.
fn ask_board<R: Threads + Wait + Sync, G: Gate + WindowGate + Sync>(
    rt: &R,
    alloc: Global,
    civil: &Civil,
    bank: &Bank,
    first: &Window,
    task: &BoardTask<'_>,
    queries: &[u64],
    gate: &G,
) -> Result<(Vec<Entry>, Vec<Desk>), Stop>
    requires bank { IsBank bank.now }
    requires window { IsWindow first.now }
    requires task { IsInRange task.now }
    requires last { StartInTime first.now task.now.step task.now.count }
    ensures published { IfOk result (λ asked. ArePublished (bank_seen bank.now) first.now task.now.step task.now.count asked.0.items) }
    ensures memory { IfErr result (λ stop. stop ≡ NoMemory) }
{
    let mut entries = Vec::with_capacity(alloc, task.count as usize)?;
    let Ok(made) = make(alloc, task.readers) else {
        return Err(Stop::NoMemory);
    };
    let (mut tracker, askers) = made;
    let asked = ask_beside(
        rt,
        alloc,
        civil,
        bank,
        first,
        task,
        queries,
        gate,
        &mut tracker,
        askers,
        &mut entries,
    );
    tracker.end(rt);
    let desks = asked?;
    Ok((entries, desks))
}

// Lets askers ask all queries while the entries of the windows are published, and once more behind the last.
fn ask_beside<R: Threads + Wait + Sync, G: Gate + WindowGate + Sync>(
    rt: &R,
    alloc: Global,
    civil: &Civil,
    bank: &Bank,
    first: &Window,
    task: &BoardTask<'_>,
    queries: &[u64],
    gate: &G,
    tracker: &mut Tracker,
    askers: Vec<Asker>,
    entries: &mut Vec<Entry>,
) -> Result<Vec<Desk>, Stop>
    requires bank { IsBank bank.now }
    requires window { IsWindow first.now }
    requires task { IsInRange task.now }
    requires last { StartInTime first.now task.now.step task.now.count }
    requires begun { (published tracker.old ≡ []) × (entries.old.items ≡ []) }
    ensures published { OnOk result (ArePublished (bank_seen bank.now) first.now task.now.step task.now.count entries.new.items) }
    ensures memory { IfErr result (λ stop. stop ≡ NoMemory) }
{
    let mut desks = desks_of(alloc, askers, queries.len())?;
    beside(
        rt,
        alloc,
        civil,
        bank,
        first,
        task,
        queries,
        gate,
        tracker,
        entries,
        desks.as_mut_slice(),
    )?;
    ask_behind_the_news(civil, tracker, desks.as_mut_slice());
    Ok(desks)
}

// Publishes the entries of the windows, and beside it all askers ask.
fn beside<R: Threads + Wait + Sync, G: Gate + WindowGate + Sync>(
    rt: &R,
    alloc: Global,
    civil: &Civil,
    bank: &Bank,
    first: &Window,
    task: &BoardTask<'_>,
    queries: &[u64],
    gate: &G,
    tracker: &mut Tracker,
    entries: &mut Vec<Entry>,
    desks: &mut [Desk],
) -> Result<(), Stop>
    requires bank { IsBank bank.now }
    requires window { IsWindow first.now }
    requires task { IsInRange task.now }
    requires last { StartInTime first.now task.now.step task.now.count }
    requires begun { (published tracker.old ≡ []) × (entries.old.items ≡ []) }
    ensures published { OnOk result (ArePublished (bank_seen bank.now) first.now task.now.step task.now.count entries.new.items) }
    ensures memory { IfErr result (λ stop. stop ≡ NoMemory) }
{
    let (done, ()) = join_mut(
        rt,
        &mut || -> Result<(), Stop>
            requires { IsSync R.row × IsSync G.row × IsBank bank.now × IsWindow first.now × IsInRange task.now
                × StartInTime first.now task.now.step task.now.count × (published tracker.now ≡ []) × (entries.now.items ≡ []) }
            ensures published { OnOk result (ArePublished (bank_seen bank.entry.now) first.entry.now task.entry.now.step task.entry.now.count entries.exit.now.items) }
            ensures memory { IfErr result (λ stop. stop ≡ NoMemory) }
        {
            publish_windows(
                rt,
                alloc,
                civil,
                bank,
                first,
                task.step,
                task.count,
                task.workers,
                gate,
                tracker,
                entries,
            )
        },
        &mut ||
            requires { IsSync R.row }
        { ask_all(rt, civil, desks, queries) },
    );
    done
}
