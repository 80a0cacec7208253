//! Workers beside each other: a share of a race is halved until each worker has a share of 1.

ghost use Rattle.std.specs.Prelude.{◌≡◌, OnOk};
ghost use Rattle.std.specs.Thread.{IsSend, IsSync};
ghost use Rattle.workers.specs.Recorded.{HaveShared};
ghost use Rattle.workers.specs.Workers.{AreItems, IsReady};

use crate::crew::Team;
use crate::recorder::Recorder;
use race_words::Seat;
use std::thread::{Threads, join_mut};

/// So many workers take part as the seat has shares, each in a thread of its own where one can be made. The first has this
/// number. Each keeps its steps in a part of the recorder. One that can't ends, and the others go on.
#[cycle(halves)]
pub(crate) fn share_out<R: Threads + Sync, T: Team + Sync, K: Recorder + Send + Drop>(
    rt: &R,
    team: &T,
    seat: &mut Seat,
    share: u8,
    first: u32,
    recorder: &mut K,
) -> Result<(), K::Fault>
where
    K::Fault: Send,
    requires ready { IsReady (T.seen team.now).race share first seat.old }
    requires items { AreItems (T.seen team.now).window (T.seen team.now).items }
    ensures race { seat.new.race ≡ seat.old.race }
    ensures share { seat.new.view.share ≡ share }
    ensures shared { let t = T.seen team.now in
        OnOk result (HaveShared K.told K.parts K.joins t.race t.costs t.window t.ceiling t.items share seat.new recorder.old recorder.new) }
{
    if share == 1 {
        return team.take_part(seat, first, recorder);
    }
    let right = share / 2;
    let left = share - right;
    let next = first + left as u32;
    let mut part = recorder.split()?;
    let mut other = team.race().split(seat, right);
    let (near, far) = join_mut(
        rt,
        &mut ||
            requires { let t = T.seen team.now in
                IsSync R.row × IsSync T.row × IsSend K.row × IsReady t.race left first seat.now × AreItems t.window t.items }
            ensures race { seat.exit.now.race ≡ seat.entry.now.race }
            ensures share { seat.exit.now.view.share ≡ left }
            ensures shared { let t = T.seen team.entry.now in
                OnOk result (HaveShared K.told K.parts K.joins t.race t.costs t.window t.ceiling t.items left seat.exit.now recorder.entry.now recorder.exit.now) }
        { share_out(rt, team, seat, left, first, recorder) },
        &mut ||
            requires { let t = T.seen team.now in
                IsSync R.row × IsSync T.row × IsSend K.row × IsReady t.race right next other × AreItems t.window t.items }
            ensures race { other.exit.race ≡ other.entry.race }
            ensures share { other.exit.view.share ≡ right }
            ensures shared { let t = T.seen team.entry.now in
                OnOk result (HaveShared K.told K.parts K.joins t.race t.costs t.window t.ceiling t.items right other.exit part.entry part.exit) }
        { share_out(rt, team, &mut other, right, next, &mut part) },
    );
    team.race().join(seat, other);
    near?;
    far?;
    recorder.join(part)
}
