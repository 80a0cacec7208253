//! Workers, who draw numbers and visit the items that have them.

ghost use Rattle.std.specs.Prelude.{◌≡◌, ◌*◌, ◌^◌, ◌<◌, ◌≤◌, length, All, OnOk};
ghost use Rattle.field_tables.specs.Scored.{costs_of};
ghost use Rattle.race_words.specs.Views.{after_draw};
ghost use Rattle.workers.specs.Teams.{TeamSeen};
ghost use Rattle.workers.specs.Workers.{AreItems, HasWorked, IsIdle};

use crate::gate::Gate;
use crate::recorder::Recorder;
use crate::visitor::Visitor;
use definitions::Block;
use race_words::{Race, Seat};

/// Those who search the same items together. A share is halved for any of them, whatever it borrows.
pub(crate) trait Team {
    // the race that they take part in, and what they search
    ghost seen: { Self → TeamSeen };

    /// The race that they take part in.
    fn race(&self) -> &Race
        ensures { result.now ≡ (seen self.now).race };

    /// One of them takes part, until it has drawn a number beyond the last item.
    fn take_part<K: Recorder>(
        &self,
        seat: &mut Seat,
        worker: u32,
        recorder: &mut K,
    ) -> Result<(), K::Fault>
        requires race { seat.old.race ≡ (seen self.now).race.id }
        requires share { 1 ≤ seat.old.view.share }
        requires idle { IsIdle seat.old.view }
        requires items { AreItems (seen self.now).window (seen self.now).items }
        ensures race { seat.new.race ≡ seat.old.race }
        ensures share { seat.new.view.share ≡ seat.old.view.share }
        ensures worked { let t = seen self.now in
            OnOk result (HasWorked K.told t.costs t.window t.ceiling t.items seat.old.view seat.new.view recorder.old recorder.new) };
}

/// What is the same for all workers of a search.
#[derive(Drop)]
pub(crate) struct Crew<'v, 'i, 'g, G: Gate> {
    pub visitor: Visitor<'v>,
    pub items: &'i [Block],
    pub gate: &'g G,
}

impl<G: Gate> Team for Crew<'_, '_, '_, G> {
    ghost seen = { λ c. record {
      race = c.visitor.race.now;
      costs = costs_of c.visitor.tables.now;
      window = c.visitor.tables.now.window;
      ceiling = c.visitor.ceiling;
      items = c.items.now;
    } };

    fn race(&self) -> &Race {
        self.visitor.race
    }

    fn take_part<K: Recorder>(
        &self,
        seat: &mut Seat,
        worker: u32,
        recorder: &mut K,
    ) -> Result<(), K::Fault> {
        let mut latest = u64::MAX;
        let mut number = draw(self, seat, worker);
        while number < self.items.len() as u64 {
            let item = &self.items[number as usize];
            self.visitor.visit_item(seat, item, &mut latest, recorder)?;
            number = draw(self, seat, worker);
        }
        Ok(())
    }
}

// Draws a number and passes the gate with it.
fn draw<G: Gate>(crew: &Crew<'_, '_, '_, G>, seat: &mut Seat, worker: u32) -> u64
    requires race { seat.old.race ≡ crew.now.visitor.race.now.id }
    requires room { length seat.old.view.drawn < seat.old.view.share * 2 ^ 32 }
    ensures race { seat.new.race ≡ seat.old.race }
    ensures view { seat.new.view ≡ after_draw result seat.old.view }
    ensures above { All (λ x. x < result) seat.old.view.drawn }
{
    let number = crew.visitor.race.draw(seat);
    crew.gate.pass(worker, number);
    number
}
