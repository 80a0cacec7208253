//! What unions cost that are made as they are asked for.

ghost use Rattle.std.specs.Prelude.{ℕ, ◌≡◌, ◌≤◌, length};
ghost use Rattle.slot_columns.specs.Parts.{most_cost};
ghost use Rattle.block_costs.specs.Blocks.{AreUnionsOfWalks, unions_cost};

use crate::walks::Walks;

impl Walks<'_> {
    /// What the unions cost over these walks.
    pub(crate) fn cost_as_asked(&self) -> u32
        ensures cost { let w = self.now.station.now in (sets : ℕ → ℕ)
            → AreUnionsOfWalks w.grid.station self.now.announced self.now.second self.now.lo self.now.hi (length w.grid.rows) sets → result ≡ unions_cost w.grid sets }
        ensures bound { result ≤ most_cost self.now.station.now.grid }
    {
        let walks = self.station;
        let unions = walks.unions();
        let columns = walks.columns();
        let reach = walks.later_minutes(self.second);
        match unions.layers(self.announced, self.lo, self.hi, reach) {
            Some(layers) => columns.layered_cost(self.second, &layers.first, &layers.rest),
            None => self.cost_by_minutes(),
        }
    }

    /// The same by a union for each minute that the walks go through.
    pub(crate) fn cost_by_minutes(&self) -> u32
        ensures cost { let w = self.now.station.now in (sets : ℕ → ℕ)
            → AreUnionsOfWalks w.grid.station self.now.announced self.now.second self.now.lo self.now.hi (length w.grid.rows) sets → result ≡ unions_cost w.grid sets }
        ensures bound { result ≤ most_cost self.now.station.now.grid }
    {
        let walks = self.station;
        let unions = walks.unions();
        let columns = walks.columns();
        // What ends before it fits, and so does what so few slots and receivers cost.
        unions.parts().end();
        columns.seconds();
        columns.receivers();
        let reach = walks.later_minutes(self.second);
        let mut cost = 0;
        for m in 0..reach + 1 {
            let union = unions.over(self.announced, self.lo + m, self.hi + m);
            cost += columns.minute_cost(self.second, m as u8, &union);
        }
        cost
    }
}
