//! Visits of a year, its days and their hours where no steps are kept: each is passed over by its floor, with one read.

ghost use Rattle.std.specs.Prelude.{ℕ, ◌≡◌, ◌≢◌, ◌≤◌, IfNone, IfSome, OnOk, OnErr};
ghost use Rattle.std.specs.Option.{ForSome};
ghost use Rattle.signal_base.specs.declared.limits.TheConstants.{GREATEST_COST};
ghost use Rattle.definitions.specs.declared.block.Span.TheVariants.{Year, Day, Hour, Minute};
ghost use Rattle.definitions.specs.answers.Blocks.{IsBlock, children};
ghost use Rattle.field_tables.specs.Scored.{costs_of};
ghost use Rattle.race_words.specs.Views.{after_limit};
ghost use Rattle.block_visits.specs.Visits.{limit_at};
ghost use Rattle.workers.specs.Steps.{HasStopped, HasWalked, HaveStopped, HaveWalked, NeedsNone};
ghost use Rattle.workers.specs.Passing.{CountsAs, HasLooked, HasPassed, is_above};

use crate::recorder::Recorder;
use crate::visitor::{Visitor, limit_at};
use block_visits::blocks_share_the_sequences;
use bounds::{Bounded, block_key, bound, bounded_children};
use definitions::{Block, Span, children_share_the_sequences};
use race_words::{Often, Seat};
use sequence::cost_of;
use std::marker::Brand;

impl Visitor<'_> {
    /// Visits a year, which is passed over by its floor where that can be. `latest` is what was read last.
    pub(crate) fn visit_year<K: Recorder>(
        &self,
        seat: &mut Seat,
        year: &Block,
        latest: &mut u64,
        recorder: &mut K,
    ) -> Result<(), K::Fault>
        requires race { seat.old.race ≡ self.now.race.now.id }
        requires block { IsBlock self.now.tables.now.window year.now }
        requires year { year.now.span ≡ Year }
        requires needless { NeedsNone K.told }
        ensures race { seat.new.race ≡ seat.old.race }
        ensures walked { let t = self.now.tables.now in
            OnOk result (HasWalked K.told (costs_of t) t.window self.now.ceiling year.now seat.old.view seat.new.view recorder.old recorder.new) }
        ensures stopped { let t = self.now.tables.now in
            OnErr result (HasStopped K.told K.fails (costs_of t) t.window self.now.ceiling year.now seat.old.view seat.new.view recorder.old recorder.new) }
    {
        let found = Bounded {
            block: *year,
            bound: bound(self.tables, year),
        };
        let Some(seen) = self.read_or_pass_over(seat, &found, latest) else {
            return Ok(());
        };
        let opened = self.take_step(&found, seen, recorder)?;
        let Some(_key) = opened else {
            return Ok(());
        };
        self.visit_days(seat, year, latest, recorder)
    }

    // Visits the days of a year, one after the other.
    fn visit_days<K: Recorder>(
        &self,
        seat: &mut Seat,
        year: &Block,
        latest: &mut u64,
        recorder: &mut K,
    ) -> Result<(), K::Fault>
        requires race { seat.old.race ≡ self.now.race.now.id }
        requires block { IsBlock self.now.tables.now.window year.now }
        requires year { year.now.span ≡ Year }
        requires needless { NeedsNone K.told }
        ensures race { seat.new.race ≡ seat.old.race }
        ensures walked { let t = self.now.tables.now in
            OnOk result (HaveWalked K.told (costs_of t) t.window self.now.ceiling (children year.now) seat.old.view seat.new.view recorder.old recorder.new) }
        ensures stopped { let t = self.now.tables.now in
            OnErr result (HaveStopped K.told K.fails (costs_of t) t.window self.now.ceiling (children year.now) seat.old.view seat.new.view recorder.old recorder.new) }
    {
        children_share_the_sequences();
        let mut days = bounded_children(self.tables, year);
        while let Some(day) = days.next_block() {
            self.visit_day(seat, &day, latest, recorder)?;
        }
        Ok(())
    }

    // Visits a day, which is passed over by its floor where that can be. `latest` is what was read last.
    #[inline(always)]
    fn visit_day<K: Recorder>(
        &self,
        seat: &mut Seat,
        day: &Block,
        latest: &mut u64,
        recorder: &mut K,
    ) -> Result<(), K::Fault>
        requires race { seat.old.race ≡ self.now.race.now.id }
        requires block { IsBlock self.now.tables.now.window day.now }
        requires day { day.now.span ≡ Day }
        requires needless { NeedsNone K.told }
        ensures race { seat.new.race ≡ seat.old.race }
        ensures walked { let t = self.now.tables.now in
            OnOk result (HasWalked K.told (costs_of t) t.window self.now.ceiling day.now seat.old.view seat.new.view recorder.old recorder.new) }
        ensures stopped { let t = self.now.tables.now in
            OnErr result (HasStopped K.told K.fails (costs_of t) t.window self.now.ceiling day.now seat.old.view seat.new.view recorder.old recorder.new) }
    {
        let Some(seen) = self.pass_over(seat, day, latest) else {
            return Ok(());
        };
        let found = Bounded {
            block: *day,
            bound: bound(self.tables, day),
        };
        let opened = self.take_step(&found, seen, recorder)?;
        let Some(_key) = opened else {
            return Ok(());
        };
        self.visit_hours(seat, day, recorder)
    }

    // Visits the hours of a day, one after the other.
    fn visit_hours<K: Recorder>(
        &self,
        seat: &mut Seat,
        day: &Block,
        recorder: &mut K,
    ) -> Result<(), K::Fault>
        requires race { seat.old.race ≡ self.now.race.now.id }
        requires block { IsBlock self.now.tables.now.window day.now }
        requires day { day.now.span ≡ Day }
        requires needless { NeedsNone K.told }
        ensures race { seat.new.race ≡ seat.old.race }
        ensures walked { let t = self.now.tables.now in
            OnOk result (HaveWalked K.told (costs_of t) t.window self.now.ceiling (children day.now) seat.old.view seat.new.view recorder.old recorder.new) }
        ensures stopped { let t = self.now.tables.now in
            OnErr result (HaveStopped K.told K.fails (costs_of t) t.window self.now.ceiling (children day.now) seat.old.view seat.new.view recorder.old recorder.new) }
    {
        children_share_the_sequences();
        let mut hours = bounded_children(self.tables, day);
        while let Some(hour) = hours.next_block() {
            self.visit_hour(seat, &hour, recorder)?;
        }
        Ok(())
    }

    // Visits an hour, which is passed over by its floor where that can be.
    fn visit_hour<K: Recorder>(
        &self,
        seat: &mut Seat,
        hour: &Block,
        recorder: &mut K,
    ) -> Result<(), K::Fault>
        requires race { seat.old.race ≡ self.now.race.now.id }
        requires block { IsBlock self.now.tables.now.window hour.now }
        requires hour { hour.now.span ≡ Hour }
        requires needless { NeedsNone K.told }
        ensures race { seat.new.race ≡ seat.old.race }
        ensures walked { let t = self.now.tables.now in
            OnOk result (HasWalked K.told (costs_of t) t.window self.now.ceiling hour.now seat.old.view seat.new.view recorder.old recorder.new) }
        ensures stopped { let t = self.now.tables.now in
            OnErr result (HasStopped K.told K.fails (costs_of t) t.window self.now.ceiling hour.now seat.old.view seat.new.view recorder.old recorder.new) }
    {
        // An hour's floor is a close one, whatever was read before.
        let mut latest = u64::MAX;
        let Some(seen) = self.pass_over(seat, hour, &mut latest) else {
            return Ok(());
        };
        let found = Bounded {
            block: *hour,
            bound: bound(self.tables, hour),
        };
        let opened = self.take_step(&found, seen, recorder)?;
        let Some(_key) = opened else {
            return Ok(());
        };
        self.visit_children(seat, hour, recorder)
    }

    // Reads the race's limit once, as `pass_over` does. The floor, which takes longer than the bound, is asked only where the bound
    // wouldn't pass the block over by what was read last.
    fn read_or_pass_over(&self, seat: &mut Seat, found: &Bounded, latest: &mut u64) -> Option<u64>
        requires race { seat.old.race ≡ self.now.race.now.id }
        requires block { IsBlock self.now.tables.now.window found.now.block }
        requires small { ForSome found.now.bound (λ n. n ≤ GREATEST_COST) }
        ensures race { seat.new.race ≡ seat.old.race }
        ensures passed { let t = self.now.tables.now in
            IfNone result (HasPassed (costs_of t) t.window self.now.ceiling found.now.block seat.old.view seat.new.view) }
        ensures low { IfSome result (λ seen. seen ≤ seat.old.view.floor) }
        ensures read { IfSome result (λ seen. seat.new.view ≡ after_limit seen seat.old.view) }
    {
        if self.is_above(&found.block, found.bound, *latest) {
            return Some(self.race.limit(seat));
        }
        self.pass_over(seat, &found.block, latest)
    }

    // Reads the race's limit once. None where the block's floor passes it over, and else what was read, by which the
    // block's own step is to be taken. The floor is a close one where another wouldn't do by what was read before.
    #[inline(always)]
    fn pass_over(&self, seat: &mut Seat, block: &Block, latest: &mut u64) -> Option<u64>
        requires race { seat.old.race ≡ self.now.race.now.id }
        requires block { IsBlock self.now.tables.now.window block.now }
        ensures race { seat.new.race ≡ seat.old.race }
        ensures passed { let t = self.now.tables.now in
            IfNone result (HasPassed (costs_of t) t.window self.now.ceiling block.now seat.old.view seat.new.view) }
        ensures low { IfSome result (λ seen. seen ≤ seat.old.view.floor) }
        ensures read { IfSome result (λ seen. seat.new.view ≡ after_limit seen seat.old.view) }
    {
        blocks_share_the_sequences();
        let enough = cost_of(limit_at(self.ceiling, *latest));
        let floor = self.tables.floor(block, enough);
        let seen = self.look::<Brand>(seat, block, floor);
        *latest = seen;
        if self.is_above(block, floor, seen) {
            return None;
        }
        Some(seen)
    }

    // Reads the race's limit. Where the block's floor passes it over, the one load counts as all reads of a visit of the block, and
    // else as one.
    #[inline(always)]
    fn look<O: Often>(&self, seat: &mut Seat, block: &Block, floor: Option<u32>) -> u64
        requires race { seat.old.race ≡ self.now.race.now.id }
        requires often { let t = self.now.tables.now in
            (seen : ℕ) → CountsAs (costs_of t) t.window self.now.ceiling block.now floor seen (O.often seen) }
        ensures race { seat.new.race ≡ seat.old.race }
        ensures low { result ≤ seat.old.view.floor }
        ensures looked { let t = self.now.tables.now in
            HasLooked (costs_of t) t.window self.now.ceiling block.now floor result seat.old.view seat.new.view }
    {
        let _block = *block;
        let _floor = floor;
        self.race.limit_often::<O>(seat)
    }

    // Whether the key of the block's floor is above the limit.
    #[inline(always)]
    fn is_above(&self, block: &Block, floor: Option<u32>, seen: u64) -> bool
        requires block { IsBlock self.now.tables.now.window block.now }
        requires small { ForSome floor (λ n. n ≤ GREATEST_COST) }
        ensures { result ≡ is_above (limit_at self.now.ceiling seen) block.now floor }
    {
        match floor {
            None => true,
            Some(floor) => block_key(floor, block) > limit_at(self.ceiling, seen),
        }
    }
}
