//! Visits of blocks, down to the minutes.

ghost use Rattle.std.specs.Prelude.{◌≡◌, ◌≢◌, ◌<◌, ◌≤◌, IfNone, IfOk, IfSome, OnOk, OnErr};
ghost use Rattle.definitions.specs.declared.block.Span.TheVariants.{Hour, Minute};
ghost use Rattle.std.specs.Option.{ForSome};
ghost use Rattle.definitions.specs.sequences.Windows.{IsWindow};
ghost use Rattle.definitions.specs.answers.Blocks.{IsBlock, IsBound, children};
ghost use Rattle.field_tables.specs.Scored.{costs_of};
ghost use Rattle.signal_base.specs.declared.limits.TheConstants.{GREATEST_COST};
ghost use Rattle.race_words.specs.declared.view.View.{View};
ghost use Rattle.race_words.specs.Keys.{no_key};
ghost use Rattle.race_words.specs.Views.{after_limit};
ghost use Rattle.block_visits.specs.Visits.{limit_at};
ghost use Rattle.workers.specs.Steps.{HasOpened, HasStopped, HasWalked, HaveStopped, HaveWalked};

use crate::recorder::Recorder;
use bounds::{Bounded, block_key, bound, bounded_children};
use definitions::{Block, Span, children_share_the_sequences};
use field_tables::Tables;
use race_words::{Race, Seat};
use sequence::ceiling_key;

/// What is the same for all visits of a search.
#[derive(Clone, Copy)]
pub(crate) struct Visitor<'a> {
    pub race: &'a Race,
    pub tables: &'a Tables<'a>,
    pub ceiling: u32,
    pub ghost ceiling_is_a_cost: { ceiling ≤ GREATEST_COST },
    pub ghost window_is_in_range: { IsWindow tables.now.window },
}

impl Visitor<'_> {
    /// Visits a block of the window: passes it over, or visits its children; of a minute it offers the key. `latest` is what the seat
    /// read last, and becomes that where a year is passed over by its floor or its days by theirs.
    pub(crate) fn visit_item<K: Recorder>(
        &self,
        seat: &mut Seat,
        item: &Block,
        latest: &mut u64,
        recorder: &mut K,
    ) -> Result<(), K::Fault>
        requires race { seat.old.race ≡ self.now.race.now.id }
        requires block { IsBlock self.now.tables.now.window item.now }
        ensures race { seat.new.race ≡ seat.old.race }
        ensures walked { let t = self.now.tables.now in
            OnOk result (HasWalked K.told (costs_of t) t.window self.now.ceiling item.now seat.old.view seat.new.view recorder.old recorder.new) }
        ensures stopped { let t = self.now.tables.now in
            OnErr result (HasStopped K.told K.fails (costs_of t) t.window self.now.ceiling item.now seat.old.view seat.new.view recorder.old recorder.new) }
    {
        if recorder.needs_steps() {
            return self.visit_by_steps(seat, item, recorder);
        }
        if item.span == Span::Year {
            return self.visit_year(seat, item, latest, recorder);
        }
        self.visit_by_steps(seat, item, recorder)
    }

    // The same, and each block takes its own step.
    fn visit_by_steps<K: Recorder>(
        &self,
        seat: &mut Seat,
        item: &Block,
        recorder: &mut K,
    ) -> Result<(), K::Fault>
        requires race { seat.old.race ≡ self.now.race.now.id }
        requires block { IsBlock self.now.tables.now.window item.now }
        ensures race { seat.new.race ≡ seat.old.race }
        ensures walked { let t = self.now.tables.now in
            OnOk result (HasWalked K.told (costs_of t) t.window self.now.ceiling item.now seat.old.view seat.new.view recorder.old recorder.new) }
        ensures stopped { let t = self.now.tables.now in
            OnErr result (HasStopped K.told K.fails (costs_of t) t.window self.now.ceiling item.now seat.old.view seat.new.view recorder.old recorder.new) }
    {
        let found = Bounded {
            block: *item,
            bound: bound(self.tables, item),
        };
        if item.span == Span::Minute {
            return self.visit_minute(seat, &found, recorder);
        }
        let opened = self.come_to(seat, &found, recorder)?;
        let Some(_key) = opened else {
            return Ok(());
        };
        self.visit_children(seat, item, recorder)
    }

    // Visits the children of a block that isn't a minute, one after the other. A child that is passed over costs no call.
    pub(crate) fn visit_children<K: Recorder>(
        &self,
        seat: &mut Seat,
        block: &Block,
        recorder: &mut K,
    ) -> Result<(), K::Fault>
        requires race { seat.old.race ≡ self.now.race.now.id }
        requires block { IsBlock self.now.tables.now.window block.now }
        requires longer { block.now.span ≢ Minute }
        ensures race { seat.new.race ≡ seat.old.race }
        ensures walked { let t = self.now.tables.now in
            OnOk result (HaveWalked K.told (costs_of t) t.window self.now.ceiling (children block.now) seat.old.view seat.new.view recorder.old recorder.new) }
        ensures stopped { let t = self.now.tables.now in
            OnErr result (HaveStopped K.told K.fails (costs_of t) t.window self.now.ceiling (children block.now) seat.old.view seat.new.view recorder.old recorder.new) }
    {
        if block.span == Span::Hour {
            return self.visit_minutes(seat, block, recorder);
        }
        children_share_the_sequences();
        let mut children = bounded_children(self.tables, block);
        // What doesn't change is the loop's own, so that it may stay in registers: after each read of the race's limit
        // everything else would be read again. A call that isn't inlined gets no reference to it, nor to `child`.
        let visitor = *self;
        while let Some(child) = children.next() {
            let opened = visitor.come_to(seat, &child, recorder)?;
            let Some(_key) = opened else {
                continue;
            };
            let copy = child.block;
            self.visit_children(seat, &copy, recorder)?;
        }
        Ok(())
    }

    // Visits the minutes of an hour, one after the other.
    fn visit_minutes<K: Recorder>(
        &self,
        seat: &mut Seat,
        hour: &Block,
        recorder: &mut K,
    ) -> Result<(), K::Fault>
        requires race { seat.old.race ≡ self.now.race.now.id }
        requires block { IsBlock self.now.tables.now.window hour.now }
        requires hour { hour.now.span ≡ Hour }
        ensures race { seat.new.race ≡ seat.old.race }
        ensures walked { let t = self.now.tables.now in
            OnOk result (HaveWalked K.told (costs_of t) t.window self.now.ceiling (children hour.now) seat.old.view seat.new.view recorder.old recorder.new) }
        ensures stopped { let t = self.now.tables.now in
            OnErr result (HaveStopped K.told K.fails (costs_of t) t.window self.now.ceiling (children hour.now) seat.old.view seat.new.view recorder.old recorder.new) }
    {
        children_share_the_sequences();
        let mut minutes = bounded_children(self.tables, hour);
        // As in `visit_children`.
        let visitor = *self;
        while let Some(minute) = minutes.next() {
            visitor.visit_minute(seat, &minute, recorder)?;
        }
        Ok(())
    }

    // Visits a minute whose bound is known: passes it over, or offers its key.
    #[inline(always)]
    fn visit_minute<K: Recorder>(
        &self,
        seat: &mut Seat,
        found: &Bounded,
        recorder: &mut K,
    ) -> Result<(), K::Fault>
        requires race { seat.old.race ≡ self.now.race.now.id }
        requires block { IsBlock self.now.tables.now.window found.now.block }
        requires minute { found.now.block.span ≡ Minute }
        requires bound { let t = self.now.tables.now in IsBound (costs_of t) t.window found.now.block found.now.bound }
        requires small { ForSome found.now.bound (λ n. n ≤ GREATEST_COST) }
        ensures race { seat.new.race ≡ seat.old.race }
        ensures walked { let t = self.now.tables.now in
            OnOk result (HasWalked K.told (costs_of t) t.window self.now.ceiling found.now.block seat.old.view seat.new.view recorder.old recorder.new) }
        ensures stopped { let t = self.now.tables.now in
            OnErr result (HasStopped K.told K.fails (costs_of t) t.window self.now.ceiling found.now.block seat.old.view seat.new.view recorder.old recorder.new) }
    {
        let opened = self.come_to(seat, found, recorder)?;
        let Some(key) = opened else {
            return Ok(());
        };
        self.race.offer(seat, key);
        Ok(())
    }

    // Comes to a block whose bound is known: reads the race's limit, once. The block's key, or None where the block is passed
    // over.
    #[inline(always)]
    fn come_to<K: Recorder>(
        &self,
        seat: &mut Seat,
        found: &Bounded,
        recorder: &mut K,
    ) -> Result<Option<u64>, K::Fault>
        requires race { seat.old.race ≡ self.now.race.now.id }
        requires block { IsBlock self.now.tables.now.window found.now.block }
        requires bound { let t = self.now.tables.now in IsBound (costs_of t) t.window found.now.block found.now.bound }
        requires small { ForSome found.now.bound (λ n. n ≤ GREATEST_COST) }
        ensures race { seat.new.race ≡ seat.old.race }
        ensures passed { let t = self.now.tables.now in IfOk result (λ opened.
            IfNone opened (HasWalked K.told (costs_of t) t.window self.now.ceiling found.now.block seat.old.view seat.new.view recorder.old recorder.new)) }
        ensures opened { IfOk result (λ opened.
            IfSome opened (λ key. HasOpened K.told self.now.ceiling found.now.block found.now.bound key seat.old.view seat.new.view recorder.old recorder.new)) }
        ensures key { IfOk result (λ opened. IfSome opened (λ key. key < no_key)) }
        ensures stopped { let t = self.now.tables.now in
            OnErr result (HasStopped K.told K.fails (costs_of t) t.window self.now.ceiling found.now.block seat.old.view seat.new.view recorder.old recorder.new) }
    {
        let seen = self.race.limit(seat);
        self.take_step(found, seen, recorder)
    }

    // The step of a block whose bound is known, and at which this was read, for any view that it was not above. The block's key,
    // or None where the block is passed over.
    #[inline(always)]
    pub(crate) fn take_step<K: Recorder>(
        &self,
        found: &Bounded,
        seen: u64,
        recorder: &mut K,
    ) -> Result<Option<u64>, K::Fault>
        requires block { IsBlock self.now.tables.now.window found.now.block }
        requires bound { let t = self.now.tables.now in IsBound (costs_of t) t.window found.now.block found.now.bound }
        requires small { ForSome found.now.bound (λ n. n ≤ GREATEST_COST) }
        ensures passed { let t = self.now.tables.now in (v : View) → seen ≤ v.floor → IfOk result (λ opened.
            IfNone opened (HasWalked K.told (costs_of t) t.window self.now.ceiling found.now.block v (after_limit seen v) recorder.old recorder.new)) }
        ensures opened { (v : View) → seen ≤ v.floor → IfOk result (λ opened.
            IfSome opened (λ key. HasOpened K.told self.now.ceiling found.now.block found.now.bound key v (after_limit seen v) recorder.old recorder.new)) }
        ensures key { IfOk result (λ opened. IfSome opened (λ key. key < no_key)) }
        ensures stopped { let t = self.now.tables.now in (v : View) →
            OnErr result (HasStopped K.told K.fails (costs_of t) t.window self.now.ceiling found.now.block v (after_limit seen v) recorder.old recorder.new) }
    {
        recorder.record(&found.block, found.bound, seen)?;
        let Some(bound) = found.bound else {
            return Ok(None);
        };
        let key = block_key(bound, &found.block);
        let limit = limit_at(self.ceiling, seen);
        if key > limit {
            return Ok(None);
        }
        Ok(Some(key))
    }
}

// The key above which a block is passed over.
pub(crate) fn limit_at(ceiling: u32, seen: u64) -> u64
    requires { ceiling ≤ GREATEST_COST }
    ensures { result ≡ limit_at ceiling seen }
{
    seen.min(ceiling_key(ceiling))
}
