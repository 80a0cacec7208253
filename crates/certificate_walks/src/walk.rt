//! Walks of blocks, written line by line.

ghost use Rattle.std.specs.Prelude.{ℕ, ◌≡◌, ◌≤◌, ◌<◌, ◌+◌, ◌++◌, ◌∷◌, [], List, OnOk, OnErr};
ghost use Rattle.std.specs.List.{AllByRecursion};
ghost use Rattle.std.specs.Option.{ForSome};
ghost use Rattle.signal_base.specs.declared.limits.TheConstants.{GREATEST_COST};
ghost use Rattle.definitions.specs.declared.block.Block.{Block};
ghost use Rattle.definitions.specs.sequences.Walks.{IsSequence};
ghost use Rattle.definitions.specs.answers.Blocks.{IsBlock, IsBound, first_of};
ghost use Rattle.field_tables.specs.Scored.{costs_of};
ghost use Rattle.certificates.specs.Certificates.{IsShaped};
ghost use Rattle.certificates.specs.Validity.{IsAbove, KeepsTo, key_or_none, limit_named, opened_by};
ghost use Rattle.certificate_walks.specs.Waiting.{CanOpen, left_most, left_of, most_lines};
ghost use Rattle.certificate_walks.specs.Walking.{Course, HasFailed, IsUnderWay, walk_at};

use crate::pending::Pending;
use bank_files::{Failed, Files};
use bounds::{Bounded, block_key, bound};
use certificate_texts::{Held, put, step_line};
use certificates::{Kind, Line};
use definitions::{Block, Span, bound_is_one};
use field_tables::Tables;
use sequence::ceiling_key;

/// What is the same for all lines of a certificate.
#[derive(Drop)]
pub struct Walker<'a> {
    pub name: &'a str,
    pub tables: &'a Tables<'a>,
    pub limit: u64,
}

impl Walker<'_> {
    /// Writes the lines of blocks and of all in them.
    pub fn write_items<F: Files>(
        &self,
        files: &mut F,
        held: &mut Held,
        steps: &mut u64,
        items: &[Block],
    ) -> Result<(), Failed>
        requires { AllByRecursion (IsBlock self.now.tables.now.window) items.now }
        ensures written { (course : Course) → IsUnderWay (walk_at self.now.name.now self.now.tables.now self.now.limit) course (F.view files.old) held.old.bytes items.now steps.old
            → OnOk result (IsUnderWay (walk_at self.now.name.now self.now.tables.now self.now.limit) course (F.view files.new) held.new.bytes [] steps.new) }
        ensures failed { (course : Course) → IsUnderWay (walk_at self.now.name.now self.now.tables.now self.now.limit) course (F.view files.old) held.old.bytes items.now steps.old
            → OnErr result (HasFailed (walk_at self.now.name.now self.now.tables.now self.now.limit) course (F.view files.new)) }
    {
        let mut i = 0;
        while i < items.len() {
            self.write_item(files, held, steps, &items[i])?;
            i += 1;
        }
        Ok(())
    }

    // Writes the lines of a block and of all in it.
    fn write_item<F: Files>(
        &self,
        files: &mut F,
        held: &mut Held,
        steps: &mut u64,
        item: &Block,
    ) -> Result<(), Failed>
        requires { IsBlock self.now.tables.now.window item.now }
        ensures written { (course : Course) (rest : List Block)
            → IsUnderWay (walk_at self.now.name.now self.now.tables.now self.now.limit) course (F.view files.old) held.old.bytes (item.now ∷ rest) steps.old
            → OnOk result (IsUnderWay (walk_at self.now.name.now self.now.tables.now self.now.limit) course (F.view files.new) held.new.bytes rest steps.new) }
        ensures failed { (course : Course) (rest : List Block)
            → IsUnderWay (walk_at self.now.name.now self.now.tables.now self.now.limit) course (F.view files.old) held.old.bytes (item.now ∷ rest) steps.old
            → OnErr result (HasFailed (walk_at self.now.name.now self.now.tables.now self.now.limit) course (F.view files.new)) }
    {
        let mut pending = Pending::new(self.tables);
        let found = Bounded {
            block: *item,
            bound: bound(self.tables, item),
        };
        self.write_step(files, held, steps, &mut pending, &found)?;
        while let Some(next) = pending.next() {
            self.write_step(files, held, steps, &mut pending, &next)?;
        }
        Ok(())
    }

    // Writes the line of a block whose bound is known, and opens the block where it is to be opened.
    fn write_step<F: Files>(
        &self,
        files: &mut F,
        held: &mut Held,
        steps: &mut u64,
        pending: &mut Pending<'_>,
        found: &Bounded,
    ) -> Result<(), Failed>
        requires tables { pending.old.tables ≡ self.now.tables.now }
        requires block { IsBlock self.now.tables.now.window found.now.block }
        requires bound { IsBound (costs_of self.now.tables.now) self.now.tables.now.window found.now.block found.now.bound }
        requires small { ForSome found.now.bound (λ n. n ≤ GREATEST_COST) }
        requires can_open { CanOpen found.now.block.span pending.old }
        ensures tables { pending.new.tables ≡ pending.old.tables }
        ensures lines { OnOk result (left_most pending.new < most_lines found.now.block.span + left_most pending.old) }
        ensures written { (course : Course) (rest : List Block)
            → IsUnderWay (walk_at self.now.name.now self.now.tables.now self.now.limit) course (F.view files.old) held.old.bytes (found.now.block ∷ left_of pending.old ++ rest) steps.old
            → OnOk result (IsUnderWay (walk_at self.now.name.now self.now.tables.now self.now.limit) course (F.view files.new) held.new.bytes (left_of pending.new ++ rest) steps.new) }
        ensures failed { (course : Course) (rest : List Block)
            → IsUnderWay (walk_at self.now.name.now self.now.tables.now self.now.limit) course (F.view files.old) held.old.bytes (found.now.block ∷ left_of pending.old ++ rest) steps.old
            → OnErr result (HasFailed (walk_at self.now.name.now self.now.tables.now self.now.limit) course (F.view files.new)) }
    {
        bound_is_one();
        let _ = self.tables.window();
        let line = Line {
            kind: kind_of(found, self.limit),
            block: found.block,
            bound: found.bound,
        };
        put(files, self.name, held, step_line(&line).as_str())?;
        *steps = steps.saturating_add(1);
        open_by(pending, &line);
        Ok(())
    }
}

// Opens a line's block, where the line says so.
fn open_by(pending: &mut Pending<'_>, line: &Line)
    requires block { IsBlock pending.old.tables.window line.now.block }
    requires can_open { CanOpen line.now.block.span pending.old }
    ensures left { left_of pending.new ≡ opened_by line.now ++ left_of pending.old }
    ensures lines { left_most pending.new < most_lines line.now.block.span + left_most pending.old }
    ensures tables { pending.new.tables ≡ pending.old.tables }
{
    match line.kind {
        Kind::Opened => pending.open(&line.block),
        Kind::Pruned | Kind::Empty | Kind::Leaf => {}
    }
}

// What is to become of a block.
fn kind_of(found: &Bounded, limit: u64) -> Kind
    requires first { IsSequence (first_of found.now.block) }
    requires small { ForSome found.now.bound (λ n. n ≤ GREATEST_COST) }
    ensures shape { IsShaped result found.now.block.span found.now.bound }
    ensures above { IsAbove limit result found.now.block found.now.bound }
    ensures keeps { KeepsTo limit result found.now.block found.now.bound }
{
    let Some(bound) = found.bound else {
        return Kind::Empty;
    };
    if block_key(bound, &found.block) > limit {
        return Kind::Pruned;
    }
    if found.block.span == Span::Minute {
        return Kind::Leaf;
    }
    Kind::Opened
}

/// The limit of a certificate that names this second key, if any.
pub fn limit_named(ceiling: u32, second: Option<u64>) -> u64
    requires { ceiling ≤ GREATEST_COST }
    ensures { result ≡ limit_named ceiling second }
{
    let key = key_or_none(second);
    key.min(ceiling_key(ceiling))
}

// A key, and the greatest u64 where there is none.
fn key_or_none(key: Option<u64>) -> u64
    ensures { result ≡ key_or_none key }
{
    match key {
        None => u64::MAX,
        Some(key) => key,
    }
}
