//! The lines of a certificate, judged one after the other.

ghost use Rattle.std.specs.Prelude.{ℕ, ◌≡◌, ◌+◌, ◌<◌, ◌≤◌, ◌↔◌, ◌∷◌, ◌++◌, [], IsTrue, List, None, length, nat_le, if◌then◌else◌};
ghost use Rattle.std.specs.Option.{ForSome};
ghost use Rattle.signal_base.specs.declared.limits.TheConstants.{GREATEST_COST};
ghost use Rattle.definitions.specs.declared.block.Block.{Block};
ghost use Rattle.definitions.specs.sequences.Walks.{IsSequence};
ghost use Rattle.definitions.specs.answers.Blocks.{first_of, items};
ghost use Rattle.field_tables.specs.Scored.{costs_of};
ghost use Rattle.race_words.specs.Keys.{with_key};
ghost use Rattle.block_visits.specs.Apart.{key_if_any};
ghost use Rattle.certificates.specs.declared.certificate.Line.{Line};
ghost use Rattle.certificates.specs.declared.limits.TheConstants.{MOST_STEPS};
ghost use Rattle.certificates.specs.Validity.{IsAbove, leaf_key, limit_named};
ghost use Rattle.certificates.specs.Verdicts.{IsFoundOf, IsOfEnds};
ghost use Rattle.certificate_judge.specs.Judging.{AreAlike, IsJudged, IsJudgedBy, bench_of, ends_with, kept_by};

use crate::{DueBlocks, Judge};
use bounds::block_key;
use certificates::{Kind, Line, Verdict};
use definitions::{Block, bound_is_one};
use field_tables::Tables;
use race_words::Ends;
use sequence::ceiling_key;

impl<'a> Judge<'a> {
    /// No line was judged. The list has all items of the tables' window, in their own order; the ceiling is at most 1,920,000,000.
    pub fn new(tables: &'a Tables<'a>, list: &'a [Block], ceiling: u32) -> Judge<'a>
        requires items { list.now ≡ items tables.now.window }
        requires ceiling { ceiling ≤ GREATEST_COST }
        ensures judged { (limit : ℕ) → IsJudged limit result [] }
        ensures tables { result.due.tables.now ≡ tables.now }
        ensures ceiling { result.ceiling ≡ ceiling }
    {
        Judge {
            due: DueBlocks::new(tables, list),
            ceiling,
            step: 1,
            ends: Ends {
                least: u64::MAX,
                second: u64::MAX,
            },
            verdict: None,
        }
    }

    /// Judges the next line, where there weren't too many, under a limit that the key of each block must be above that is passed over.
    pub fn take(&mut self, line: &Line, limit: u64)
        ensures judged { (ls : List Line) → length ls < MOST_STEPS → IsJudged limit self.old ls → IsJudged limit self.new (ls ++ line.now ∷ []) }
        ensures alike { AreAlike self.old self.new }
    {
        if self.verdict.is_some() {
            return;
        }
        self.verdict = self.judge(line, limit);
    }

    // What is found of the line, if it is wrong. Otherwise it is kept.
    fn judge(&mut self, line: &Line, limit: u64) -> Option<Verdict>
        requires good { self.old.verdict ≡ None }
        ensures judged { (ls : List Line) → length ls < MOST_STEPS → IsJudged limit self.old ls
            → IsJudgedBy (bench_of self.old.due.tables.now self.old.ceiling limit) result (kept_by self.new) (ls ++ line.now ∷ []) }
        ensures alike { AreAlike self.old self.new }
    {
        bound_is_one();
        let _ = self.due.tables.window();
        let Some(found) = self.due.take(&line.block) else {
            return Some(Verdict::Uncovered { step: self.step });
        };
        if found.bound != line.bound {
            return Some(Verdict::WrongBound { step: self.step });
        }
        if !is_above(line, limit) {
            return Some(Verdict::NotAbove { step: self.step });
        }
        self.due.open(line);
        self.ends = ends_with(&self.ends, line, self.ceiling);
        self.step = self.step.saturating_add(1);
        None
    }

    /// What is found of all lines, where they aren't too many, and where these keys are named.
    pub fn finish(&mut self, first: Option<u64>, second: Option<u64>) -> Verdict
        ensures { (ls : List Line) → length ls ≤ MOST_STEPS → IsJudged (limit_named self.old.ceiling second) self.old ls
            → IsFoundOf (costs_of self.old.due.tables.now) self.old.due.tables.now.window self.old.ceiling first second ls result }
    {
        if let Some(verdict) = self.verdict {
            return verdict;
        }
        if !self.due.is_over() {
            return Verdict::Uncovered { step: self.step };
        }
        of_ends(&self.ends, first, second)
    }
}

// What is found of named keys, where these are the two least.
fn of_ends(ends: &Ends, first: Option<u64>, second: Option<u64>) -> Verdict
    ensures { IsOfEnds first second (key_if_any ends.now.least) (key_if_any ends.now.second) result }
{
    let least = key_if_any(ends.least);
    if first != least {
        return Verdict::WrongEnds { key: least };
    }
    let other = key_if_any(ends.second);
    if second != other {
        return Verdict::WrongEnds { key: other };
    }
    Verdict::Certified
}

// The two least keys, once a line is kept.
fn ends_with(ends: &Ends, line: &Line, ceiling: u32) -> Ends
    requires ceiling { ceiling ≤ GREATEST_COST }
    requires first { IsSequence (first_of line.now.block) }
    requires small { ForSome line.now.bound (λ n. n ≤ GREATEST_COST) }
    ensures { result ≡ ends_with ceiling line.now ends.now }
{
    if line.kind != Kind::Leaf {
        return *ends;
    }
    let Some(bound) = line.bound else {
        return *ends;
    };
    with_key(ends, block_key(bound, &line.block), ceiling_key(ceiling))
}

// The same with a key that isn't above a limit.
fn with_key(ends: &Ends, key: u64, limit: u64) -> Ends
    ensures { result ≡ (if nat_le key limit then with_key key ends.now else ends.now) }
{
    if key > limit {
        return *ends;
    }
    Ends {
        least: key.min(ends.least),
        second: key.max(ends.least).min(ends.second),
    }
}

// Whether the line passes over no block, or over one whose key is above the limit.
fn is_above(line: &Line, limit: u64) -> bool
    requires first { IsSequence (first_of line.now.block) }
    requires small { ForSome line.now.bound (λ n. n ≤ GREATEST_COST) }
    ensures { IsTrue result ↔ IsAbove limit line.now.kind line.now.block line.now.bound }
{
    if line.kind != Kind::Pruned {
        return true;
    }
    let Some(bound) = line.bound else {
        return true;
    };
    block_key(bound, &line.block) > limit
}

// A key, or none for the greatest u64.
fn key_if_any(key: u64) -> Option<u64>
    ensures { result ≡ key_if_any key }
{
    if key == u64::MAX {
        return None;
    }
    Some(key)
}

/// The limit of a certificate that names this second key, if any.
pub fn limit_named(ceiling: u32, second: Option<u64>) -> u64
    requires { ceiling ≤ GREATEST_COST }
    ensures { result ≡ limit_named ceiling second }
{
    let key = second.unwrap_or(u64::MAX);
    key.min(ceiling_key(ceiling))
}
