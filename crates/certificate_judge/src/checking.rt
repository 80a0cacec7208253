//! A text, checked piece by piece.

ghost use Rattle.std.specs.Prelude.{ℕ, ◌≡◌, ◌≤◌, ◌++◌, ◌∷◌, [], List, length};
ghost use Rattle.signal_base.specs.declared.limits.TheConstants.{GREATEST_COST};
ghost use Rattle.definitions.specs.answers.Blocks.{items};
ghost use Rattle.field_tables.specs.Scored.{Scored, costs_of};
ghost use Rattle.certificates.specs.declared.limits.TheConstants.{MOST_STEPS};
ghost use Rattle.certificates.specs.Certificates.{Certificate, lines_of};
ghost use Rattle.certificates.specs.Texts.{Entry, Lead, Next, entries_of, first_line};
ghost use Rattle.certificates.specs.Verdicts.{IsVerdict};
ghost use Rattle.certificate_texts.specs.Places.{entry_of};
ghost use Rattle.certificate_judge.specs.Checking.{AreFollowed, StandsFor};
ghost use Rattle.certificate_judge.specs.Judging.{AreAlike};
ghost use Rattle.certificate_judge.specs.Outcomes.{IsOutcome};
ghost use Rattle.certificate_judge.specs.declared.outcome.Outcome.{Outcome};
ghost use Rattle.certificate_judge.specs.declared.outcome.Outcome.TheVariants as outcome;

use crate::judging::limit_named;
use crate::{Checker, Heading, Judge, Outcome, bytes_have_one_outcome};
use certificate_texts::{BadLine, Reader, Told, whole_texts_are_certificates};
use certificates::{CERTIFICATE_LIMIT, Verdict};
use definitions::Block;
use field_tables::Tables;

impl<'a> Checker<'a> {
    /// A checker to which no byte came. The list has all items of the tables' window, in their own order; the ceiling is at most
    /// 1,920,000,000.
    pub fn make(tables: &'a Tables<'a>, list: &'a [Block], ceiling: u32) -> Checker<'a>
        requires items { list.now ≡ items tables.now.window }
        requires ceiling { ceiling ≤ GREATEST_COST }
        ensures { StandsFor result tables.now ceiling [] }
    {
        Checker {
            reader: Reader::new(),
            heading: Heading::new(),
            judge: Judge::new(tables, list, ceiling),
            bytes: 0,
            large: false,
        }
    }

    /// Takes the next bytes of the text, any number of them.
    pub fn push(&mut self, bytes: &[u8])
        ensures { (tables : Scored) (ceiling : ℕ) (before : List ℕ) → StandsFor self.old tables ceiling before
            → StandsFor self.new tables ceiling (before ++ bytes.now) }
    {
        let mut i = 0;
        while i < bytes.len() {
            self.take(bytes[i]);
            i += 1;
        }
    }

    // Takes the next byte.
    fn take(&mut self, byte: u8)
        ensures { (tables : Scored) (ceiling : ℕ) (before : List ℕ) → StandsFor self.old tables ceiling before
            → StandsFor self.new tables ceiling (before ++ byte ∷ []) }
    {
        if self.large {
            return;
        }
        if self.bytes >= CERTIFICATE_LIMIT {
            self.large = true;
            return;
        }
        self.bytes += 1;
        if self.reader.bad.is_some() {
            return;
        }
        let Some(told) = self.reader.take(byte) else {
            return;
        };
        follow(&mut self.heading, &mut self.judge, &told);
    }

    /// What comes of the bytes that were taken, whatever the pieces were.
    pub fn finish(&mut self) -> Outcome
        ensures outcome { (tables : Scored) (ceiling : ℕ) (bytes : List ℕ) → StandsFor self.old tables ceiling bytes
            → IsOutcome (costs_of tables) tables.window ceiling bytes result }
        ensures exactly { (tables : Scored) (ceiling : ℕ) (bytes : List ℕ) (other : Outcome) → StandsFor self.old tables ceiling bytes
            → IsOutcome (costs_of tables) tables.window ceiling bytes other → other ≡ result }
    {
        bytes_have_one_outcome();
        self.outcome()
    }

    fn outcome(&mut self) -> Outcome
        ensures { (tables : Scored) (ceiling : ℕ) (bytes : List ℕ) → StandsFor self.old tables ceiling bytes
            → IsOutcome (costs_of tables) tables.window ceiling bytes result }
    {
        whole_texts_are_certificates();
        if self.large {
            return Outcome::TooLarge;
        }
        if let Some(bad) = self.reader.finish() {
            return refused(bad);
        }
        let heading = self.heading;
        Outcome::Judged {
            verdict: verdict(&heading, &mut self.judge),
            first: heading.first,
            second: heading.second,
        }
    }
}

fn refused(bad: BadLine) -> Outcome
    ensures { result ≡ outcome.Refused bad.line bad.fault }
{
    Outcome::Refused {
        line: bad.line,
        fault: bad.fault,
    }
}

// Keeps what a line tells.
fn follow(heading: &mut Heading, judge: &mut Judge, told: &Told)
    ensures followed { (read : List Entry) (last : Next) → AreFollowed heading.old judge.old read
        → Lead first_line (read ++ entry_of told.now ∷ []) last → AreFollowed heading.new judge.new (read ++ entry_of told.now ∷ []) }
    ensures alike { AreAlike judge.old judge.new }
{
    match told {
        Told::Head { part, value } => {
            heading.tell(*part, *value);
            return;
        }
        Told::Step { line } => {
            let limit = limit_named(judge.ceiling, heading.second);
            judge.take(line, limit);
            return;
        }
        Told::Part { number } => {
            let _ = *number;
            return;
        }
        Told::End => {
            return;
        }
    }
}

// The verdict on a certificate that was read whole.
fn verdict(heading: &Heading, judge: &mut Judge) -> Verdict
    ensures { (read : List Entry) (c : Certificate) → AreFollowed heading.now judge.old read → read ≡ entries_of c → length (lines_of c) ≤ MOST_STEPS
        → IsVerdict (costs_of judge.old.due.tables.now) judge.old.due.tables.now.window judge.old.ceiling c result }
{
    let window = judge.due.tables.window();
    if !heading.is_of(&window, judge.ceiling) {
        return Verdict::OtherWindow;
    }
    judge.finish(heading.first, heading.second)
}
