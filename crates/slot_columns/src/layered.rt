//! What many pairs of parts cost, each by a few look-ups.

ghost use Rattle.std.specs.Prelude.{◌≡◌, ◌<◌, ◌^◌, ℕ, [], IfOk, OnOk, bit_or, length, slice_index};
ghost use Rattle.slot_columns.specs.declared.limits.TheConstants.{COLUMNS, SETS};
ghost use Rattle.slot_columns.specs.Layered.{AreAdded, AreLayerCosts, ArePlaces, AreSeconds, AreTermRows, HaveRoom, IsPlace, IsTermRow, column_of, cost_of_both, layer_cost, term_cost, term_place};
ghost use Rattle.slot_columns.specs.Tables.{columns_cost};

use crate::columns::SlotColumns;
use crate::limits::{COLUMNS, SECONDS_PER_MINUTE};
use crate::part::Part;
use crate::slots::{Row, index_of};
use crate::tables::{sum_of_columns, sum_of_rows};
use crate::terms::{Layer, Term, Terms};
use std::alloc::{AllocError, Global};
use std::marker::Model;

/// What many pairs of parts cost, each by a few look-ups: only the seconds are looked up in which the pairs differ.
#[derive(Drop)]
pub struct LayerTable {
    pairs: usize,
    terms: usize,
    // What the pairs have in common costs this, for each second in which a walk may begin.
    common: [u32; SECONDS_PER_MINUTE],
    // For each such second a row for each term.
    rows: Vec<Row>,
    // For each pair where its sets stand in these rows.
    places: Vec<u8>,
}

impl Model for LayerTable {
    ghost use Rattle.slot_columns.specs.Layered.{AreLayerSums, LayerSums};

    ghost Value = { LayerSums };

    ghost view = { λ t. record { pairs = t.pairs; terms = t.terms; common = t.common; rows = t.rows.items; places = t.places.items } };

    ghost invariant = { λ t. AreLayerSums (record { pairs = t.pairs; terms = t.terms; common = t.common; rows = t.rows.items; places = t.places.items }) };
}

impl LayerTable {
    /// Pair `i` carries `firsts[i]` in walk minute 0 and `rests[i]` in each later one.
    pub fn make(
        alloc: Global,
        columns: &SlotColumns,
        firsts: &[Part],
        rests: &[Part],
    ) -> Result<LayerTable, AllocError>
        requires { length firsts.now ≡ length rests.now }
        ensures { IfOk result (λ table. AreLayerCosts table columns.now firsts.now rests.now) }
    {
        let made = Terms::make(alloc, firsts, rests)?;
        let first: &[Row] = &columns.first;
        let later: &[Row] = &columns.later;
        let common = common_costs(first, later, &made.first, &made.later);
        let rows = rows_of(alloc, first, later, &made.terms)?;
        let places = places_of(alloc, firsts, rests, &made.terms)?;
        Ok(LayerTable {
            pairs: firsts.len(),
            terms: made.terms.len(),
            common,
            rows,
            places,
        })
    }

    /// What pair `i` costs where the walk begins in second `p`, below 60.
    pub fn cost(&self, i: usize, p: u8) -> u32
        requires pair { i < self.now.pairs }
        requires second { p < SECONDS_PER_MINUTE }
        ensures { result ≡ layer_cost self.now i p }
    {
        self.cost_of_both(i, i, p)
    }

    /// What a pair costs that carries in each second what the pairs `i` and `j` carry, their sets together. A second that is
    /// not scored in one of them costs what it costs in the other.
    pub fn cost_of_both(&self, i: usize, j: usize, p: u8) -> u32
        requires pair { i < self.now.pairs }
        requires other { j < self.now.pairs }
        requires second { p < SECONDS_PER_MINUTE }
        ensures { result ≡ cost_of_both self.now i j p }
    {
        let one = i * self.terms;
        let other = j * self.terms;
        let rows = p as usize * self.terms;
        let mut cost = self.common[p as usize];
        for k in 0..self.terms {
            let place = together(self.places[one + k], self.places[other + k]);
            cost += self.rows[rows + k][place];
        }
        cost
    }
}

// Where the sets at two places stand together.
fn together(a: u8, b: u8) -> usize
    requires one { a < SETS }
    requires other { b < SETS }
    ensures place { result ≡ bit_or a b }
    ensures bound { result < SETS }
{
    (a | b) as usize
}

// What two parts cost, for each second in which a walk may begin.
fn common_costs(first: &[Row], later: &[Row], a: &Part, b: &Part) -> [u32; SECONDS_PER_MINUTE]
    requires first { length first.now ≡ COLUMNS }
    requires later { length later.now ≡ COLUMNS }
    requires room { (p : ℕ) → p < SECONDS_PER_MINUTE → columns_cost first.now later.now p a.now b.now < 2 ^ 32 }
    ensures count { length result ≡ SECONDS_PER_MINUTE }
    ensures costs { (p : ℕ) → p < SECONDS_PER_MINUTE → slice_index result p ≡ columns_cost first.now later.now p a.now b.now }
{
    let mut costs = [0; SECONDS_PER_MINUTE];
    for p in 0..SECONDS_PER_MINUTE {
        costs[p] = sum_of_columns(first, later, p, a, b);
    }
    costs
}

// A row for each term, for each second in which a walk may begin.
fn rows_of(
    alloc: Global,
    first: &[Row],
    later: &[Row],
    terms: &[Term],
) -> Result<Vec<Row>, AllocError>
    requires first { length first.now ≡ COLUMNS }
    requires later { length later.now ≡ COLUMNS }
    requires room { HaveRoom first.now later.now }
    requires seconds { AreSeconds terms.now }
    ensures { IfOk result (λ rows. AreTermRows first.now later.now terms.now rows.items SECONDS_PER_MINUTE) }
{
    let mut rows = Vec::new(alloc);
    for p in 0..SECONDS_PER_MINUTE {
        push_rows(&mut rows, first, later, terms, p)?;
    }
    Ok(rows)
}

// Those of one second.
fn push_rows(
    rows: &mut Vec<Row>,
    first: &[Row],
    later: &[Row],
    terms: &[Term],
    p: usize,
) -> Result<(), AllocError>
    requires first { length first.now ≡ COLUMNS }
    requires later { length later.now ≡ COLUMNS }
    requires second { p < SECONDS_PER_MINUTE }
    requires room { HaveRoom first.now later.now }
    requires seconds { AreSeconds terms.now }
    ensures { OnOk result (AreAdded [] (IsTermRow first.now later.now terms.now p) rows.old.items rows.new.items (length terms.now)) }
{
    for j in 0..terms.len() {
        rows.push(row_of(first, later, &terms[j], p))?;
    }
    Ok(())
}

// The row of one term.
fn row_of(first: &[Row], later: &[Row], term: &Term, p: usize) -> Row
    requires first { length first.now ≡ COLUMNS }
    requires later { length later.now ≡ COLUMNS }
    requires second { p < SECONDS_PER_MINUTE }
    requires term { term.now.second < SECONDS_PER_MINUTE }
    requires room { HaveRoom first.now later.now }
    ensures { (set : ℕ) → set < SETS → slice_index result set ≡ term_cost (column_of first.now p) (column_of later.now p) term.now set }
{
    let i = SECONDS_PER_MINUTE * p + term.second;
    match term.layer {
        Layer::First => first[i],
        Layer::Later => later[i],
        Layer::Both => sum_of_rows(&first[i], &later[i]),
    }
}

// Where the pairs' sets stand in the rows.
fn places_of(
    alloc: Global,
    firsts: &[Part],
    rests: &[Part],
    terms: &[Term],
) -> Result<Vec<u8>, AllocError>
    requires count { length firsts.now ≡ length rests.now }
    requires seconds { AreSeconds terms.now }
    ensures { IfOk result (λ places. ArePlaces firsts.now rests.now terms.now places.items (length firsts.now)) }
{
    let mut places = Vec::with_capacity(alloc, firsts.len().saturating_mul(terms.len()))?;
    for i in 0..firsts.len() {
        push_places(&mut places, &firsts[i], &rests[i], terms)?;
    }
    Ok(places)
}

// Those of one pair.
fn push_places(
    places: &mut Vec<u8>,
    first: &Part,
    rest: &Part,
    terms: &[Term],
) -> Result<(), AllocError>
    requires { AreSeconds terms.now }
    ensures { OnOk result (AreAdded 0 (IsPlace first.now rest.now terms.now) places.old.items places.new.items (length terms.now)) }
{
    for j in 0..terms.len() {
        places.push(place_of(first, rest, &terms[j]))?;
    }
    Ok(())
}

// That of one term.
fn place_of(first: &Part, rest: &Part, term: &Term) -> u8
    requires { term.now.second < SECONDS_PER_MINUTE }
    ensures place { result ≡ term_place first.now rest.now term.now }
{
    let s = term.second;
    match term.layer {
        Layer::First | Layer::Both => index_of(first[s]) as u8,
        Layer::Later => index_of(rest[s]) as u8,
    }
}
