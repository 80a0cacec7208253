//! Laws of what was heard: which symbols are told, and that the costs of the lines add up to what the report tells.

ghost use Rattle.std.specs.Prelude.{◌≡◌, ◌≢◌, ◌<◌, ◌≤◌, ℕ, ℤ, None, Some, sum_by, true};
ghost use Rattle.std.specs.List.{list_all};
ghost use Rattle.signal_base.specs.declared.dut.Dut.TheVariants.{Tenths};
ghost use Rattle.signal_base.specs.declared.station.Station.{Station};
ghost use Rattle.signal_base.specs.declared.window.Window.{Window};
ghost use Rattle.signal_base.specs.Mask.{has_bit};
ghost use Rattle.signal_base.specs.Waveform.{symbol_count};
ghost use Rattle.definitions.specs.declared.sequence.Sequence.{Sequence};
ghost use Rattle.definitions.specs.time.Calendar.{minute_length};
ghost use Rattle.definitions.specs.codes.Allowed.{has_station, stations_of};
ghost use Rattle.definitions.specs.codes.Vocabulary.{unscored};
ghost use Rattle.definitions.specs.sequences.Walks.{set_at};
ghost use Rattle.definitions.specs.heard.Costs.{Costs, dut_of, sequence_cost, station_cost, sum_below};
ghost use Rattle.formats.specs.Heard.{Hearing, best_symbol, costs_of, receiver_sums, receivers_heard, sent_symbol, slot_heard, slot_of, told_value};

/// In each slot the receivers of a station share what the symbol costs that it sends there.
pub fn receivers_share_a_slot()
    ensures { (h : Hearing) (k : ℕ) (station : Station) → sum_by (λ r. r.cost) (receivers_heard h k station) ≡ (slot_of h k station).cost }
{}

/// The slots of a station share what a sequence costs it, the seconds that tell DUT1 too; and the slots and stations of a
/// window share what it costs.
pub fn slots_share_the_cost()
    ensures station { (costs : Costs) (n : ℕ) (q : Sequence) (station : Station) →
        sum_below n (λ k. (slot_heard costs n q k station).cost) ≡ station_cost station (costs station) n q }
    ensures sequence { (costs : Costs) (window : Window) (q : Sequence) →
        sum_below window.seconds (λ k. sum_by (λ station. (slot_heard costs window.seconds q k station).cost) (stations_of window.stations))
        ≡ sequence_cost costs window q }
{}

/// The sums of the receivers add up to what the sequence costs, where each of them listens to a station of the window.
pub fn receivers_share_the_cost()
    ensures { (h : Hearing) → list_all (λ r. has_station h.window.stations r.station) h.receivers ≡ true →
        sum_by (λ r. r.cost) (receiver_sums h) ≡ sequence_cost (costs_of h) h.window h.sequence }
{}

/// A symbol is one that the second may carry, and there is one where the second is scored. Where a report tells a value of
/// DUT1, that is the one that is sent.
pub fn symbols_are_those_of_the_sequence()
    ensures allowed { (station : Station) (costs : ℕ → ℕ → ℕ) (n : ℕ) (q : Sequence) (k x : ℕ) →
        sent_symbol station costs n q k ≡ Some x → has_bit (set_at station q k) x ≡ true }
    ensures scored { (station : Station) (costs : ℕ → ℕ → ℕ) (n : ℕ) (q : Sequence) (k : ℕ) → q.second < minute_length q.announced q.first →
        set_at station q k ≢ unscored → sent_symbol station costs n q k ≢ None }
    ensures not_scored { (station : Station) (costs : ℕ → ℕ → ℕ) (n : ℕ) (q : Sequence) (k : ℕ) →
        set_at station q k ≡ unscored → sent_symbol station costs n q k ≡ None }
    ensures dut1 { (station : Station) (costs : ℕ → ℕ → ℕ) (n : ℕ) (q : Sequence) (d : ℤ) →
        dut_of station costs n q ≡ Tenths d → told_value station costs n q ≡ Some d }
{}

/// The best symbol is one of the station's, none costs less, and each before it costs more.
pub fn no_symbol_is_better()
    ensures known { (station : Station) (costs : ℕ → ℕ) → best_symbol station costs < symbol_count station }
    ensures least { (station : Station) (costs : ℕ → ℕ) (x : ℕ) → x < symbol_count station → costs (best_symbol station costs) ≤ costs x }
    ensures first { (station : Station) (costs : ℕ → ℕ) (x : ℕ) → x < best_symbol station costs → costs (best_symbol station costs) < costs x }
{}
