//! Worked examples of what is due of `sweep`.
#![tactic(auto, unfolding(crate::specs::Examples::digits, definitions::specs::time::Calendar::day_at, definitions::specs::sequences::Walks::place_at, formats::specs::Reports::at_minutes))]

ghost use Rattle.std.specs.Prelude.{ℕ, ◌≡◌, [], ◌∷◌, ◌++◌, List, None, Some, codes};
ghost use Rattle.definitions.specs.declared.answer.Answer.TheVariants as answer;
ghost use Rattle.definitions.specs.examples.Dates.{at, on};
ghost use Rattle.definitions.specs.examples.Sequences.{from_place};
ghost use Rattle.definitions.specs.heard.Logs.{Records};
ghost use Rattle.formats.specs.Bytes.{line};
ghost use Rattle.formats.specs.Examples.{dut_told};
ghost use Rattle.formats.specs.WordExamples.{asked, asked_usually, words_in};
ghost use Rattle.formats.specs.declared.option.OptionName.TheVariants.{Seconds};
ghost use Rattle.formats.specs.declared.refusal.Refusal.{Refusal};
ghost use Rattle.formats.specs.declared.refusal.Refusal.TheVariants.{WordsBad, WordsUsage};
ghost use Rattle.signal_base.specs.declared.dut.Dut.TheVariants.{Absent};
ghost use Rattle.signal_base.specs.declared.station.Station.TheVariants.{Jjy};
ghost use Rattle.bank_config.specs.Configuration.{PlainConfig};
ghost use Rattle.certificates.specs.Certificates.{Certificate};
ghost use Rattle.due.specs.declared.due.Due.{Due};
ghost use Rattle.due.specs.declared.due.Due.TheVariants.{Refused, Report};
ghost use Rattle.due.specs.Banks.{bank_of, window_of};
ghost use Rattle.due.specs.Dues.{text_of};
ghost use Rattle.due.specs.Inputs.{Configuration, Contents};
ghost use Rattle.due.specs.Loads.{IsBankLoaded, IsBankRefused};
ghost use Rattle.sweep_due.specs.Examples.{bank_with, costs_at, key, late_rises, order_of_k, standing_of, two_minutes, two_seconds};
ghost use Rattle.sweep_due.specs.Phases.{swept_offsets, window_at};
ghost use Rattle.sweep_due.specs.Standings.{answer_told, ceiling_after, nothing_yet, window_told, with_two};
ghost use Rattle.sweep_due.specs.SweepCertificates.{AreCertificates, AreCertificatesDue, sweep_outputs};
ghost use Rattle.sweep_due.specs.SweepOrders.{AsksSweep};
ghost use Rattle.sweep_due.specs.SweepOwed.{IsSweepOwed, told_alone};
ghost use Rattle.sweep_due.specs.SweepPlans.{sweep_plan};
ghost use Rattle.sweep_due.specs.SweepRules.{IsSweepDue, IsSweepRead, IsSweepReport};
ghost use Rattle.sweep_due.specs.Swept.{IsOffsetOf, swept_cost};

/// Which offsets are swept: all of them, but where the phase of a decode is less than 50 ms from a whole second.
pub fn offsets_that_are_swept()
    ensures all { swept_offsets 500 ≡ 0 ∷ 1 ∷ 2 ∷ 3 ∷ 4 ∷ 5 ∷ 6 ∷ 7 ∷ 8 ∷ 9 ∷ 10 ∷ [] }
    ensures least { swept_offsets 50 ≡ 0 ∷ 1 ∷ 2 ∷ 3 ∷ 4 ∷ 5 ∷ 6 ∷ 7 ∷ 8 ∷ 9 ∷ 10 ∷ [] }
    ensures below { swept_offsets 49 ≡ 1 ∷ 2 ∷ 3 ∷ 4 ∷ 5 ∷ 6 ∷ 7 ∷ 8 ∷ 9 ∷ 10 ∷ [] }
    ensures greatest { swept_offsets 949 ≡ 0 ∷ 1 ∷ 2 ∷ 3 ∷ 4 ∷ 5 ∷ 6 ∷ 7 ∷ 8 ∷ 9 ∷ 10 ∷ [] }
    ensures behind { swept_offsets 950 ≡ 0 ∷ 1 ∷ 2 ∷ 3 ∷ 4 ∷ 5 ∷ 6 ∷ 7 ∷ 8 ∷ 9 ∷ [] }
    ensures early { swept_offsets 30 ≡ 2 ∷ 3 ∷ 4 ∷ 5 ∷ 6 ∷ 7 ∷ 8 ∷ 9 ∷ 10 ∷ [] }
    ensures first { swept_offsets 0 ≡ 5 ∷ 6 ∷ 7 ∷ 8 ∷ 9 ∷ 10 ∷ [] }
    ensures last { swept_offsets 999 ≡ 0 ∷ 1 ∷ 2 ∷ 3 ∷ 4 ∷ 5 ∷ [] }
    ensures window { window_at (two_minutes 30) 2 ≡ two_minutes 0 }
    ensures middle { window_at (two_minutes 30) 5 ≡ two_minutes 30 }
    ensures end { window_at (two_minutes 30) 10 ≡ two_minutes 80 }
{}

/// A log whose seconds rise 30 ms late but for the first costs least at phase 0, which is at offset 2, and not at the phase of a
/// decode, 30. A log in which nothing is known costs nothing at any phase, so that the least one counts.
pub fn costs_of_a_sweep()
    ensures each { costs_at (2 ∷ 3 ∷ 4 ∷ 5 ∷ []) ≡ 30 ∷ 40 ∷ 50 ∷ 60 ∷ [] }
    ensures least { swept_cost (two_seconds 30) (bank_with late_rises) (from_place 0 0) ≡ 30 }
    ensures offset { IsOffsetOf (two_seconds 30) (bank_with late_rises) (from_place 0 0) 2 }
    ensures tie { IsOffsetOf (two_seconds 30) (bank_with []) (from_place 0 0) 2 }
{}

/// Searches at two offsets. The sequence of index 7 is cheaper at the second one, and that of index 9 comes before the second
/// so far; a key that is found again counts at the lesser offset; and the cost of the second is the next ceiling.
pub fn searches_that_are_put_together()
    ensures first { with_two nothing_yet 5 (Some (key 5 7)) (Some (key 8 1)) ≡ standing_of (key 5 7) 5 (key 8 1) }
    ensures better { with_two (standing_of (key 5 7) 5 (key 8 1)) 3 (Some (key 4 7)) (Some (key 6 9)) ≡ standing_of (key 4 7) 3 (key 6 9) }
    ensures before { with_two (standing_of (key 5 7) 5 (key 8 1)) 3 (Some (key 4 9)) (Some (key 9 2)) ≡ standing_of (key 4 9) 3 (key 5 7) }
    ensures second { with_two (standing_of (key 5 7) 5 (key 8 1)) 3 (Some (key 2 1)) None ≡ standing_of (key 2 1) 3 (key 5 7) }
    ensures again { with_two (standing_of (key 5 7) 5 (key 8 1)) 3 (Some (key 5 7)) (Some (key 8 2)) ≡ standing_of (key 5 7) 3 (key 8 1) }
    ensures later { with_two (standing_of (key 5 7) 5 (key 8 1)) 6 (Some (key 5 7)) (Some (key 8 1)) ≡ standing_of (key 5 7) 5 (key 8 1) }
    ensures none { with_two (standing_of (key 5 7) 5 (key 8 1)) 6 None None ≡ standing_of (key 5 7) 5 (key 8 1) }
    ensures ceiling { ceiling_after 100 (standing_of (key 5 7) 5 (key 8 1)) ≡ 8 }
    ensures lower { ceiling_after 6 (standing_of (key 5 7) 5 (key 8 1)) ≡ 6 }
    ensures own { ceiling_after 100 nothing_yet ≡ 100 }
    ensures answer { answer_told (standing_of (key 5 7) 5 (key 8 1)) ≡ answer.Decided 5 (from_place 7 0) (Some 8) }
    ensures window { window_told (two_minutes 30) (standing_of (key 5 7) 2 (key 8 1)) ≡ two_minutes 0 }
    ensures nothing { window_told (two_minutes 30) nothing_yet ≡ two_minutes 30 }
{}

/// Words that are refused, whatever the files hold.
pub fn refused_words_of_a_sweep()
    ensures none { (contents : Contents) → IsSweepDue [] contents (Refused WordsUsage) }
    ensures place { (contents : Contents) → IsSweepDue (words_in (codes "sweep")) contents (Refused WordsUsage) }
    ensures other { (contents : Contents) → IsSweepDue (words_in (codes "decode k.toml")) contents (Refused WordsUsage) }
    ensures beyond { (contents : Contents) → IsSweepDue (words_in (codes "judge k.toml s")) contents (Refused WordsUsage) }
    ensures seconds { (contents : Contents) → IsSweepDue (words_in (codes "sweep k.toml --seconds 59")) contents (Refused (WordsBad Seconds)) }
    ensures certificate { (contents : Contents) → IsSweepDue (words_in (codes "sweep k.toml --certificate s --seconds 59")) contents (Refused (WordsBad Seconds)) }
{}

/// What words ask, and what is due of a bank for them.
pub fn what_is_asked_of_a_sweep()
    ensures usual { AsksSweep (words_in (codes "sweep k.toml")) (order_of_k asked_usually) }
    ensures own { AsksSweep (words_in (codes "sweep k.toml --seconds 120 --workers 2")) (order_of_k (asked None 120 0 52_596_000)) }
    ensures certificates { AsksSweep (words_in (codes "sweep k.toml --certificate s")) (order_of_k asked_usually) }
    ensures read { (contents : Contents) → IsSweepRead (words_in (codes "sweep k.toml")) contents Configuration (codes "k.toml") }
    ensures due { (contents : Contents) (config : PlainConfig) (records : List Records) (due : Due) → IsBankLoaded contents config records
        → IsSweepReport (window_of (asked None 120 0 52_596_000) (bank_of config records).receivers) (bank_of config records) due
        → IsSweepDue (words_in (codes "sweep k.toml --seconds 120 --workers 2")) contents due }
{}

/// The files that may be written: standard output, and where certificates are asked for a file of each offset there is.
pub fn files_of_a_sweep()
    ensures told { (sweep_plan (words_in (codes "sweep k.toml"))).files ≡ codes "-" ∷ [] }
    ensures certificates { (sweep_plan (words_in (codes "sweep k.toml --certificate s"))).files
        ≡ codes "s.0" ∷ codes "s.1" ∷ codes "s.2" ∷ codes "s.3" ∷ codes "s.4" ∷ codes "s.5" ∷ codes "s.6" ∷ codes "s.7" ∷ codes "s.8" ∷ codes "s.9"
        ∷ codes "s.10" ∷ codes "-" ∷ [] }
{}

/// What is owed besides what is told: no certificates where none are asked for, and none of a bank that is refused, whose refusal alone
/// is written; else those of all offsets that are swept.
pub fn certificates_owed_of_a_sweep()
    ensures none { (contents : Contents) → AreCertificatesDue (words_in (codes "sweep k.toml")) contents None }
    ensures refused { (contents : Contents) (refusal : Refusal) → IsBankRefused contents refusal
        → IsSweepOwed (words_in (codes "sweep k.toml --certificate s")) contents (told_alone (Refused refusal)) }
    ensures written { (contents : Contents) (config : PlainConfig) (records : List Records) (cs : List Certificate) → IsBankLoaded contents config records
        → AreCertificates (window_of asked_usually (bank_of config records).receivers) (bank_of config records) 2
        (swept_offsets (window_of asked_usually (bank_of config records).receivers).phase) cs
        → AreCertificatesDue (words_in (codes "sweep k.toml --certificate s --workers 2")) contents
        (Some (record { phase = (window_of asked_usually (bank_of config records).receivers).phase; each = cs })) }
    ensures outputs { (c d e f g h : Certificate) (due : Due)
        → (sweep_plan (words_in (codes "sweep k.toml --certificate s"))).outputs
        (record { due = due; certificates = Some (record { phase = 0; each = c ∷ d ∷ e ∷ f ∷ g ∷ h ∷ [] }) })
        ≡ sweep_outputs (codes "s") (5 ∷ 6 ∷ 7 ∷ 8 ∷ 9 ∷ 10 ∷ []) (c ∷ d ∷ e ∷ f ∷ g ∷ h ∷ []) due }
{}

/// The report of a sweep of two minutes, in which a decode finds the phase 30 and the least cost is at phase 0.
pub fn report_of_a_sweep()
    ensures { text_of (Report (window_at (two_minutes 30) 2) (answer.Decided 3570 (from_place (at (on 2024 6 10) 6 16) 0) (Some 4410)) (dut_told Jjy Absent ∷ []))
        ≡ line (codes "decided 3570") ++ line (codes "phase 0") ++ line (codes "sequence 2024-06-10T06:16Z 0 no") ++ line (codes "next 4410")
        ++ line (codes "minute 2024-06-10T06:16Z at 0") ++ line (codes "minute 2024-06-10T06:17Z at 60000") }
{}
