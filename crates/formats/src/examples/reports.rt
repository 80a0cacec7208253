//! Reports and summaries of trials, spelled out.
#![tactic(auto, unfolding(crate::specs::Examples::digits, definitions::specs::time::Calendar::day_at, definitions::specs::sequences::Walks::place_at, crate::specs::Reports::at_minutes))]

ghost use Rattle.std.specs.Prelude.{◌≡◌, ◌∷◌, ◌++◌, [], codes, negsuc, pos, Some, None};
ghost use Rattle.signal_base.specs.declared.station.Station.TheVariants.{Dcf77, Msf, Wwvb};
ghost use Rattle.signal_base.specs.declared.dut.Dut.TheVariants.{Absent, Free, Tied, Tenths};
ghost use Rattle.definitions.specs.declared.answer.Answer.TheVariants.{Nothing, Decided, Undecided};
ghost use Rattle.definitions.specs.examples.Dates.{at, on};
ghost use Rattle.definitions.specs.examples.Sequences.{from_place};
ghost use Rattle.formats.specs.Bytes.{line};
ghost use Rattle.formats.specs.Examples.{announced_from, dut_told, minute_from};
ghost use Rattle.formats.specs.Reports.{at_minutes, certified_report, dut_lines, minute_line, report, report_head};
ghost use Rattle.formats.specs.Trials.{trial_answer, trial_summary};

/// Reports that name no sequence, or two.
pub fn reports_without_a_decision()
    ensures none { report (minute_from 0 0) [] Nothing ≡ line (codes "none") ++ line (codes "phase 0") }
    ensures phase { report (minute_from 0 237) [] Nothing ≡ line (codes "none") ++ line (codes "phase 237") }
    ensures undecided { report (minute_from 0 0) [] (Undecided 0 (from_place (at (on 2000 6 10) 6 15) 0) (from_place (at (on 2001 6 11) 6 15) 0))
        ≡ line (codes "undecided 0") ++ line (codes "phase 0") ++ line (codes "sequence 2000-06-10T06:15Z 0 no")
        ++ line (codes "sequence 2001-06-11T06:15Z 0 no") }
    ensures announced { report (minute_from 0 0) [] (Undecided 300 (from_place (at (on 2000 6 30) 23 59) 29) (announced_from (at (on 2000 6 30) 23 59) 30))
        ≡ line (codes "undecided 300") ++ line (codes "phase 0") ++ line (codes "sequence 2000-06-30T23:59Z 29 no")
        ++ line (codes "sequence 2000-06-30T23:59Z 30 yes") }
{}

/// The lines of a decided answer before those of its minutes, with each line that tells DUT1.
pub fn heads_of_reports()
    ensures tenths { report_head (minute_from 0 0) (dut_told Msf (Tenths (negsuc 1)) ∷ []) (Decided 0 (from_place (at (on 2000 7 15) 12 0) 0) (Some 200))
        ≡ line (codes "decided 0") ++ line (codes "phase 0") ++ line (codes "sequence 2000-07-15T12:00Z 0 no") ++ line (codes "next 200")
        ++ line (codes "dut1 -2") }
    ensures tied { report_head (minute_from 0 0) (dut_told Msf Tied ∷ []) (Decided 100 (from_place (at (on 2000 7 15) 12 0) 0) (Some 300))
        ≡ line (codes "decided 100") ++ line (codes "phase 0") ++ line (codes "sequence 2000-07-15T12:00Z 0 no") ++ line (codes "next 300")
        ++ line (codes "dut1 undecided") }
    ensures free { dut_lines (dut_told Wwvb Free ∷ []) ≡ line (codes "dut1 free") }
    ensures several { report_head (minute_from 0 0) (dut_told Msf (Tenths (pos 0)) ∷ dut_told Wwvb (Tenths (pos 3)) ∷ []) (Decided 0 (from_place (at (on 2000 7 15) 12 0) 0) (Some 500))
        ≡ line (codes "decided 0") ++ line (codes "phase 0") ++ line (codes "sequence 2000-07-15T12:00Z 0 no") ++ line (codes "next 500")
        ++ line (codes "dut1 msf 0") ++ line (codes "dut1 wwvb 3") }
    ensures silent { dut_lines (dut_told Dcf77 Absent ∷ dut_told Msf Free ∷ []) ≡ line (codes "dut1 msf free") }
    ensures alone { report_head (minute_from 0 0) (dut_told Dcf77 Absent ∷ []) (Decided 0 (from_place (at (on 2000 12 31) 22 58) 0) None)
        ≡ line (codes "decided 0") ++ line (codes "phase 0") ++ line (codes "sequence 2000-12-31T22:58Z 0 no") ++ line (codes "next none") }
{}

/// The minutes of a decided answer, and when they begin; a report of a certificate that holds.
pub fn minutes_of_reports()
    ensures minute { minute_line (minute_from 0 0) (at (on 2000 6 10) 6 17) 60 ≡ line (codes "minute 2000-06-10T06:17Z at 60000") }
    ensures later { minute_line (minute_from 5000 237) (at (on 2000 6 10) 6 17) 60 ≡ line (codes "minute 2000-06-10T06:17Z at 65237") }
    ensures minutes { at_minutes (minute_line (minute_from 0 0)) (from_place (at (on 2000 6 10) 6 16) 58) 4 ≡ line (codes "minute 2000-06-10T06:17Z at 2000") }
    ensures first { at_minutes (minute_line (minute_from 0 0)) (from_place (at (on 2000 6 10) 6 16) 0) 60 ≡ line (codes "minute 2000-06-10T06:16Z at 0") }
    ensures leap { at_minutes (minute_line (minute_from 0 0)) (announced_from (at (on 2000 12 31) 23 59) 59) 3 ≡ line (codes "minute 2001-01-01T00:00Z at 2000") }
    ensures certified { certified_report (minute_from 0 0) [] Nothing ≡ line (codes "certified") ++ line (codes "none") ++ line (codes "phase 0") }
{}

/// A trial of MSF that is decided with what was sent, one that is undecided, and one without an answer.
pub fn summaries_of_trials()
    ensures undecided { trial_answer (Undecided 0 (from_place (at (on 2000 1 1) 0 0) 0) (from_place (at (on 2000 1 1) 0 1) 0))
        ≡ line (codes "undecided") ++ line (codes "first 2000-01-01T00:00Z 0 no") ++ line (codes "other 2000-01-01T00:01Z 0 no") }
    ensures none { trial_answer Nothing ≡ line (codes "none") }
    ensures decided { trial_summary 5 Msf 2 (from_place (at (on 2009 7 4) 5 35) 5) (Decided 0 (from_place (at (on 2009 7 4) 5 36) 6) None)
        ≡ line (codes "trial 5") ++ line (codes "station msf") ++ line (codes "receivers 2") ++ line (codes "sent 2009-07-04T05:35Z 5 no")
        ++ line (codes "decided") ++ line (codes "first 2009-07-04T05:36Z 6 no") }
{}
