//! Worked examples of banks: what a configuration and logs make of it, what symbols cost in it, and what its stations tell
//! of DUT1.

ghost use Rattle.std.specs.Prelude.{◌≡◌, ◌∷◌, [], pos, None};
ghost use Rattle.signal_base.specs.declared.dut.Dut.TheVariants.{Absent, Tenths, Tied};
ghost use Rattle.signal_base.specs.declared.station.Station.TheVariants.{Dcf77, Jjy, Msf, Wwvb};
ghost use Rattle.signal_base.specs.Table.{difference_table};
ghost use Rattle.definitions.specs.declared.answer.Answer.TheVariants.{Decided, Nothing};
ghost use Rattle.definitions.specs.examples.Receivers.{each_change, heard};
ghost use Rattle.definitions.specs.examples.Sequences.{from_place};
ghost use Rattle.formats.specs.Examples.{dut_told};
ghost use Rattle.due.specs.Banks.{bank_of, duts_of};
ghost use Rattle.due.specs.Examples.{costs_of_symbols, four_stations, one_of_two, priced, three_and_five, two_seconds};

/// Each receiver listens to its own station, with its own delay and weight, and heard its own log; the table and the
/// ceiling are those of the configuration.
pub fn banks_of_configurations()
    ensures { bank_of priced (each_change ∷ one_of_two ∷ [])
        ≡ record { receivers = heard Jjy 0 1 each_change ∷ heard Dcf77 30 2 one_of_two ∷ []; table = three_and_five; ceiling = 7 } }
{}

/// A 0 of JJY that begins 237 ms after a whole second costs nothing at this phase, a 1 three tenths and a marker six, each
/// 100 and counted double. At phase 0 it is heard too late, and the carrier before it is low. A table of its own costs what
/// it says.
pub fn costs_of_a_phase()
    ensures in_phase { costs_of_symbols 237 difference_table ≡ 0 ∷ 600 ∷ 1_200 ∷ [] }
    ensures out_of_phase { costs_of_symbols 0 difference_table ≡ 874 ∷ 1_474 ∷ 1_926 ∷ [] }
    ensures own_table { costs_of_symbols 237 three_and_five ≡ 92 ∷ 80 ∷ 68 ∷ [] }
{}

/// Four stations are told in their order, wherever their receivers stand. The seconds 1 and 2 of a minute of MSF, a 1 and
/// a 0, tell one tenth; WWVB has no second of DUT1 among them, and the others never.
pub fn duts_of_four_stations()
    ensures decided { duts_of two_seconds four_stations (Decided 7 (from_place 720 1) None)
        ≡ dut_told Dcf77 Absent ∷ dut_told Msf (Tenths (pos 1)) ∷ dut_told Wwvb Tied ∷ dut_told Jjy Absent ∷ [] }
    ensures nothing { duts_of two_seconds four_stations Nothing ≡ [] }
{}
