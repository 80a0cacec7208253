//! Worked examples of configurations, whose ranges and defaults are those that are documented.
#![tactic(auto, unfolding(signal_base::specs::Table::difference_table))]

ghost use Rattle.std.specs.Prelude.{◌≡◌, ◌∷◌, [], codes, negsuc, replicate, Err, None, Ok, Some};
ghost use Rattle.signal_base.specs.declared.station.Station.TheVariants.{Jjy, Wwvb};
ghost use Rattle.signal_base.specs.Table.{difference_table};
ghost use Rattle.toml.specs.Data.{integer, no_members, string, table};
ghost use Rattle.bank_config.specs.declared.fault.Key.TheVariants.{Ceiling, CostTable, Delay, High, Low, Receiver, ReceiverStation, Second, Weight};
ghost use Rattle.bank_config.specs.declared.fault.ConfigFault.TheVariants.{OutOfRange, UnknownKey, WrongKind};
ghost use Rattle.bank_config.specs.declared.limits.TheConstants.{CONFIG_LIMIT, COSTS, LONGEST_FILE};
ghost use Rattle.bank_config.specs.Configuration.{configuration_in, cost_table_in, receiver_in, second_at};
ghost use Rattle.bank_config.specs.Examples.{at_most, configured, configured_with, costing, costs_of, members_of, number, receiver_costing, receiver_tuned, receiver_with};
ghost use Rattle.bank_config.specs.Values.{costs_in};

/// How much a configuration may hold.
pub fn limits_of_configurations()
    ensures bytes { CONFIG_LIMIT ≡ 1_000_000 }
    ensures file { LONGEST_FILE ≡ 200 }
    ensures costs { COSTS ≡ 101 }
{}

/// Receivers at the ends of their ranges and just beyond, and one that gives its name and its log alone.
pub fn ranges_of_receivers()
    ensures least { receiver_in Jjy 1 (receiver_with ((codes "delay_ms", number 0) ∷ (codes "weight", number 1) ∷ [])) ≡ Ok (receiver_tuned 0 1 Jjy) }
    ensures most { receiver_in Jjy 1 (receiver_with ((codes "delay_ms", number 500) ∷ (codes "weight", number 100) ∷ [])) ≡ Ok (receiver_tuned 500 100 Jjy) }
    ensures usual { receiver_in Jjy 1 (receiver_with []) ≡ Ok (receiver_tuned 0 1 Jjy) }
    ensures late { receiver_in Jjy 1 (receiver_with ((codes "delay_ms", number 501) ∷ [])) ≡ Err (OutOfRange (Delay 1)) }
    ensures early { receiver_in Jjy 1 (receiver_with ((codes "delay_ms", integer (negsuc 0)) ∷ [])) ≡ Err (OutOfRange (Delay 1)) }
    ensures weightless { receiver_in Jjy 1 (receiver_with ((codes "weight", number 0) ∷ [])) ≡ Err (OutOfRange (Weight 1)) }
    ensures heavy { receiver_in Jjy 1 (receiver_with ((codes "weight", number 101) ∷ [])) ≡ Err (OutOfRange (Weight 1)) }
    ensures other_station { receiver_in Jjy 1 (receiver_with ((codes "station", string (codes "wwvb")) ∷ [])) ≡ Ok (receiver_tuned 0 1 Wwvb) }
{}

/// A configuration with the greatest ceiling and the most receivers, and with more; and costs up to the greatest.
pub fn ranges_of_configurations()
    ensures most { configuration_in (configured 1_920_000_000 8)
        ≡ Ok (record { station = Jjy; ceiling = 1_920_000_000; receivers = replicate 8 (receiver_tuned 0 1 Jjy); costs = difference_table }) }
    ensures ceiling { configuration_in (configured 1_920_000_001 8) ≡ Err (OutOfRange Ceiling) }
    ensures none { configuration_in (configured 7 0) ≡ Err (OutOfRange Receiver) }
    ensures many { configuration_in (configured 7 9) ≡ Err (OutOfRange Receiver) }
    ensures costs { costs_in (Low None) (costs_of 200) ≡ Ok (replicate 101 200) }
    ensures costly { costs_in (Low None) (costs_of 201) ≡ Err (OutOfRange (Low None)) }
{}

/// What a second costs at the most: the ends of its range, just beyond them, and what is no whole number.
pub fn ranges_of_seconds()
    ensures least { second_at (Second None) (table (members_of ((codes "second", number 1) ∷ []))) ≡ Ok (Some 1) }
    ensures most { second_at (Second None) (table (members_of ((codes "second", number 2_000) ∷ []))) ≡ Ok (Some 2_000) }
    ensures unbounded { second_at (Second None) (table no_members) ≡ Ok None }
    ensures zero { second_at (Second None) (table (members_of ((codes "second", number 0) ∷ []))) ≡ Err (OutOfRange (Second None)) }
    ensures great { second_at (Second None) (table (members_of ((codes "second", number 2_001) ∷ []))) ≡ Err (OutOfRange (Second None)) }
    ensures negative { second_at (Second None) (table (members_of ((codes "second", integer (negsuc 0)) ∷ []))) ≡ Err (OutOfRange (Second None)) }
    ensures text { second_at (Second None) (table (members_of ((codes "second", string (codes "1")) ∷ []))) ≡ Err (WrongKind (Second None)) }
    ensures behind_high { cost_table_in None (table (members_of ((codes "second", number 0) ∷ (codes "high", costs_of 201) ∷ []))) ≡ Err (OutOfRange (High None)) }
{}

/// Tables of a receiver's own. What one leaves out is the default, also where the bank's table says something else.
pub fn tables_of_receivers()
    ensures second { receiver_in Jjy 1 (receiver_with (costing ((codes "second", number 150) ∷ []))) ≡ Ok (receiver_costing (at_most 150)) }
    ensures low { receiver_in Jjy 1 (receiver_with (costing ((codes "low", costs_of 3) ∷ [])))
        ≡ Ok (receiver_costing (record { low = replicate 101 3; high = difference_table.high; second = None })) }
    ensures empty { receiver_in Jjy 1 (receiver_with (costing [])) ≡ Ok (receiver_costing difference_table) }
    ensures not_of_bank { configuration_in (configured_with 7 (receiver_with (costing ((codes "second", number 150) ∷ [])) ∷ receiver_with [] ∷ [])
        (costing ((codes "low", costs_of 3) ∷ (codes "high", costs_of 5) ∷ (codes "second", number 40) ∷ [])))
        ≡ Ok (record {
          station = Jjy;
          ceiling = 7;
          receivers = receiver_costing (at_most 150) ∷ receiver_tuned 0 1 Jjy ∷ [];
          costs = record { low = replicate 101 3; high = replicate 101 5; second = Some 40 };
        }) }
    ensures no_table { receiver_in Jjy 1 (receiver_with ((codes "table", number 1) ∷ [])) ≡ Err (WrongKind (CostTable (Some 1))) }
    ensures great { receiver_in Jjy 2 (receiver_with (costing ((codes "second", number 2_001) ∷ []))) ≡ Err (OutOfRange (Second (Some 2))) }
{}

/// A receiver's table is judged behind its station and before the next receiver, and unknown keys in it with all others.
pub fn order_of_tables()
    ensures station { receiver_in Jjy 1 (receiver_with ((codes "table", number 1) ∷ (codes "station", string (codes "bpc")) ∷ [])) ≡ Err (OutOfRange (ReceiverStation 1)) }
    ensures next { configuration_in (configured_with 7 (receiver_with (costing ((codes "second", number 0) ∷ [])) ∷ receiver_with ((codes "weight", number 0) ∷ []) ∷ []) [])
        ≡ Err (OutOfRange (Second (Some 1))) }
    ensures known { configuration_in (configured_with 7 (receiver_with (costing ((codes "other", number 1) ∷ [])) ∷ []) (costing ((codes "second", number 0) ∷ [])))
        ≡ Err (OutOfRange (Second None)) }
    ensures unknown { configuration_in (configured_with 7 (receiver_with (costing ((codes "other", number 1) ∷ [])) ∷ []) []) ≡ Err UnknownKey }
{}
