//! What a window doesn't see doesn't count.

ghost use Rattle.std.specs.Prelude.{ℕ, ◌≡◌, List, true};
ghost use Rattle.signal_base.specs.declared.station.Station.{Station};
ghost use Rattle.signal_base.specs.declared.window.Window.{Window};
ghost use Rattle.definitions.specs.declared.sequence.Sequence.{Sequence};
ghost use Rattle.definitions.specs.answers.Blocks.{union_cost};
ghost use Rattle.definitions.specs.codes.Allowed.{has_station};
ghost use Rattle.definitions.specs.heard.Costs.{Costs, dut_of, sequence_cost};
ghost use Rattle.symbol_cost.specs.Grid.{Grid};
ghost use Rattle.plain_costs.specs.Agreement.{AgreeOn};
ghost use Rattle.plain_costs.specs.Grids.{AreGrids, HaveCosts, grid_costs};

/// By costs that are the same for each symbol of a window's stations in each of its slots, each sequence costs the same
/// and tells the same of DUT1, and unions of sets cost the same.
pub fn agreeing_costs_cost_alike()
    ensures cost { (window : Window) (costs others : Costs) (q : Sequence) → AgreeOn window costs others
        → sequence_cost costs window q ≡ sequence_cost others window q }
    ensures dut1 { (window : Window) (costs others : Costs) (station : Station) (q : Sequence) → AgreeOn window costs others
        → has_station window.stations station ≡ true
        → dut_of station (costs station) window.seconds q ≡ dut_of station (others station) window.seconds q }
    ensures unions { (window : Window) (costs others : Costs) (unions : Station → ℕ → ℕ) → AgreeOn window costs others
        → union_cost costs window unions ≡ union_cost others window unions }
{}

/// The grids of a window that have some costs agree with these.
pub fn grids_agree_with_their_costs()
    ensures { (window : Window) (grids : List Grid) (costs : Costs) → AreGrids window grids → HaveCosts window grids costs
        → AgreeOn window (grid_costs grids) costs }
{}
