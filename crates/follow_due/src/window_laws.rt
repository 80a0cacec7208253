//! What follows from the definition of windows that follow one another.

ghost use Rattle.std.specs.Prelude.{ℕ, ◌≡◌, ◌+◌, ◌*◌, ◌≤◌, All, length, slice_index_or};
ghost use Rattle.signal_base.specs.declared.station.Station.{Station};
ghost use Rattle.signal_base.specs.declared.window.Window.{Window};
ghost use Rattle.definitions.specs.sequences.Windows.{IsWindow};
ghost use Rattle.formats.specs.Reports.{slot_begin};
ghost use Rattle.due.specs.Banks.{Bank, costs_in};
ghost use Rattle.follow_due.specs.Windows.{StartInTime, window_after, windows_from};

/// There are as many windows as are asked for, and the first is the one that they follow. A slot of a later window begins
/// when a later slot of the first one does, and costs what that one costs.
pub fn windows_follow_one_another()
    ensures count { (first : Window) (step count : ℕ) → length (windows_from first step count) ≡ count }
    ensures first { (first : Window) (step count : ℕ) (d : Window) → 1 ≤ count → slice_index_or (windows_from first step count) 0 d ≡ first }
    ensures time { (first : Window) (step i k : ℕ) → slot_begin (window_after first step i) k ≡ slot_begin first (k + step * i) }
    ensures cost { (first : Window) (bank : Bank) (station : Station) (step i k x : ℕ)
        → costs_in (window_after first step i) bank station k x ≡ costs_in first bank station (k + step * i) x }
{}

/// Each window is in its ranges, where the first one is and the last one starts early enough.
pub fn windows_are_in_range()
    ensures { (first : Window) (step count : ℕ) → IsWindow first → StartInTime first step count → All IsWindow (windows_from first step count) }
{}
