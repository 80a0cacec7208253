//! What follows from the definitions of a bank: its window is in its ranges, and its receivers may stand in any order.

ghost use Rattle.std.specs.Prelude.{ℕ, ◌≡◌, ◌≤◌, ◌↔◌, List, length};
ghost use Rattle.signal_base.specs.declared.station.Station.{Station};
ghost use Rattle.signal_base.specs.declared.window.Window.{Window};
ghost use Rattle.definitions.specs.codes.Allowed.{has_station};
ghost use Rattle.definitions.specs.declared.answer.Answer.{Answer};
ghost use Rattle.definitions.specs.heard.Logs.{Records};
ghost use Rattle.definitions.specs.heard.Phase.{phase_of};
ghost use Rattle.definitions.specs.heard.Receivers.{Receiver, heard_of};
ghost use Rattle.definitions.specs.sequences.Windows.{IsWindow};
ghost use Rattle.definitions.specs.time.Calendar.{century_minutes};
ghost use Rattle.formats.specs.OrderRanges.{IsAsked};
ghost use Rattle.formats.specs.declared.words.Asked.{Asked};
ghost use Rattle.bank_config.specs.Configuration.{PlainConfig};
ghost use Rattle.due.specs.Banks.{Bank, IsBankAnswer, by_station, costs_in, first_time, is_heard, ordered, receivers_of, stations_heard, window_of};
ghost use Rattle.due.specs.Inputs.{Contents};
ghost use Rattle.due.specs.Configurations.{logs_of};
ghost use Rattle.due.specs.LogFiles.{AreGood};

/// Of a bank one answer is due for what is asked, if the minutes that are asked for are of the century.
pub fn bank_has_one_answer()
    ensures some { (asked : Asked) (bank : Bank) → asked.to ≤ century_minutes
        → (answer : Answer) × IsBankAnswer (window_of asked bank.receivers) bank answer }
    ensures one { (asked : Asked) (bank : Bank) (a b : Answer) → asked.to ≤ century_minutes
        → IsBankAnswer (window_of asked bank.receivers) bank a → IsBankAnswer (window_of asked bank.receivers) bank b → a ≡ b }
{}

/// The window that is asked about is in its ranges, where some receiver is configured and all logs are good.
pub fn window_is_in_range()
    ensures { (contents : Contents) (config : PlainConfig) (records : List Records) (asked : Asked) → IsAsked asked
        → 1 ≤ length config.receivers → AreGood contents (logs_of config) records → IsWindow (window_of asked (receivers_of config.receivers records)) }
{}

/// A window has the stations to which receivers listen, and no other.
pub fn a_station_is_heard_where_a_receiver_listens()
    ensures { (receivers : List Receiver) (station : Station) → has_station (stations_heard receivers) station ≡ is_heard receivers station }
{}

/// Receivers that are put in the order of their stations lead to the same window, costs and answers.
pub fn the_order_of_receivers_does_not_matter()
    ensures heard { (station : Station) (receivers : List Receiver) → heard_of station (by_station receivers) ≡ heard_of station receivers }
    ensures stations { (receivers : List Receiver) → stations_heard (by_station receivers) ≡ stations_heard receivers }
    ensures phase { (start seconds : ℕ) (receivers : List Receiver) → phase_of start seconds (by_station receivers) ≡ phase_of start seconds receivers }
    ensures first { (receivers : List Receiver) → first_time (by_station receivers) ≡ first_time receivers }
    ensures window { (asked : Asked) (receivers : List Receiver) → window_of asked (by_station receivers) ≡ window_of asked receivers }
    ensures costs { (window : Window) (bank : Bank) → costs_in window (ordered bank) ≡ costs_in window bank }
    ensures answers { (window : Window) (bank : Bank) (answer : Answer) → IsBankAnswer window (ordered bank) answer ↔ IsBankAnswer window bank answer }
{}
