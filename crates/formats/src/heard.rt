//! What was heard of a decided window, slot by slot, as plain data.

use signal_base::Station;

/// What a station sent in a slot, and what that costs over its receivers.
#[derive(Clone, Copy)]
pub struct SlotHeard {
    /// The slot, from 0 to 1,199.
    pub slot: u16,
    /// The minute that it lies in, counted from 2000-01-01T00:00Z.
    pub minute: u32,
    /// The second of that minute, 0 to 60.
    pub second: u8,
    /// The station.
    pub station: Station,
    /// The number of the symbol that was sent; none where the second isn't scored.
    pub sent: Option<u8>,
    /// What that symbol costs over the station's receivers; 0 where there is none.
    pub cost: u32,
    /// The number of the station's cheapest symbol.
    pub best: u8,
    /// What the cheapest symbol costs over the station's receivers.
    pub best_cost: u32,
}

/// What one receiver heard, in a slot or in all slots together.
#[derive(Clone, Copy)]
pub struct ReceiverHeard {
    /// The receiver's number in the configuration, from 1.
    pub number: u8,
    /// How many tenths of a second are unknown: at most 10 of a slot.
    pub unknown: u16,
    /// What the sent symbols cost at this receiver, its weight included.
    pub cost: u32,
}
