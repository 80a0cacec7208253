//! What each receiver heard, in a slot and over all slots.

ghost use Rattle.std.specs.Prelude.{◌≡◌, ◌+◌, ◌*◌, ◌<◌, ◌≤◌, ◌++◌, ◌∷◌, [], length, slice_index};
ghost use Rattle.std.specs.Option.{ForSome};
ghost use Rattle.signal_base.specs.declared.limits.TheConstants.{MOST_RECEIVERS};
ghost use Rattle.signal_base.specs.Waveform.{symbol_count};
ghost use Rattle.definitions.specs.codes.Allowed.{has_station};
ghost use Rattle.definitions.specs.sequences.Walks.{place_at};
ghost use Rattle.formats.specs.Heard.{receiver_heard, receiver_sum, receiver_sums, receivers_heard, sent_in};
ghost use Rattle.heard.specs.Kept.{heard_among, numbered_at, station_at};
ghost use Rattle.heard.specs.Seen.{hearing_seen};

use crate::hearing::Hearing;
use crate::list::HeardList;
use crate::receivers::receiver_heard;
use civil::Civil;
use formats::ReceiverHeard;
use sequence::next_place;
use signal_base::Station;
use symbol_cost::RECEIVER_COST;

impl Hearing {
    /// What is told in a slot of the receivers of a station, which sent this symbol there.
    pub fn receivers(&self, station: Station, slot: u16, sent: Option<u8>) -> HeardList
        requires slot { slot < self.now.window.seconds }
        requires sent { sent ≡ sent_in (hearing_seen self.now) slot station }
        requires known { ForSome sent (λ x. x < symbol_count station) }
        ensures heard { result ≡ receivers_heard (hearing_seen self.now) slot station }
        ensures few { length result ≤ MOST_RECEIVERS }
    {
        let mut list = HeardList::new();
        for i in 0..self.places.len() {
            self.add_receiver(&mut list, station, slot, sent, i);
        }
        list
    }

    // Adds what is told of receiver `i`, if it is one of the station's.
    fn add_receiver(
        &self,
        list: &mut HeardList,
        station: Station,
        slot: u16,
        sent: Option<u8>,
        i: usize,
    )
        requires receiver { i < length self.now.places.items }
        requires slot { slot < self.now.window.seconds }
        requires sent { sent ≡ sent_in (hearing_seen self.now) slot station }
        requires known { ForSome sent (λ x. x < symbol_count station) }
        requires room { length list.old ≤ i }
        ensures adds { list.new ≡ list.old ++ heard_among (hearing_seen self.now) slot station (numbered_at self.now.bank self.now.places.items i ∷ []) }
        ensures few { length list.new ≤ i + 1 }
    {
        let own = self.bank.stations[self.places[i] as usize];
        if own.number() == station.number() {
            list.push(self.receiver(i, slot, sent));
        }
    }

    /// The sum of each receiver. What was sent is found once more for each, so that nothing need be kept from slot to slot.
    pub fn sums(&self, civil: &Civil) -> HeardList
        ensures sums { result ≡ receiver_sums (hearing_seen self.now) }
        ensures few { length result ≤ MOST_RECEIVERS }
    {
        let mut list = HeardList::new();
        for i in 0..self.places.len() {
            list.push(self.sum(civil, i));
        }
        list
    }

    // The sum of receiver `i`.
    fn sum(&self, civil: &Civil, i: usize) -> ReceiverHeard
        requires { i < length self.now.places.items }
        ensures { result ≡ receiver_sum (hearing_seen self.now) (numbered_at self.now.bank self.now.places.items i) }
    {
        let station = self.bank.stations[self.places[i] as usize];
        let mut unknown = 0;
        let mut cost = 0;
        let mut place = (self.sequence.first, self.sequence.second);
        for slot in 0..self.window.seconds {
            let sent = self.sent(civil, station, place, slot);
            let heard = self.receiver(i, slot, sent);
            unknown += heard.unknown;
            cost += heard.cost;
            place = next_place(civil, self.sequence.announced, place);
        }
        ReceiverHeard {
            number: i as u8 + 1,
            unknown,
            cost,
        }
    }

    // What is told of receiver `i` in a slot, in which its station sent this symbol.
    fn receiver(&self, i: usize, slot: u16, sent: Option<u8>) -> ReceiverHeard
        requires receiver { i < length self.now.places.items }
        requires slot { slot < self.now.window.seconds }
        requires sent { sent ≡ sent_in (hearing_seen self.now) slot (station_at self.now.bank.stations.items (slice_index self.now.places.items i)) }
        requires known { ForSome sent (λ x. x < symbol_count (station_at self.now.bank.stations.items (slice_index self.now.places.items i))) }
        ensures heard { result ≡ receiver_heard (hearing_seen self.now) slot (numbered_at self.now.bank self.now.places.items i) }
        ensures few { result.unknown ≤ 10 }
        ensures bound { result.cost ≤ RECEIVER_COST }
    {
        let p = self.places[i] as usize;
        let tuning = &self.bank.tunings[p];
        let from = self.window.start
            + self.window.phase as u64
            + tuning.delay as u64
            + 1000 * slot as u64;
        receiver_heard(
            i as u8 + 1,
            &self.bank.table,
            tuning,
            &self.bank.logs[p],
            from,
            self.bank.stations[p],
            sent,
        )
    }
}
