//! Writing what was heard, slot by slot. Nothing here reads a file or takes memory.

ghost use Rattle.std.specs.Prelude.{◌≡◌, ◌<◌, ◌∷◌, []};
ghost use Rattle.bank_files.specs.Seen.{Writes};
ghost use Rattle.bank_files.specs.Told.{output_name};
ghost use Rattle.definitions.specs.sequences.Walks.{place_at};
ghost use Rattle.formats.specs.Heard.{heard_text, slot_lines, slots_lines};
ghost use Rattle.heard.specs.Kept.{stations_lines};
ghost use Rattle.heard.specs.Seen.{hearing_seen};

use crate::hearing::Hearing;
use bank_files::{Failed, Files};
use civil::Civil;
use sequence::next_place;
use signal_base::Station;
use texts::{write_slot_heard, write_sums_heard};

// The stations, in their order.
const STATIONS: [Station; 4] = [Station::Dcf77, Station::Msf, Station::Wwvb, Station::Jjy];

impl Hearing {
    /// Writes what was heard to standard output: slot by slot, in each station by station, then the sums, and the next cost.
    pub fn write<F: Files>(&self, files: &mut F, civil: &Civil) -> Result<(), Failed>
        ensures { Writes output_name (F.view files.old) (F.view files.new) (heard_text (hearing_seen self.now)) result }
    {
        self.write_slots(files, civil)?;
        write_sums_heard(files, self.sums(civil).as_slice(), self.next)
    }

    // Writes the lines of all slots.
    fn write_slots<F: Files>(&self, files: &mut F, civil: &Civil) -> Result<(), Failed>
        ensures { Writes output_name (F.view files.old) (F.view files.new) (slots_lines (hearing_seen self.now) self.now.window.seconds) result }
    {
        let mut place = (self.sequence.first, self.sequence.second);
        for slot in 0..self.window.seconds {
            self.write_slot(files, civil, place, slot)?;
            place = next_place(civil, self.sequence.announced, place);
        }
        Ok(())
    }

    // Writes the lines of a slot, whose second is given as minute and second.
    fn write_slot<F: Files>(
        &self,
        files: &mut F,
        civil: &Civil,
        place: (u32, u8),
        slot: u16,
    ) -> Result<(), Failed>
        requires slot { slot < self.now.window.seconds }
        requires place { place ≡ place_at self.now.sequence slot }
        ensures { Writes output_name (F.view files.old) (F.view files.new) (slot_lines (hearing_seen self.now) slot) result }
    {
        for i in 0..STATIONS.len() {
            self.write_station(files, civil, STATIONS[i], place, slot)?;
        }
        Ok(())
    }

    // Writes the lines of a slot and a station, where the window has the station.
    fn write_station<F: Files>(
        &self,
        files: &mut F,
        civil: &Civil,
        station: Station,
        place: (u32, u8),
        slot: u16,
    ) -> Result<(), Failed>
        requires slot { slot < self.now.window.seconds }
        requires place { place ≡ place_at self.now.sequence slot }
        ensures { Writes output_name (F.view files.old) (F.view files.new) (stations_lines (hearing_seen self.now) slot (station ∷ [])) result }
    {
        if !self.window.stations.has(station) {
            return Ok(());
        }
        let sent = self.sent(civil, station, place, slot);
        let heard = self.slot(station, place, slot, sent);
        let receivers = self.receivers(station, slot, sent);
        write_slot_heard(files, civil, &heard, receivers.as_slice())
    }
}
