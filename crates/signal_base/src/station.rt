//! The four stations and sets of them.

ghost use Rattle.std.specs.Prelude.{◌≡◌, ◌^◌};
ghost use Rattle.signal_base.specs.Mask.{has_bit};
ghost use Rattle.signal_base.specs.Number.{number_of};

/// A long-wave time-signal station.
#[derive(Clone, Copy, PartialEq, Eq)]
pub enum Station {
    /// DCF77, Mainflingen, 77.5 kHz (PTB).
    Dcf77,
    /// MSF, Anthorn, 60 kHz (NPL).
    Msf,
    /// WWVB, Fort Collins, 60 kHz (NIST).
    Wwvb,
    /// JJY, Fukushima and Saga, 40 and 60 kHz (NICT).
    Jjy,
}

impl Station {
    /// The station's place in the order DCF77, MSF, WWVB, JJY, from 0.
    pub fn number(self) -> u8
        ensures { result ≡ number_of self }
    {
        match self {
            Station::Dcf77 => 0,
            Station::Msf => 1,
            Station::Wwvb => 2,
            Station::Jjy => 3,
        }
    }
}

/// A set of stations: bit `i` of `mask` stands for the station of number `i`. Of a bank it is 1 to 15.
#[derive(Clone, Copy, PartialEq, Eq)]
pub struct Stations {
    /// The bits.
    pub mask: u8,
}

impl Stations {
    /// Whether the set has the station.
    pub fn has(&self, station: Station) -> bool
        ensures { result ≡ has_bit self.now.mask (number_of station) }
    {
        let mask = self.mask;
        let number = station.number();
        (mask >> number) & 1 == 1
    }

    /// The set of this station alone.
    pub fn one(station: Station) -> Stations
        ensures { result.mask ≡ 2 ^ number_of station }
    {
        match station {
            Station::Dcf77 => Stations { mask: 1 },
            Station::Msf => Stations { mask: 2 },
            Station::Wwvb => Stations { mask: 4 },
            Station::Jjy => Stations { mask: 8 },
        }
    }
}
