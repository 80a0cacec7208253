//! The parts of each station where memory is ample: how many runs there are, and where they end.

use civil::Civil;
use definitions::CENTURY_MINUTES;
use minute_parts::Parts;
use signal_base::Station;
use std::process::Abort;

fn parts_of(rt: &(impl Abort + AllocGlobal), station: Station) -> Parts {
    let Ok(civil) = Civil::make(rt.alloc()) else {
        panic!(rt; "no memory");
    };
    match Parts::make(rt.alloc(), &civil, station) {
        Ok(parts) => parts,
        Err(_) => panic!(rt; "no memory"),
    }
}

// A run begins with each of the 36,525 days in a station's time. With each of the 200 changes of European summer time
// three more begin at DCF77: an hour before it, a minute before it and as it comes. At MSF too, but in March the first of
// them is a local midnight. With each of the 200 leap seconds two more begin at DCF77, an hour before it and as it comes,
// but for the last, which comes too late to be warned of. At JJY two begin with the second day of its month and with the
// month after, but for that of 2100.
#[test]
fn runs_are_as_few_as_can_be(rt: HostRuntime) {
    let dcf77 = parts_of(&rt, Station::Dcf77);
    assert_eq!(rt; dcf77.runs(), 36_525 + 200 * 3 + 199 * 2);
    assert_eq!(rt; dcf77.end(), CENTURY_MINUTES - 61);
    let msf = parts_of(&rt, Station::Msf);
    assert_eq!(rt; msf.runs(), 36_525 + 100 * 2 + 100 * 3);
    assert_eq!(rt; msf.end(), CENTURY_MINUTES - 1);
    let wwvb = parts_of(&rt, Station::Wwvb);
    assert_eq!(rt; wwvb.runs(), 36_525);
    assert_eq!(rt; wwvb.end(), CENTURY_MINUTES);
    let jjy = parts_of(&rt, Station::Jjy);
    assert_eq!(rt; jjy.runs(), 36_525 + 200 * 2 - 1);
    assert_eq!(rt; jjy.end(), CENTURY_MINUTES - 540);
}
