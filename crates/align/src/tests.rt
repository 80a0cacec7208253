//! Logs of a few seconds, and the phase of each.

use crate::phase;
use pulse_log::{Log, LogFault, read_log};
use signal_base::{Station, Tuning};
use std::process::Abort;
use std::test::Fail;

fn read(rt: &(impl Abort + AllocGlobal), text: &[u8]) -> Result<Log, LogFault> {
    assert!(rt; text.len() <= 1000);
    read_log(rt.alloc(), text)
}

// A receiver that hears this late.
fn tuned(delay: u16) -> Tuning {
    Tuning {
        delay,
        weight: 1,
        table: None,
    }
}

// The carrier of JJY rises at 237, 1237 and 2237 ms.
const RISES: &[u8] = b"236 L\n237 H\n1236 L\n1237 H\n2236 L\n2237 H\n9000 H\n";

#[test]
fn finds_the_phase_of_one_log(rt: HostRuntime) -> Result<(), Fail> {
    let falls = read(&rt, b"0 H\n30 L\n125 H\n1030 L\n1235 H\n3000 H\n")?;
    let rises = read(&rt, RISES)?;
    let dcf77 = [Station::Dcf77];
    let jjy = [Station::Jjy];
    assert_eq!(rt; phase(&dcf77, &[tuned(30)], &[falls], 0, 3), 0);
    let logs = [rises];
    assert_eq!(rt; phase(&jjy, &[tuned(0)], &logs, 0, 3), 237);
    assert_eq!(rt; phase(&jjy, &[tuned(237)], &logs, 0, 3), 0);
    Ok(())
}

#[test]
fn hears_two_receivers_together(rt: HostRuntime) -> Result<(), Fail> {
    let one = read(&rt, b"236 L\n237 H\n9000 H\n")?;
    let other = read(&rt, b"1259 L\n1260 H\n2259 L\n2260 H\n9000 H\n")?;
    let stations = [Station::Jjy, Station::Jjy];
    assert_eq!(rt;
        phase(&stations, &[tuned(0), tuned(0)], &[one, other], 0, 3),
        260
    );
    Ok(())
}
