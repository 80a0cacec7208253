//! How far a run has come, on standard error. Nothing of it touches the answer.

use crate::messages::Speaker;
use bank::CertificateGate;
use follow::WindowGate;
use std::rt::Clock;
use std::sync::atomic::{AtomicU64, Ordering};
use std::time::Instant;
use sweep::PhaseGate;
use workers::Gate;

// A run that ends within that many milliseconds shows nothing.
const FIRST_AFTER: u64 = 1000;

// At least so many milliseconds lie between two lines.
const PERIOD: u64 = 200;

// Goes over a line with a number of at most eight digits, or with two of at most four; a search has some ten thousand items,
// and there are at most a thousand windows.
pub(crate) const BLANK: &str = "\r                                \r";

/// A gate that holds nobody, and shows the latest number that was drawn, which is how many items were drawn before it; where
/// there are several windows or phases, it shows at which of them the run is. The line is written over the one before it. All workers
/// share it: at each time one of them writes at most.
#[derive(Drop)]
pub struct Progress<'a, S: Clock + Eprint> {
    screen: &'a S,
    // Whose search it is: its name begins the line.
    speaker: Speaker,
    // Where nothing is to be shown, there is no beginning.
    begun: Option<Instant>,
    // Milliseconds after the beginning at which the next line is due.
    due: AtomicU64,
    // The greatest number that was shown.
    shown: AtomicU64,
    // Where there are several windows: which of them was come to latest, and how many there are. Else 0.
    window: AtomicU64,
    windows: AtomicU64,
    // The same of phases.
    phase: AtomicU64,
    phases: AtomicU64,
    // How many steps the longest certificate has that was written.
    steps: AtomicU64,
}

impl<'a, S: Clock + Eprint> Progress<'a, S> {
    /// Progress of `tsbank` that begins now, and is shown only if standard error is a terminal. Without a clock nothing is
    /// shown.
    pub fn new(screen: &'a S, on_terminal: bool) -> Progress<'a, S> {
        Progress::of(Speaker::Tsbank, screen, on_terminal)
    }

    /// The same, of another program.
    pub fn of(speaker: Speaker, screen: &'a S, on_terminal: bool) -> Progress<'a, S> {
        let begun = if on_terminal {
            Instant::now(screen).ok()
        } else {
            None
        };
        Progress {
            screen,
            speaker,
            begun,
            due: AtomicU64::new(FIRST_AFTER),
            shown: AtomicU64::new(0),
            window: AtomicU64::new(0),
            windows: AtomicU64::new(0),
            phase: AtomicU64::new(0),
            phases: AtomicU64::new(0),
            steps: AtomicU64::new(0),
        }
    }

    /// How many steps the longest certificate has that was written, or 0.
    pub fn steps(&self) -> u64 {
        self.steps.load(Ordering::SeqCst)
    }

    /// Blanks the line that was shown, if one was, so that what is printed next has a line of its own.
    pub fn end(&self) {
        if self.shown.swap(0, Ordering::SeqCst) > 0 {
            let _ = self.screen.eprint(BLANK);
        }
    }

    // Shows at which window the run is, where that is to be shown now.
    fn show_window(&self) {
        let window = self.window.load(Ordering::SeqCst);
        if self.is_next(window) {
            let windows = self.windows.load(Ordering::SeqCst);
            let name = self.speaker.name();
            let _ = eprint!(self.screen; "\r{name}: window {window} of {windows}");
        }
    }

    // Shows at which phase the run is, where that is to be shown now.
    fn show_phase(&self) {
        let phase = self.phase.load(Ordering::SeqCst);
        if self.is_next(phase) {
            let phases = self.phases.load(Ordering::SeqCst);
            let name = self.speaker.name();
            let _ = eprint!(self.screen; "\r{name}: phase {phase} of {phases}");
        }
    }

    // Whether a line with this number is to be shown now: one is due, and no number so great was shown.
    fn is_next(&self, number: u64) -> bool {
        let Some(begun) = self.begun else {
            return false;
        };
        self.is_due(begun) && self.shown.fetch_max(number, Ordering::SeqCst) < number
    }

    // Whether a line is due now. To one of the workers that ask at a time, it is.
    fn is_due(&self, begun: Instant) -> bool {
        let Ok(elapsed) = begun.elapsed(self.screen) else {
            return false;
        };
        let now = u64::try_from(elapsed.as_millis()).unwrap_or(u64::MAX);
        let due = self.due.load(Ordering::SeqCst);
        now >= due
            && self
                .due
                .compare_exchange(
                    due,
                    now.saturating_add(PERIOD),
                    Ordering::SeqCst,
                    Ordering::SeqCst,
                )
                .is_ok()
    }
}

impl<S: Clock + Eprint> Gate for Progress<'_, S> {
    fn pass(&self, _worker: u32, number: u64) {
        if self.windows.load(Ordering::SeqCst) > 0 {
            self.show_window();
        } else if self.phases.load(Ordering::SeqCst) > 0 {
            self.show_phase();
        } else if self.is_next(number) {
            let name = self.speaker.name();
            let _ = eprint!(self.screen; "\r{name}: {number} items searched");
        }
    }
}

impl<S: Clock + Eprint> CertificateGate for Progress<'_, S> {
    fn wrote(&self, steps: u64) {
        self.steps.fetch_max(steps, Ordering::SeqCst);
    }
}

impl<S: Clock + Eprint> WindowGate for Progress<'_, S> {
    fn come_to(&self, window: u16, windows: u16) {
        if windows > 1 {
            self.window.store(u64::from(window), Ordering::SeqCst);
            self.windows.store(u64::from(windows), Ordering::SeqCst);
            self.show_window();
        }
    }
}

impl<S: Clock + Eprint> PhaseGate for Progress<'_, S> {
    fn come_to_phase(&self, phase: u8, phases: u8) {
        self.phase.store(u64::from(phase), Ordering::SeqCst);
        self.phases.store(u64::from(phases), Ordering::SeqCst);
        self.show_phase();
    }
}

#[cfg(test)]
mod tests {
    use super::*;
    use crate::fake::Screen;
    use std::alloc::Global;
    use std::thread;
    use std::thread::Threads;

    // What is checked of the progress that a screen shows. They are made in one place, since what owns them takes long to prove.
    #[derive(Clone, Copy)]
    enum Check {
        NoTerminal,
        Items,
        Windows,
        Phases,
        OneWindow,
        Short,
    }

    // Whether that holds of a screen that counts how often this text is shown.
    fn holds(rt: &HostRuntime, text: &'static str, check: Check) -> bool {
        let screen = Screen::new(rt.alloc(), text);
        let progress = Progress::new(&screen, !matches!(check, Check::NoTerminal));
        match check {
            Check::NoTerminal => shows_nothing(&screen, &progress),
            Check::Items => shows_items(&screen, &progress),
            Check::Windows => shows_windows(&screen, &progress),
            Check::Phases => shows_phases(&screen, &progress),
            Check::OneWindow => shows_items_of_one_window(&screen, &progress),
            Check::Short => shows_nothing_within_a_second(&screen, &progress),
        }
    }

    // Whether so many lines were shown once the worker passed with that number.
    fn passes(
        screen: &Screen,
        progress: &Progress<'_, Screen>,
        worker: u32,
        number: u64,
        lines: u64,
    ) -> bool {
        progress.pass(worker, number);
        screen.printed() == lines
    }

    // The same once it has ended.
    fn ends(screen: &Screen, progress: &Progress<'_, Screen>, lines: u64) -> bool {
        progress.end();
        screen.printed() == lines
    }

    // The same once it came to a window of 1,000.
    fn comes_to(screen: &Screen, progress: &Progress<'_, Screen>, window: u16, lines: u64) -> bool {
        progress.come_to(window, 1000);
        screen.printed() == lines
    }

    // The same once it came to a phase of 11.
    fn comes_to_phase(
        screen: &Screen,
        progress: &Progress<'_, Screen>,
        phase: u8,
        lines: u64,
    ) -> bool {
        progress.come_to_phase(phase, 11);
        screen.printed() == lines
    }

    #[test]
    fn shows_nothing_without_a_terminal(rt: HostRuntime) {
        assert!(rt; holds(&rt, "", Check::NoTerminal));
    }

    fn shows_nothing(screen: &Screen, progress: &Progress<'_, Screen>) -> bool {
        for number in 0..20 {
            progress.pass(0, number);
        }
        ends(screen, progress, 0) && screen.millis.load(Ordering::SeqCst) == 0
    }

    #[test]
    fn shows_a_search_of_more_than_a_second(rt: HostRuntime) {
        assert!(rt; holds(&rt, "\rtsbank: 1234 items searched", Check::Items));
    }

    // It begins at 0, and passes at 300, 600, 900, 1200 and so on. The number 1233 was drawn before the one that is shown.
    fn shows_items(screen: &Screen, progress: &Progress<'_, Screen>) -> bool {
        passes(screen, progress, 0, 5, 0)
            && passes(screen, progress, 0, 700, 0)
            && passes(screen, progress, 0, 900, 0)
            && passes(screen, progress, 0, 1234, 1)
            && screen.found() == 1
            && passes(screen, progress, 1, 1233, 1)
            && passes(screen, progress, 0, 2000, 2)
            && ends(screen, progress, 3)
            && ends(screen, progress, 3)
    }

    #[test]
    fn shows_which_window_is_searched(rt: HostRuntime) {
        assert!(rt; holds(&rt, "\rtsbank: window 12 of 1000", Check::Windows));
    }

    // It begins at 0, and looks at 300, 600, 900, 1200 and so on. As 7001 is passed the window is shown already.
    fn shows_windows(screen: &Screen, progress: &Progress<'_, Screen>) -> bool {
        comes_to(screen, progress, 10, 0)
            && passes(screen, progress, 0, 7000, 0)
            && comes_to(screen, progress, 11, 0)
            && comes_to(screen, progress, 12, 1)
            && screen.found() == 1
            && passes(screen, progress, 0, 7001, 1)
            && comes_to(screen, progress, 13, 2)
            && ends(screen, progress, 3)
            && !screen.shows_a_line()
    }

    #[test]
    fn shows_which_phase_is_searched(rt: HostRuntime) {
        assert!(rt; holds(&rt, "\rtsbank: phase 3 of 11", Check::Phases));
    }

    // It begins at 0, and looks at 300, 600, 900, 1200 and so on. As 7001 is passed the phase is shown already.
    fn shows_phases(screen: &Screen, progress: &Progress<'_, Screen>) -> bool {
        comes_to_phase(screen, progress, 1, 0)
            && passes(screen, progress, 0, 7000, 0)
            && comes_to_phase(screen, progress, 2, 0)
            && comes_to_phase(screen, progress, 3, 1)
            && screen.found() == 1
            && passes(screen, progress, 0, 7001, 1)
            && comes_to_phase(screen, progress, 4, 2)
            && ends(screen, progress, 3)
            && !screen.shows_a_line()
    }

    #[test]
    fn shows_the_search_of_one_window(rt: HostRuntime) {
        assert!(rt; holds(&rt, "\rtsbank: 1234 items searched", Check::OneWindow));
    }

    // One window is a search like that of a decode.
    fn shows_items_of_one_window(screen: &Screen, progress: &Progress<'_, Screen>) -> bool {
        progress.come_to(1, 1);
        passes(screen, progress, 0, 5, 0)
            && passes(screen, progress, 0, 700, 0)
            && passes(screen, progress, 0, 900, 0)
            && passes(screen, progress, 0, 1234, 1)
            && screen.found() == 1
    }

    #[test]
    fn a_short_search_shows_nothing(rt: HostRuntime) {
        assert!(rt; holds(&rt, "", Check::Short));
    }

    fn shows_nothing_within_a_second(screen: &Screen, progress: &Progress<'_, Screen>) -> bool {
        passes(screen, progress, 0, 1, 0)
            && passes(screen, progress, 1, 2, 0)
            && ends(screen, progress, 0)
    }

    // Passes with the odd numbers or with the even ones below 40.
    fn pass_all(progress: &Progress<'_, Screen>, worker: u32) {
        for turn in 0..20u64 {
            progress.pass(worker, 2 * turn + u64::from(worker % 2));
        }
    }

    #[test]
    fn two_threads_share_it(rt: HostRuntime) {
        assert!(rt; two_threads_pass(&rt, rt.alloc()));
    }

    // 40 passes are 12 seconds by this clock, so at least the last pass of each is late enough; how many lines are shown
    // depends on who comes first.
    fn two_threads_pass<R: Threads>(rt: &R, alloc: Global) -> bool {
        let screen = Screen::new(alloc, BLANK);
        let progress = Progress::new(&screen, true);
        thread::join(rt, || pass_all(&progress, 0), || pass_all(&progress, 1));
        let lines = screen.printed();
        0 < lines
            && lines <= 40
            && ends(&screen, &progress, lines.saturating_add(1))
            && screen.found() == 1
    }
}
