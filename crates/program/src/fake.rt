//! A machine for tests: it has made-up words, keeps what is printed, and opens the files of the host. And a terminal.
use crate::progress::BLANK;
use std::alloc::{Allocator, Global};
use std::cell::{Cell, RefCell};
use std::env::FillError;
use std::fmt::Display;
use std::fs::{File, Metadata, OpenOptions};
use std::rt::Clock;
use std::sync::atomic::{AtomicBool, AtomicU64, Ordering};
use std::time::Duration;
use std::{io, rt};

// How many bytes standard output takes at once.
const PIECE: usize = 8;

// The machine's number for a device that is full.
const FULL: i32 = 28;

/// A machine made up of these words, the program's name first, and of what was printed so far.
#[derive(Drop)]
pub struct Fake<'a> {
    pub host: &'a HostRuntime,
    pub words: &'a [&'a [u8]],
    /// How many bytes standard output takes before it is full.
    pub room: usize,
    pub output: RefCell<Vec<u8>>,
    pub error: RefCell<Vec<u8>>,
    /// The terminal at which progress is shown, if it is, and to which standard output goes.
    pub screen: Screen,
    /// Whether something was printed behind a line that shows progress.
    pub glued: Cell<bool>,
}

impl<'a> Fake<'a> {
    pub fn new(host: &'a HostRuntime, words: &'a [&'a [u8]], room: usize) -> Fake<'a> {
        Fake {
            host,
            words,
            room,
            output: RefCell::new(Vec::new(host.alloc())),
            error: RefCell::new(Vec::new(host.alloc())),
            screen: Screen::new(host.alloc(), BLANK),
            glued: Cell::new(false),
        }
    }
}

/// Tells whether these bytes and no others were printed.
pub fn holds(printed: &RefCell<Vec<u8>>, text: &str) -> bool {
    printed
        .try_borrow()
        .is_ok_and(|bytes| bytes.as_slice() == text.as_bytes())
}

impl rt::Env for Fake<'_> {
    fn arg(&self, i: usize, buf: &mut [u8]) -> Result<usize, FillError> {
        let word = *self.words.get(i).ok_or(FillError::NotPresent)?;
        if word.len() > buf.len() {
            return Err(FillError::TooLong);
        }
        buf[..word.len()].copy_from_slice(word);
        Ok(word.len())
    }

    fn var(&self, _name: &str, _buf: &mut [u8]) -> Result<usize, FillError> {
        Err(FillError::NotPresent)
    }

    fn var_at(&self, _i: usize, _buf: &mut [u8]) -> Result<usize, FillError> {
        Err(FillError::NotPresent)
    }
}

impl Alloc for Fake<'_> {
    type A = Global;

    fn alloc(&self) -> Global {
        self.host.alloc()
    }
}

impl Print for Fake<'_> {
    fn print<D: Display + Drop>(&self, _value: D) -> io::Result<()> {
        Err(io::Error::from(io::ErrorKind::Unsupported))
    }

    fn println<D: Display + Drop>(&self, _value: D) -> io::Result<()> {
        Err(io::Error::from(io::ErrorKind::Unsupported))
    }

    fn write_all(&self, _bytes: &[u8]) -> io::Result<()> {
        Err(io::Error::from(io::ErrorKind::Unsupported))
    }

    fn write_some(&self, bytes: &[u8]) -> io::Result<usize> {
        if self.screen.shows_a_line() {
            self.glued.set(true);
        }
        let mut output = self.output.try_borrow_mut()?;
        let room = self.room.saturating_sub(output.len());
        let taken = bytes.len().min(PIECE).min(room);
        if taken == 0 && !bytes.is_empty() {
            return Err(io::Error::from_raw_os_error(FULL));
        }
        output.extend_from_slice(&bytes[..taken])?;
        Ok(taken)
    }
}

impl Eprint for Fake<'_> {
    fn eprint<D: Display + Drop>(&self, value: D) -> io::Result<()> {
        let text = value.to_string(self.alloc())?;
        let mut error = self.error.try_borrow_mut()?;
        error.extend_from_slice(text.as_bytes())?;
        Ok(())
    }

    fn eprintln<D: Display + Drop>(&self, value: D) -> io::Result<()> {
        self.eprint(value)?;
        self.eprint("\n")
    }
}

impl rt::Files for Fake<'_> {
    type File = File;

    type Dir = <HostRuntime as rt::Files>::Dir;

    fn open_file(&self, how: &OpenOptions, path: &str) -> io::Result<File> {
        self.host.open_file(how, path)
    }

    fn open_dir(&self, path: &str) -> io::Result<Self::Dir> {
        self.host.open_dir(path)
    }

    fn metadata(&self, path: &str) -> io::Result<Metadata> {
        self.host.metadata(path)
    }

    fn symlink_metadata(&self, path: &str) -> io::Result<Metadata> {
        self.host.symlink_metadata(path)
    }

    fn copy(&self, from: &str, to: &str) -> io::Result<u64> {
        self.host.copy(from, to)
    }

    fn rename(&self, from: &str, to: &str) -> io::Result<()> {
        self.host.rename(from, to)
    }

    fn remove_file(&self, path: &str) -> io::Result<()> {
        self.host.remove_file(path)
    }

    fn create_dir(&self, path: &str) -> io::Result<()> {
        self.host.create_dir(path)
    }

    fn remove_dir(&self, path: &str) -> io::Result<()> {
        self.host.remove_dir(path)
    }

    fn remove_dir_all<B: Allocator>(&self, alloc: B, path: &str) -> io::Result<()> {
        self.host.remove_dir_all(alloc, path)
    }
}

/// A terminal at which each look at the clock is 300 milliseconds after the one before it. It counts what is printed, and
/// how much of that is `text`.
#[derive(Drop)]
pub struct Screen {
    alloc: Global,
    text: &'static str,
    pub millis: AtomicU64,
    printed: AtomicU64,
    found: AtomicU64,
    shows: AtomicBool,
}

impl Screen {
    pub fn new(alloc: Global, text: &'static str) -> Screen {
        Screen {
            alloc,
            text,
            millis: AtomicU64::new(0),
            printed: AtomicU64::new(0),
            found: AtomicU64::new(0),
            shows: AtomicBool::new(false),
        }
    }

    pub fn printed(&self) -> u64 {
        self.printed.load(Ordering::SeqCst)
    }

    pub fn found(&self) -> u64 {
        self.found.load(Ordering::SeqCst)
    }

    /// Whether a line was printed latest, and not blanked.
    pub fn shows_a_line(&self) -> bool {
        self.shows.load(Ordering::SeqCst)
    }
}

impl Clock for Screen {
    fn monotonic(&self) -> io::Result<Duration> {
        let now = self.millis.fetch_add(300, Ordering::SeqCst);
        Ok(Duration::from_millis(now))
    }

    fn since_1970(&self) -> io::Result<Duration> {
        Err(io::Error::from(io::ErrorKind::Unsupported))
    }
}

impl Eprint for Screen {
    fn eprint<D: Display + Drop>(&self, value: D) -> io::Result<()> {
        self.printed.fetch_add(1, Ordering::SeqCst);
        let text = value.to_string(self.alloc)?;
        if text.as_str() == self.text {
            self.found.fetch_add(1, Ordering::SeqCst);
        }
        self.shows.store(text.as_str() != BLANK, Ordering::SeqCst);
        Ok(())
    }

    fn eprintln<D: Display + Drop>(&self, value: D) -> io::Result<()> {
        self.eprint(value)
    }
}
