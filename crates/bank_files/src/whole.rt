//! Whole files: all the bytes of one, and a text appended to its end.
ghost use Rattle.std.specs.Prelude.{◌≡◌, ◌≢◌, ◌<◌, ◌≤◌, [], length, vec_len, IfOk, IsErrOf, OnOk};
ghost use Rattle.bank_files.specs.Told.{output_name, Finds};
ghost use Rattle.bank_files.specs.Seen.{SameCounts, ReadFails, OnlyReads, Writes};
ghost use Rattle.bank_files.specs.declared.whole.TheConstants.{GREATEST_LIMIT};

use crate::{Failed, Files};
use std::alloc::{AllocError, Global};

/// Why a file wasn't read whole.
#[derive(Clone, Copy, Debug, PartialEq, Eq)]
pub enum ReadWhole {
    /// Reading failed.
    Failed,
    /// The file has more bytes than were allowed.
    TooLarge,
    /// Memory wasn't found.
    NoMemory,
}

/// The greatest limit that a whole read may be given, in bytes.
pub const GREATEST_LIMIT: u64 = 1_000_000_000;

// How many bytes are asked for at once.
const PIECE: usize = 65_536;

impl From<Failed> for ReadWhole {
    ghost use Rattle.std.specs.Prelude.{◌≡◌};
    ghost use Rattle.bank_files.specs.declared.whole.ReadWhole.TheVariants.{Failed};

    ghost from_gives = { λ _ e. e ≡ Failed };

    fn from(_: Failed) -> Self {
        ReadWhole::Failed
    }
}

impl From<AllocError> for ReadWhole {
    ghost use Rattle.std.specs.Prelude.{◌≡◌};
    ghost use Rattle.bank_files.specs.declared.whole.ReadWhole.TheVariants.{NoMemory};

    ghost from_gives = { λ _ e. e ≡ NoMemory };

    fn from(_: AllocError) -> Self {
        ReadWhole::NoMemory
    }
}

// That many bytes, to read into.
fn room_for(alloc: Global, count: usize) -> Result<Vec<u8>, AllocError>
    ensures { IfOk result (λ room. vec_len room ≡ count) }
{
    vec![in alloc; 0u8; count]
}

// Reads a file into `bytes`, which are empty, by way of `piece`.
fn read_into<F: Files>(
    files: &mut F,
    name: &str,
    limit: u64,
    piece: &mut [u8],
    bytes: &mut Vec<u8>,
) -> Result<(), ReadWhole>
    requires name { name.now ≢ output_name }
    requires limit { limit ≤ GREATEST_LIMIT }
    requires room { 0 < length piece.old }
    requires begun { bytes.old.items ≡ [] }
    ensures whole { OnOk result (Finds ((F.view files.old).told name.now)
        (λ file. (bytes.new.items ≡ file) × (length file ≤ limit))) }
    ensures within { OnOk result (vec_len bytes.new ≤ limit) }
    ensures failed { IsErrOf result ReadWhole.Failed
        → ReadFails name.now (F.view files.old) (F.view files.new) }
    ensures too_large { IsErrOf result ReadWhole.TooLarge
        → Finds ((F.view files.old).told name.now) (λ file. limit < length file) }
    ensures same_counts { result ≢ Err ReadWhole.Failed → SameCounts (F.view files.old) (F.view files.new) }
    ensures only { OnlyReads (F.view files.old) (F.view files.new) }
{
    loop {
        let have = bytes.len() as u64;
        let n = files.read_at(name, have, piece)?;
        if n == 0 {
            return Ok(());
        }
        if n as u64 > limit - have {
            return Err(ReadWhole::TooLarge);
        }
        bytes.extend_from_slice(&piece[..n])?;
    }
}

/// All the bytes of a file, at most `limit` of them. A file that has more is `TooLarge`.
pub fn read_whole<F: Files>(
    alloc: Global,
    files: &mut F,
    name: &str,
    limit: u64,
) -> Result<Vec<u8>, ReadWhole>
    requires name { name.now ≢ output_name }
    requires limit { limit ≤ GREATEST_LIMIT }
    // What is read is the file, and it is within the limit.
    ensures whole { IfOk result (λ bytes. Finds ((F.view files.old).told name.now)
        (λ file. (bytes.items ≡ file) × (length file ≤ limit))) }
    ensures within { IfOk result (λ bytes. vec_len bytes ≤ limit) }

    ensures failed { IsErrOf result ReadWhole.Failed
        → ReadFails name.now (F.view files.old) (F.view files.new) }
    ensures too_large { IsErrOf result ReadWhole.TooLarge
        → Finds ((F.view files.old).told name.now) (λ file. limit < length file) }
    ensures same_counts { result ≢ Err ReadWhole.Failed → SameCounts (F.view files.old) (F.view files.new) }
    ensures only { OnlyReads (F.view files.old) (F.view files.new) }
{
    let mut piece = room_for(alloc, PIECE)?;
    let mut bytes = Vec::new(alloc);
    read_into(files, name, limit, &mut piece, &mut bytes)?;
    Ok(bytes)
}

/// Appends all the bytes to a file, which is made where it was missing, also where there are no bytes. After
/// `Failed` nothing was appended, or a front of the bytes. It takes no memory.
pub fn write_all<F: Files>(files: &mut F, name: &str, bytes: &[u8]) -> Result<(), Failed>
    ensures { Writes name.now (F.view files.old) (F.view files.new) bytes.now result }
{
    let mut done = files.append(name, bytes)?;
    while done < bytes.len() {
        done += files.append(name, &bytes[done..])?;
    }
    Ok(())
}
