//! Files that never fail, to run code over whose answer must not hang on what files do.
ghost use Rattle.std.specs.Prelude.{◌≡◌, ◌≢◌, None, IfOk, OnOk, OnErr};

use crate::store::copy_from;
use crate::{Failed, Files};
use signal_base::NoMemory;
use std::alloc::Global;
use std::collections::BTreeMap;

// A file that was given, and whether it was written since.
#[derive(Drop)]
struct GivenFile {
    bytes: Vec<u8>,
    marked: bool,
}

/// Files that never fail. A name reads as the bytes that it was given, or as an empty file, so that no file is
/// missing. Appends are taken whole, and nothing of them is kept.
///
/// What a name reads as is told while it wasn't written. A mark for each given name says that it was, and one
/// mark serves for all other names.
#[derive(Drop)]
pub struct SureFiles {
    alloc: Global,
    given: BTreeMap<String, GivenFile>,
    others_marked: bool,
}

impl SureFiles {
    ghost use Rattle.bank_files.specs.Told.{output_name};
    ghost use Rattle.bank_files.specs.Sure.{given_of, IsEmpty, Gives, SameSure, Changes, marked, emptied_and_marked};

    /// No file was given. It takes no memory.
    pub fn make(alloc: Global) -> SureFiles
        ensures { IsEmpty result }
    {
        SureFiles {
            alloc,
            given: BTreeMap::new(alloc),
            others_marked: false,
        }
    }

    /// Gives a file, whose name is new. Without memory all is as before.
    #[tactic(auto, using(std::proofs::lemmas::Map::Text::text_keys))]
    pub fn give(&mut self, name: &str, bytes: &[u8]) -> Result<(), NoMemory>
        requires name { name.now ≢ output_name }
        requires new { given_of self.old name.now ≡ None }
        ensures ok { OnOk result (Gives self.old self.new name.now bytes.now) }
        ensures err { OnErr result (SameSure self.old self.new) }
    {
        let key = String::from_str(self.alloc, name).map_err(|_| NoMemory)?;
        let bytes = bytes.to_vec(self.alloc).map_err(|_| NoMemory)?;
        let file = GivenFile {
            bytes,
            marked: false,
        };
        self.given.insert(key, file).map_err(|_| NoMemory)?;
        Ok(())
    }

    // Sets the mark of a name.
    #[tactic(auto, using(std::proofs::lemmas::Map::Text::text_keys))]
    fn mark(&mut self, name: &str)
        ensures { Changes self.old self.new name.now marked }
    {
        match self.given.get_mut(name) {
            Some(file) => file.marked = true,
            None => self.others_marked = true,
        }
    }

    // Empties the file of a name, and sets its mark.
    #[tactic(auto, using(std::proofs::lemmas::Map::Text::text_keys))]
    fn empty(&mut self, name: &str)
        ensures { Changes self.old self.new name.now emptied_and_marked }
    {
        match self.given.get_mut(name) {
            Some(file) => {
                file.bytes.clear();
                file.marked = true;
            }
            None => self.others_marked = true,
        }
    }
}

impl Files for SureFiles {
    ghost use Rattle.std.specs.Prelude.{◌≡◌, ◌≢◌, IfOk, IsOk, length};
    ghost use Rattle.bank_files.specs.Told.{output_name};
    ghost use Rattle.bank_files.specs.Stored.{Copies};
    ghost use Rattle.bank_files.specs.Sure.{seen_of_sure, none_is_missing, reads_as, Changes, marked, emptied_and_marked};

    ghost view = { seen_of_sure };

    ghost output_is_there = { none_is_missing };

    fn read_at(&mut self, name: &str, at: u64, into: &mut [u8]) -> Result<usize, Failed>
        requires { name.now ≢ output_name }
        ensures succeeds { IsOk result }
        ensures bytes { IfOk result (λ n. Copies (reads_as self.old name.now) at n into.old into.new) }
        ensures unchanged { self.new ≡ self.old }
    {
        match self.given.get(name) {
            Some(file) => Ok(copy_from(&file.bytes, at, into)),
            None => Ok(0),
        }
    }

    fn create(&mut self, name: &str) -> Result<(), Failed>
        requires { name.now ≢ output_name }
        ensures succeeds { IsOk result }
        ensures empties { Changes self.old self.new name.now emptied_and_marked }
    {
        self.empty(name);
        Ok(())
    }

    fn append(&mut self, name: &str, bytes: &[u8]) -> Result<usize, Failed>
        ensures whole { IfOk result (λ n. n ≡ length bytes.now) }
        ensures succeeds { IsOk result }
        ensures marks { Changes self.old self.new name.now marked }
    {
        self.mark(name);
        Ok(bytes.len())
    }
}
