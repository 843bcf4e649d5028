ghost use Rattle.std.specs.Prelude.{◌≡◌, ◌<◌, ◌∷◌, ◌++◌, ◌⊎◌, ◌↔◌, List, [], nat_lt, cond, Some, None, Contains, IfSome, IfNone, IsTrue, IsSome, IsErrOf, IfOk, OnOk, OnErr, MatchResult};
ghost use Rattle.std.specs.Option.{option_copied};
ghost use Rattle.std.specs.Str.{bytes_eq};
ghost use Rattle.poet_io.specs.Counter.{counted};
ghost use Rattle.poet_io.specs.Faults.{IsRaised};
ghost use Rattle.poet_io.specs.declared.uses.Use.{Use};
ghost use Rattle.poet_io.specs.declared.uses.Use.TheVariants.{Refused, Closed};
ghost use Rattle.poet_io.specs.MemFolder.{LeavesFolder, empty_folder, file_at, opened, with_file};

use crate::uses::{Room, Uses};
use crate::{Bytes, Files, MemFile, MemSource, OpenError, Use};
use std::alloc::{AllocError, Global};
use std::marker::Model;

// A file that stands in a folder.
#[derive(Debug, Drop)]
struct StoredFile {
    name: Bytes,
    bytes: Bytes,
    fail_at: Vec<u64>,
}

impl Model for StoredFile {
    ghost use Rattle.poet_io.specs.MemFolder.{StoredState};

    ghost Value = { StoredState };

    ghost view = { λ file. record {
      name = file.name;
      bytes = file.bytes;
      fail_at = file.fail_at.items;
    } };
}

impl StoredFile {
    fn is_named(&self, name: &[u8]) -> bool
        ensures { result ≡ bytes_eq self.now.name name.now }
    {
        self.name.as_slice() == name
    }

    fn open(&self, alloc: Global) -> Result<MemFile, AllocError>
        ensures { IfOk result (λ file. file ≡ opened self.now) }
    {
        let name = copied(alloc, self.name.as_slice())?;
        let bytes = copied(alloc, self.bytes.as_slice())?;
        let fail_at = self.fail_at.as_slice().to_vec(alloc)?;
        let room = Room::new(alloc)?;
        Ok(MemFile::new(name, MemSource::new(bytes, fail_at), room))
    }
}

/// A folder in memory, whose files fail to open or to be read where they are told to.
#[derive(Debug, Drop)]
pub struct MemFolder {
    alloc: Global,
    files: Vec<StoredFile>,
    failing: Vec<Bytes>,
    faults: u64,
    uses: Uses,
}

impl Model for MemFolder {
    ghost use Rattle.poet_io.specs.MemFolder.{MemFolderState};

    ghost Value = { MemFolderState };

    ghost view = { λ folder. record {
      files = folder.files.items;
      failing = folder.failing.items;
      faults = folder.faults;
      uses = folder.uses;
    } };
}

impl MemFolder {
    /// A folder with no file.
    pub fn new(alloc: Global) -> Self
        ensures { result ≡ empty_folder }
    {
        MemFolder {
            alloc,
            files: Vec::new(alloc),
            failing: Vec::new(alloc),
            faults: 0,
            uses: Uses::new(),
        }
    }

    /// Adds a file, which hides those of the same name. Once it is opened, its reads with the
    /// numbers `fail_at` fail, the first being number 1.
    pub fn add(&mut self, name: &str, bytes: &[u8], fail_at: &[u64]) -> Result<(), AllocError>
        ensures ok { OnOk result (self.new ≡ with_file self.old name.now bytes.now fail_at.now) }
        ensures err { OnErr result (self.new ≡ self.old) }
    {
        let file = StoredFile {
            name: copied(self.alloc, name.as_bytes())?,
            bytes: copied(self.alloc, bytes)?,
            fail_at: fail_at.to_vec(self.alloc)?,
        };
        self.files.insert(0, file)?;
        Ok(())
    }

    /// Makes each opening of this name fail from now on, whether there is such a file or not.
    pub fn fail_open(&mut self, name: &str) -> Result<(), AllocError>
        ensures ok { OnOk result (self.new ≡ record self.old {
          failing = self.old.failing ++ name.now ∷ [];
        }) }
        ensures err { OnErr result (self.new ≡ self.old) }
    {
        let name = copied(self.alloc, name.as_bytes())?;
        self.failing.push(name)?;
        Ok(())
    }

    /// What became of the last file that was given back or failed to open, if there was one.
    pub fn last_use(&self) -> Option<&Use>
        ensures some { IfSome result (λ newest. (older : List Use)
            × (self.now.uses ≡ newest.now ∷ older)) }
        ensures none { IfNone result (self.now.uses ≡ []) }
    {
        self.uses.newest()
    }

    // Counts that a file of this name failed to open, and notes it.
    fn fail(&mut self, alloc: Global, name: &str) -> Result<(), AllocError>
        ensures ok { OnOk result (self.new ≡ record self.old {
          faults = counted self.old.faults;
          uses = Refused name.now ∷ self.old.uses;
        }) }
        ensures fault { OnOk result (IsRaised self.old.faults self.new.faults) }
        ensures err { OnErr result (self.new ≡ self.old) }
    {
        let refused = Use::Refused(copied(alloc, name.as_bytes())?);
        let room = Room::new(alloc)?;
        self.uses.add(refused, room);
        self.faults = self.faults.saturating_add(1);
        Ok(())
    }
}

fn copied(alloc: Global, bytes: &[u8]) -> Result<Bytes, AllocError>
    ensures { IfOk result (λ copy. copy ≡ bytes.now) }
{
    Ok(Bytes::new(bytes.to_vec(alloc)?))
}

// The newest file of a name.
fn find_file<'a>(files: &'a [StoredFile], name: &[u8]) -> Option<&'a StoredFile>
    ensures { option_copied result ≡ file_at files.now name.now }
{
    files.iter().find(|file| file.is_named(name))
}

fn has_name(names: &[Bytes], name: &[u8]) -> bool
    ensures { IsTrue result ↔ Contains names.now name.now }
{
    names.iter().any(|other| other.as_slice() == name)
}

impl Files for MemFolder {
    ghost use Rattle.std.specs.Prelude.{Some, reverse};
    ghost use Rattle.std.proofs.Common.{refl};
    ghost use Rattle.poet_io.specs.MemFolder.{bytes_at};

    type In = MemFile;

    ghost state = { λ folder. record {
      faults = folder.faults;
      folder = Some (bytes_at folder.files);
      uses = Some (reverse folder.uses);
    } };

    ghost tells_both = { λ _. ((λ _. refl), (λ _. refl)) };

    /// Fails at the names that are to fail, is `Absent` where there is no file, and else opens a
    /// copy of it. Memory is taken for what is noted of the file, at each of these but `Absent`.
    fn open(&mut self, alloc: Global, name: &str) -> Result<MemFile, OpenError>
        ensures failed { IsErrOf result OpenError.Failed → Contains self.old.failing name.now }
        ensures failing { Contains self.old.failing name.now → IsErrOf result OpenError.Failed
            ⊎ IsErrOf result OpenError.Oom }
        ensures absent { IsErrOf result OpenError.Absent → file_at self.old.files name.now ≡ None }
        ensures oom { IsErrOf result OpenError.Oom →
            Contains self.old.failing name.now ⊎ IsSome (file_at self.old.files name.now) }
        ensures opened { IfOk result (λ file.
            (stored : _)
            × (file_at self.old.files name.now ≡ Some stored)
            × (file ≡ opened stored)) }

        ensures folder { MatchResult result
            (λ _. self.new ≡ self.old)
            (λ e. LeavesFolder e name.now self.old self.new) }
        ensures fault { IsErrOf result OpenError.Failed → IsRaised self.old.faults self.new.faults }
    {
        if has_name(&self.failing, name.as_bytes()) {
            return match self.fail(alloc, name) {
                Ok(()) => Err(OpenError::Failed),
                Err(_) => Err(OpenError::Oom),
            };
        }
        match find_file(&self.files, name.as_bytes()) {
            None => Err(OpenError::Absent),
            Some(file) => file.open(alloc).map_err(|_| OpenError::Oom),
        }
    }

    /// Counts one fault where the file has failed, and notes what became of it. It takes no memory.
    fn close(&mut self, source: MemFile)
        ensures noted { self.new ≡ record self.old {
          faults = cond (nat_lt 0 source.source.faults) (counted self.old.faults) self.old.faults;
          uses = Closed source.name source.source.left (nat_lt 0 source.source.faults)
              ∷ self.old.uses;
        } }
        ensures fault { 0 < source.source.faults → IsRaised self.old.faults self.new.faults }
    {
        if source.faults() > 0 {
            self.faults = self.faults.saturating_add(1);
        }
        source.close_into(&mut self.uses);
    }
}
