//! The files that are loaded, one after another.
ghost use Rattle.std.specs.Prelude.{◌≡◌, ◌||◌, ◌++◌, ℕ, [], List, None, true, false, option_to_list, IfOk, OnOk, IsErrOf};
ghost use Rattle.std.specs.Option.{option_copied};
ghost use Rattle.gq_reader.specs.Folder.{is_device_error};
ghost use Rattle.gq_reader.specs.Inputs.{closed_by, files_at};
ghost use Rattle.gq_reader.specs.Loads.{LoadsOne, fault_of_files};

use crate::fault::RunFault;
use crate::files::{Files, FilesFault};
use gq_events::Load;
use gq_rpc::{Incoming, Notification};
use gq_text::{NoMemory, OwnedText};
use std::alloc::Global;
use std::collections::VecDeque;

/// A file, as it is read now.
fn load_file<F: Files>(alloc: Global, files: &mut F, key: OwnedText) -> Result<Load, FilesFault>
    ensures loads { IfOk result (λ load. (load.key ≡ key) × (load.uri ≡ key) × F.reads files.old key load.content files.new) }
    ensures failed_is { F.failed files.new ≡ (is_device_error result || F.failed files.old) }
    ensures not_deep { IsErrOf result FilesFault.TooDeep → ⊥ }
    ensures same { (key : List ℕ) → F.has files.new key ≡ F.has files.old key }
{
    let uri = key.copied(alloc)?;
    let content = files.read(alloc, key.as_str())?;
    Ok(Load { key, uri, content })
}

/// The key of the document that a message closes.
fn closed_key(message: &Incoming) -> Option<&OwnedText>
    ensures { option_copied result ≡ closed_by message.now }
{
    match message {
        Incoming::Notification(Notification::DidClose(key)) => Some(key),
        _ => None,
    }
}

/// The fault of a run at one of the files.
pub fn fault_of(fault: FilesFault) -> RunFault
    ensures { result ≡ fault_of_files fault }
{
    match fault {
        FilesFault::TooDeep => RunFault::TooDeep,
        FilesFault::Device => RunFault::Device,
        FilesFault::NoMemory => RunFault::NoMemory,
    }
}

/// The files that are to be loaded before the next message, by their keys.
#[derive(Drop)]
pub struct Loads {
    alloc: Global,
    keys: VecDeque<OwnedText>,
    /// The fault at which it ended.
    told: Option<RunFault>,
}

impl Loads {
    /// These files are to be loaded. It takes no memory.
    pub fn new(alloc: Global, keys: Vec<OwnedText>) -> Loads
        ensures keys { result.keys.items ≡ keys.items }
        ensures told { result.told ≡ None }
    {
        Loads {
            alloc,
            keys: VecDeque::from_vec(keys),
            told: None,
        }
    }

    /// The fault at which it ended.
    pub fn told(&self) -> Option<RunFault>
        ensures { result ≡ self.now.told }
    {
        self.told
    }

    /// The key of the next file.
    pub fn next_key(&mut self) -> Option<OwnedText>
        ensures next { self.old.keys.items ≡ option_to_list result ++ self.new.keys.items }
        ensures none { result ≡ None → self.old.keys.items ≡ [] }
        ensures told { self.new.told ≡ self.old.told }
    {
        self.keys.pop_front()
    }

    /// Loads a file. Where that fails the fault is told.
    pub fn give<F: Files>(&mut self, files: &mut F, key: OwnedText) -> Option<Load>
        ensures gives { LoadsOne F.reads F.failed files.old key result self.old.told files.new self.new.told }
        ensures keys { self.new.keys.items ≡ self.old.keys.items }
        ensures same { (key : List ℕ) → F.has files.new key ≡ F.has files.old key }
    {
        match load_file(self.alloc, files, key) {
            Ok(load) => Some(load),
            Err(fault) => {
                self.told = Some(fault_of(fault));
                None
            }
        }
    }

    /// Where a message closes a document of the folder, its file is to be loaded.
    fn add_closed<F: Files>(&mut self, files: &F, message: &Incoming) -> Result<(), NoMemory>
        ensures ok { OnOk result (self.new.keys.items ≡ self.old.keys.items ++ files_at (F.has files.now) (closed_by message.now)) }
        ensures told { self.new.told ≡ self.old.told }
    {
        if let Some(key) = closed_key(message) {
            if files.has(key.as_str()) {
                self.keys.push_back(key.copied(self.alloc)?)?;
            }
        }
        Ok(())
    }

    /// The same. Where memory is refused that is told.
    pub fn follow<F: Files>(&mut self, files: &F, message: &Incoming) -> bool
        ensures follows { result ≡ true → self.new.keys.items ≡ self.old.keys.items ++ files_at (F.has files.now) (closed_by message.now) }
        ensures untold { result ≡ true → self.new.told ≡ self.old.told }
        ensures told { result ≡ false → self.new.told ≡ Some RunFault.NoMemory }
    {
        match self.add_closed(files, message) {
            Ok(()) => true,
            Err(NoMemory) => {
                self.told = Some(RunFault::NoMemory);
                false
            }
        }
    }
}
