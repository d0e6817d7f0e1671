//! The files of a project's folder.
ghost use Rattle.std.specs.Prelude.{◌≡◌, ◌||◌, ℕ, Bool, List, [], true, false, nat_eq, map, IfOk, IsErrOf};
ghost use Rattle.std.specs.List.{starts_with};
ghost use Rattle.gq_events.specs.declared.event.LoadedContent.{LoadedContent};
ghost use Rattle.gq_reader.specs.Folder.{is_device_error, content_at};

use gq_events::LoadedContent;
use gq_text::{NoMemory, OwnedText};
use std::alloc::Global;

/// Why files cannot be listed or read.
#[derive(Clone, Copy, Debug, PartialEq, Eq)]
pub enum FilesFault {
    /// The folder has more than 32 levels. A listing alone finds that.
    TooDeep,
    /// A listing or a reading has failed.
    Device,
    /// A growth was refused.
    NoMemory,
}

impl From<NoMemory> for FilesFault {
    ghost use Rattle.gq_reader.specs.declared.files.FilesFault.TheVariants as fault;

    ghost from_gives = { λ _ e. e ≡ fault.NoMemory };

    fn from(_error: NoMemory) -> Self {
        FilesFault::NoMemory
    }
}

/// A folder of files, each under the key of a document. It states by relations what a listing gives, and what a reading.
pub trait Files {
    /// A listing or a reading has failed.
    ghost failed: { Self → Bool };

    /// A listing has found more than 32 levels.
    ghost too_deep: { Self → Bool };

    /// A document of this key belongs to the folder.
    ghost has: { Self → List ℕ → Bool };

    ghost lists: { Self → List (List ℕ) → Self → Type 0 };

    ghost reads: { Self → List ℕ → LoadedContent → Self → Type 0 };

    /// The keys of all files, in order.
    fn list(&mut self, alloc: Global) -> Result<Vec<OwnedText>, FilesFault>
        ensures lists { IfOk result (λ keys. lists self.old keys.items self.new) }
        ensures failed_is { failed self.new ≡ (is_device_error result || failed self.old) }
        ensures deep { IsErrOf result FilesFault.TooDeep → too_deep self.new ≡ true }
        ensures same { (key : List ℕ) → has self.new key ≡ has self.old key };

    /// Whether a document of this key belongs to the folder, be there such a file or not.
    fn has(&self, key: &str) -> bool
        ensures { result ≡ has self.now key.now };

    /// What the file of this key is now.
    fn read(&mut self, alloc: Global, key: &str) -> Result<LoadedContent, FilesFault>
        ensures reads { IfOk result (λ content. reads self.old key.now content self.new) }
        ensures failed_is { failed self.new ≡ (is_device_error result || failed self.old) }
        ensures not_deep { IsErrOf result FilesFault.TooDeep → ⊥ }
        ensures same { (key : List ℕ) → has self.new key ≡ has self.old key };
}

/// A folder of no files, and of no document.
#[derive(Clone, Copy, Debug, PartialEq, Eq)]
pub struct NoFiles;

impl Files for NoFiles {
    ghost failed = { λ _. false };

    ghost too_deep = { λ _. false };

    ghost has = { λ _ _. false };

    ghost lists = { λ _ keys _. keys ≡ [] };

    ghost reads = { λ _ _ content _. content ≡ LoadedContent.Gone };

    fn list(&mut self, alloc: Global) -> Result<Vec<OwnedText>, FilesFault> {
        Ok(Vec::new(alloc))
    }

    fn has(&self, _key: &str) -> bool {
        false
    }

    fn read(&mut self, _alloc: Global, _key: &str) -> Result<LoadedContent, FilesFault> {
        Ok(LoadedContent::Gone)
    }
}

/// A file of a folder in memory.
#[derive(Drop)]
pub struct MemoryFile {
    pub key: OwnedText,
    pub content: LoadedContent,
}

/// A folder in memory, for tests: its documents are those whose keys begin with its own, and these are its files, in order of
/// key.
#[derive(Drop)]
pub struct MemoryFiles {
    pub folder: OwnedText,
    pub files: Vec<MemoryFile>,
}

/// A copy of what was loaded.
fn copy_content(alloc: Global, content: &LoadedContent) -> Result<LoadedContent, NoMemory>
    ensures { IfOk result (λ copy. copy ≡ content.now) }
{
    match content {
        LoadedContent::Text(text) => Ok(LoadedContent::Text(text.copied(alloc)?)),
        LoadedContent::Gone => Ok(LoadedContent::Gone),
        LoadedContent::Unfit => Ok(LoadedContent::Unfit),
    }
}

/// The keys of files, in order.
fn copy_keys(alloc: Global, files: &[MemoryFile]) -> Result<Vec<OwnedText>, NoMemory>
    ensures { IfOk result (λ keys. keys.items ≡ map (λ file. file.key) files.now) }
{
    let mut keys = Vec::new(alloc);
    for file in files {
        keys.push(file.key.copied(alloc)?)?;
    }
    Ok(keys)
}

/// A copy of what the file of a key is.
fn copy_file(alloc: Global, files: &[MemoryFile], key: &str) -> Result<LoadedContent, NoMemory>
    ensures { IfOk result (λ content. content ≡ content_at key.now files.now) }
{
    for file in files {
        if file.key.as_str() == key {
            return copy_content(alloc, &file.content);
        }
    }
    Ok(LoadedContent::Gone)
}

/// Whether a key begins so.
fn begins(key: &str, folder: &str) -> bool
    ensures { result ≡ starts_with nat_eq key.now folder.now }
{
    key.starts_with(folder)
}

impl Files for MemoryFiles {
    ghost failed = { λ _. false };

    ghost too_deep = { λ _. false };

    ghost has = { λ f key. starts_with nat_eq key f.folder };

    ghost lists = { λ f keys g. (keys ≡ map (λ file. file.key) f.files.items) × (g ≡ f) };

    ghost reads = { λ f key content g. (content ≡ content_at key f.files.items) × (g ≡ f) };

    fn list(&mut self, alloc: Global) -> Result<Vec<OwnedText>, FilesFault> {
        let keys = copy_keys(alloc, &self.files)?;
        Ok(keys)
    }

    fn has(&self, key: &str) -> bool {
        begins(key, self.folder.as_str())
    }

    fn read(&mut self, alloc: Global, key: &str) -> Result<LoadedContent, FilesFault> {
        let content = copy_file(alloc, &self.files, key)?;
        Ok(content)
    }
}
