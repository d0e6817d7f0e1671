//! A folder of the disk, and the files of GraphQL in it.
ghost use Rattle.std.specs.Prelude.{◌≡◌, ◌≢◌, ◌≤◌, ◌^◌, ◌++◌, ⊤, IfOk, IfSome, ◌||◌, ◌==◌, false, string_bytes, codes, take, length};
ghost use Rattle.gq_reader.specs.Folder.{is_device};
ghost use Rattle.gqls.specs.Helping.Folder.{file_key, is_graphql, is_key_of, is_name, are_names, IsRoot, Holds};
ghost use Rattle.std.specs.List.{starts_with};

use gq_crew::{Files, FilesFault};
use gq_events::LoadedContent;
use gq_rpc::keys::ESCAPED;
use gq_text::text::TEXT_MAX;
use gq_text::{NoMemory, OwnedText};
use percent_encoding::{AsciiSet, ascii_set, percent_decode, percent_encode};
use std::alloc::{AllocError, Global};
use std::fs::{DirEntry, OpenFile};
use std::io::{ErrorKind, Read};
use std::{fs, io, mem};

/// How many levels a folder may have; its own entries are the first.
const LEVELS_MAX: usize = 32;

/// What the keys of files begin with.
const SCHEME: &str = "file://";

/// What a path in a key escapes beside the bytes that are no ASCII: all but slashes and the unreserved characters.
pub const ESCAPED_IN_PATHS: AsciiSet = ascii_set!(ESCAPED.remove(b'/'));

/// Whether a name or a key ends as that of a file of GraphQL.
fn is_graphql(name: &str) -> bool
    ensures { result ≡ is_graphql name.now }
{
    let bytes = name.as_bytes();
    bytes.ends_with(b".graphql") || bytes.ends_with(b".gql")
}

/// Whether a key begins so.
fn begins_with(key: &str, front: &str) -> bool
    ensures { result ≡ starts_with (λ a b. a == b) key.now front.now }
{
    key.as_bytes().starts_with(front.as_bytes())
}

/// Whether a part of a path is a name: neither empty nor `.` nor `..`.
fn is_name(part: &[u8]) -> bool
    ensures { result ≡ is_name part.now }
{
    !matches!(part, [] | [b'.'] | [b'.', b'.'])
}

/// Whether each part between slashes is a name.
fn are_names(parts: &[u8]) -> bool
    ensures { result ≡ are_names parts.now }
{
    parts.split(|byte| *byte == b'/').all(is_name)
}

/// The path of a folder that a word names: it begins with a slash, no part of it is empty, `.` or `..`, and what the word has
/// behind it is slashes.
pub fn read_root(word: &str) -> Option<&str>
    ensures front { IfSome result (λ path. path.now ≡ take (length path.now) word.now) }
    ensures root { IfSome result (λ path. IsRoot path.now) }
{
    let path = word.trim_end_matches('/');
    let [b'/', parts @ ..] = path.as_bytes() else {
        return None;
    };
    are_names(parts).then_some(path)
}

/// The key of the file with that path.
fn key_of_path(alloc: Global, path: &str) -> Result<OwnedText, AllocError>
    ensures { IfOk result (λ key. key ≡ file_key path.now) }
{
    let mut key = String::from_str(alloc, SCHEME)?;
    percent_encode(path.as_bytes(), ESCAPED_IN_PATHS).append_to(&mut key)?;
    Ok(OwnedText::from_string(key))
}

/// The path of the file with that key, or none: the key of what it decodes to is to be that key.
fn path_of_key(alloc: Global, key: &str) -> Result<Option<String>, AllocError>
    ensures { IfOk result (λ found. IfSome found (λ path. file_key (string_bytes path) ≡ key.now)) }
{
    let Some(escaped) = key.as_bytes().strip_prefix(SCHEME.as_bytes()) else {
        return Ok(None);
    };
    let mut bytes = Vec::new(alloc);
    percent_decode(escaped).append_to(&mut bytes)?;
    let Ok(path) = String::from_utf8(bytes) else {
        return Ok(None);
    };
    let is_its_key = key_of_path(alloc, path.as_str())?.as_str() == key;
    Ok(is_its_key.then_some(path))
}

/// Whether something does not stand where it was looked for.
fn is_absent(error: &io::Error) -> bool {
    matches!(error.kind(), ErrorKind::NotFound | ErrorKind::NotADirectory)
}

/// Whether no file can have such a path: it has a byte 0, or is too long, or a part of it is.
fn is_no_path(error: &io::Error) -> bool {
    matches!(
        error.kind(),
        ErrorKind::InvalidInput | ErrorKind::InvalidFilename
    )
}

/// The fault that an error is told as: want of memory, or a failure of the device.
fn fault_of(error: &io::Error) -> FilesFault
    ensures { result ≢ FilesFault.TooDeep }
{
    match error.kind() {
        ErrorKind::OutOfMemory => FilesFault::NoMemory,
        _ => FilesFault::Device,
    }
}

/// What stands at a path by its own kind: a link is none of the first two.
#[derive(Clone, Copy, Debug, PartialEq, Eq)]
enum Kind {
    Folder,
    File,
    Other,
}

impl Kind {
    /// The kind of what such an entry describes.
    fn of_entry(file_type: fs::FileType) -> Kind {
        if file_type.is_dir() {
            Kind::Folder
        } else if file_type.is_file() {
            Kind::File
        } else {
            Kind::Other
        }
    }
}

/// What stands in folders: the paths of folders, and the keys of files of GraphQL.
#[derive(Drop)]
struct Found {
    folders: Vec<String>,
    keys: Vec<OwnedText>,
}

impl Found {
    /// Nothing yet.
    fn new(alloc: Global) -> Found {
        Found {
            folders: Vec::new(alloc),
            keys: Vec::new(alloc),
        }
    }

    /// Adds what stands at an entry. One that has gone since is passed over, as is what is neither a file nor a folder.
    fn add(&mut self, alloc: Global, entry: &DirEntry) -> io::Result<()> {
        let path = entry.path().as_str();
        match entry.file_type().map(Kind::of_entry) {
            Ok(Kind::Folder) => self.folders.push(String::from_str(alloc, path)?)?,
            Ok(Kind::File) if is_graphql(entry.file_name()) => self
                .keys
                .push(key_of_path(alloc, path)?)?,
            Ok(_) => {}
            Err(error) if is_absent(&error) => {}
            Err(error) => return Err(error),
        }
        Ok(())
    }
}

/// Up to that many bytes of a file. There is room for all of them, and for one more at which the end is seen, before they
/// are read.
pub fn read_front(rt: &HostRuntime, name: &str, limit: u64) -> io::Result<Vec<u8>>
    requires { limit ≤ 2 ^ 32 }
{
    let file = fs::open(rt, name)?;
    let room = file.metadata()?.len().min(limit) as usize + 1;
    let mut bytes = Vec::with_capacity(rt.alloc(), room)?;
    file.take(limit).read_to_end(&mut bytes)?;
    Ok(bytes)
}

/// What a file with these bytes holds: a text, or what is none, being over 4 MiB or not UTF-8.
fn content_of(bytes: Vec<u8>) -> LoadedContent
    ensures { Holds bytes.items result }
{
    if bytes.len() > TEXT_MAX {
        return LoadedContent::Unfit;
    }
    match String::from_utf8(bytes) {
        Ok(text) => LoadedContent::Text(OwnedText::from_string(text)),
        Err(_) => LoadedContent::Unfit,
    }
}

/// A folder of the disk. What is listed and read there is whatever the system answers: no contract speaks of that.
#[derive(Drop)]
pub struct Folder<'a> {
    rt: &'a HostRuntime,
    /// The path of the folder, as `read_root` reads it.
    path: OwnedText,
    /// What the keys of its files begin with.
    prefix: OwnedText,
    /// Whether a listing or a reading has failed.
    failed: bool,
    /// Whether a listing has found too many levels.
    is_too_deep: bool,
}

impl<'a> Folder<'a> {
    /// The folder of that path.
    pub fn new(rt: &'a HostRuntime, path: &str) -> Result<Folder<'a>, NoMemory>
        ensures failed { IfOk result (λ folder. folder.failed ≡ false) }
        ensures prefix { IfOk result (λ folder. folder.prefix ≡ file_key path.now ++ codes "/") }
    {
        let alloc = rt.alloc();
        let mut prefix = key_of_path(alloc, path)?.into_string();
        prefix.push('/')?;
        Ok(Folder {
            rt,
            path: OwnedText::from_str(alloc, path)?,
            prefix: OwnedText::from_string(prefix),
            failed: false,
            is_too_deep: false,
        })
    }

    /// The fault of an error, which is noted where it is the device's.
    fn note(&mut self, error: &io::Error) -> FilesFault
        ensures fault { result ≢ FilesFault.TooDeep }
        ensures failed { self.new.failed ≡ (is_device result || self.old.failed) }
        ensures prefix { self.new.prefix ≡ self.old.prefix }
    {
        let fault = fault_of(error);
        if fault == FilesFault::Device {
            self.failed = true;
        }
        fault
    }

    /// Adds what stands in the folder of that path. A name that is no UTF-8 is passed over: no path of this program names
    /// such a file.
    fn add_folder(&self, alloc: Global, path: &str, found: &mut Found) -> io::Result<()> {
        for entry in fs::read_dir(self.rt, path)? {
            match entry {
                Ok(entry) => found.add(alloc, &entry)?,
                Err(error) if error.kind() == ErrorKind::InvalidFilename => {}
                Err(error) => return Err(error),
            }
        }
        Ok(())
    }

    /// Adds what stands in folders. One that has gone since it was found is passed over.
    fn add_folders(&self, alloc: Global, paths: &[String], found: &mut Found) -> io::Result<()> {
        for path in paths {
            match self.add_folder(alloc, path.as_str(), found) {
                Err(error) if !is_absent(&error) => return Err(error),
                _ => {}
            }
        }
        Ok(())
    }

    /// What stands on all levels but the last, and the folders on the last.
    fn find_all(&self, alloc: Global) -> io::Result<Found> {
        let mut found = Found::new(alloc);
        self.add_folder(alloc, self.path.as_str(), &mut found)?;
        for _ in 1..LEVELS_MAX {
            let folders = mem::replace(&mut found.folders, Vec::new(alloc));
            self.add_folders(alloc, &folders, &mut found)?;
        }
        Ok(found)
    }

    /// Whether something stands in the folder of that path, whatever it is.
    fn is_filled(&self, path: &str) -> io::Result<bool> {
        match fs::read_dir(self.rt, path)?.next() {
            None => Ok(false),
            Some(Ok(_)) => Ok(true),
            Some(Err(error)) if error.kind() == ErrorKind::InvalidFilename => Ok(true),
            Some(Err(error)) => Err(error),
        }
    }

    /// Whether something stands in one of the folders. One that has gone since it was found is passed over.
    fn are_filled(&self, paths: &[String]) -> io::Result<bool> {
        for path in paths {
            match self.is_filled(path.as_str()) {
                Ok(false) => {}
                Err(error) if is_absent(&error) => {}
                answer => return answer,
            }
        }
        Ok(false)
    }

    /// The keys of all files of GraphQL, in ascending byte order, or none where the folder has too many levels.
    fn find_keys(&self, alloc: Global) -> io::Result<Option<Vec<OwnedText>>> {
        let Found { folders, mut keys } = self.find_all(alloc)?;
        if self.are_filled(&folders)? {
            return Ok(None);
        }
        keys.sort()?;
        Ok(Some(keys))
    }

    /// What stands at a path, or nothing. A link is not followed.
    fn kind_at(&self, path: &str) -> io::Result<Option<Kind>> {
        match fs::symlink_metadata(self.rt, path) {
            Ok(metadata) => Ok(Some(Kind::of_entry(metadata.file_type()))),
            Err(error) if is_absent(&error) || is_no_path(&error) => Ok(None),
            Err(error) => Err(error),
        }
    }

    /// Whether names lead from this folder through folders to a file, within the levels that are read.
    fn leads_to_file(&self, alloc: Global, names: &str) -> io::Result<bool> {
        let mut path = String::from_str(alloc, self.path.as_str())?;
        let mut kind = Kind::Folder;
        for (level, name) in names.split('/').enumerate() {
            if kind != Kind::Folder || level >= LEVELS_MAX || !is_name(name.as_bytes()) {
                return Ok(false);
            }
            path.push('/')?;
            path.push_str(name)?;
            let Some(found) = self.kind_at(path.as_str())? else {
                return Ok(false);
            };
            kind = found;
        }
        Ok(kind == Kind::File)
    }

    /// What the file of that path holds.
    fn content_at(&self, path: &str) -> io::Result<LoadedContent> {
        match read_front(self.rt, path, TEXT_MAX as u64 + 1) {
            Ok(bytes) => Ok(content_of(bytes)),
            Err(error) if is_absent(&error) => Ok(LoadedContent::Gone),
            Err(error) => Err(error),
        }
    }

    /// What the file of that key holds.
    fn find_content(&self, alloc: Global, key: &str) -> io::Result<LoadedContent> {
        let Some(path) = path_of_key(alloc, key)? else {
            return Ok(LoadedContent::Gone);
        };
        let below = path.as_str().strip_prefix(self.path.as_str());
        match below.and_then(|below| below.strip_prefix('/')) {
            Some(names) if self.leads_to_file(alloc, names)? => self.content_at(path.as_str()),
            _ => Ok(LoadedContent::Gone),
        }
    }
}

/// The path of the file with that key, or none.
fn path_at(alloc: Global, key: &OwnedText) -> Result<Option<String>, NoMemory> {
    Ok(path_of_key(alloc, key.as_str())?)
}

/// The paths of all files of GraphQL in the folder of that path, as they are listed for a server.
pub fn paths_in(rt: &HostRuntime, path: &str) -> Result<Vec<String>, FilesFault> {
    let alloc = rt.alloc();
    let mut folder = Folder::new(rt, path)?;
    let keys = folder.list(alloc)?;
    let mut paths = Vec::new(alloc);
    for key in keys.iter() {
        if let Some(path) = path_at(alloc, key)? {
            put_path(&mut paths, path)?;
        }
    }
    Ok(paths)
}

/// Puts a path behind the others.
fn put_path(paths: &mut Vec<String>, path: String) -> Result<(), NoMemory> {
    paths.push(path)?;
    Ok(())
}

impl Files for Folder<'_> {
    ghost failed = { λ f. f.failed };

    ghost too_deep = { λ f. f.is_too_deep };

    ghost has = { λ f key. is_key_of f.prefix key };

    ghost lists = { λ _ _ _. ⊤ };

    ghost reads = { λ _ _ _ _. ⊤ };

    fn list(&mut self, alloc: Global) -> Result<Vec<OwnedText>, FilesFault> {
        match self.find_keys(alloc) {
            Ok(Some(keys)) => Ok(keys),
            Ok(None) => {
                self.is_too_deep = true;
                Err(FilesFault::TooDeep)
            }
            Err(error) => Err(self.note(&error)),
        }
    }

    fn has(&self, key: &str) -> bool {
        begins_with(key, self.prefix.as_str()) && is_graphql(key)
    }

    fn read(&mut self, alloc: Global, key: &str) -> Result<LoadedContent, FilesFault> {
        match self.find_content(alloc, key) {
            Ok(content) => Ok(content),
            Err(error) => Err(self.note(&error)),
        }
    }
}
