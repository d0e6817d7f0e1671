//! Runs of the server over folders: what is loaded, and folders that fail.
ghost use Rattle.std.specs.Prelude.{◌≡◌, false};

use gq_crew::{Ended, Files, FilesFault, MemoryFile, MemoryFiles, RunFault, run_one};
use gq_events::LoadedContent;
use gq_rpc::Flagged;
use gq_text::OwnedText;
use std::alloc::Global;
use std::test::Fail;

const INITIALIZE: &str =
    r#"{"jsonrpc":"2.0","id":1,"method":"initialize","params":{"processId":null,"rootUri":null,"capabilities":{"workspace":{"workspaceEdit":{"documentChanges":true}}}}}"#;

const OPEN_S: &str =
    r#"{"jsonrpc":"2.0","method":"textDocument/didOpen","params":{"textDocument":{"languageId":"graphql","text":"type Query{x:Int}","uri":"file:///w/s.graphql","version":1}}}"#;

const OPEN_Q: &str =
    r#"{"jsonrpc":"2.0","method":"textDocument/didOpen","params":{"textDocument":{"languageId":"graphql","text":"{...A}","uri":"file:///w/q.graphql","version":1}}}"#;

const OPEN_F: &str =
    r#"{"jsonrpc":"2.0","method":"textDocument/didOpen","params":{"textDocument":{"languageId":"graphql","text":"fragment C on Query{x}","uri":"file:///w/f.graphql","version":1}}}"#;

const CLOSE_F: &str =
    r#"{"jsonrpc":"2.0","method":"textDocument/didClose","params":{"textDocument":{"uri":"file:///w/f.graphql"}}}"#;

const RENAME: &str =
    r#"{"jsonrpc":"2.0","id":2,"method":"textDocument/rename","params":{"textDocument":{"uri":"file:///w/q.graphql"},"position":{"line":0,"character":4},"newName":"B"}}"#;

const SHUTDOWN: &str = r#"{"jsonrpc":"2.0","id":3,"method":"shutdown"}"#;

const EXIT: &str = r#"{"jsonrpc":"2.0","method":"exit"}"#;

const INITIALIZED: &str =
    r#"{"id":1,"jsonrpc":"2.0","result":{"capabilities":{"renameProvider":true,"textDocumentSync":{"change":2,"openClose":true}},"serverInfo":{"name":"gqls"}}}"#;

const RENAMED: &str =
    r#"{"id":2,"jsonrpc":"2.0","result":{"documentChanges":[{"edits":[{"newText":"B","range":{"end":{"character":10,"line":0},"start":{"character":9,"line":0}}}],"textDocument":{"uri":"file:///w/f.graphql","version":null}},{"edits":[{"newText":"B","range":{"end":{"character":5,"line":0},"start":{"character":4,"line":0}}}],"textDocument":{"uri":"file:///w/q.graphql","version":1}}]}}"#;

const NOT_VALID: &str =
    r#"{"error":{"code":-32803,"message":"1 ProjectInvalid"},"id":2,"jsonrpc":"2.0"}"#;

const SHUT_DOWN: &str = r#"{"id":3,"jsonrpc":"2.0","result":null}"#;

/// The bodies, each in its frame.
fn frames(alloc: Global, bodies: &[&str]) -> Result<String, Fail> {
    let mut text = String::new(alloc);
    for body in bodies {
        write!(text, "Content-Length: {}\r\n\r\n{body}", body.len())?;
    }
    Ok(text)
}

/// What a run over these bodies and this folder writes, and how it ends.
fn run<F: Files>(alloc: Global, bodies: &[&str], files: &mut F) -> Result<(String, Ended), Fail>
    requires { F.failed files.old ≡ false }
{
    let input = frames(alloc, bodies)?;
    let mut source = Flagged::new(input.as_bytes());
    let mut sink = Flagged::new(Vec::new(alloc));
    let ended = run_one(alloc, &mut source, &mut sink, files);
    Ok((String::from_utf8(sink.inner)?, ended))
}

/// A folder in memory without files.
fn folder(alloc: Global) -> Result<MemoryFiles, Fail> {
    Ok(MemoryFiles {
        folder: OwnedText::from_str(alloc, "file:///w/")?,
        files: Vec::new(alloc),
    })
}

/// Adds a file to a folder.
fn add(alloc: Global, files: &mut MemoryFiles, key: &str, text: &str) -> Result<(), Fail> {
    files.files.push(MemoryFile {
        key: OwnedText::from_str(alloc, key)?,
        content: LoadedContent::Text(OwnedText::from_str(alloc, text)?),
    })?;
    Ok(())
}

const STOPPED: Ended = Ended {
    status: 0,
    fault: None,
};

fn failed(fault: RunFault) -> Ended {
    Ended {
        status: 3,
        fault: Some(fault),
    }
}

#[test]
fn a_closed_file_is_renamed_in(rt: HostRuntime) -> Result<(), Fail> {
    let alloc = rt.alloc();
    let mut files = folder(alloc)?;
    add(
        alloc,
        &mut files,
        "file:///w/f.graphql",
        "fragment A on Query{x}",
    )?;
    let bodies = [INITIALIZE, OPEN_S, OPEN_Q, RENAME, SHUTDOWN, EXIT];
    let (written, ended) = run(alloc, &bodies, &mut files)?;
    let wanted = frames(alloc, &[INITIALIZED, RENAMED, SHUT_DOWN])?;
    assert_eq!(rt; written.as_str(), wanted.as_str());
    assert_eq!(rt; ended, STOPPED);
    Ok(())
}

/// While the file is open the client's text counts, and behind its close the file's again.
#[test]
fn a_file_is_loaded_again_once_it_is_closed(rt: HostRuntime) -> Result<(), Fail> {
    let alloc = rt.alloc();
    let mut files = folder(alloc)?;
    add(
        alloc,
        &mut files,
        "file:///w/f.graphql",
        "fragment A on Query{x}",
    )?;
    let open = [INITIALIZE, OPEN_S, OPEN_Q, OPEN_F, RENAME, SHUTDOWN, EXIT];
    let (written, _) = run(alloc, &open, &mut files)?;
    let wanted = frames(alloc, &[INITIALIZED, NOT_VALID, SHUT_DOWN])?;
    assert_eq!(rt; written.as_str(), wanted.as_str());
    let closed = [
        INITIALIZE, OPEN_S, OPEN_Q, OPEN_F, CLOSE_F, RENAME, SHUTDOWN, EXIT,
    ];
    let (written, _) = run(alloc, &closed, &mut files)?;
    let wanted = frames(alloc, &[INITIALIZED, RENAMED, SHUT_DOWN])?;
    assert_eq!(rt; written.as_str(), wanted.as_str());
    Ok(())
}

/// A folder with so many files, of which the reading of one is refused; or its listing is, for this fault.
#[derive(Drop)]
struct Failing {
    count: usize,
    whole: usize,
    is_memory: bool,
    listing: Option<FilesFault>,
    failed: bool,
    too_deep: bool,
}

impl Files for Failing {
    ghost use Rattle.std.specs.Prelude.{false};

    ghost failed = { λ f. f.failed };

    ghost too_deep = { λ f. f.too_deep };

    ghost has = { λ _ _. false };

    ghost lists = { λ _ _ _. Unit {0} };

    ghost reads = { λ _ _ _ _. Unit {0} };

    fn list(&mut self, alloc: Global) -> Result<Vec<OwnedText>, FilesFault> {
        if let Some(fault) = self.listing {
            match fault {
                FilesFault::TooDeep => self.too_deep = true,
                FilesFault::Device => self.failed = true,
                FilesFault::NoMemory => {}
            }
            return Err(fault);
        }
        let mut keys = Vec::new(alloc);
        for _ in 0..self.count {
            let key = OwnedText::from_str(alloc, "file:///w/f.graphql")?;
            if keys.push(key).is_err() {
                return Err(FilesFault::NoMemory);
            }
        }
        Ok(keys)
    }

    fn has(&self, _key: &str) -> bool {
        false
    }

    fn read(&mut self, _alloc: Global, _key: &str) -> Result<LoadedContent, FilesFault> {
        if self.whole > 0 {
            self.whole -= 1;
            return Ok(LoadedContent::Unfit);
        }
        if self.is_memory {
            return Err(FilesFault::NoMemory);
        }
        self.failed = true;
        Err(FilesFault::Device)
    }
}

/// A folder whose files are read up to one of them.
fn folder_that_fails(whole: usize, is_memory: bool) -> Failing
    ensures { result.failed ≡ false }
{
    Failing {
        count: 3,
        whole,
        is_memory,
        listing: None,
        failed: false,
        too_deep: false,
    }
}

#[test]
fn a_folder_that_cannot_be_listed_ends_the_run(rt: HostRuntime) -> Result<(), Fail> {
    let alloc = rt.alloc();
    for (listing, fault) in [
        (FilesFault::TooDeep, RunFault::TooDeep),
        (FilesFault::Device, RunFault::Device),
        (FilesFault::NoMemory, RunFault::NoMemory),
    ] {
        let mut files = folder_that_fails(3, false);
        files.listing = Some(listing);
        let (written, ended) = run(alloc, &[INITIALIZE], &mut files)?;
        assert_eq!(rt; (written.as_str(), ended), ("", failed(fault)));
    }
    Ok(())
}

#[test]
fn a_file_that_cannot_be_read_ends_the_run(rt: HostRuntime) -> Result<(), Fail> {
    let alloc = rt.alloc();
    for whole in 0..3 {
        for (is_memory, fault) in [(false, RunFault::Device), (true, RunFault::NoMemory)] {
            let mut files = folder_that_fails(whole, is_memory);
            let (written, ended) = run(alloc, &[INITIALIZE], &mut files)?;
            assert_eq!(rt; (written.as_str(), ended), ("", failed(fault)));
        }
    }
    Ok(())
}

/// A folder in memory with so many files.
fn filled(alloc: Global, count: usize) -> Result<MemoryFiles, Fail> {
    let mut files = folder(alloc)?;
    for number in 0..count {
        let key = format!(in alloc; "file:///w/{number}.graphql")?;
        add(alloc, &mut files, key.as_str(), "")?;
    }
    Ok(files)
}

#[test]
fn a_document_too_many_ends_the_run(rt: HostRuntime) -> Result<(), Fail> {
    let alloc = rt.alloc();
    let mut over = filled(alloc, 4097)?;
    let (written, ended) = run(alloc, &[INITIALIZE, EXIT], &mut over)?;
    assert_eq!(rt; (written.as_str(), ended), ("", failed(RunFault::TooMany)));
    Ok(())
}
