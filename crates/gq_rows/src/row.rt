//! Rows of a file: texts, and what is wanted of them.
use crate::no_answer::NoAnswer;
use crate::pictures::{bytes_of, text_of};
use crate::telling::Telling;
use gq_project::{Doc, Project};
use gq_text::OwnedText;
use std::alloc::Global;

/// A text with its name, or a name alone, which stands for a file that cannot be read.
#[derive(Clone, Copy, Debug)]
pub struct Entry<'t> {
    pub key: &'t str,
    pub text: Option<&'t str>,
}

impl<'t> Entry<'t> {
    /// The entry of a line such as `q.graphql: {x}`.
    fn of(line: &'t str) -> Entry<'t> {
        match line.split_once(':') {
            Some((key, text)) => Entry {
                key,
                text: Some(text.trim()),
            },
            None => Entry {
                key: line,
                text: None,
            },
        }
    }

    /// The bytes of the text, or none of a file that cannot be read.
    pub fn bytes(&self, alloc: Global) -> Result<Option<Vec<u8>>, NoAnswer> {
        match self.text {
            Some(text) => Ok(Some(bytes_of(alloc, text)?)),
            None => Ok(None),
        }
    }

    pub fn text(&self, alloc: Global) -> Result<String, NoAnswer> {
        text_of(alloc, self.text.ok_or(NoAnswer)?)
    }

    fn document(&self, alloc: Global) -> Result<Doc, NoAnswer> {
        Ok(Doc {
            key: OwnedText::from_str(alloc, self.key)?,
            uri: OwnedText::from_str(alloc, self.key)?,
            version: Some(1),
            text: OwnedText::from_string(self.text(alloc)?),
        })
    }
}

/// Texts, and what is wanted of them.
#[derive(Debug, Drop)]
pub struct Row<'t> {
    /// The number of its first wanted line, counted from 1.
    pub line: usize,
    /// The texts that are given to several rows.
    pub given: Vec<Entry<'t>>,
    /// These, and then its own.
    pub entries: Vec<Entry<'t>>,
    wanted: Vec<&'t str>,
}

impl<'t> Row<'t> {
    /// What is wanted, a line behind the other.
    pub fn wanted(&self, alloc: Global) -> Result<String, NoAnswer> {
        text_of(alloc, self.wanted.as_slice().join(alloc, "\n")?.as_str())
    }

    /// Its last text.
    pub fn asked(&self, alloc: Global) -> Result<String, NoAnswer> {
        self.entries.last().ok_or(NoAnswer)?.text(alloc)
    }

    /// The bytes of its last text.
    pub fn asked_bytes(&self, alloc: Global) -> Result<Vec<u8>, NoAnswer> {
        let entry = self.entries.last().ok_or(NoAnswer)?;
        entry.bytes(alloc)?.ok_or(NoAnswer)
    }

    /// The name of a text, with a colon behind it; nothing of a text without a name.
    pub fn put_key(&self, number: usize, telling: &mut Telling) {
        if let Some(entry) = self.entries.get(number) {
            if !entry.key.is_empty() {
                telling.put(entry.key);
                telling.put(":");
            }
        }
    }
}

/// The project of texts.
pub fn project_of(alloc: Global, entries: &[Entry<'_>]) -> Result<Project, NoAnswer> {
    let mut project = Project::new(alloc);
    for entry in entries {
        project.put(entry.document(alloc)?)?;
    }
    Ok(project)
}

/// What a line of a file is.
enum Line<'t> {
    /// A blank line, or one that begins with `#`.
    Comment,
    /// `given NAME: TEXT`, or `given nothing`.
    Given(Entry<'t>),
    /// `NAME: TEXT`, or `NAME` alone.
    Entry(Entry<'t>),
    /// `> WANTED`.
    Wanted(&'t str),
    /// `TEXT => WANTED`.
    Whole(&'t str, &'t str),
}

impl<'t> Line<'t> {
    fn of(line: &'t str) -> Line<'t> {
        if line.is_empty() || line.starts_with('#') {
            return Line::Comment;
        }
        if let Some(wanted) = line.strip_prefix('>') {
            return Line::Wanted(wanted.trim());
        }
        if let Some((text, wanted)) = line.split_once("=>") {
            return Line::Whole(text.trim(), wanted.trim());
        }
        match line.strip_prefix("given ") {
            Some(entry) => Line::Given(Entry::of(entry)),
            None => Line::Entry(Entry::of(line)),
        }
    }
}

/// Rows as they are read, line by line.
#[derive(Drop)]
struct Reader<'t> {
    alloc: Global,
    given: Vec<Entry<'t>>,
    /// Whether a further given text stands beside those before it, as no row has come since.
    is_giving: bool,
    /// The texts of the next row.
    entries: Vec<Entry<'t>>,
    rows: Vec<Row<'t>>,
    /// Whether a further wanted line belongs to the last row.
    is_open: bool,
}

impl<'t> Reader<'t> {
    fn new(alloc: Global) -> Reader<'t> {
        Reader {
            alloc,
            given: Vec::new(alloc),
            is_giving: false,
            entries: Vec::new(alloc),
            rows: Vec::new(alloc),
            is_open: false,
        }
    }

    /// Takes the line of that number.
    fn take(&mut self, number: usize, line: Line<'t>) -> Result<(), NoAnswer> {
        match line {
            Line::Comment => self.is_open = false,
            Line::Given(entry) => self.give(entry)?,
            Line::Entry(entry) => {
                self.is_open = false;
                self.entries.push(entry)?;
            }
            Line::Wanted(wanted) => {
                self.want(number, wanted)?;
                self.is_open = true;
            }
            Line::Whole(text, wanted) => {
                self.is_open = false;
                let text = Some(text);
                self.entries.push(Entry { key: "", text })?;
                self.want(number, wanted)?;
            }
        }
        Ok(())
    }

    /// Gives a text to the rows that follow, alone or beside those just given, or nothing.
    fn give(&mut self, entry: Entry<'t>) -> Result<(), NoAnswer> {
        if !self.is_giving {
            self.given.clear();
        }
        if entry.text.is_some() {
            self.is_giving = true;
            self.given.push(entry)?;
        }
        Ok(())
    }

    /// Puts a wanted line into the last row, or into a new one.
    fn want(&mut self, number: usize, wanted: &'t str) -> Result<(), NoAnswer> {
        if !self.is_open {
            self.put_row(number)?;
        }
        if let Some(row) = self.rows.last_mut() {
            row.wanted.push(wanted)?;
        }
        Ok(())
    }

    /// Puts a row of the given texts and of those before it.
    fn put_row(&mut self, line: usize) -> Result<(), NoAnswer> {
        let given = Vec::from_slice(self.alloc, self.given.as_slice())?;
        let mut entries = Vec::from_slice(self.alloc, self.given.as_slice())?;
        entries.extend_from_slice(self.entries.as_slice())?;
        self.entries.clear();
        self.is_giving = false;
        self.rows.push(Row {
            line,
            given,
            entries,
            wanted: Vec::new(self.alloc),
        })?;
        Ok(())
    }
}

/// The rows of a file.
pub fn read_rows<'t>(alloc: Global, text: &'t str) -> Result<Vec<Row<'t>>, NoAnswer> {
    let mut reader = Reader::new(alloc);
    for (number, line) in text.lines().enumerate() {
        reader.take(number.saturating_add(1), Line::of(line))?;
    }
    Ok(reader.rows)
}
