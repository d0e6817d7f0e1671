//! Lists of events that a desk with workers takes, with what it puts out for each of them.
ghost use Rattle.gq_edit.specs.Workspace.{AreTexts};

use crate::tests::desk_events::{EVENTS, FIRST_LINE};
use crate::tests::driving::are_texts;
use crate::tests::taker::Taker;
use gq_desk::{Done, Event, InputEnd, Job, Out, Task};
use gq_events::{Load, LoadedContent, copy_task};
use gq_kept::Kept;
use gq_project::{Doc, DocChange, Project};
use gq_rpc::{Incoming, Outgoing, Request, encode, read_message};
use gq_text::{OwnedText, PositionEncoding};
use std::alloc::Global;
use std::process::Abort;
use std::test::Fail;

/// A job that was handed on, and the documents that workers saw then.
#[derive(Drop)]
struct Given {
    job: Job,
    seen: Project,
}

/// A desk, what its workers know, and what it put out for the last event.
#[derive(Drop)]
struct Play {
    alloc: Global,
    desk: Taker,
    /// The documents as they were published.
    seen: Project,
    given: Vec<Given>,
    told: Vec<String>,
    /// So many lines of `told` were wanted.
    met: usize,
}

/// What a worker that keeps nothing yet makes of a job.
fn done_of(alloc: Global, number: u64, task: Task, texts: Project) -> Result<Done, Fail>
    requires { AreTexts texts }
{
    let mut kept = Kept::of(alloc, &Project::new(alloc))?;
    Ok(Done::of(alloc, number, task, texts, &[], &mut kept))
}

/// The line for a message to the client.
fn message_line(alloc: Global, message: &Outgoing) -> Result<String, Fail> {
    let frame = String::from_utf8(encode(alloc, message)?)?;
    let mut line = String::new(alloc);
    match frame.as_str().split_once("\r\n\r\n") {
        Some((_, body)) => write!(line, "<- {body}")?,
        None => return Err("a frame has no body".into()),
    }
    Ok(line)
}

/// The line for a change that workers are to see.
fn change_line(alloc: Global, change: &DocChange) -> Result<String, Fail> {
    let mut line = String::new(alloc);
    match change {
        DocChange::Put(doc) => {
            let key = doc.key.as_str();
            match doc.version {
                Some(version) => write!(line, "put {key} {version}")?,
                None => write!(line, "put {key} null")?,
            }
        }
        DocChange::Close(key) => write!(line, "close {}", key.as_str())?,
    }
    Ok(line)
}

/// The version that a word says: a number, or `null` for none.
fn version_in(word: &str) -> Result<Option<i64>, Fail> {
    if word == "null" {
        return Ok(None);
    }
    Ok(Some(word.parse::<i64>()?))
}

/// The number behind the word, and what comes then.
fn numbered<'a>(words: &'a str, word: &str) -> Result<(u64, &'a str), Fail> {
    let Some(rest) = words.strip_prefix(word) else {
        return Err("a number is missing".into());
    };
    match rest.split_once(' ') {
        Some((number, rest)) => Ok((number.parse::<u64>()?, rest)),
        None => Ok((rest.parse::<u64>()?, "")),
    }
}

impl Play {
    fn new(alloc: Global, workers: u8) -> Play {
        Play {
            alloc,
            desk: Taker::new(alloc, workers),
            seen: Project::new(alloc),
            given: Vec::new(alloc),
            told: Vec::new(alloc),
            met: 0,
        }
    }

    /// The job of that number, which was handed on.
    fn given(&self, number: u64) -> Result<&Given, Fail> {
        match self.given.iter().find(|given| given.job.number == number) {
            Some(given) => Ok(given),
            None => Err("no job has that number".into()),
        }
    }

    /// The task that is meant: that of a job, or that of a request's body, with positions in UTF-16.
    fn task(&self, word: &str) -> Result<Task, Fail> {
        if !word.starts_with('{') {
            let given = self.given(word.parse::<u64>()?)?;
            return Ok(copy_task(self.alloc, &given.job.task)?);
        }
        match read_message(self.alloc, word.as_bytes())? {
            Incoming::Request(id, request) => match request {
                Request::Ask(question) => Ok(Task::Ask(PositionEncoding::Utf16, id, question)),
                _ => Err("no question".into()),
            },
            _ => Err("no request".into()),
        }
    }

    /// The documents that are meant: those of now, or those as a job was handed on.
    fn texts(&self, word: &str) -> Result<Project, Fail> {
        if word == "now" {
            return Ok(self.seen.copied(self.alloc)?);
        }
        let given = self.given(word.parse::<u64>()?)?;
        Ok(given.seen.copied(self.alloc)?)
    }

    /// Puts a document in place of the one of its key: a key, a version and a text.
    fn change_text(&self, texts: &mut Project, words: &str) -> Result<(), Fail> {
        let Some((key, rest)) = words.split_once(' ') else {
            return Err("a key stands alone".into());
        };
        let Some((version, text)) = rest.split_once(' ') else {
            return Err("a text is missing".into());
        };
        texts.put(Doc {
            key: OwnedText::from_str(self.alloc, key)?,
            uri: OwnedText::from_str(self.alloc, key)?,
            version: version_in(version)?,
            text: OwnedText::from_str(self.alloc, text)?,
        })?;
        Ok(())
    }

    /// What a worker made of a job: `NUMBER of TASK seeing TEXTS`, and behind that `with KEY VERSION TEXT`.
    fn done(&self, words: &str) -> Result<Done, Fail> {
        let (number, rest) = numbered(words, "")?;
        let Some((task, rest)) = rest.split_once(" seeing ") else {
            return Err("a job has no texts".into());
        };
        let Some(task) = task.strip_prefix("of ") else {
            return Err("a job has no task".into());
        };
        let (seen, change) = match rest.split_once(" with ") {
            Some((seen, change)) => (seen, Some(change)),
            None => (rest, None),
        };
        let mut texts = self.texts(seen)?;
        if let Some(change) = change {
            self.change_text(&mut texts, change)?;
        }
        if !are_texts(&texts) {
            return Err("a text is too long".into());
        }
        done_of(self.alloc, number, self.task(task)?, texts)
    }

    /// What was loaded: `KEY text TEXT`, `KEY gone` or `KEY unfit`.
    fn load(&self, words: &str) -> Result<Load, Fail> {
        let Some((key, rest)) = words.split_once(' ') else {
            return Err("a key stands alone".into());
        };
        let content = match rest.split_once(' ') {
            Some(("text", text)) => LoadedContent::Text(OwnedText::from_str(self.alloc, text)?),
            None if rest == "gone" => LoadedContent::Gone,
            None if rest == "unfit" => LoadedContent::Unfit,
            _ => return Err("nothing is loaded so".into()),
        };
        Ok(Load {
            key: OwnedText::from_str(self.alloc, key)?,
            uri: OwnedText::from_str(self.alloc, key)?,
            content,
        })
    }

    /// The event of a line, if it is one.
    fn event(&self, word: &str, rest: &str) -> Result<Option<Event>, Fail> {
        match word {
            "->" => Ok(Some(Event::Message(read_message(self.alloc, rest.as_bytes())?))),
            "load" => Ok(Some(Event::Load(self.load(rest)?))),
            "done" => Ok(Some(Event::Done(self.done(rest)?))),
            "end" if rest == "border" => Ok(Some(Event::End(InputEnd::Border))),
            "end" if rest == "fault" => Ok(Some(Event::End(InputEnd::Fault))),
            _ => Ok(None),
        }
    }

    /// Takes what is put out, and answers the line for it.
    fn take(&mut self, out: Out) -> Result<String, Fail> {
        let mut line = String::new(self.alloc);
        match out {
            Out::Reply(message) => return message_line(self.alloc, &message),
            Out::Notify(message) => return message_line(self.alloc, &message),
            Out::Publish(change) => {
                let line = change_line(self.alloc, &change)?;
                self.seen.change(change)?;
                return Ok(line);
            }
            Out::Job(job) => {
                write!(line, "job {}", job.number)?;
                let seen = self.seen.copied(self.alloc)?;
                self.given.push(Given { job, seen })?;
            }
            Out::Stop(status) => write!(line, "stop {status}")?,
        }
        Ok(line)
    }

    /// Lets the desk take an event.
    fn step(&mut self, event: Event) -> Result<(), Fail> {
        let outs = self.desk.step(self.alloc, event)?;
        self.told = Vec::new(self.alloc);
        self.met = 0;
        for out in outs {
            let line = self.take(out)?;
            self.told.push(line)?;
        }
        Ok(())
    }

    /// What was put out and not wanted, if anything was.
    fn left(&self) -> Option<&str> {
        self.told.get(self.met).map(|line| line.as_str())
    }
}

/// Judges a line. An event wants that all that was put out for the one before was wanted.
fn judge_line<R: Abort>(rt: &R, number: usize, play: &mut Play, line: &str) -> Result<(), Fail> {
    let (word, rest) = line.split_once(' ').unwrap_or((line, ""));
    match play.event(word, rest)? {
        Some(event) => {
            assert_eq!(rt; play.left(), None, "before line {number}");
            play.step(event)
        }
        None => {
            assert_eq!(rt; play.left(), Some(line), "line {number}");
            play.met = play.met.saturating_add(1);
            Ok(())
        }
    }
}

/// Begins a list: a new desk with so many workers.
fn begin(play: &mut Play, workers: &str) -> Result<(), Fail> {
    let workers = workers.parse::<u8>()?;
    *play = Play::new(play.alloc, workers);
    Ok(())
}

/// Judges the lines of lists, and answers how many lists they are: `workers N` begins one.
fn judge_lines<R: Abort>(rt: &R, play: &mut Play, text: &str) -> Result<usize, Fail> {
    let mut lists: usize = 0;
    for (index, line) in text.lines().enumerate() {
        if line.is_empty() || line.starts_with('#') {
            continue;
        }
        let number = index.saturating_add(FIRST_LINE);
        match line.strip_prefix("workers ") {
            Some(workers) => {
                assert_eq!(rt; play.left(), None, "before line {number}");
                begin(play, workers)?;
                lists = lists.saturating_add(1);
            }
            None => judge_line(rt, number, play, line)?,
        }
    }
    assert_eq!(rt; play.left(), None, "behind the last line");
    Ok(lists)
}

/// The same, the first list on a new desk.
fn judge_events<R: Abort>(rt: &R, alloc: Global, text: &str) -> Result<usize, Fail> {
    let mut play = Play::new(alloc, 0);
    judge_lines(rt, &mut play, text)
}

#[test]
fn a_desk_puts_out_what_lists_of_events_say(rt: HostRuntime) -> Result<(), Fail> {
    let lists = judge_events(&rt, rt.alloc(), EVENTS)?;
    assert_eq!(rt; lists, 24);
    Ok(())
}
