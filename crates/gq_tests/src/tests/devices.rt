//! A framer that has failed, and devices that are interrupted or fail.
use gq_rpc::{Flagged, FrameFault, Framer, Sink, SinkFailed, Source, send};
use std::alloc::Global;
use std::io;
use std::io::{ErrorKind, Read, Write};
use std::test::Fail;

#[test]
fn after_a_fault_a_framer_has_failed(rt: HostRuntime) -> Result<(), Fail> {
    let alloc = rt.alloc();
    let mut framer = Framer::new(alloc);
    let mut bodies = Vec::new(alloc);
    let stream = b"Content-Length: 2\r\n\r\n{}\r\n";
    let first = framer.feed(alloc, stream, &mut bodies);
    let count = bodies.len();
    let second = framer.feed(alloc, stream, &mut bodies);
    let told = (first, count, second, bodies.len(), framer.end());
    let failed = Err(FrameFault::Failed);
    assert_eq!(rt; told, (Err(FrameFault::NoLength), 1, failed, 1, failed));
    let printed = format!(in alloc; "{} {}", FrameFault::TooLong, SinkFailed)?;
    assert_eq!(rt; printed.as_str(), "TooLong Device");
    Ok(())
}

/// A reader and a writer of one byte a call, whose calls are interrupted in turn until they fail.
#[derive(Drop)]
struct Halting {
    held: Vec<u8>,
    calls_left: usize,
}

impl Halting {
    fn turn(&mut self) -> io::Result<()> {
        if self.calls_left == 0 {
            return Err(io::Error::from(ErrorKind::BrokenPipe));
        }
        self.calls_left -= 1;
        if self.calls_left % 2 == 0 {
            return Err(io::Error::from(ErrorKind::Interrupted));
        }
        Ok(())
    }
}

impl Read for Halting {
    fn read(&mut self, buffer: &mut [u8]) -> io::Result<usize> {
        self.turn()?;
        let Some(place) = buffer.first_mut() else {
            return Ok(0);
        };
        match self.held.pop() {
            Some(byte) => {
                *place = byte;
                Ok(1)
            }
            None => Ok(0),
        }
    }
}

impl Write for Halting {
    fn write(&mut self, bytes: &[u8]) -> io::Result<usize> {
        self.turn()?;
        let Some(byte) = bytes.first() else {
            return Ok(0);
        };
        self.held.push(*byte)?;
        Ok(1)
    }

    fn flush(&mut self) -> io::Result<()> {
        Ok(())
    }
}

/// What four reads give, each with the first byte of the buffer after it.
fn read_four(alloc: Global, input: &mut Flagged<Halting>) -> Result<String, Fail> {
    let mut buffer = [0u8; 4];
    let mut told = String::new(alloc);
    for _ in 0..4 {
        let reading = input.read(&mut buffer);
        write!(told, " {reading:?} {}", char::from(buffer[0]))?;
    }
    Ok(told)
}

#[test]
fn interrupted_calls_are_done_again(rt: HostRuntime) -> Result<(), Fail> {
    let alloc = rt.alloc();
    let mut output = Flagged::new(Halting {
        held: Vec::new(alloc),
        calls_left: 6,
    });
    assert_eq!(rt; send(&mut output, b"abc"), Ok(()));
    let held = format!(in alloc; "{:?}", output.inner.held)?;
    let more = send(&mut output, b"d");
    let failed = output.failed;
    let mut input = Flagged::new(output.inner);
    let mut buffer = [0u8; 4];
    let early = input.read(&mut buffer);
    input.inner.calls_left = 8;
    let read = read_four(alloc, &mut input)?;
    let ended = input.ended;
    let told = format!(in alloc; "{held} {more:?} {failed} {early:?}{read} {ended}")?;
    assert_eq!(rt;
        told.as_str(),
        "[97, 98, 99] Err(SinkFailed) true Failed Bytes(1) c Bytes(1) b Bytes(1) a End a true"
    );
    Ok(())
}

#[test]
fn a_write_of_nothing_is_a_failure(rt: HostRuntime) -> Result<(), Fail> {
    let mut room = [0u8; 2];
    let mut output = Flagged::new(room.as_mut_slice());
    let told = (output.write(b"ab"), output.write(b"c"), output.failed);
    assert_eq!(rt; told, (Some(2), None, true));
    Ok(())
}
