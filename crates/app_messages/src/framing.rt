//! Messages on a stream: a head that says how many bytes follow, an empty line, and these bytes.

use serde_json::Value;
use std::alloc::Global;
use std::collections::VecDeque;
use std::io::{ErrorKind, Read};

// The longest message that is read.
const MOST_BYTES: usize = 268_435_456;

// The longest line of a head. More without a line's end is no head.
const MOST_HEAD: usize = 8192;

// How many bytes of such a line are kept: a head may have begun there.
const KEPT: usize = 32;

// How many bytes are read at once.
const CHUNK: usize = 16384;

/// What comes next on a stream.
pub enum Frame {
    /// A message.
    Message(Value),
    /// Bytes that are no head, or a head without the length of a message.
    NoHead,
    /// As many bytes as a head says, which are no JSON.
    NoJson,
    /// A message that there is no memory for. It is passed over.
    Memory,
    /// The stream has ended.
    End,
}

impl Drop for Frame {
    fn drop(self) {
        match self {
            Frame::Message(_) => {}
            Frame::NoHead => {}
            Frame::NoJson => {}
            Frame::Memory => {}
            Frame::End => {}
        }
    }
}

/// A stream, as far as it is read.
pub struct Frames<R: Read + Drop> {
    alloc: Global,
    reader: R,
    // What was read and isn't dropped yet, and how much of it is used.
    bytes: Vec<u8>,
    used: usize,
    // The length that the head says which is being read, if it says one.
    length: usize,
    has_length: bool,
    // Whether there was something else since the last message.
    stray: bool,
}

impl<R: Read + Drop> Drop for Frames<R> {
    fn drop(self) {
        let Frames {
            alloc: _,
            reader: _,
            bytes: _,
            used: _,
            length: _,
            has_length: _,
            stray: _,
        } = self;
    }
}

// How a step of reading ended.
#[derive(Clone, Copy, PartialEq, Eq)]
enum Step {
    // There is more.
    More,
    // There is no memory for more.
    Memory,
    // The stream has ended.
    End,
}

// What a line of a head says.
#[derive(Clone, Copy)]
enum Line {
    // It ends the head.
    Empty,
    // The length of the message, and whether something stands before it.
    Length(usize, bool),
    // Another field of a head.
    Field,
    // It belongs to no head.
    Stray,
}

impl<R: Read + Drop> Frames<R> {
    /// A stream of which nothing is read.
    pub fn new(alloc: Global, reader: R) -> Frames<R> {
        Frames {
            alloc,
            reader,
            bytes: Vec::new(alloc),
            used: 0,
            length: 0,
            has_length: false,
            stray: false,
        }
    }

    /// Whether more was read than is used.
    pub fn is_waiting(&self) -> bool {
        self.used < self.bytes.len()
    }

    /// Reads on, as far as whole messages were received. Those that there is no memory for are read later.
    pub fn read_ahead(&mut self, waiting: &mut VecDeque<Frame>) {
        for _ in 0..u64::MAX {
            if !self.has_message() || waiting.try_reserve(1).is_err() {
                break;
            }
            if waiting.push_back(self.next_frame()).is_err() {
                break;
            }
        }
    }

    // Whether what was read begins with a whole message, where its head is one field.
    fn has_message(&self) -> bool {
        let rest = self.bytes.get(self.used..).unwrap_or(&[]);
        let count = rest.iter().take(MOST_HEAD).position(|byte| *byte == b'\n');
        let head = rest.get(..count.unwrap_or(0)).unwrap_or(&[]);
        match line_of(head) {
            Line::Length(length, true) => {
                let needed = length.saturating_add(head.len()).saturating_add(3);
                rest.len() >= needed
            }
            _ => false,
        }
    }

    /// What comes next.
    pub fn next_frame(&mut self) -> Frame {
        for _ in 0..u64::MAX {
            let end = match self.end_of_line() {
                Ok(end) => end,
                Err(Step::Memory) => return Frame::Memory,
                Err(_) => return self.last_frame(),
            };
            let line = self.line_before(end);
            self.used = end.saturating_add(1);
            if let Some(frame) = self.frame_after(line) {
                return frame;
            }
        }
        Frame::End
    }

    fn frame_after(&mut self, line: Line) -> Option<Frame> {
        match line {
            Line::Empty if self.has_length => {
                self.has_length = false;
                self.stray = false;
                Some(self.body())
            }
            Line::Empty => self.no_head_if_stray(),
            Line::Length(length, is_alone) => {
                self.length = length;
                self.has_length = true;
                self.stray = self.stray || !is_alone;
                self.no_head_if_stray()
            }
            Line::Field if self.has_length => None,
            Line::Field | Line::Stray => {
                self.stray = true;
                None
            }
        }
    }

    // Tells once of what belongs to no message.
    fn no_head_if_stray(&mut self) -> Option<Frame> {
        if !self.stray {
            return None;
        }
        self.stray = false;
        Some(Frame::NoHead)
    }

    // What the end of the stream makes.
    fn last_frame(&mut self) -> Frame {
        let is_cut = self.stray || self.has_length || self.is_waiting();
        self.stray = false;
        self.has_length = false;
        self.used = self.bytes.len();
        if is_cut { Frame::NoHead } else { Frame::End }
    }

    // Where the next line ends.
    fn end_of_line(&mut self) -> Result<usize, Step> {
        for _ in 0..u64::MAX {
            if let Some(end) = self.line_end() {
                return Ok(end);
            }
            if self.unused() > MOST_HEAD {
                self.used = self.bytes.len().saturating_sub(KEPT);
                self.stray = true;
            }
            match self.fill() {
                Step::More => {}
                other => return Err(other),
            }
        }
        Err(Step::End)
    }

    fn line_before(&self, end: usize) -> Line {
        match self.bytes.get(self.used..end) {
            Some(line) => line_of(line),
            None => Line::Stray,
        }
    }

    // The message of as many bytes as the head says.
    fn body(&mut self) -> Frame {
        let length = self.length;
        for _ in 0..u64::MAX {
            if self.unused() >= length {
                break;
            }
            match self.fill() {
                Step::More => {}
                Step::Memory => return self.passed_over(length),
                Step::End => return self.last_frame(),
            }
        }
        let end = self.used.saturating_add(length);
        let frame = self.message_before(end);
        self.used = end;
        frame
    }

    fn message_before(&self, end: usize) -> Frame {
        match self.bytes.get(self.used..end) {
            Some(body) => parsed(self.alloc, body),
            None => Frame::End,
        }
    }

    // How many bytes were read and aren't used.
    fn unused(&self) -> usize {
        self.bytes.len().saturating_sub(self.used)
    }

    // Where the first line feed stands behind what is used.
    fn line_end(&self) -> Option<usize> {
        let rest = self.bytes.get(self.used..)?;
        let length = rest.iter().position(|byte| *byte == b'\n')?;
        Some(self.used.saturating_add(length))
    }

    // Passes over a message that there is no memory for.
    fn passed_over(&mut self, length: usize) -> Frame {
        let mut left = length.saturating_sub(self.unused());
        self.bytes.clear();
        self.used = 0;
        let mut chunk = [0u8; CHUNK];
        for _ in 0..u64::MAX {
            if left == 0 {
                break;
            }
            let room = left.min(CHUNK);
            let Some(part) = chunk.get_mut(..room) else {
                break;
            };
            match self.reader.read(part) {
                Ok(0) => break,
                Ok(count) => left = left.saturating_sub(count),
                Err(error) if error.kind() == ErrorKind::Interrupted => {}
                Err(_) => break,
            }
        }
        Frame::Memory
    }

    // Reads more.
    fn fill(&mut self) -> Step {
        self.drop_used();
        if self.bytes.try_reserve(CHUNK).is_err() {
            return Step::Memory;
        }
        let mut chunk = [0u8; CHUNK];
        match self.reader.read(&mut chunk) {
            Ok(0) => Step::End,
            Ok(count) => match self.bytes.extend_from_slice(&chunk[..count]) {
                Ok(()) => Step::More,
                Err(_) => Step::Memory,
            },
            Err(error) if error.kind() == ErrorKind::Interrupted => Step::More,
            Err(_) => Step::End,
        }
    }

    // Drops what is used, where that is all or much.
    fn drop_used(&mut self) {
        let count = self.bytes.len();
        if self.used >= count {
            self.bytes.clear();
            self.used = 0;
        } else if self.used > CHUNK {
            let left = count.saturating_sub(self.used);
            self.bytes.copy_within(self.used..count, 0);
            self.bytes.truncate(left);
            self.used = 0;
        }
    }
}

// The message that bytes are.
fn parsed(alloc: Global, body: &[u8]) -> Frame {
    match Value::from_slice(alloc, body) {
        Ok(value) => Frame::Message(value),
        Err(error) if error.is_memory() => Frame::Memory,
        Err(_) => Frame::NoJson,
    }
}

// What a line of a head says.
fn line_of(line: &[u8]) -> Line {
    let Ok(text) = str::from_utf8(line) else {
        return Line::Stray;
    };
    let text = text.trim();
    if text.is_empty() {
        return Line::Empty;
    }
    match length_place(text) {
        Some(place) => length_at(text, place),
        None if is_field(text) => Line::Field,
        None => Line::Stray,
    }
}

// The name of the field that says the length.
const LENGTH: &str = "content-length:";

// Where that field begins in a line, however it is written.
fn length_place(text: &str) -> Option<usize> {
    for (at, _) in text.char_indices() {
        if begins_length(text, at) {
            return Some(at);
        }
    }
    None
}

// Whether that field begins at an offset.
fn begins_length(text: &str, at: usize) -> bool {
    match text.get(at..at.saturating_add(LENGTH.len())) {
        Some(part) => part.eq_ignore_ascii_case(LENGTH),
        None => false,
    }
}

// What a line says in which that field begins at an offset.
fn length_at(text: &str, place: usize) -> Line {
    let number = text
        .get(place.saturating_add(LENGTH.len())..)
        .unwrap_or("")
        .trim();
    match number.parse::<usize>() {
        Ok(length) if length <= MOST_BYTES => Line::Length(length, place == 0),
        _ => Line::Stray,
    }
}

// Whether a line is some field of a head.
fn is_field(text: &str) -> bool {
    match text.split_once(':') {
        Some((name, _)) => {
            !name.is_empty() && name.chars().all(|c| c.is_ascii_alphabetic() || c == '-')
        }
        None => false,
    }
}
