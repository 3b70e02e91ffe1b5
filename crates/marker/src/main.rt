// The session marker (02, #114) as a program: for each saved session, `>` before each sent line and `<` before each answer, it
// writes one line.
//
//     marker FILE..           sessions in files
//     marker                  a session from standard input
//     marker --status FILE..  the same, each line after a digit and a blank: 0 all agree, 1 one differs, 2 broken or unreadable
//
//     anna.txt: all 12 lines agree
//     ben.txt: line 7: VOLT? was answered 12.0, the box answers 5.0
//     cara.txt: line 7: VOLT? was not answered, the box answers 5.0
//     dan.txt: line 7: VOLT 5 was answered 5.0, the box answers nothing
//     eva.txt: line 1: 5.0 is recorded as an answer before anything was sent
//     fay.txt: line 3 is broken: it is empty
//     gus.txt: line 3 is broken: it begins neither with > nor with <
//     hal.txt: cannot be read
//
// What is found is `writer::session`'s, whose statement says it of any bytes in any pieces. That the pieces are what was read,
// and that the line tells what was found, is to be read below: no contract can say what is read or written. A line is composed
// first and written at once, so that several markers can write into one file or pipe. What was sent and recorded is looked up by
// its line's number once it is needed, in the buffer; of a session of more than 1,048,575 bytes the numbers and the box's answer are told.
// Nothing is allocated, and the program ends with status 0, whatever it found.
#![tactic(auto)]

ghost use Rattle.std.specs.Prelude.{◌≤◌, length, IfOk};

mod report;

use arrayvec::ArrayVec;
use interpreter::state::{ANSWER, STORE};
use report::{Finding, Visible};
use std::env::{Env, FillError};
use std::fmt::Display;
use std::io::{Read, Write};
use std::rt::Files;
use std::{fs, io, str};
use writer::session;

// The buffer for a session, or for the next part of a longer one.
const INPUT: usize = 1048576;

// The room for a line of the report. The longest has less than 19,000 bytes: a name has at most 4,096, and four times as many
// where each is spelled out, and what is said of a session at most three texts of 802 bytes and some words.
const LINE: usize = 20480;

// The room for an argument: a longer one is taken for an empty one.
const NAME: usize = 4096;

// What each line of the report needs: the program's handle, and whether a status digit is wanted.
#[derive(Clone, Copy)]
struct Teller<'a, R> {
    rt: &'a R,
    status: bool,
}

// Reads until the buffer is full, or the input ends or can't be read, and gives how many bytes came.
fn read_full(source: &mut impl Read, input: &mut [u8]) -> usize
    ensures { result ≤ length input.new }
{
    let mut done = 0;
    while done < input.len() {
        let n = source.read(&mut input[done..]).unwrap_or(0);
        if n == 0 {
            return done;
        }
        done += n;
    }
    done
}

// Fills a buffer, as far as the input goes. An input that can't be read any more says so again when it is asked for one more byte.
fn fill(source: &mut impl Read, input: &mut [u8]) -> io::Result<usize>
    ensures { IfOk result (λ n. n ≤ length input.new) }
{
    let n = read_full(source, input);
    if n < input.len() {
        source.read(&mut [0])?;
    }
    Ok(n)
}

// Marks a session, a buffer at a time. A proved loop has to end: this one does after more buffers than any session has.
fn mark<'a>(
    source: &mut impl Read,
    input: &'a mut [u8; INPUT],
    room: &'a mut [u8; ANSWER],
) -> io::Result<Finding<'a>> {
    let mut store = [0u8; STORE];
    let mut marker = session::begin();
    for turn in 0..u64::MAX {
        let n = fill(source, input)?;
        marker = session::feed(marker, &mut store, room, &input[..n]);
        if n < INPUT {
            let report = session::finish(marker, &mut store, room);
            let session = (turn == 0).then_some(&input[..n]);
            return Ok(Finding {
                report,
                room,
                session,
            });
        }
    }
    Err(io::Error::from(io::ErrorKind::FileTooLarge))
}

impl<R: Files + Print> Teller<'_, R> {
    // Writes a line of the report at once. If that fails the other sessions are marked all the same.
    fn tell_line(&self, status: u8, name: &[u8], words: impl Display + Drop) {
        let mut line: ArrayVec<u8, LINE> = ArrayVec::new();
        if self.status {
            let _ = write!(line, "{status} ");
        }
        let _ = writeln!(line, "{}: {words}", Visible(name));
        let _ = self.rt.write_all(line.as_slice());
    }

    // Marks a session and writes its line.
    fn tell(&self, name: &[u8], source: &mut impl Read, input: &mut [u8; INPUT]) {
        let mut room = [0u8; ANSWER];
        match mark(source, input, &mut room) {
            Ok(finding) => self.tell_line(finding.status(), name, finding),
            Err(_) => self.tell_unreadable(name),
        }
    }

    // Tells of a session that can't be read.
    fn tell_unreadable(&self, name: &[u8]) {
        self.tell_line(2, name, "cannot be read");
    }

    // Marks the session in a file.
    fn tell_file(&self, name: &[u8], input: &mut [u8; INPUT]) {
        match path_of(name).and_then(|path| fs::open(self.rt, path)) {
            Ok(mut file) => self.tell(name, &mut file, input),
            Err(_) => self.tell_unreadable(name),
        }
    }
}

// Takes a file's name as text: to std no other is one. The recorder has this and `argument` too, as the two programs share no
// crate that knows of arguments and files, and one for these lines alone would be more to read.
fn path_of(name: &[u8]) -> io::Result<&str> {
    str::from_utf8(name).map_err(|_| io::Error::from(io::ErrorKind::InvalidFilename))
}

// Gives an argument, if there are as many. One that is longer than any name of a file is taken for an empty one, which names none either.
fn argument<'a>(rt: &impl Env, i: usize, word: &'a mut [u8; NAME]) -> Option<&'a [u8]> {
    match rt.arg(i, word) {
        Ok(n) => Some(&word[..n]),
        Err(FillError::TooLong) => Some(b""),
        Err(FillError::NotPresent) => None,
    }
}

// Marks what the arguments name, or else what comes on standard input.
fn run(rt: &(impl Env + Files + Input + Print), input: &mut [u8; INPUT]) {
    let mut word = [0u8; NAME];
    let status = argument(rt, 1, &mut word).is_some_and(|word| word.starts_with(b"--"));
    let teller = Teller { rt, status };
    let first = if status { 2 } else { 1 };
    for i in first..usize::MAX {
        match argument(rt, i, &mut word) {
            Some(name) => teller.tell_file(name, input),
            None if i == first => return teller.tell(b"standard input", &mut rt.reader(), input),
            None => return,
        }
    }
}

fn main(rt: HostRuntime) {
    let mut input = [0u8; INPUT];
    run(&rt, &mut input);
}
