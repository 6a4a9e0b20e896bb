// What the programs that replay the oracle's lists share: a list is loaded, answers are numbers, and what was compared is
// counted and told.
#![tactic(auto)]

ghost use Rattle.std.specs.Prelude.{◌≡◌, IsUtf8, IsNone};
ghost use Rattle.io.specs.Counts.{IsPrefixLen};
ghost use Rattle.cases.specs.Answers.{mixed, refusal};
ghost use Rattle.cases.specs.Tally.{none, counted};

use refusals::Refused;
use std::fmt::Write;
use std::fs::File;
use std::io::Read;
use std::{fmt, fs, str};

// How many answers were compared, how many of them differ, and which is the first of those, counted from 1.
#[derive(Clone, Copy, Debug, PartialEq, Eq)]
pub struct Tally {
    pub compared: u32,
    pub differ: u32,
    pub first: Option<u32>,
}

impl Tally {
    pub fn new() -> Self
        ensures { result ≡ none }
    {
        Self {
            compared: 0,
            differ: 0,
            first: None,
        }
    }

    // Returned early, for what is the same nearly always: changed in place, the tally costs a count twice as much.
    pub fn count(self, same: bool) -> Self
        ensures { result ≡ counted self same }
    {
        let compared = self.compared.wrapping_add(1);
        if same {
            return Self { compared, ..self };
        }
        let differ = self.differ.wrapping_add(1);
        if self.differ == 0 {
            return Self {
                compared,
                differ,
                first: Some(compared),
            };
        }
        Self {
            compared,
            differ,
            ..self
        }
    }
}

impl fmt::Display for Tally {
    fn fmt<W: fmt::Write>(&self, f: &mut fmt::Formatter<W>) -> fmt::Result {
        write!(
            f,
            "{} answers compared, {} differ",
            self.compared, self.differ
        )?;
        match self.first {
            Some(first) if 0 < self.differ => write!(f, ", the first is number {first}"),
            _ => Ok(()),
        }
    }
}

// The digest of one answer more.
pub fn mixed(digest: u64, field: u64) -> u64
    ensures { result ≡ mixed digest field }
{
    let sum = digest.wrapping_add(field);
    let spread = sum.wrapping_add(sum << 10);
    spread ^ (spread >> 6)
}

// A refusal as an answer: its number from bit 32 on, and its place.
pub fn refusal(r: Refused) -> u64
    ensures { result ≡ refusal r }
{
    (u64::from(u8::from(r.why)) << 32) | (r.place as u64)
}

// Reads until there is no room left, the file ends or a read fails; gives the number of bytes.
pub fn read_full(file: &mut File, list: &mut [u8]) -> usize
    ensures { IsPrefixLen result list.new }
{
    let mut done = 0;
    // asked only while there is room: a read of nothing is a call of the system's, too
    while done < list.len() {
        let Ok(n @ 1..) = file.read(&mut list[done..]) else {
            break;
        };
        done += n;
    }
    done
}

// Opens a file of the program's folder. Where that fails it says so on standard error, and gives none. A name that is no
// text names no file: std takes a file's name as a text.
pub fn open(rt: &HostRuntime, path: &[u8]) -> Option<File>
    ensures { ¬ (IsUtf8 path.now) → IsNone result }
{
    let Ok(name) = str::from_utf8(path) else {
        io::write_all(2, path);
        io::write_all(2, b": the name is no text\n");
        return None;
    };
    match fs::open(rt, name) {
        Ok(file) => Some(file),
        Err(error) => {
            let _told = eprintln!(rt; "{name}: {error}");
            None
        }
    }
}

// Reads a file of the program's folder, as far as there is room; gives the number of bytes, 0 where it cannot be
// opened.
pub fn load(rt: &HostRuntime, path: &[u8], list: &mut [u8]) -> usize
    ensures { IsPrefixLen result list.new }
{
    match open(rt, path) {
        Some(mut file) => read_full(&mut file, list),
        None => 0,
    }
}

// Standard output, for `report`, which has no handle.
#[derive(Clone, Copy)]
struct Output;

impl fmt::Write for Output {
    fn write_str(&mut self, s: &str) -> fmt::Result {
        io::write_all(1, s.as_bytes());
        Ok(())
    }
}

pub fn report(name: &[u8], t: Tally)
    ensures { result ≡ tt }
{
    io::write_all(1, name);
    let _told = writeln!(Output, ": {t}");
}
