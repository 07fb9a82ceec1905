//! A script of cases, taken line by line.
//! The language of the cases: README.md.
//! The rule: docs/PROVING.md, "Tests".

use crate::files::Files;
use crate::not_taken::NotTaken;
use crate::seen::{Seen, is_look};
use crate::settings::Settings;
use crate::texts::{numbered, range};
use std::alloc::Global;

/// A question that is handed out, and the answer that is wanted.
#[derive(Clone, Copy)]
pub struct Asked<'a> {
    /// The question.
    pub question: &'a str,
    /// The wanted answer.
    pub wanted: &'a str,
}

/// The state between two lines.
#[derive(Drop)]
pub struct Script {
    alloc: Global,
    /// The numbers of all cases, and those of this one.
    base: Settings,
    settings: Settings,
    /// Whether a case has begun.
    is_case: bool,
    /// The numbers for which the number of this name is asked, one after the other.
    first: u32,
    last: u32,
    swept: String,
    files: Files,
    /// What the last question left, for each number.
    seen: Vec<Seen>,
    /// The name of the case.
    name: String,
    compared: u32,
    differences: String,
}

impl Script {
    /// No line yet.
    pub fn new(alloc: Global) -> Self {
        Script {
            alloc,
            base: Settings::new(),
            settings: Settings::new(),
            is_case: false,
            first: 0,
            last: 0,
            swept: String::new(alloc),
            files: Files::new(alloc),
            seen: Vec::new(alloc),
            name: String::new(alloc),
            compared: 0,
            differences: String::new(alloc),
        }
    }

    /// How many answers were compared.
    pub fn compared(&self) -> u32 {
        self.compared
    }

    /// The answers that are not the wanted ones, a line each.
    pub fn differences(&self) -> &str {
        self.differences.as_str()
    }

    /// The files of the case.
    pub fn files(&self) -> &Files {
        &self.files
    }

    /// The numbers of the case.
    pub fn settings(&self) -> &Settings {
        &self.settings
    }

    /// The first of the numbers for which a question is asked.
    pub fn first(&self) -> u32 {
        self.first
    }

    /// The last of them.
    pub fn last(&self) -> u32 {
        self.last
    }

    /// Tells that a line is not taken. An error is want of memory.
    pub fn refuse(&mut self, line: &str) -> Result<(), NotTaken> {
        self.differences.push_str("not taken: ")?;
        self.differences.push_str(line)?;
        self.differences.push_str("\n")?;
        Ok(())
    }

    /// Takes a line. A question about what the last one left is answered; any other is handed out, to be answered behind
    /// `begin_answers` for each number, and compared by `compare_all`. An error is a line that is none of the language,
    /// or want of memory.
    pub fn take<'a>(&mut self, line: &'a str) -> Result<Option<Asked<'a>>, NotTaken> {
        if line.is_empty() || line.starts_with('#') {
            return Ok(None);
        }
        if let Some(row) = line.strip_prefix("  ") {
            self.files.add_row(row)?;
            return Ok(None);
        }
        match line.split_once(" => ") {
            Some((question, wanted)) if is_look(question) => {
                self.compare_all(question, wanted)?;
                Ok(None)
            }
            Some((question, wanted)) => Ok(Some(Asked { question, wanted })),
            None => {
                self.change(line)?;
                Ok(None)
            }
        }
    }

    /// Takes a line that changes the case.
    fn change(&mut self, line: &str) -> Result<(), NotTaken> {
        let (verb, rest) = line.split_once(' ').unwrap_or((line, ""));
        match verb {
            "case" => self.begin(rest),
            "turn" => self.turn(),
            "file" | "bytes" | "gone" | "resize" | "of" | "says" => {
                self.files.change(verb, rest, self.settings.periods)
            }
            _ => self.set(line),
        }
    }

    /// Begins a case.
    fn begin(&mut self, name: &str) -> Result<(), NotTaken> {
        if !self.is_case {
            self.is_case = true;
            self.base = self.settings;
            self.files.keep_base();
        }
        self.settings = self.base;
        self.files.begin();
        self.sweep("", 0, 0)?;
        self.seen = Vec::new(self.alloc);
        self.name = String::from_str(self.alloc, name)?;
        Ok(())
    }

    /// What was written is the source of the next run.
    fn turn(&mut self) -> Result<(), NotTaken> {
        match self.seen.last() {
            Some(seen) => self.files.give_bytes("turned", &seen.output),
            None => Err(NotTaken),
        }
    }

    /// The number of this name is each of these.
    fn sweep(&mut self, name: &str, first: u32, last: u32) -> Result<(), NotTaken> {
        self.swept = String::from_str(self.alloc, name)?;
        self.first = first;
        self.last = last;
        Ok(())
    }

    /// Sets a number, or says which numbers it is to be.
    fn set(&mut self, line: &str) -> Result<(), NotTaken> {
        let (name, numbers) = line.rsplit_once(' ').unwrap_or(("", line));
        let (first, last) = range(numbers)?;
        if !self.settings.set(name, first) {
            return Err(NotTaken);
        }
        if first < last {
            self.sweep(name, first, last)
        } else if self.swept.as_str() == name {
            self.sweep("", 0, 0)
        } else {
            Ok(())
        }
    }

    /// Nothing is left of the last question.
    pub fn begin_answers(&mut self) {
        self.seen = Vec::new(self.alloc);
    }

    /// The next answer is for this number.
    pub fn turn_to(&mut self, number: u32) {
        let _is_swept = self.settings.set(self.swept.as_str(), number);
    }

    /// Keeps what a question left for the next number. An error is want of memory.
    pub fn keep(&mut self, seen: Seen) -> Result<(), NotTaken> {
        self.seen.push(seen)?;
        Ok(())
    }

    /// Compares the answer of a question with the wanted one, for each number. An error is that nothing was left for a
    /// number, or want of memory.
    pub fn compare_all(&mut self, question: &str, wanted: &str) -> Result<(), NotTaken> {
        if self.seen.is_empty() {
            return Err(NotTaken);
        }
        for number in self.first..=self.last {
            self.compare(question, wanted, number)?;
        }
        Ok(())
    }

    /// Compares the answer for a number with the wanted one.
    fn compare(&mut self, question: &str, wanted: &str, number: u32) -> Result<(), NotTaken> {
        let Some(seen) = self.seen.get(number.saturating_sub(self.first) as usize) else {
            return Err(NotTaken);
        };
        let wanted = numbered(self.alloc, wanted, number)?;
        let answer = seen.look(self.alloc, question, &self.files)?;
        self.compared = self.compared.saturating_add(1);
        if answer != wanted {
            let name = self.name.as_str();
            let line = format!(in self.alloc;
                "case {name}: {question} => {answer}, not {wanted}\n"
            )?;
            self.differences.push_str(line.as_str())?;
        }
        Ok(())
    }
}
