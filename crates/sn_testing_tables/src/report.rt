//! What a test program prints.

use crate::{Case, Tally};
use anyhow::{Context, Result, ensure};
use std::alloc::Global;
use std::{env, fs};

/// The report of a test program, which goes to its standard output.
#[derive(Drop)]
pub struct Report<'a> {
    rt: &'a HostRuntime,
    folder: String,
    wrong: u64,
}

impl<'a> Report<'a> {
    /// The report of a program whose first argument is the folder of its tables.
    pub fn new(rt: &'a HostRuntime) -> Result<Self> {
        let folder = env::args(rt)?.nth(1).context("no folder of tables")?;
        Ok(Report {
            rt,
            folder,
            wrong: 0,
        })
    }

    /// What it prints to.
    pub fn runtime(&self) -> &'a HostRuntime {
        self.rt
    }

    /// The allocator of the program, whose refusals of memory end the program with an error.
    pub fn alloc(&self) -> Global {
        self.rt.alloc()
    }

    /// What stands in a file of the folder.
    fn read(&self, file: &str) -> Result<String> {
        let path = format!(in self.alloc(); "{}/{file}", self.folder)?;
        Ok(fs::read_to_string(self.rt, path)?)
    }

    /// Asks for the answer to each case of the table in a file.
    pub fn table<F: Fn(Global, Case<'_>) -> Result<String> + Drop>(
        &mut self,
        file: &str,
        answer: F,
    ) -> Result<()>
        requires { F.IsAlwaysCallable answer }
    {
        let table = self.read(file)?;
        let mut tally = Tally::new();
        for line in table.lines() {
            if is_case(line) {
                let (words, wanted) = parts_of(line)?;
                let told = answer(self.alloc(), Case::new(words))?;
                self.compare(&mut tally, words, told.as_str(), wanted)?;
            }
        }
        self.add(file, tally)
    }

    /// Asks once for the answers to all cases of the table in a file, a line for each.
    pub fn script<F: Fn(Global, &str) -> Result<String> + Drop>(
        &mut self,
        file: &str,
        answers: F,
    ) -> Result<()>
        requires { F.IsAlwaysCallable answers }
    {
        let table = self.read(file)?;
        let script = words_of(self.alloc(), table.as_str())?;
        let told = answers(self.alloc(), script.as_str())?;
        let tally = self.compare_lines(table.as_str(), told.as_str())?;
        self.add(file, tally)
    }

    fn compare_lines(&self, table: &str, told: &str) -> Result<Tally> {
        let mut tally = Tally::new();
        let mut told = told.lines();
        for line in table.lines() {
            if is_case(line) {
                let (words, wanted) = parts_of(line)?;
                self.compare(&mut tally, words, told.next().unwrap_or("nothing"), wanted)?;
            }
        }
        ensure!(told.next().is_none(), "more answers than cases");
        Ok(tally)
    }

    /// Counts a case, and prints it where the answer to it isn't what was wanted.
    fn compare(&self, tally: &mut Tally, words: &str, told: &str, wanted: &str) -> Result<()> {
        let is_right = told == wanted;
        tally.count(is_right);
        if !is_right {
            println!(self.rt; "wrong: {words} => {told}, and not {wanted}")?;
        }
        Ok(())
    }

    /// Prints how many cases there were of a subject.
    pub fn add(&mut self, subject: &str, tally: Tally) -> Result<()> {
        let (cases, wrong) = (tally.cases(), tally.wrong());
        self.wrong = self.wrong.saturating_add(wrong);
        println!(self.rt; "{subject}: {cases} cases, {wrong} wrong")?;
        Ok(())
    }

    /// Prints a text that is compared as it stands.
    pub fn print(&self, text: &str) -> Result<()> {
        print!(self.rt; "{text}")?;
        Ok(())
    }

    /// An error where any case went wrong.
    pub fn end(&self) -> Result<()> {
        ensure!(self.wrong == 0, "{} cases went wrong", self.wrong);
        Ok(())
    }
}

/// Whether a line of a table is a case.
fn is_case(line: &str) -> bool {
    !line.is_empty() && !line.starts_with('#')
}

/// The words of a case, and the answer that the table wants.
fn parts_of(line: &str) -> Result<(&str, &str)> {
    let (words, answer) = line
        .split_once("=>")
        .context(format_args!("no answer in: {line}"))?;
    Ok((words.trim(), answer.trim()))
}

/// The words of each case, on a line of their own.
fn words_of(alloc: Global, table: &str) -> Result<String> {
    let mut script = String::new(alloc);
    for line in table.lines() {
        if is_case(line) {
            let (words, _answer) = parts_of(line)?;
            script.push_str(words)?;
            script.push_str("\n")?;
        }
    }
    Ok(script)
}
