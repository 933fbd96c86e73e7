//! A run of a table.

use crate::devices::{CALM, Device, Devices};
use crate::directive::Directive;
use bit_lists::OutOfMemory;
use std::alloc::Global;

/// A device whose number goes through a range, or each front of file a.
#[derive(Clone, Copy)]
pub enum Sweep {
    Each(Device, u32, u32),
    Fronts,
}

/// A run, as its lines say it.
#[derive(Drop)]
pub struct Row {
    pub name: String,
    pub words: Vec<String>,
    pub files: Vec<Vec<u8>>,
    pub devices: Devices,
    pub stream: bool,
    pub brief: bool,
    pub count: bool,
    pub some_step: bool,
    pub sweep: Option<Sweep>,
}

impl Row {
    /// A run without words and files.
    pub fn new(alloc: Global, name: &str) -> Result<Row, OutOfMemory> {
        Ok(Row {
            name: String::from_str(alloc, name)?,
            words: Vec::new(alloc),
            files: Vec::new(alloc),
            devices: CALM,
            stream: false,
            brief: false,
            count: false,
            some_step: false,
            sweep: None,
        })
    }

    /// Takes what a line says of the run. False where it may not stand there.
    pub fn take(&mut self, alloc: Global, said: Directive<'_>) -> Result<bool, OutOfMemory> {
        match said {
            Directive::Words(text) => self.ask(alloc, text),
            Directive::File => self.open(alloc),
            Directive::Line(times, text) => self.write(times, text, "\n"),
            Directive::Part(times, text) => self.write(times, text, ""),
            _ => Ok(self.mark(said)),
        }
    }

    // The words are the program's name and these.
    fn ask(&mut self, alloc: Global, text: &str) -> Result<bool, OutOfMemory> {
        if !self.words.is_empty() {
            return Ok(false);
        }
        self.words.push(String::from_str(alloc, "sliq")?)?;
        for word in text.split_whitespace() {
            self.words.push(String::from_str(alloc, word)?)?;
        }
        Ok(true)
    }

    // The next file. No run has more than two.
    fn open(&mut self, alloc: Global) -> Result<bool, OutOfMemory> {
        if self.files.len() > 1 {
            return Ok(false);
        }
        self.files.push(Vec::new(alloc))?;
        Ok(true)
    }

    // Goes on with the last file.
    fn write(&mut self, times: u32, text: &str, end: &str) -> Result<bool, OutOfMemory> {
        let Some(file) = self.files.last_mut() else {
            return Ok(false);
        };
        for _ in 0..times {
            file.extend_from_slice(text.as_bytes())?;
            file.extend_from_slice(end.as_bytes())?;
        }
        Ok(true)
    }

    // What takes no memory.
    fn mark(&mut self, said: Directive<'_>) -> bool {
        match said {
            Directive::Set(device, number) => self.devices = self.devices.with(device, number),
            Directive::Stream => self.stream = true,
            Directive::Brief => self.brief = true,
            Directive::Count => self.count = true,
            Directive::SomeStep => self.some_step = true,
            Directive::Each(device, first, last) => {
                return self.vary(Sweep::Each(device, first, last));
            }
            Directive::Fronts => return self.vary(Sweep::Fronts),
            _ => return false,
        }
        true
    }

    // A run has one sweep.
    fn vary(&mut self, sweep: Sweep) -> bool {
        if self.sweep.is_some() {
            return false;
        }
        self.sweep = Some(sweep);
        true
    }
}
