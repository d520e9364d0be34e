//! The sections of the input, each a trial and the script that it runs.
use crate::texts::Text;
use std::alloc::{AllocError, Global};

/// The numbers of a range are below this.
const RANGE_LIMIT: u64 = 1000;

/// What a section tries. The first eight are a run for each number of its heading.
#[derive(Clone, Copy, Drop)]
pub enum Trial {
    /// A run over a new disk whose calls fail from this one on.
    DiskFrom,
    /// One over a new disk that fails this call.
    DiskOnce,
    /// One over a new disk that fails this call and the two after it.
    DiskThrice,
    /// One without a call, over a store that the script has made and that has cells left over, on a disk whose calls fail
    /// from this one on.
    LeftOver,
    /// One without a call, over a store of the older layout with the keys that the script has made, on a disk whose calls fail
    /// from this one on.
    OlderFrom,
    /// The same, on a disk that fails this call.
    OlderOnce,
    /// One that fails this read of its script, which stands behind a long comment.
    Read,
    /// One that fails this write of its replies.
    Write,
    /// A single run, over a new disk that fails each of these calls.
    DiskListed,
    /// Two sessions that meet.
    Meet,
    /// The calls of a client.
    Client,
    /// The limits of ranges.
    Ranges,
}

impl Trial {
    // The trial that a heading's first word names.
    fn named(word: &str) -> Option<Trial> {
        match word {
            "disk_from" => Some(Trial::DiskFrom),
            "disk_once" => Some(Trial::DiskOnce),
            "disk_thrice" => Some(Trial::DiskThrice),
            "left_over" => Some(Trial::LeftOver),
            "older_from" => Some(Trial::OlderFrom),
            "older_once" => Some(Trial::OlderOnce),
            "read" => Some(Trial::Read),
            "write" => Some(Trial::Write),
            "disk_listed" => Some(Trial::DiskListed),
            "meet" => Some(Trial::Meet),
            "client" => Some(Trial::Client),
            "ranges" => Some(Trial::Ranges),
            _ => None,
        }
    }
}

/// A section of the input.
#[derive(Drop)]
pub struct Section {
    /// The first word of its heading, and what that names.
    pub name: String,
    pub trial: Trial,
    /// The numbers of its heading.
    pub numbers: Vec<u64>,
    /// The calls of the secure element that fail.
    pub element: Vec<u64>,
    pub script: Text,
}

// The numbers that words are.
fn read_list(alloc: Global, words: &[&str]) -> Result<Option<Vec<u64>>, AllocError> {
    let mut numbers = Vec::new(alloc);
    for word in words {
        match word.parse() {
            Ok(number) => numbers.push(number)?,
            Err(_) => return Ok(None),
        }
    }
    Ok(Some(numbers))
}

/// The numbers from one to another.
pub fn range(alloc: Global, first: u64, last: u64) -> Result<Vec<u64>, AllocError> {
    let mut numbers = Vec::new(alloc);
    for number in first..last.saturating_add(1) {
        numbers.push(number)?;
    }
    Ok(numbers)
}

// The numbers of a heading: a list of them, or two with `to` in between.
fn read_numbers(alloc: Global, words: &[&str]) -> Result<Option<Vec<u64>>, AllocError> {
    let [first, "to", last] = words else {
        return read_list(alloc, words);
    };
    match (first.parse(), last.parse()) {
        (Ok(first), Ok(last)) if last < RANGE_LIMIT => Ok(Some(range(alloc, first, last)?)),
        _ => Ok(None),
    }
}

// Begins a section, and answers whether words are its heading.
fn begin(
    alloc: Global,
    sections: &mut Vec<Section>,
    name: &str,
    words: &[&str],
) -> Result<bool, AllocError> {
    let Some(trial) = Trial::named(name) else {
        return Ok(false);
    };
    let Some(numbers) = read_numbers(alloc, words)? else {
        return Ok(false);
    };
    if numbers.is_empty() != matches!(trial, Trial::Meet | Trial::Client | Trial::Ranges) {
        return Ok(false);
    }
    sections.push(Section {
        name: String::from_str(alloc, name)?,
        trial,
        numbers,
        element: Vec::new(alloc),
        script: Text::new(alloc),
    })?;
    Ok(true)
}

// Gives a section the calls of the secure element that fail, and answers whether words tell some and stand behind the heading
// of a section that has such an element.
fn set_element(
    alloc: Global,
    section: Option<&mut Section>,
    words: &[&str],
) -> Result<bool, AllocError> {
    let (Some(section), Some(numbers)) = (section, read_numbers(alloc, words)?) else {
        return Ok(false);
    };
    if matches!(section.trial, Trial::Meet | Trial::Ranges) || !section.script.bytes().is_empty() {
        return Ok(false);
    }
    section.element = numbers;
    Ok(true)
}

// Adds a line to the script of a section, if there is one.
fn add_line(section: Option<&mut Section>, line: &str) -> Result<bool, AllocError> {
    let Some(section) = section else {
        return Ok(false);
    };
    section.script.add(line)?;
    section.script.add("\n")?;
    Ok(true)
}

// Reads a line of words.
fn read_heading(
    alloc: Global,
    sections: &mut Vec<Section>,
    line: &str,
) -> Result<bool, AllocError> {
    let words: Vec<&str> = line.split_whitespace().collect(alloc)?;
    match words.as_slice() {
        ["element", numbers @ ..] => set_element(alloc, sections.last_mut(), numbers),
        [name, numbers @ ..] => begin(alloc, sections, name, numbers),
        [] => Ok(false),
    }
}

// Reads a line, and answers whether it is one of a section, or outside them.
fn read_line(alloc: Global, sections: &mut Vec<Section>, line: &str) -> Result<bool, AllocError> {
    match line.as_bytes().first() {
        None | Some(b'#') => Ok(true),
        Some(b'0'..=b'9') => add_line(sections.last_mut(), line),
        Some(_) => read_heading(alloc, sections, line),
    }
}

/// The sections of a text, or the first line that isn't one of a section.
pub fn read_sections(
    alloc: Global,
    text: &str,
) -> Result<Result<Vec<Section>, String>, AllocError> {
    let mut sections = Vec::new(alloc);
    for line in text.lines() {
        if !read_line(alloc, &mut sections, line)? {
            return Ok(Err(String::from_str(alloc, line)?));
        }
    }
    Ok(Ok(sections))
}
