use crate::expected::push_line;
use std::alloc::{AllocError, Global};

/// A script and the whole texts, one of which is printed of it: more than one where threads decide.
#[derive(Drop)]
pub struct Case {
    /// What the script shows.
    pub name: String,
    /// How many entries a journal may hold, where that isn't the program's own limit.
    pub limits: Option<Limits>,
    pub script: String,
    pub texts: Vec<String>,
}

/// The limits with which a script prints one text: each number from `least` to `most`.
#[derive(Clone, Copy)]
pub struct Limits {
    pub least: u32,
    pub most: u32,
}

/// The cases of a file. Each begins with a line `== NAME`, `== NAME LIMIT` or `== NAME LEAST-MOST`; its script follows, then
/// each of its texts behind a line `--`. What stands before the first case is a remark.
pub fn cases(alloc: Global, text: &str) -> anyhow::Result<Vec<Case>> {
    let mut found = Vec::new(alloc);
    for line in text.lines() {
        match line.strip_prefix("== ") {
            Some(head) => found.push(Case::named(alloc, head)?)?,
            None => add_line(alloc, &mut found, line)?,
        }
    }
    Ok(found)
}

// A further line of the last case.
fn add_line(alloc: Global, cases: &mut Vec<Case>, line: &str) -> Result<(), AllocError> {
    match cases.last_mut() {
        Some(case) => case.add(alloc, line),
        None => Ok(()),
    }
}

impl Limits {
    // `7` is that number alone; `7-60` is each from 7 to 60.
    fn named(words: &str) -> anyhow::Result<Limits> {
        let (least, most) = words.split_once("-").unwrap_or((words, words));
        Ok(Limits {
            least: least.parse::<u32>()?,
            most: most.parse::<u32>()?,
        })
    }
}

impl Case {
    // A case without lines, from what stands behind its mark.
    fn named(alloc: Global, head: &str) -> anyhow::Result<Case> {
        let (name, limits) = match head.split_once(" ") {
            Some((name, limits)) => (name, Some(Limits::named(limits)?)),
            None => (head, None),
        };
        Ok(Case {
            name: String::from_str(alloc, name)?,
            limits,
            script: String::new(alloc),
            texts: Vec::new(alloc),
        })
    }

    /// Whether what was printed is one of the texts.
    pub fn expects(&self, found: &[u8]) -> bool {
        self.texts.iter().any(|text| found == text.as_bytes())
    }

    // A further line of the script or of its last text.
    fn add(&mut self, alloc: Global, line: &str) -> Result<(), AllocError> {
        if line == "--" {
            self.texts.push(String::new(alloc))?;
            return Ok(());
        }
        if let Some(text) = self.texts.last_mut() {
            return push_line(text, line);
        }
        self.script.push_str(line)?;
        self.script.push('\n')
    }
}
