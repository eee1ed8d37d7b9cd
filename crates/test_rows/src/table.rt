//! The lines of a table.

use crate::answer::Answer;
use crate::call::call;
use crate::row::{Row, Setting, Way};
use std::alloc::{AllocError, Global};
use std::test::Fail;
use test_library::support::{WHOLE, filler};

/// Bytes that have a name.
#[derive(Drop)]
struct Named {
    name: String,
    bytes: Vec<u8>,
}

/// What the lines so far have defined.
#[derive(Drop)]
pub struct Table {
    alloc: Global,
    named: Vec<Named>,
    mark: usize,
}

/// What is printed for a row, and whether the row expects something else.
#[derive(Drop)]
pub struct Seen {
    pub text: String,
    pub is_other: bool,
}

/// The setting of this key and value. Calls have to know it.
fn setting<'a>(key: &'a str, value: &'a str) -> Result<Setting<'a>, Fail> {
    let setting = Setting { key, value };
    if setting.is_known() {
        Ok(setting)
    } else {
        Err(Fail::new(format_args!("{key}={value} is no setting")))
    }
}

impl Table {
    /// No lines. Calls are marked by allocations of `mark` bytes, unless that is 0.
    pub fn new(alloc: Global, mark: usize) -> Table {
        Table {
            alloc,
            named: Vec::new(alloc),
            mark,
        }
    }

    /// Goes through a line. Returns what to print for it.
    pub fn line(&mut self, line: &str) -> Result<Option<Seen>, Fail> {
        let line = line.split("//").next().unwrap_or("").trim();
        if line.is_empty() {
            return Ok(None);
        }
        if let Some((given, answers)) = line.split_once("=>") {
            return self.row(given.trim(), answers.trim());
        }
        match line.split_once("=") {
            Some((name, words)) => self.name(name.trim(), words.trim())?,
            None => return self.other("no row"),
        }
        Ok(None)
    }

    /// A text to print.
    fn seen(&self, text: &str, is_other: bool) -> Result<Option<Seen>, Fail> {
        let text = String::from_str(self.alloc, text)?;
        Ok(Some(Seen { text, is_other }))
    }

    /// A text that differs from what a row expects.
    fn other(&self, text: &str) -> Result<Option<Seen>, Fail> {
        self.seen(text, true)
    }

    /// Gives bytes a name. Between quotes they are a text.
    fn name(&mut self, name: &str, words: &str) -> Result<(), Fail> {
        let mut bytes = Vec::new(self.alloc);
        match words.strip_prefix("\"") {
            Some(text) => bytes.extend_from_slice(text.trim_end_matches('"').as_bytes())?,
            None => {
                for word in words.split_ascii_whitespace() {
                    if !self.append(word, &mut bytes)? {
                        return Err(Fail::new("a word that stands for no bytes"));
                    }
                }
            }
        }
        let name = String::from_str(self.alloc, name)?;
        self.named.push(Named { name, bytes })?;
        Ok(())
    }

    /// Appends the bytes that a word stands for; for `WORD*N` N times those of the word. Reports
    /// whether the word stands for bytes.
    fn append(&self, word: &str, bytes: &mut Vec<u8>) -> Result<bool, Fail> {
        let (word, times) = match word.split_once("*") {
            Some((word, times)) => (word, times.parse::<u32>()?),
            None => (word, 1),
        };
        for _ in 0..times {
            if !self.append_once(word, bytes)? {
                return Ok(false);
            }
        }
        Ok(true)
    }

    /// Appends the bytes that a word stands for: a name, hex digits, or `..N` for N bytes that
    /// count up to 250 again and again.
    fn append_once(&self, word: &str, bytes: &mut Vec<u8>) -> Result<bool, Fail> {
        for named in &self.named {
            if named.name.as_str() == word {
                bytes.extend_from_slice(&named.bytes)?;
                return Ok(true);
            }
        }
        if let Some(count) = word.strip_prefix("..") {
            bytes.extend_from_slice(&filler(self.alloc, count.parse::<usize>()?)?)?;
            return Ok(true);
        }
        match hex::decode(self.alloc, word) {
            Ok(piece) => bytes.extend_from_slice(&piece)?,
            Err(hex::FromHexError::OutOfMemory) => return Err(Fail::from(AllocError)),
            Err(_) => return Ok(false),
        }
        Ok(true)
    }

    /// The call of a row. Words with a `=` are settings, all others stand for bytes, and `|`
    /// separates the two sides of these.
    fn given<'a>(&self, given: &'a str) -> Result<Row<'a>, Fail> {
        let (call, words) = given.split_once(" ").unwrap_or((given, ""));
        let mut row = Row {
            alloc: self.alloc,
            call,
            settings: Vec::new(self.alloc),
            left: Vec::new(self.alloc),
            right: Vec::new(self.alloc),
            mark: self.mark,
        };
        let mut is_right = false;
        for word in words.split_ascii_whitespace() {
            if word == "|" {
                is_right = true;
            } else {
                self.add(&mut row, word, is_right)?;
            }
        }
        Ok(row)
    }

    /// Adds a setting, or the bytes of a word to a side.
    fn add<'a>(&self, row: &mut Row<'a>, word: &'a str, is_right: bool) -> Result<(), Fail> {
        if let Some((key, value)) = word.split_once("=") {
            row.settings.push(setting(key, value)?)?;
            return Ok(());
        }
        let is_known = if is_right {
            self.append(word, &mut row.right)?
        } else {
            self.append(word, &mut row.left)?
        };
        if is_known {
            Ok(())
        } else {
            Err(Fail::new(format_args!("{word} stands for no bytes")))
        }
    }

    /// An answer, with each word that stands for bytes replaced by hex.
    fn spelled(&self, answer: &str) -> Result<String, Fail> {
        let mut spelled = Answer::new(self.alloc);
        for word in answer.split_ascii_whitespace() {
            let mut bytes = Vec::new(self.alloc);
            if self.append(word, &mut bytes)? {
                spelled.bytes(&bytes);
            } else {
                spelled.word(word);
            }
        }
        Ok(spelled.into_text()?)
    }

    /// Makes a row's call, and finds its answer among those of the row.
    fn row(&self, given: &str, answers: &str) -> Result<Option<Seen>, Fail> {
        let (whole, refused) = answers.split_once("=>").unwrap_or((answers, ""));
        let whole = self.spelled(whole)?;
        let row = self.given(given)?;
        if self.mark > 0 {
            self.refused(&row, whole.as_str(), refused.trim())
        } else {
            self.compared(&row, whole.as_str())
        }
    }

    /// What a row's call answers in one way, if there is such a call.
    fn answered(&self, row: &Row<'_>, way: Way) -> Result<Option<String>, Fail> {
        match call(row, way) {
            Some(seen) => Ok(Some(self.spelled(seen.into_text()?.as_str())?)),
            None => Ok(None),
        }
    }

    /// Makes a row's call in each of its ways, until an answer isn't the expected one.
    fn compared(&self, row: &Row<'_>, whole: &str) -> Result<Option<Seen>, Fail> {
        for sizes in row.readers() {
            for size in row.writers() {
                let way = Way { sizes, size: *size };
                let Some(seen) = self.answered(row, way)? else {
                    return self.other("no such call");
                };
                if seen.as_str() != whole {
                    return self.other(seen.as_str());
                }
            }
        }
        Ok(None)
    }

    /// Makes a row's call in one way, in which an allocation may fail, and finds its answer.
    fn refused(&self, row: &Row<'_>, whole: &str, refused: &str) -> Result<Option<Seen>, Fail> {
        let way = Way {
            sizes: WHOLE,
            size: usize::MAX,
        };
        let Some(seen) = self.answered(row, way)? else {
            return self.other("no such call");
        };
        if seen.as_str() == whole {
            return self.seen("whole", false);
        }
        for (place, answer) in refused.split(';').enumerate() {
            if self.spelled(answer)? == seen {
                let text = format!(in self.alloc; "refused {place}")?;
                return self.seen(text.as_str(), false);
            }
        }
        self.other(seen.as_str())
    }
}
