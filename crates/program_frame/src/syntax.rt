//! The arguments that a program takes, and which of given arguments is wrong.

use crate::names::is_file_name;
use crate::wrong::Wrong;

/// The value that an option requires.
#[derive(Clone, Copy)]
pub enum Value {
    /// Any word. Lines call it by this name.
    Any(&'static str),
    /// A number, at most this one.
    Number(u64),
    /// One of these words.
    OneOf(&'static [&'static str]),
}

/// An option with a value.
#[derive(Clone, Copy)]
pub struct Setting {
    /// Its name, with the hyphens before it.
    pub name: &'static str,
    /// The required value.
    pub value: Value,
    /// Whether it may be given more than once.
    pub repeats: bool,
}

/// The arguments that a program takes: options, and then operands. The options of `Question` aren't
/// among them.
#[derive(Clone, Copy)]
pub struct Syntax {
    /// The options of which at most one may be given, once.
    pub forms: &'static [&'static str],
    /// The other options without a value, each of which may be given once.
    pub switches: &'static [&'static str],
    /// The options with a value.
    pub settings: &'static [Setting],
    /// The greatest number of operands after the options.
    pub operands: usize,
}

/// The kind of an option.
#[derive(Clone, Copy)]
enum Flag {
    /// One of the forms.
    Form,
    /// One of the switches.
    Switch,
    /// An option with a value.
    Setting(Setting),
}

/// The state after the words before a word.
#[derive(Clone, Copy)]
struct Before<'a> {
    /// The last word, if it is an option that requires a value.
    open: Option<Setting>,
    /// The option that chooses a form.
    form: Option<&'a str>,
    /// The first operand.
    operand: Option<&'a str>,
    /// The number of operands.
    operands: usize,
}

impl Value {
    /// Whether the word may be this value.
    fn accepts(self, word: &str) -> bool {
        match self {
            Value::Any(_) => true,
            Value::Number(largest) => match word.parse::<u64>() {
                Ok(number) => number <= largest,
                Err(_) => false,
            },
            Value::OneOf(allowed) => has_word(allowed, word),
        }
    }
}

impl Syntax {
    /// Returns what is wrong with the words after the program's name, at the first wrong one. None
    /// if these rules don't refuse them: words may still be missing.
    pub fn wrong_word<'a>(&self, words: &'a [String]) -> Option<Wrong<'a>> {
        let mut before = Before {
            open: None,
            form: None,
            operand: None,
            operands: 0,
        };
        for (index, word) in words.iter().enumerate() {
            let earlier = words.get(..index).unwrap_or(&[]);
            match self.take(before, earlier, word.as_str()) {
                Ok(next) => before = next,
                Err(wrong) => return Some(wrong),
            }
        }
        match before.open {
            Some(setting) => Some(Wrong::NoValue(setting)),
            None => None,
        }
    }

    /// Returns the error that no value follows the option of this name, if the words end with it.
    pub fn open_option<'a>(&self, words: &'a [String], name: &str) -> Option<Wrong<'a>> {
        match self.wrong_word(words) {
            Some(Wrong::NoValue(setting)) if setting.name == name => Some(Wrong::NoValue(setting)),
            _ => None,
        }
    }

    /// The state after one more word; or what is wrong with it, after the `earlier` ones.
    fn take<'a>(
        &self,
        before: Before<'a>,
        earlier: &[String],
        word: &'a str,
    ) -> Result<Before<'a>, Wrong<'a>> {
        if let Some(setting) = before.open {
            return take_value(before, setting, word);
        }
        if is_file_name(word) {
            return self.take_operand(before, word);
        }
        match self.flag(word) {
            Some(flag) => self.take_flag(before, earlier, word, flag),
            None if is_question(word) => Err(Wrong::NotAlone(word)),
            None => Err(Wrong::Unknown(word)),
        }
    }

    /// The state after one more operand.
    fn take_operand<'a>(&self, before: Before<'a>, word: &'a str) -> Result<Before<'a>, Wrong<'a>> {
        if before.operands >= self.operands {
            return Err(Wrong::Unexpected(word));
        }
        Ok(Before {
            operand: Some(before.operand.unwrap_or(word)),
            operands: before.operands.saturating_add(1),
            ..before
        })
    }

    /// The state after one more option.
    fn take_flag<'a>(
        &self,
        before: Before<'a>,
        earlier: &[String],
        word: &'a str,
        flag: Flag,
    ) -> Result<Before<'a>, Wrong<'a>> {
        if let Some(operand) = before.operand {
            return Err(Wrong::Late(word, operand));
        }
        if !may_repeat(flag) && self.has_flag(earlier, word) {
            return Err(Wrong::Twice(word));
        }
        match (flag, before.form) {
            (Flag::Form, Some(form)) => Err(Wrong::Excluded(word, form)),
            (Flag::Form, None) => Ok(Before {
                form: Some(word),
                ..before
            }),
            (Flag::Switch, _) => Ok(before),
            (Flag::Setting(setting), _) => Ok(Before {
                open: Some(setting),
                ..before
            }),
        }
    }

    /// The option of this name.
    fn flag(&self, name: &str) -> Option<Flag> {
        if has_word(self.forms, name) {
            return Some(Flag::Form);
        }
        if has_word(self.switches, name) {
            return Some(Flag::Switch);
        }
        for setting in self.settings {
            if setting.name == name {
                return Some(Flag::Setting(*setting));
            }
        }
        None
    }

    /// Whether the words have this option, other than as the value of another option.
    pub fn has_flag(&self, words: &[String], name: &str) -> bool {
        let mut is_value = false;
        for word in words {
            let word = word.as_str();
            if !is_value && word == name {
                return true;
            }
            is_value = !is_value && matches!(self.flag(word), Some(Flag::Setting(_)));
        }
        false
    }
}

/// The state after the value of the option before it.
fn take_value<'a>(
    before: Before<'a>,
    setting: Setting,
    word: &'a str,
) -> Result<Before<'a>, Wrong<'a>> {
    if !setting.value.accepts(word) {
        return Err(Wrong::Value(setting, word));
    }
    Ok(Before {
        open: None,
        ..before
    })
}

/// Whether the option may be given more than once.
fn may_repeat(flag: Flag) -> bool {
    match flag {
        Flag::Form | Flag::Switch => false,
        Flag::Setting(setting) => setting.repeats,
    }
}

/// Whether the word is one of these.
fn has_word(words: &[&str], word: &str) -> bool {
    for other in words {
        if *other == word {
            return true;
        }
    }
    false
}

/// Whether the word asks a program about itself, if it stands alone.
fn is_question(word: &str) -> bool {
    matches!(word, "--help" | "--version")
}
