//! Words that name files.

ghost use Rattle.std.specs.Prelude.{◌≡◌, IfSome, Some};
ghost use Rattle.program_exceptions.specs.Splitting.{words_split};

use std::alloc::Global;

/// The result of splitting words: the files after each use of an option, and the other words.
#[derive(Drop)]
pub struct Split {
    /// The other words, in their order.
    pub words: Vec<String>,
    /// The files.
    pub files: Vec<String>,
}

/// Splits words into the files after each `option` and the others. The word after `valued`, another
/// option, is its value, whatever it is. None if no file follows an `option`, or memory runs out.
pub fn split_words(alloc: Global, words: Vec<String>, option: &str, valued: &str) -> Option<Split>
    ensures { IfSome result (λ split. words_split option.now valued.now words.items ≡
        Some (split.words.items, split.files.items)) }
{
    let mut others = Vec::new(alloc);
    let mut files = Vec::new(alloc);
    let mut rest = words.into_iter();
    while let Some(word) = rest.next() {
        if word.as_str() == option {
            files.push(rest.next()?).ok()?;
        } else if word.as_str() == valued {
            others.push(word).ok()?;
            if let Some(value) = rest.next() {
                others.push(value).ok()?;
            }
        } else {
            others.push(word).ok()?;
        }
    }
    Some(Split {
        words: others,
        files,
    })
}
