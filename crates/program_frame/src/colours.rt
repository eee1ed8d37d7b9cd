//! The colours of lines.

ghost use Rattle.std.specs.Prelude.{◌≡◌, ◌++◌, ◌∷◌, [], true, OnSome};
ghost use Rattle.program_frame.specs.Colours.{action_colour, after_space, begins_after, colour_of};
ghost use Rattle.program_frame.specs.Colours.{colour_sequence, is_line, line_text, listed_colour};
ghost use Rattle.program_frame.specs.Colours.{piece_colour};

/// The colour of a line on a terminal.
#[derive(Clone, Copy)]
pub(crate) enum Colour {
    /// The colour of an announcement.
    Green,
    /// The colour of a withdrawal.
    Red,
}

impl Colour {
    /// The escape sequence that starts the colour (ECMA-48, SGR).
    pub(crate) fn sequence(self) -> &'static [u8]
        ensures { result.now ≡ colour_sequence self }
    {
        match self {
            Colour::Green => b"\x1b[32m",
            Colour::Red => b"\x1b[31m",
        }
    }
}

/// The colour of the piece, if it has one: if it is a whole line, and a line begins at its front.
#[tactic(auto, unfolding(crate::specs::Colours::piece_colour))]
pub(crate) fn piece_colour(begins: bool, piece: &[u8]) -> Option<Colour>
    ensures colour { result ≡ piece_colour begins piece.now }
    // Its text and its line feed are all of it: no byte is lost.
    ensures whole { OnSome result (piece.now ≡ line_text piece.now ++ 10 ∷ []) }
{
    if begins && is_line(piece) {
        colour_of(piece)
    } else {
        None
    }
}

/// The piece without its last byte, which is a line feed.
pub(crate) fn line_text(piece: &[u8]) -> &[u8]
    ensures { result.now ≡ line_text piece.now }
{
    match piece {
        [text @ .., _] => text,
        [] => piece,
    }
}

/// Whether a line begins after the piece, given whether one begins at its front.
pub(crate) fn begins_after(begins: bool, piece: &[u8]) -> bool
    ensures { result ≡ begins_after begins piece.now }
{
    match piece {
        [.., last] => *last == b'\n',
        [] => begins,
    }
}

/// Whether the piece is a whole line: its last byte is a line feed, and no other is.
#[tactic(auto, unfolding(crate::specs::Colours::is_line))]
fn is_line(piece: &[u8]) -> bool
    ensures line { result ≡ is_line piece.now }
    ensures whole { result ≡ true → piece.now ≡ line_text piece.now ++ 10 ∷ [] }
{
    match piece.split_last() {
        Some((last, text)) => *last == b'\n' && !text.contains(&b'\n'),
        None => false,
    }
}

/// The colour of the line, if it is about an announcement or a withdrawal.
fn colour_of(line: &[u8]) -> Option<Colour>
    ensures { result ≡ colour_of line.now }
{
    match line {
        [b'+', ..] => Some(Colour::Green),
        [b'-', ..] => Some(Colour::Red),
        _ => listed_colour(line),
    }
}

/// The colour of a line of a listing, by the word after its offset, its version and its kind, which
/// has one or two words.
#[tactic(auto, unfolding(crate::specs::Colours::listed_colour))]
fn listed_colour(line: &[u8]) -> Option<Colour>
    ensures { result ≡ listed_colour line.now }
{
    let after_one = after_space(after_space(after_space(line)));
    action_colour(after_one).or(action_colour(after_space(after_one)))
}

/// The colour for the first word of the text.
#[tactic(auto, unfolding(crate::specs::Colours::action_colour))]
fn action_colour(text: &[u8]) -> Option<Colour>
    ensures { result ≡ action_colour text.now }
{
    if text.starts_with(b"announce ") {
        Some(Colour::Green)
    } else if text.starts_with(b"withdraw ") {
        Some(Colour::Red)
    } else {
        None
    }
}

/// What follows the first space.
fn after_space(text: &[u8]) -> &[u8]
    ensures { result.now ≡ after_space text.now }
{
    for (place, byte) in text.iter().enumerate() {
        if *byte == b' ' {
            return &text[place + 1..];
        }
    }
    &[]
}
