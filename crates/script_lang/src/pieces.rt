// Texts cut at a byte: the lines of a text and the words of a line.
ghost use Rattle.std.specs.Prelude.{◌≡◌, ◌∷◌, ◌<◌, [], length, option_map, MatchOption, IfSome};
ghost use Rattle.memchr.specs.Find.{IsFirstByte, is_byte};
ghost use Rattle.script_lang.specs.Pieces.{pieces, words, cut_of, without_return, text_lines};

use memchr::memchr;
use std::marker::Model;

/// So many bytes of a text are looked at one by one for a separator that is likely near, since a search of many bytes at once
/// costs more to begin.
const NEAR: usize = 16;

/// The first place of a byte that is likely near.
pub(crate) fn near_place(byte: u8, text: &[u8]) -> Option<usize>
    ensures { IsFirstByte (is_byte byte) text.now result }
{
    let near = text.len().min(NEAR);
    for place in 0..near {
        if text[place] == byte {
            return Some(place);
        }
    }
    match memchr(byte, &text[near..]) {
        Some(place) => Some(near + place),
        None => None,
    }
}

/// The text before the first separator, whose place is told, and the text after it.
pub(crate) fn cut(text: &[u8], _separator: u8, place: Option<usize>) -> Option<(&[u8], &[u8])>
    requires { IsFirstByte (is_byte _separator) text.now place }
    ensures cut { MatchOption result (pieces _separator text.now ≡ text.now ∷ [])
        (λ p. pieces _separator text.now ≡ p.0.now ∷ pieces _separator p.1.now) }
    ensures exact { option_map (λ p. (p.0.now, p.1.now)) result ≡ cut_of _separator text.now }
    ensures shorter { IfSome result (λ p. length p.1.now < length text.now) }
{
    match place {
        None => None,
        Some(place) => Some((&text[..place], &text[place + 1..])),
    }
}

/// The words of a line that are still to come.
#[derive(Drop)]
pub(crate) struct Words<'a> {
    rest: &'a [u8],
}

impl<'a> Model for Words<'a> {
    ghost use Rattle.std.specs.Prelude.{List, ℕ};
    ghost use Rattle.script_lang.specs.Pieces.{words};

    ghost Value = { List (List ℕ) };

    ghost view = { λ w. words w.rest.now };
}

impl<'a> Words<'a> {
    ghost use Rattle.script_lang.specs.Pieces.{words};

    /// All the words of a line.
    pub fn new(line: &'a [u8]) -> Words<'a>
        ensures { result ≡ words line.now }
    {
        Words { rest: line }
    }

    /// The next word.
    pub fn next(&mut self) -> Option<&'a [u8]>
        ensures { MatchOption result (self.old ≡ [] × self.new ≡ []) (λ w. self.old ≡ w.now ∷ self.new) }
    {
        let (word, rest) = next_word(self.rest);
        self.rest = rest;
        word
    }
}

/// The first word of a text, and the text after it.
fn next_word(text: &[u8]) -> (Option<&[u8]>, &[u8])
    ensures { MatchOption result.0 (words text.now ≡ [] × words result.1.now ≡ []) (λ w. words text.now ≡ w.now ∷ words result.1.now) }
{
    let mut rest = text;
    while let Some((word, after)) = cut(rest, b' ', near_place(b' ', rest)) {
        rest = after;
        if !word.is_empty() {
            return (Some(word), rest);
        }
    }
    let end = &rest[rest.len()..];
    if rest.is_empty() {
        (None, end)
    } else {
        (Some(rest), end)
    }
}

/// The lines of a text that are still to come.
#[derive(Drop)]
pub(crate) struct Lines<'a> {
    rest: &'a [u8],
}

impl<'a> Model for Lines<'a> {
    ghost use Rattle.std.specs.Prelude.{List, ℕ};
    ghost use Rattle.script_lang.specs.Pieces.{text_lines};

    ghost Value = { List (List ℕ) };

    ghost view = { λ l. text_lines l.rest.now };
}

impl<'a> Lines<'a> {
    ghost use Rattle.script_lang.specs.Pieces.{text_lines};

    /// All the lines of a text.
    pub fn new(text: &'a [u8]) -> Lines<'a>
        ensures { result ≡ text_lines text.now }
    {
        Lines { rest: text }
    }

    /// The next line.
    pub fn next(&mut self) -> Option<&'a [u8]>
        ensures { MatchOption result (self.old ≡ [] × self.new ≡ []) (λ line. self.old ≡ line.now ∷ self.new) }
    {
        let (line, rest) = next_line(self.rest);
        self.rest = rest;
        line
    }
}

/// The first line of a text, and the text after it.
fn next_line(text: &[u8]) -> (Option<&[u8]>, &[u8])
    ensures { MatchOption result.0 (text_lines text.now ≡ [] × text_lines result.1.now ≡ []) (λ line. text_lines text.now ≡ line.now ∷ text_lines result.1.now) }
{
    match cut(text, b'\n', memchr(b'\n', text)) {
        Some((line, rest)) => (Some(drop_return(line)), rest),
        None => {
            let end = &text[text.len()..];
            if text.is_empty() {
                (None, end)
            } else {
                (Some(text), end)
            }
        }
    }
}

/// A line without the carriage return at its end.
fn drop_return(line: &[u8]) -> &[u8]
    ensures { result.now ≡ without_return line.now }
{
    if !line.is_empty() && line[line.len() - 1] == b'\r' {
        &line[..line.len() - 1]
    } else {
        line
    }
}
