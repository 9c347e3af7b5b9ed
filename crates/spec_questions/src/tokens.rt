//! The brackets and words of what a solver wrote.

use std::alloc::{AllocError, Global};
use std::mem;

/// A bracket or a word.
#[derive(Drop)]
pub(crate) enum Token {
    /// `(`
    Open,
    /// `)`
    Close,
    /// Anything else between brackets and white space. A name between bars and a text in quotation marks are parts of a word.
    Word(String),
}

/// The brackets and words of a text, in order.
pub(crate) fn tokens_of(alloc: Global, text: &str) -> Result<Vec<Token>, AllocError> {
    let mut reader = Reader {
        alloc,
        tokens: Vec::new(alloc),
        word: String::new(alloc),
        inside: Inside::Nothing,
    };
    for c in text.chars() {
        reader.read(c)?;
    }
    reader.end_word()?;
    let Reader {
        alloc: _,
        tokens,
        word: _,
        inside: _,
    } = reader;
    Ok(tokens)
}

// What a character stands inside of.
#[derive(Clone, Copy)]
enum Inside {
    Nothing,
    Bars,
    Quotes,
}

// Reads a text, a character at a time.
#[derive(Drop)]
struct Reader {
    alloc: Global,
    tokens: Vec<Token>,
    // The word that is being read, or the empty text.
    word: String,
    inside: Inside,
}

impl Reader {
    fn read(&mut self, c: char) -> Result<(), AllocError> {
        match self.inside {
            Inside::Nothing => self.read_plain(c),
            Inside::Bars => self.read_inside(c, '|'),
            Inside::Quotes => self.read_inside(c, '"'),
        }
    }

    // Reads a character between bars or quotation marks.
    fn read_inside(&mut self, c: char, end: char) -> Result<(), AllocError> {
        if c == end {
            self.inside = Inside::Nothing;
        }
        self.word.push(if c.is_control() { ' ' } else { c })
    }

    // Reads any other character.
    fn read_plain(&mut self, c: char) -> Result<(), AllocError> {
        match c {
            '(' => self.push_bracket(Token::Open),
            ')' => self.push_bracket(Token::Close),
            '|' => self.begin(c, Inside::Bars),
            '"' => self.begin(c, Inside::Quotes),
            _ if c.is_whitespace() || c.is_control() => self.end_word(),
            _ => self.word.push(c),
        }
    }

    // From here on the text is inside of something.
    fn begin(&mut self, c: char, inside: Inside) -> Result<(), AllocError> {
        self.inside = inside;
        self.word.push(c)
    }

    // Adds a bracket, behind the word before it.
    fn push_bracket(&mut self, bracket: Token) -> Result<(), AllocError> {
        self.end_word()?;
        self.tokens.push(bracket)?;
        Ok(())
    }

    // Adds the word that was read, if there is one.
    fn end_word(&mut self) -> Result<(), AllocError> {
        if !self.word.is_empty() {
            let word = mem::replace(&mut self.word, String::new(self.alloc));
            self.tokens.push(Token::Word(word))?;
        }
        Ok(())
    }
}
