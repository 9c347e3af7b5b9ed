//! What a place in a text is in, also where the text can't be read: the lists that are open there, and the variables before it.

use cranelift_isle::syntax::{Def, Ident};
use report_names::definitions::place_of_term;
use std::alloc::{AllocError, Global};
use text_reader::chunks::{Chunk, chunks};
use text_reader::errors::ReadFault;
use text_reader::source::Source;
use text_reader::tokens::{Token, tokens};

/// What a place is in.
pub struct Context {
    /// Where the word begins that the place is in or behind; else the place itself.
    pub begin: usize,
    // The tokens before the word, from where the forms in this line begin.
    offset: usize,
    tokens: Vec<Token>,
    // The numbers of the tokens that begin lists which are open, the outermost first.
    opens: Vec<usize>,
}

impl Drop for Context {
    fn drop(self) {
        let Context {
            begin: _,
            offset: _,
            tokens: _,
            opens: _,
        } = self;
    }
}

/// What an offset of a text is in. None in a comment.
pub fn context_at(alloc: Global, text: &str, offset: usize) -> Result<Option<Context>, AllocError> {
    let before = text.get(..offset).unwrap_or("");
    let line = before.rsplit('\n').next().unwrap_or("");
    if line.contains(';') && !line.contains(";)") {
        return Ok(None);
    }
    let word = before.rsplit(ends_word).next().unwrap_or("");
    let begin = before.len().saturating_sub(word.len());
    let parts = chunks(alloc, before.get(..begin).unwrap_or(""))?;
    let Some(part) = parts.last() else {
        return Ok(None);
    };
    match tokens_in(alloc, part) {
        Ok(tokens) => {
            let opens = open_lists(alloc, &tokens)?;
            Ok(Some(Context {
                begin,
                offset: part.offset,
                tokens,
                opens,
            }))
        }
        Err(ReadFault::Text(_error)) => Ok(None),
        Err(ReadFault::Memory(error)) => Err(error),
    }
}

fn tokens_in(alloc: Global, part: &Chunk) -> Result<Vec<Token>, ReadFault> {
    let source = Source {
        alloc,
        file: 0,
        len: part.text.len(),
    };
    tokens(source, &part.text)
}

// The numbers of the tokens that begin lists which aren't ended.
fn open_lists(alloc: Global, tokens: &[Token]) -> Result<Vec<usize>, AllocError> {
    let mut opens = Vec::new(alloc);
    for (number, token) in tokens.iter().enumerate() {
        match token {
            Token::Open(_) => opens.push(number)?,
            Token::Close(_) => {
                let _ended = opens.pop();
            }
            _ => {}
        }
    }
    Ok(opens)
}

impl Context {
    /// How many lists are open.
    pub fn depth(&self) -> usize {
        self.opens.len()
    }

    // The number of the token that begins an open list: the innermost is 0 levels up.
    fn open(&self, up: usize) -> Option<usize> {
        let number = self.opens.len().checked_sub(up)?.checked_sub(1)?;
        self.opens.get(number).copied()
    }

    /// Where an open list begins, so many levels up.
    pub fn begin_of(&self, up: usize) -> Option<usize> {
        match self.tokens.get(self.open(up)?) {
            Some(Token::Open(pos)) => Some(self.offset.saturating_add(pos.offset)),
            _ => None,
        }
    }

    fn word(&self, number: usize) -> Option<&Ident> {
        match self.tokens.get(number) {
            Some(Token::Word(name)) => Some(name),
            _ => None,
        }
    }

    /// The word that an open list begins with, so many levels up, or the empty text.
    pub fn head(&self, up: usize) -> &str {
        match self.open(up) {
            Some(open) => self.word_behind(open),
            None => "",
        }
    }

    // The word behind a token, or the empty text.
    fn word_behind(&self, number: usize) -> &str {
        match self.word(number.saturating_add(1)) {
            Some(name) => name.0.as_str(),
            None => "",
        }
    }

    /// How many forms of an open list stand before the place, so many levels up: the list that is open in it is one of them.
    pub fn count(&self, up: usize) -> usize {
        let mut count = 0usize;
        let mut depth = 0usize;
        let begin = self.open(up).unwrap_or(self.tokens.len());
        for token in self.tokens.iter().skip(begin.saturating_add(1)) {
            if depth == 0 && !matches!(token, Token::Binder(_) | Token::Close(_)) {
                count = count.saturating_add(1);
            }
            match token {
                Token::Open(_) => depth = depth.saturating_add(1),
                Token::Close(_) => depth = depth.saturating_sub(1),
                _ => {}
            }
        }
        count
    }

    // The number of the token that begins the second list: in a rule that is its pattern.
    fn second_list(&self) -> usize {
        let lists = self
            .tokens
            .iter()
            .skip(1)
            .position(|token| matches!(token, Token::Open(_)));
        match lists {
            Some(number) => number.saturating_add(1),
            None => self.tokens.len(),
        }
    }

    /// The head of the first list in the outermost one: of a rule its term.
    pub fn root(&self) -> &str {
        self.word_behind(self.second_list())
    }

    /// Whether the innermost list stands behind that list.
    pub fn is_behind_root(&self) -> bool {
        match self.open(0) {
            Some(open) => self.second_list() < open,
            None => false,
        }
    }

    /// The variables before the place.
    pub fn variables(&self, alloc: Global, defs: &[Def]) -> Result<Vec<&str>, AllocError> {
        let mut found = Vec::new(alloc);
        for number in self.second_list()..self.tokens.len() {
            if let Some(name) = self.variable(defs, number) {
                if !found.contains(&name) {
                    found.push(name)?;
                }
            }
        }
        Ok(found)
    }

    // The variable that a token is: before `@`, where it isn't the head of a list, or where a let binds it.
    fn variable(&self, defs: &[Def], number: usize) -> Option<&str> {
        if let Some(Token::Binder(name)) = self.tokens.get(number) {
            return Some(name.0.as_str());
        }
        let name = self.word(number)?;
        let before = number.saturating_sub(1);
        let is_bound = self.is_let_name(defs, number);
        let is_used = !self.is_head(number) && !self.is_let_name(defs, before);
        if is_bound || is_used {
            Some(name.0.as_str())
        } else {
            None
        }
    }

    fn is_head(&self, number: usize) -> bool {
        matches!(
            self.tokens.get(number.saturating_sub(1)),
            Some(Token::Open(_))
        )
    }

    // Whether a token is a name that a let binds: the head of a list, no term, and a word follows.
    fn is_let_name(&self, defs: &[Def], number: usize) -> bool {
        match self.word(number) {
            Some(name) => {
                self.is_head(number)
                    && !self.word_behind(number).is_empty()
                    && place_of_term(defs, &name.0).is_none()
            }
            None => false,
        }
    }
}

/// Whether a word ends before this character.
pub fn ends_word(c: char) -> bool {
    c.is_whitespace() || matches!(c, '(' | ')' | ';' | '@')
}
