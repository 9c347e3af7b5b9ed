//! A text in chunks: the end of an outermost list ends a chunk, and what begins in the first column of a line, outside of block
//! comments, begins one.

ghost use Rattle.std.specs.Prelude.{◌≡◌, ◌+◌, ◌++◌, List, All, IfOk, length, string_bytes};
ghost use Rattle.std.specs.Char.{encode_utf8};
ghost use Rattle.std.specs.Str.{chars};
ghost use Rattle.text_reader.specs.Chunks.{Part, begins_chunk, begins_line, chunks_of, deeper, empty_at, longer, moved, moved_between, moved_in_block, next_parts};
ghost use Rattle.text_reader.specs.RecoveryViews.{Ends, part_view, part_views};

use crate::tokens::DEEPEST;
use std::alloc::{AllocError, Global};

/// A part of a text.
#[derive(Drop)]
pub struct Chunk {
    /// The offset of its first byte.
    pub offset: usize,
    /// The offset behind its last byte.
    pub end: usize,
    /// What it says.
    pub text: String,
}

/// Where the next character of a text stands, and how many lists of its chunk are begun and not ended.
#[derive(Clone, Copy)]
pub enum CharacterPlace {
    /// In the first column of a line.
    LineBegin(usize),
    /// Behind the parenthesis that ends an outermost list, or that ends none.
    Ended,
    Within(usize),
    /// Behind a parenthesis, which begins a comment if `;` follows, and a list if not.
    Opened(usize),
    /// In a comment to the end of the line.
    Line(usize),
    /// In a block comment: how many comments are open, and the last character.
    Block(usize, usize, char),
    /// In a comment that nests too deep.
    Lost,
}

/// The chunks of a text, in its order. The first is what stands before the second.
pub fn chunks(alloc: Global, text: &str) -> Result<Vec<Chunk>, AllocError>
    ensures parts { IfOk result (λ cs. part_views cs.items ≡ chunks_of (chars text.now)) }
    ensures ends { IfOk result (λ cs. All Ends cs.items) }
{
    let mut chunks = Vec::new(alloc);
    let mut chunk = chunk_at(alloc, 0);
    let mut place = CharacterPlace::Within(0);
    for (offset, c) in text.char_indices() {
        let end = offset + c.len_utf8();
        match next(chunk_at(alloc, offset), place, c, end, chunk, &mut chunks) {
            Ok(after) => chunk = after,
            Err(AllocError) => return Err(AllocError),
        }
        place = moved(place, c);
    }
    chunks.push(chunk)?;
    Ok(chunks)
}

// Reads one more character, up to this end: the chunk that it stands in, where it begins the empty one or goes on in the last.
fn next(
    empty: Chunk,
    place: CharacterPlace,
    c: char,
    end: usize,
    last: Chunk,
    chunks: &mut Vec<Chunk>,
) -> Result<Chunk, AllocError>
    requires empty { Ends empty }
    requires last { Ends last }
    requires end { end ≡ empty.end + length (encode_utf8 c) }
    requires end_of_last { end ≡ last.end + length (encode_utf8 c) }
    requires chunks { All Ends chunks.old.items }
    ensures parts { IfOk result (λ made. (rest : Part → List Part) → part_views chunks.new.items ++ rest (part_view made) ≡ part_views chunks.old.items ++ next_parts rest place (part_view empty) (part_view last) c) }
    ensures end { IfOk result (λ made. made.end ≡ end) }
    ensures ends { IfOk result (λ made. Ends made) }
    ensures chunks { IfOk result (λ _. All Ends chunks.new.items) }
{
    if begins_chunk(place, c) {
        chunks.push(last)?;
        return longer(empty, c, end);
    }
    longer(last, c, end)
}

// A chunk without characters.
fn chunk_at(alloc: Global, offset: usize) -> Chunk
    ensures part { part_view result ≡ empty_at offset }
    ensures end { result.end ≡ offset }
    ensures ends { Ends result }
{
    Chunk {
        offset,
        end: offset,
        text: String::new(alloc),
    }
}

// A chunk with one more character, up to this end.
fn longer(mut chunk: Chunk, c: char, end: usize) -> Result<Chunk, AllocError>
    requires ends { Ends chunk }
    requires end { end ≡ chunk.end + length (encode_utf8 c) }
    ensures part { IfOk result (λ made. part_view made ≡ longer (part_view chunk) c) }
    ensures end { IfOk result (λ made. made.end ≡ end) }
    ensures ends { IfOk result (λ made. Ends made) }
{
    chunk.text.push(c)?;
    chunk.end = end;
    Ok(chunk)
}

fn begins_chunk(place: CharacterPlace, c: char) -> bool
    ensures { result ≡ begins_chunk place c }
{
    match place {
        CharacterPlace::LineBegin(_) => begins_line(c),
        CharacterPlace::Ended => true,
        CharacterPlace::Within(_)
        | CharacterPlace::Opened(_)
        | CharacterPlace::Line(_)
        | CharacterPlace::Block(_, _, _)
        | CharacterPlace::Lost => false,
    }
}

// Whether a character in the first column begins a chunk.
fn begins_line(c: char) -> bool
    ensures { result ≡ begins_line c }
{
    !(c.is_whitespace() || c == ')' || c == ';')
}

// The place behind a character.
fn moved(place: CharacterPlace, c: char) -> CharacterPlace
    ensures { result ≡ moved place c }
{
    match place {
        CharacterPlace::LineBegin(_) if begins_line(c) => moved_between(0, c),
        CharacterPlace::Ended => moved_between(0, c),
        CharacterPlace::LineBegin(lists) | CharacterPlace::Within(lists) => moved_between(lists, c),
        CharacterPlace::Opened(lists) if c == ';' => CharacterPlace::Block(lists, 1, ' '),
        CharacterPlace::Opened(lists) => moved_between(deeper(lists), c),
        CharacterPlace::Line(lists) if c == '\n' => CharacterPlace::LineBegin(lists),
        CharacterPlace::Line(lists) => CharacterPlace::Line(lists),
        CharacterPlace::Block(lists, depth, last) => moved_in_block(lists, depth, last, c),
        CharacterPlace::Lost => CharacterPlace::Lost,
    }
}

// One more list is begun. More than a thousand, which is a mistake, count as a thousand.
fn deeper(lists: usize) -> usize
    ensures { result ≡ deeper lists }
{
    if lists >= DEEPEST {
        return lists;
    }
    lists + 1
}

// The place behind a character outside of comments.
fn moved_between(lists: usize, c: char) -> CharacterPlace
    ensures { result ≡ moved_between lists c }
{
    match c {
        '\n' => CharacterPlace::LineBegin(lists),
        '(' => CharacterPlace::Opened(lists),
        ';' => CharacterPlace::Line(lists),
        ')' if lists <= 1 => CharacterPlace::Ended,
        ')' => CharacterPlace::Within(lists - 1),
        _ => CharacterPlace::Within(lists),
    }
}

// The place behind a character of a block comment. A character that began or ended a comment does neither again.
fn moved_in_block(lists: usize, depth: usize, last: char, c: char) -> CharacterPlace
    ensures { result ≡ moved_in_block lists depth last c }
{
    if last == '(' && c == ';' {
        if depth >= DEEPEST {
            return CharacterPlace::Lost;
        }
        return CharacterPlace::Block(lists, depth + 1, ' ');
    }
    if last == ';' && c == ')' {
        if depth <= 1 {
            return CharacterPlace::Within(lists);
        }
        return CharacterPlace::Block(lists, depth - 1, ' ');
    }
    CharacterPlace::Block(lists, depth, c)
}
