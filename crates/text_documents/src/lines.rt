//! Lines of a text. A line is ended by `\n`, `\r\n` or `\r`, as LSP 3.17 has it.

ghost use Rattle.std.specs.Prelude.{◌≡◌, IfSome, option_map};
ghost use Rattle.std.specs.Str.{chars, IsUtf8};
ghost use Rattle.text_documents.specs.Lines.{is_break};
ghost use Rattle.text_documents.specs.Walks.{after_line, after_lines, after_units, without_feed};

// Whether a character is one of those that end a line.
fn is_break(c: char) -> bool
    ensures { result ≡ is_break c }
{
    matches!(c, '\n' | '\r')
}

// A text without the line feed that it begins with.
fn without_feed(text: &str) -> &str
    ensures { chars result.now ≡ without_feed (chars text.now) }
{
    let mut rest = text.chars();
    match rest.next() {
        Some('\n') => rest.as_str(),
        _ => text,
    }
}

// What follows a text's first line and its end. None where no line is ended.
fn after_line(text: &str) -> Option<&str>
    ensures text { IfSome result (λ rest. IsUtf8 rest.now) }
    ensures rest { option_map (λ rest. chars rest.now) result ≡ after_line (chars text.now) }
{
    let mut rest = text.chars();
    while let Some(c) = rest.next() {
        if c == '\n' {
            return Some(rest.as_str());
        }
        if c == '\r' {
            return Some(without_feed(rest.as_str()));
        }
    }
    None
}

/// What follows so many lines with their ends. None where a text has fewer.
pub fn after_lines(text: &str, count: usize) -> Option<&str>
    ensures text { IfSome result (λ rest. IsUtf8 rest.now) }
    ensures rest { option_map (λ rest. chars rest.now) result ≡ after_lines count (chars text.now) }
{
    let mut rest = text;
    for _ in 0..count {
        rest = after_line(rest)?;
    }
    Some(rest)
}

/// What follows so many UTF-16 units of a text's first line, or the whole line where it has fewer. None where the units end
/// inside a character.
pub fn after_units(text: &str, count: usize) -> Option<&str>
    ensures text { IfSome result (λ rest. IsUtf8 rest.now) }
    ensures rest { option_map (λ rest. chars rest.now) result ≡ after_units count (chars text.now) }
{
    let mut left = count;
    let mut rest = text.chars();
    loop {
        let back = rest.as_str();
        match rest.next() {
            Some(c) if left > 0 && !is_break(c) => left = left.checked_sub(c.len_utf16())?,
            _ => return Some(back),
        }
    }
}
