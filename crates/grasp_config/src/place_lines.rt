//! Where a value stands in a text, by a look at its lines. Nothing is claimed of it: it finds what people write.

use crate::place::Path;

/// What a line of a text begins.
enum Line<'a> {
    /// A table or an element of a list of tables: the key of its header.
    Header(&'a str),
    /// A key and its value.
    Key(&'a str),
    /// Nothing.
    Other,
}

/// What a line begins.
fn line_of(line: &str) -> Line<'_> {
    let line = line.trim();
    if let Some(rest) = line.strip_prefix('[') {
        let rest = rest.strip_prefix('[').unwrap_or(rest);
        return match rest.split_once(']') {
            Some((key, _)) => Line::Header(key.trim()),
            None => Line::Other,
        };
    }
    match line.split_once('=') {
        Some((key, _)) => Line::Key(key.trim()),
        None => Line::Other,
    }
}

/// Whether a key of a line is this one, or begins with it and a dot.
fn is_key(key: &str, name: &str) -> bool {
    match key.strip_prefix(name) {
        Some(rest) => rest.is_empty() || rest.starts_with('.'),
        None => false,
    }
}

/// The number of the line of a value, counted from 1: that of its key behind the header of its table, else that of the
/// header, else that of its key at the top.
pub(crate) fn line_at(text: &str, path: Path) -> Option<u64> {
    let wanted = path.index.unwrap_or(0);
    let mut seen = 0u64;
    let mut here = true;
    let mut inside = false;
    let mut header = None;
    let mut number = 0u64;
    for line in text.lines() {
        number = number.saturating_add(1);
        match line_of(line) {
            Line::Header(key) => {
                here = false;
                inside = false;
                if key == path.name {
                    inside = seen == wanted;
                    seen = seen.saturating_add(1);
                    if inside {
                        header = Some(number);
                    }
                }
            }
            Line::Key(key) => {
                if (here && is_key(key, path.name)) || (inside && is_key(key, path.inner)) {
                    return Some(number);
                }
            }
            Line::Other => {}
        }
    }
    header
}

/// The number of the line with the first key of this name, where it is the first one behind the header of this table, or
/// behind none.
pub(crate) fn line_of_unknown(text: &str, path: Path, unknown: &str) -> Option<u64> {
    let wanted = path.index.unwrap_or(0);
    let mut seen = 0u64;
    let mut inside = path.name.is_empty();
    let mut number = 0u64;
    for line in text.lines() {
        number = number.saturating_add(1);
        match line_of(line) {
            Line::Header(key) => {
                if path.name.is_empty() && is_key(key, unknown) {
                    return Some(number);
                }
                inside = false;
                if key == path.name {
                    inside = seen == wanted;
                    seen = seen.saturating_add(1);
                }
            }
            Line::Key(key) => {
                if inside && is_key(key, unknown) {
                    return Some(number);
                }
            }
            Line::Other => {}
        }
    }
    line_at(text, path)
}

/// The line and the character of a place of a text, both counted from 1.
pub(crate) fn position(text: &[u8], at: usize) -> (u64, u64) {
    let mut line = 1u64;
    let mut column = 1u64;
    for byte in text.iter().take(at) {
        if *byte == b'\n' {
            line = line.saturating_add(1);
            column = 1;
        } else if *byte & 0xC0 != 0x80 {
            column = column.saturating_add(1);
        }
    }
    (line, column)
}
