// Texts of files as rows have them.
use crate::setting::Setting;
use anyhow::Result;
use std::alloc::Global;

/// The first line of a file.
pub const HEAD: &str = "npf-connections 1";

/// The lines between the bars, in which a word stands for its line; each ends with a line feed.
pub fn file_text(alloc: Global, setting: &Setting, parts: &str) -> Result<String> {
    let mut text = String::new(alloc);
    for part in parts.split('|') {
        text.push_str(line_of(setting, part))?;
        text.push_str("\n")?;
    }
    Ok(text)
}

/// The line for which the word stands, or the word.
fn line_of<'a>(setting: &'a Setting, part: &'a str) -> &'a str {
    if part == "head" {
        return HEAD;
    }
    for (word, line) in setting.lines.as_slice() {
        if word.as_str() == part {
            return line.as_str();
        }
    }
    part
}
