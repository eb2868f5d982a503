// Rows that prepare a run: files, the calls that fail, the slots and nodes of the table of
// connections, and whether the gate tells what it counted.
use crate::captures::{addresses, capture_header, frame, record, spaces};
use crate::setting::Setting;
use anyhow::{Context, Result, bail};
use npf_fixtures::texts::{hex_bytes, unescaped};

/// Prepares what a row says so many times, with the number of the time in place of `%`.
pub fn prepare_times(setting: &mut Setting, text: &str) -> Result<()> {
    let alloc = setting.alloc;
    let (count, row) = text.split_once(' ').context("* has COUNT ROW")?;
    for index in 0..count.parse::<u32>()? {
        let number = format!(in alloc; "{}", index.saturating_add(1))?;
        let row = row.replace(alloc, '%', &number)?;
        let (word, text) = row.split_once(' ').context("no row")?;
        prepare(setting, word, text)?;
    }
    Ok(())
}

/// Prepares what a row says.
pub fn prepare(setting: &mut Setting, word: &str, text: &str) -> Result<()> {
    match word {
        "slots" => {
            setting.slots = text.parse()?;
            Ok(())
        }
        "nodes" => {
            setting.nodes = Some(text.parse()?);
            Ok(())
        }
        "gate" => {
            setting.gate = true;
            setting.in_turn = text == "in turn";
            Ok(())
        }
        "fail" => plan_fault(setting, text),
        "file" => begin_file(setting, text),
        "capture" => begin_capture(setting, text),
        _ => append(setting, word, text),
    }
}

fn plan_fault(setting: &mut Setting, text: &str) -> Result<()> {
    let (calls, number) = text.split_once(' ').context("fail has CALLS NUMBER")?;
    let number = number.parse()?;
    match calls {
        "file" => setting.failing.file = number,
        "out" => setting.failing.out = number,
        "err" => setting.failing.err = number,
        _ => bail!("no such calls"),
    }
    Ok(())
}

fn begin_file(setting: &mut Setting, text: &str) -> Result<()> {
    let (name, text) = text.split_once(' ').unwrap_or((text, ""));
    let bytes = unescaped(setting.alloc, text)?;
    setting.folder.begin(name, bytes)
}

fn begin_capture(setting: &mut Setting, text: &str) -> Result<()> {
    let (name, kind) = text.split_once(' ').context("capture has NAME KIND")?;
    let header = capture_header(kind)?;
    setting.folder.begin(name, header.to_vec(setting.alloc)?)
}

/// Appends to the file that was begun last.
fn append(setting: &mut Setting, word: &str, text: &str) -> Result<()> {
    let alloc = setting.alloc;
    let bytes = match word {
        "|" => {
            let mut line = unescaped(alloc, text)?;
            line.push(b'\n')?;
            line
        }
        "+" => unescaped(alloc, text)?,
        "x" => hex_bytes(alloc, text)?,
        "addresses" => addresses(alloc, text)?,
        "spaces" => spaces(alloc, text)?,
        ">" => record(&setting.folder, alloc, text)?,
        "frame" => frame(&setting.folder, alloc, text)?,
        _ => bail!("no such row"),
    };
    setting.folder.append(&bytes)
}
