//! What the desktop database of a volume has of one creator, as text.
use afp_base::{NodeId, OutOfMemory};
use desktop_db::Desktop;
use std::alloc::Global;
use test_lines::LineResult;

/// Adds a part; behind others it stands behind a comma.
fn add_part(text: &mut String, part: &str) -> Result<(), OutOfMemory> {
    if !text.is_empty() {
        text.push_str(", ")?;
    }
    text.push_str(part)?;
    Ok(())
}

/// An icon: its key, which is creator, type and icon type, its tag and its bits.
fn icon_text(alloc: Global, desktop: &Desktop, key: &[u8; 9]) -> Result<String, OutOfMemory> {
    let name = hex::encode(alloc, key.as_slice())?;
    match desktop.icon(key) {
        Some((tag, bits)) => {
            let digits = hex::encode(alloc, bits)?;
            Ok(format!(in alloc; "icon {name} {tag}:{digits}")?)
        }
        None => Ok(format!(in alloc; "icon {name} none")?),
    }
}

/// An APPL mapping: its file and its tag.
fn appl_text(alloc: Global, node: NodeId, tag: u32) -> Result<String, OutOfMemory> {
    let id = node.0;
    Ok(format!(in alloc; "appl {id} {tag}")?)
}

/// The icons of a creator, then its APPL mappings, in the order in which they are counted.
pub fn of_creator(
    alloc: Global,
    desktop: &Desktop,
    creator: &[u8; 4],
) -> Result<LineResult, OutOfMemory> {
    let mut text = String::new(alloc);
    for i in 1..u16::MAX {
        let Some(key) = desktop.nth_icon(creator, i) else {
            break;
        };
        add_part(&mut text, icon_text(alloc, desktop, &key)?.as_str())?;
    }
    for i in 1..u16::MAX {
        let Some((node, tag)) = desktop.nth_appl(creator, i) else {
            break;
        };
        add_part(&mut text, appl_text(alloc, node, tag)?.as_str())?;
    }
    if text.is_empty() {
        return Ok(LineResult::Nothing);
    }
    Ok(LineResult::Text(text))
}
