//! The opens of forks, with their deny modes.
use crate::keys::{fork, mode, reference};
use crate::line::{Kind, Line};
use afp_base::OutOfMemory;
use deny_modes::Opens;

/// Notes an open in place of the one of that reference, where it conflicts with none.
fn note(opens: &mut Opens, line: &Line<'_>) -> Result<bool, OutOfMemory> {
    let r = reference(line.numbers[0]);
    let (f, m) = (fork(line.numbers[1]), mode(line.numbers[2]));
    opens.forget(r);
    if !opens.may_open(&f, &m) {
        return Ok(false);
    }
    opens.note(r, f, m)?;
    Ok(true)
}

/// Changes the opens. It tells whether it could.
pub fn change(opens: &mut Opens, line: &Line<'_>) -> Result<bool, OutOfMemory> {
    match line.kind {
        Kind::Note => note(opens, line),
        Kind::Forget => {
            opens.forget(reference(line.numbers[0]));
            Ok(true)
        }
        _ => {
            opens.swap(&fork(line.numbers[0]), &fork(line.numbers[1]));
            Ok(true)
        }
    }
}

/// Whether a fork may be opened.
pub fn may(opens: &Opens, line: &Line<'_>) -> bool {
    opens.may_open(&fork(line.numbers[0]), &mode(line.numbers[1]))
}

/// A counter of a fork: 0 of the opens that read, 1 that write, 2 that deny reading, 3 that deny writing.
pub fn counter(opens: &Opens, line: &Line<'_>) -> Option<u64> {
    let counts = match opens.counters(&fork(line.numbers[0])) {
        Some(counts) => *counts,
        None => return None,
    };
    Some(u64::from(counts[(line.numbers[1] % 4) as usize]))
}
