//! Writing the lines of a report.
ghost use Rattle.std.specs.Prelude.{◌≡◌, ◌+◌, ◌≤◌, ◌++◌, length, drop};
ghost use Rattle.std.specs.Fmt.{decimal};
ghost use Rattle.afp_outside.specs.ends.Whole.{PrintsAll};
ghost use Rattle.afpd_lib.specs.server.Reporting.{bad_line, counts_line, fault_line, load_text, reason_text};

use afp_outside::{Sink, print_all};
use itoa::write_digits;
use volume_keeper::Reason;

/// The room that a line of counts takes at most: its words, and two numbers of 20 digits.
const LINE: usize = 64;

/// Puts a text in front of the place `end`, and gives the place where it begins.
pub fn put_before(line: &mut [u8], end: usize, text: &[u8]) -> usize
    requires { (length text.now ≤ end) × (end ≤ length line.old) }
    ensures start { result + length text.now ≡ end }
    ensures length { length line.new ≡ length line.old }
    ensures text { drop result line.new ≡ text.now ++ drop end line.old }
{
    let start = end - text.len();
    line[start..end].copy_from_slice(text);
    start
}

/// Puts a number in decimal in front of the place `end`, and gives the place where it begins.
pub fn put_number_before(line: &mut [u8], end: usize, number: u64) -> usize
    requires { (20 ≤ end) × (end ≤ length line.old) }
    ensures start { (result ≤ end) × (end ≤ result + 20) }
    ensures length { length line.new ≡ length line.old }
    ensures text { drop result line.new ≡ decimal number ++ drop end line.old }
{
    write_digits(number, line, end)
}

/// Puts the line of counts at the end of the room, and gives the place where it begins.
fn put_counts(line: &mut [u8], entries: u64, sessions: u64) -> usize
    requires { length line.old ≡ 64 }
    ensures start { result ≤ length line.new }
    ensures line { drop result line.new ≡ counts_line entries sessions }
{
    let end = put_before(line, line.len(), b"\n");
    let end = put_number_before(line, end, sessions);
    let end = put_before(line, end, b" sessions ");
    let end = put_number_before(line, end, entries);
    put_before(line, end, b"entries ")
}

/// Writes how many entries the history has, and how many sessions were opened. `false`: a write failed.
/// It takes no memory.
pub fn report_counts<O: Sink>(report: &mut O, entries: u64, sessions: u64) -> bool
    ensures { PrintsAll (O.sink_state report.old) (counts_line entries sessions) result (O.sink_state report.new) }
{
    let mut line = [0; LINE];
    let start = put_counts(&mut line, entries, sessions);
    print_all(report, &line[start..])
}

/// The words that say why a record is refused.
fn reason_text(reason: Reason) -> &'static [u8]
    ensures { result.now ≡ reason_text reason }
{
    match reason {
        Reason::Shape => b" shape\n",
        Reason::Parent => b" parent\n",
        Reason::Twin => b" twin\n",
        Reason::Range => b" range\n",
        Reason::Limit => b" limit\n",
    }
}

/// Writes which volume could not be loaded, by its index from 0. `false`: a write failed.
fn report_load<O: Sink>(report: &mut O, index: usize) -> bool
    ensures { PrintsAll (O.sink_state report.old) (load_text index) result (O.sink_state report.new) }
{
    let mut line = [0; LINE];
    let end = line.len();
    let start = put_number_before(&mut line, end, (index as u64).saturating_add(1));
    let start = put_before(&mut line, start, b"load ");
    print_all(report, &line[start..])
}

/// Writes that the keeper of a volume failed while it was loaded. `false`: a write failed.
pub fn report_fault<O: Sink>(report: &mut O, index: usize) -> bool
    ensures { PrintsAll (O.sink_state report.old) (fault_line index) result (O.sink_state report.new) }
{
    if !report_load(report, index) {
        return false;
    }
    print_all(report, b" fault\n")
}

/// Writes which record no volume has, by its key in hexadecimal, and why. `false`: a write failed.
pub fn report_bad<O: Sink>(report: &mut O, index: usize, key: &[u8], reason: Reason) -> bool
    ensures { PrintsAll (O.sink_state report.old) (bad_line index key.now reason) result (O.sink_state report.new) }
{
    if !report_load(report, index) {
        return false;
    }
    if !print_all(report, b" bad ") {
        return false;
    }
    if !print_all(report, key) {
        return false;
    }
    print_all(report, reason_text(reason))
}
