//! The lines that are printed. They take no memory.
ghost use Rattle.std.specs.Prelude.{◌≡◌, ◌≤◌, ◌++◌, ◌<◌, ◌+◌, ◌∷◌, [], length, drop, codes};
ghost use Rattle.std.specs.Fmt.{decimal};
ghost use Rattle.afp_outside.specs.ends.Whole.{PrintsAll};
ghost use Rattle.dsi_frame.specs.Frame.{command_number};
ghost use Rattle.afptool_lib.specs.tool.Parcelling.{parcel_line, shape_word};
ghost use Rattle.afptool_lib.specs.tool.Lines.{hex_digit, hex_byte, same_line, got_word, differs_line, bad_line, kind_word, sizes_text, tally_line, drill_line, frame_line, rest_line, reason_word, bad_frame_line};

use afp_outside::{Sink, print_all};
use afpd_lib::server::report::{put_before, put_number_before};
use apple_double::Shape;
use capture_made::Tallied;
use dsi_frame::{DsiCommand, Header, Reason};

/// The room that a line takes at most.
const LINE: usize = 128;

/// The room that a line of five counts takes at most.
const TALLY_LINE: usize = 192;

/// A hexadecimal digit.
fn hex_digit(value: u8) -> u8
    requires { value < 16 }
    ensures { result ≡ hex_digit value }
{
    if value < 10 { b'0' + value } else { 87 + value }
}

/// Puts a byte in two hexadecimal digits in front of the place `end`.
fn put_byte_before(line: &mut [u8], end: usize, byte: u8) -> usize
    requires { (2 ≤ end) × (end ≤ length line.old) }
    ensures start { result + 2 ≡ end }
    ensures length { length line.new ≡ length line.old }
    ensures text { drop result line.new ≡ hex_byte byte ++ drop end line.old }
{
    let digits = [hex_digit(byte / 16), hex_digit(byte % 16)];
    put_before(line, end, &digits)
}

/// Puts the line of a capture that is the same at the end of the room, and gives the place where it begins.
fn put_same(line: &mut [u8], links: u64, entries: u64) -> usize
    requires { length line.old ≡ 128 }
    ensures start { result ≤ length line.new }
    ensures line { drop result line.new ≡ same_line links entries }
{
    let end = put_before(line, line.len(), b" same\n");
    let end = put_number_before(line, end, entries);
    let end = put_before(line, end, b" entries ");
    let end = put_number_before(line, end, links);
    put_before(line, end, b"links ")
}

/// Prints that a capture is the same.
pub fn report_same<O: Sink>(out: &mut O, links: u64, entries: u64) -> bool
    ensures { PrintsAll (O.sink_state out.old) (same_line links entries) result (O.sink_state out.new) }
{
    let mut line = [0; LINE];
    let start = put_same(&mut line, links, entries);
    print_all(out, &line[start..])
}

/// Puts the last two counts in a made capture at the end of the room.
fn put_refused_and_nodes(line: &mut [u8], refused: u64, nodes: u64) -> usize
    requires { length line.old ≡ 192 }
    ensures start { (135 ≤ result) × (result ≤ 192) }
    ensures length { length line.new ≡ length line.old }
    ensures line { drop result line.new ≡ codes " refused " ++ (decimal refused ++ (codes " nodes " ++ (decimal nodes ++ codes "\n"))) }
{
    let end = put_before(line, line.len(), b"\n");
    let end = put_number_before(line, end, nodes);
    let end = put_before(line, end, b" nodes ");
    let end = put_number_before(line, end, refused);
    put_before(line, end, b" refused ")
}

/// Puts the counts in a made capture at the end of the room, and gives the place where they begin.
fn put_tally(line: &mut [u8], tallied: &Tallied) -> usize
    requires { length line.old ≡ 192 }
    ensures start { result ≤ length line.new }
    ensures line { drop result line.new ≡ tally_line tallied.now }
{
    let end = put_refused_and_nodes(line, tallied.refused, tallied.nodes);
    let end = put_number_before(line, end, tallied.replies);
    let end = put_before(line, end, b" replies ");
    let end = put_number_before(line, end, tallied.entries);
    let end = put_before(line, end, b" entries ");
    let end = put_number_before(line, end, tallied.links);
    put_before(line, end, b"links ")
}

/// Prints what is counted in a made capture.
pub fn report_tally<O: Sink>(out: &mut O, tallied: &Tallied) -> bool
    ensures { PrintsAll (O.sink_state out.old) (tally_line tallied.now) result (O.sink_state out.new) }
{
    let mut line = [0; TALLY_LINE];
    let start = put_tally(&mut line, tallied);
    print_all(out, &line[start..])
}

/// Puts the last two counts of a drill at the end of the room.
fn put_results(line: &mut [u8], ok: u32, refused: u32) -> usize
    requires { length line.old ≡ 128 }
    ensures start { (74 ≤ result) × (result ≤ 128) }
    ensures length { length line.new ≡ length line.old }
    ensures line { drop result line.new ≡ codes " ok " ++ (decimal ok ++ (codes " refused " ++ (decimal refused ++ codes "\n"))) }
{
    let end = put_before(line, line.len(), b"\n");
    let end = put_number_before(line, end, u64::from(refused));
    let end = put_before(line, end, b" refused ");
    let end = put_number_before(line, end, u64::from(ok));
    put_before(line, end, b" ok ")
}

/// Puts the counts of a drill at the end of the room, and gives the place where they begin.
fn put_drill(line: &mut [u8], commands: u32, breaks: u32, ok: u32, refused: u32) -> usize
    requires { length line.old ≡ 128 }
    ensures start { result ≤ length line.new }
    ensures line { drop result line.new ≡ drill_line commands breaks ok refused }
{
    let end = put_results(line, ok, refused);
    let end = put_number_before(line, end, u64::from(breaks));
    let end = put_before(line, end, b" breaks ");
    let end = put_number_before(line, end, u64::from(commands));
    put_before(line, end, b"commands ")
}

/// Prints what is counted in a drill.
pub fn report_drill<O: Sink>(out: &mut O, commands: u32, breaks: u32, ok: u32, refused: u32) -> bool
    ensures { PrintsAll (O.sink_state out.old) (drill_line commands breaks ok refused) result (O.sink_state out.new) }
{
    let mut line = [0; LINE];
    let start = put_drill(&mut line, commands, breaks, ok, refused);
    print_all(out, &line[start..])
}

/// Puts the byte that stands there, or that none does.
fn put_got(line: &mut [u8], got: Option<u8>) -> usize
    requires { length line.old ≡ 128 }
    ensures start { (120 ≤ result) × (result ≤ 128) }
    ensures length { length line.new ≡ length line.old }
    ensures text { drop result line.new ≡ got_word got ++ (10 ∷ []) }
{
    let end = put_before(line, line.len(), b"\n");
    match got {
        Some(byte) => put_byte_before(line, end, byte),
        None => put_before(line, end, b"none"),
    }
}

/// Puts the line of a connection whose output differs.
fn put_differs(line: &mut [u8], link: u64, at: u64, want: u8, got: Option<u8>) -> usize
    requires { length line.old ≡ 128 }
    ensures start { result ≤ length line.new }
    ensures line { drop result line.new ≡ differs_line link at want got }
{
    let end = put_got(line, got);
    let end = put_before(line, end, b" got ");
    let end = put_byte_before(line, end, want);
    let end = put_before(line, end, b" want ");
    let end = put_number_before(line, end, at);
    let end = put_before(line, end, b" at ");
    let end = put_number_before(line, end, link);
    put_before(line, end, b"differs link ")
}

/// Prints where the output of a connection differs.
pub fn report_differs<O: Sink>(out: &mut O, link: u64, at: u64, want: u8, got: Option<u8>) -> bool
    ensures { PrintsAll (O.sink_state out.old) (differs_line link at want got) result (O.sink_state out.new) }
{
    let mut line = [0; LINE];
    let start = put_differs(&mut line, link, at, want, got);
    print_all(out, &line[start..])
}

/// Puts the line of a bad line.
fn put_bad_line(line: &mut [u8], number: u64) -> usize
    requires { length line.old ≡ 128 }
    ensures start { result ≤ length line.new }
    ensures line { drop result line.new ≡ bad_line number }
{
    let end = put_before(line, line.len(), b"\n");
    let end = put_number_before(line, end, number);
    put_before(line, end, b"bad line ")
}

/// Prints which line is bad.
pub fn report_bad_line<O: Sink>(out: &mut O, number: u64) -> bool
    ensures { PrintsAll (O.sink_state out.old) (bad_line number) result (O.sink_state out.new) }
{
    let mut line = [0; LINE];
    let start = put_bad_line(&mut line, number);
    print_all(out, &line[start..])
}

/// Puts whether a frame is a request or a reply.
fn put_kind_before(line: &mut [u8], end: usize, reply: bool) -> usize
    requires { (8 ≤ end) × (end ≤ length line.old) }
    ensures start { (result ≤ end) × (end ≤ result + 8) }
    ensures length { length line.new ≡ length line.old }
    ensures text { drop result line.new ≡ kind_word reply ++ drop end line.old }
{
    if reply {
        put_before(line, end, b" reply")
    } else {
        put_before(line, end, b" request")
    }
}

/// The number of a command.
fn number_of(command: DsiCommand) -> u64
    ensures { result ≡ command_number command }
{
    match command {
        DsiCommand::CloseSession => 1,
        DsiCommand::Command => 2,
        DsiCommand::GetStatus => 3,
        DsiCommand::OpenSession => 4,
        DsiCommand::Tickle => 5,
        DsiCommand::Write => 6,
        DsiCommand::Attention => 8,
    }
}

/// Puts what stands behind the command of a frame.
fn put_sizes(line: &mut [u8], id: u16, size: u32) -> usize
    requires { length line.old ≡ 128 }
    ensures start { (75 ≤ result) × (result ≤ 128) }
    ensures length { length line.new ≡ length line.old }
    ensures text { drop result line.new ≡ sizes_text id size }
{
    let end = put_before(line, line.len(), b"\n");
    let end = put_number_before(line, end, u64::from(size));
    let end = put_before(line, end, b" length ");
    let end = put_number_before(line, end, u64::from(id));
    put_before(line, end, b" id ")
}

/// Puts the line of a frame that begins at a place.
fn put_frame(line: &mut [u8], at: u64, header: Header) -> usize
    requires { length line.old ≡ 128 }
    ensures start { result ≤ length line.new }
    ensures line { drop result line.new ≡ frame_line at header }
{
    let end = put_sizes(line, header.id, header.length);
    let end = put_number_before(line, end, number_of(header.command));
    let end = put_before(line, end, b" command ");
    let end = put_kind_before(line, end, header.reply);
    let end = put_number_before(line, end, at);
    put_before(line, end, b"frame at ")
}

/// Prints a frame that begins at a place.
pub fn report_frame<O: Sink>(out: &mut O, at: u64, header: Header) -> bool
    ensures { PrintsAll (O.sink_state out.old) (frame_line at header) result (O.sink_state out.new) }
{
    let mut line = [0; LINE];
    let start = put_frame(&mut line, at, header);
    print_all(out, &line[start..])
}

/// Puts the line of what is less than a frame.
fn put_rest(line: &mut [u8], rest: u64) -> usize
    requires { length line.old ≡ 128 }
    ensures start { result ≤ length line.new }
    ensures line { drop result line.new ≡ rest_line rest }
{
    let end = put_before(line, line.len(), b"\n");
    let end = put_number_before(line, end, rest);
    put_before(line, end, b"rest ")
}

/// Prints how many bytes are left, less than a frame.
pub fn report_rest<O: Sink>(out: &mut O, rest: u64) -> bool
    ensures { PrintsAll (O.sink_state out.old) (rest_line rest) result (O.sink_state out.new) }
{
    let mut line = [0; LINE];
    let start = put_rest(&mut line, rest);
    print_all(out, &line[start..])
}

/// Puts the word of a reason.
fn put_reason(line: &mut [u8], reason: Reason) -> usize
    requires { length line.old ≡ 128 }
    ensures start { (110 ≤ result) × (result ≤ 128) }
    ensures length { length line.new ≡ length line.old }
    ensures text { drop result line.new ≡ reason_word reason }
{
    let end = line.len();
    match reason {
        Reason::Flags => put_before(line, end, b"flags\n"),
        Reason::Command => put_before(line, end, b"command\n"),
        Reason::Length => put_before(line, end, b"length\n"),
        Reason::Offset => put_before(line, end, b"offset\n"),
        Reason::Unexpected => put_before(line, end, b"unexpected\n"),
        Reason::Phase => put_before(line, end, b"phase\n"),
    }
}

/// Puts the line of a bad header.
fn put_bad_frame(line: &mut [u8], at: u64, reason: Reason) -> usize
    requires { length line.old ≡ 128 }
    ensures start { result ≤ length line.new }
    ensures line { drop result line.new ≡ bad_frame_line at reason }
{
    let end = put_reason(line, reason);
    let end = put_before(line, end, b" ");
    let end = put_number_before(line, end, at);
    put_before(line, end, b"bad at ")
}

/// Prints where a bad header stands, and why it is bad.
pub fn report_bad_frame<O: Sink>(out: &mut O, at: u64, reason: Reason) -> bool
    ensures { PrintsAll (O.sink_state out.old) (bad_frame_line at reason) result (O.sink_state out.new) }
{
    let mut line = [0; LINE];
    let start = put_bad_frame(&mut line, at, reason);
    print_all(out, &line[start..])
}

/// The word of a format.
fn shape_word(shape: Shape) -> &'static [u8]
    ensures word { result.now ≡ shape_word shape }
    ensures size { length result.now ≡ 6 }
{
    match shape {
        Shape::Single => b"single",
        Shape::Double => b"double",
    }
}

/// Puts the line of a parcel, whose forks have so many bytes.
fn put_parcel(line: &mut [u8], shape: Shape, data_size: u64, resource_size: u64) -> usize
    requires { length line.old ≡ 128 }
    ensures start { result ≤ length line.new }
    ensures line { drop result line.new ≡ parcel_line shape data_size resource_size }
{
    let end = put_before(line, line.len(), b"\n");
    let end = put_number_before(line, end, resource_size);
    let end = put_before(line, end, b" resource ");
    let end = put_number_before(line, end, data_size);
    let end = put_before(line, end, b" data ");
    put_before(line, end, shape_word(shape))
}

/// Prints the format of a parcel, and how many bytes its forks have.
pub fn report_parcel<O: Sink>(out: &mut O, shape: Shape, data_size: u64, resource_size: u64) -> bool
    ensures { PrintsAll (O.sink_state out.old) (parcel_line shape data_size resource_size) result (O.sink_state out.new) }
{
    let mut line = [0; LINE];
    let start = put_parcel(&mut line, shape, data_size, resource_size);
    print_all(out, &line[start..])
}
