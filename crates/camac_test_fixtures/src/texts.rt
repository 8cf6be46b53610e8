// Texts of several worked rows: the sample plan, a script with answers, and event files.

/// The sample plan as TOML.
pub const SAMPLE: &[u8] = b"[[type]]
name = \"ADC\"
commands = [ { f = 0, a = 0, to = 11, width = 12 },
  { f = 0, a = 12, to = 15, probe = true }, { f = 8, a = 12 },
  { f = 10, a = 12 }, { f = 24, a = 12 }, { f = 26, a = 12 } ]
[[type]]
name = \"REG\"
commands = [ { f = 16, a = 0, width = 8 }, { f = 0, a = 0 },
  { f = 27, a = 0 }, { f = 5, a = 0 } ]
[[crate]]
number = 1
waits = 2
[[crate.station]]
n = 5
type = \"ADC\"
gl = 3
[[crate.station]]
n = 6
type = \"REG\"
";

/// The listing of the sample.
pub const SAMPLE_LISTING: &[u8] = b"buffer 4096
type ADC commands 20 probes 4
type REG commands 4 probes 0
crate 1 waits 2
station 5 ADC gl 3
station 6 REG gl -
";

/// A service that reads a converter's first channel into an event.
pub const STRAIGHT_LINE: &[u8] = b"cdlam adc 1 1 5 12
var v
service adc within 3 cycles event 1 words {
  cdreg r 1 1 5 0
  cfsa 0 r -> v
  put v
}
";

/// Its verdict.
pub const VERDICT: &[u8] = b"accepted
service adc gl 3 cycles 3 of 3 words 1 of 1 steps 3
";

/// The answers of the straight-line service: its demand, and its read.
pub const ANSWERS: &[u8] = b"0 0 000000 0 000004
1 1 123fff 2 000000
";

/// What they list.
pub const LISTING: &[u8] = b"demand 000004 adc
cycle 1 5 0 0 in 123fff x1 q1 wait 2
ended events 1
";

/// An event file without events.
pub const NO_EVENTS: &[u8] = b"CAMACEV2";

/// A file of version One: an event of one word.
pub const FILE_ONE: &[u8] = b"CAMACEV1\xca\x4d\x00\x03\x00\x00\x00\x01\x00\x01\x00\x00\x0f\xff";

/// Its listing by `camac events`.
pub const LISTING_ONE: &[u8] = b"event 1 gl 3 words 1 000fff
events 1
";

/// A file of version Two: the event of a service that cost three cycles.
pub const FILE_TWO: &[u8] =
    b"CAMACEV2\xca\x4d\x00\x03\x00\x00\x00\x01\x00\x00\x00\x03\x00\x00\x00\x01\x00\x00\x0f\xff";

/// Its listing by `camac events`.
pub const LISTING_TWO: &[u8] = b"event 1 gl 3 cycles 3 missed 0 words 1 000fff
events 1
";
