//! How deep the text of a plan nests, before it is read as TOML. A text is read in memory that grows with its depth, and so does the stack.

ghost use Rattle.std.specs.Prelude.{◌≡◌, ◌≤◌, [], reverse};
ghost use Rattle.arrayvec.specs.ArrayVec.{array_vec_len};
ghost use Rattle.camac_plan.specs.Nesting.{begun, in_line, in_lines, next_within, part_in, is_in_brackets, begins_with_dot, without_dots, level_of, counted, dotted, bracket_opened, bracket_closed, item_ended, line_ended, standing_of, after, too_deep};

use arrayvec::ArrayVec;

/// How many arrays, inline tables, dots of keys and keys of a heading may stand in each other.
pub(crate) const DEEPEST: usize = 16;

/// What a byte stands in, of strings and comments. A `quote` is that of the string.
#[derive(Clone, Copy)]
pub(crate) enum Within {
    Neither,
    Comment,
    /// After the first quote of a string.
    One { quote: u8 },
    /// After two quotes, which are an empty string or begin one of several lines.
    Two { quote: u8 },
    /// A string of one line.
    Line { quote: u8 },
    /// After a `\` in it.
    LineEscape,
    /// A string of several lines, after so many quotes one after another, which are counted to three.
    Lines { quote: u8, quotes: u8 },
    /// After a `\` in it.
    LinesEscape,
}

/// What a byte stands in, of a statement.
#[derive(Clone, Copy)]
pub(crate) enum Part {
    Heading,
    Key,
    Value,
}

/// What is open around a byte, one level each.
#[derive(Clone, Copy, Default)]
pub(crate) enum Open {
    /// A key of the heading.
    #[default]
    Heading,
    /// A dot of a key.
    Dot,
    Array,
    Table,
}

// What stands around a byte that is in no string and no comment. What is open stands outermost first. One more than the deepest has room.
#[derive(Drop)]
struct Around {
    part: Part,
    opened: ArrayVec<Open, 17>,
}

#[derive(Drop)]
struct Place {
    within: Within,
    around: Around,
}

/// How many bytes stand before the first byte that is deeper than a plan may be.
pub(crate) fn too_deep(bytes: &[u8]) -> Option<usize>
    ensures { result ≡ too_deep bytes.now }
{
    let mut place = Place {
        within: Within::Neither,
        around: Around {
            part: Part::Key,
            opened: ArrayVec::new(),
        },
    };
    let mut at = 0;
    'bytes: for byte in bytes {
        place.follow(*byte);
        if place.around.opened.len() > DEEPEST {
            return Some(at);
        }
        at += 1;
    }
    None
}

impl Place {
    fn follow(&mut self, byte: u8)
        requires { array_vec_len self.old.around.opened ≤ 16 }
        ensures { standing_of self.new ≡ after byte (standing_of self.old) }
    {
        self.within = next_within(self.within, byte);
        match self.within {
            Within::Neither => self.around.count(byte),
            _ => {}
        }
    }
}

// What the byte after this one stands in.
fn next_within(within: Within, byte: u8) -> Within
    ensures { result ≡ next_within within byte }
{
    match within {
        Within::Neither => begun(byte),
        Within::Comment => {
            if byte == b'\n' {
                Within::Neither
            } else {
                Within::Comment
            }
        }
        Within::One { quote } => {
            if byte == quote {
                Within::Two { quote }
            } else {
                in_line(quote, byte)
            }
        }
        Within::Two { quote } => {
            if byte == quote {
                Within::Lines { quote, quotes: 0 }
            } else {
                begun(byte)
            }
        }
        Within::Line { quote } => in_line(quote, byte),
        Within::LineEscape => Within::Line { quote: b'"' },
        Within::Lines { quote, quotes } => in_lines(quote, quotes, byte),
        Within::LinesEscape => Within::Lines {
            quote: b'"',
            quotes: 0,
        },
    }
}

fn begun(byte: u8) -> Within
    ensures { result ≡ begun byte }
{
    if byte == b'#' {
        Within::Comment
    } else if byte == b'"' {
        Within::One { quote: byte }
    } else if byte == b'\'' {
        Within::One { quote: byte }
    } else {
        Within::Neither
    }
}

fn in_line(quote: u8, byte: u8) -> Within
    ensures { result ≡ in_line quote byte }
{
    if byte == quote {
        Within::Neither
    } else if byte == b'\n' {
        Within::Neither
    } else if byte == b'\\' && quote == b'"' {
        Within::LineEscape
    } else {
        Within::Line { quote }
    }
}

fn in_lines(quote: u8, quotes: u8, byte: u8) -> Within
    ensures { result ≡ in_lines quote quotes byte }
{
    if byte == quote {
        let quotes = if quotes < 3 { quotes + 1 } else { 3 };
        Within::Lines { quote, quotes }
    } else if quotes == 3 {
        begun(byte)
    } else if byte == b'\\' && quote == b'"' {
        Within::LinesEscape
    } else {
        Within::Lines { quote, quotes: 0 }
    }
}

impl Around {
    fn count(&mut self, byte: u8)
        requires { array_vec_len self.old.opened ≤ 16 }
        ensures { level_of self.new ≡ counted byte (level_of self.old) }
    {
        if byte == b'[' {
            self.open_bracket();
        } else if byte == b'{' {
            self.opened.push(Open::Table);
            self.part = Part::Key;
        } else if byte == b'.' {
            self.pass_dot();
        } else if byte == b'=' {
            self.part = Part::Value;
        } else if byte == b',' {
            self.end_item();
        } else if byte == b']' {
            self.close_bracket();
        } else if byte == b'}' {
            self.close_bracket();
        } else if byte == b'\n' {
            self.end_line();
        }
    }

    // An array, or a heading where no value stands.
    fn open_bracket(&mut self)
        requires { array_vec_len self.old.opened ≤ 16 }
        ensures { level_of self.new ≡ bracket_opened self.old.part (reverse self.old.opened.items) }
    {
        match self.part {
            Part::Value => self.opened.push(Open::Array),
            _ => {
                self.opened.clear();
                self.opened.push(Open::Heading);
                self.part = Part::Heading;
            }
        }
    }

    fn pass_dot(&mut self)
        requires { array_vec_len self.old.opened ≤ 16 }
        ensures { level_of self.new ≡ dotted self.old.part (reverse self.old.opened.items) }
    {
        match self.part {
            Part::Heading => self.opened.push(Open::Heading),
            Part::Key => self.opened.push(Open::Dot),
            Part::Value => {}
        }
    }

    fn end_item(&mut self)
        ensures { level_of self.new ≡ item_ended (without_dots (reverse self.old.opened.items)) }
    {
        end_key(&mut self.opened);
        self.part = part_in(&self.opened);
    }

    fn close_bracket(&mut self)
        ensures { level_of self.new ≡ bracket_closed self.old.part (reverse self.old.opened.items) }
    {
        match self.part {
            Part::Heading => {}
            _ => {
                end_key(&mut self.opened);
                if is_in_brackets(&self.opened) {
                    self.opened.pop();
                }
                self.part = Part::Value;
            }
        }
    }

    fn end_line(&mut self)
        ensures { level_of self.new ≡ line_ended self.old.part (without_dots (reverse self.old.opened.items)) }
    {
        end_key(&mut self.opened);
        if !is_in_brackets(&self.opened) {
            self.part = Part::Key;
        }
    }
}

// Takes the dots of a key away.
fn end_key(opened: &mut ArrayVec<Open, 17>)
    ensures { reverse opened.new.items ≡ without_dots (reverse opened.old.items) }
{
    'dots: while ends_in_dot(opened) {
        opened.pop();
    }
}

fn ends_in_dot(opened: &ArrayVec<Open, 17>) -> bool
    ensures { result ≡ begins_with_dot (reverse opened.now.items) }
{
    match opened.as_slice() {
        [.., Open::Dot] => true,
        _ => false,
    }
}

fn is_in_brackets(opened: &ArrayVec<Open, 17>) -> bool
    ensures { result ≡ is_in_brackets (reverse opened.now.items) }
{
    match opened.as_slice() {
        [.., Open::Array] => true,
        [.., Open::Table] => true,
        _ => false,
    }
}

fn part_in(opened: &ArrayVec<Open, 17>) -> Part
    ensures { result ≡ part_in (reverse opened.now.items) }
{
    match opened.as_slice() {
        [.., Open::Array] => Part::Value,
        _ => Part::Key,
    }
}
