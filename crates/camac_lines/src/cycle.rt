// The line of a dataway cycle over the bytes of a line, from a place on. The place stays at hand until the whole line is laid out, so that
// the length of the line is set once.

ghost use Rattle.std.specs.Prelude.{◌≡◌, ◌≤◌, ◌+◌, ◌++◌, ◌∷◌, [], length, take, codes, decimal};
ghost use Rattle.camac_branch.specs.Address.{address};
ghost use Rattle.camac_lines.specs.Cycles.{flag_text, move_text, cycle_start, cycle_text};

use crate::bytes::{bytes_in, small_in, text_in};
use crate::digits::hex_word;
use camac_branch::{Command, CycleDone, Reply};
use camac_func::DataMove;
use camac_word::CrateNo;

/// Lays out the line of a cycle, and returns the place after it.
pub fn cycle_in(bytes: &mut [u8], start: usize, cycle: &CycleDone) -> usize
    requires { start + 48 ≤ length bytes.old }
    ensures written { take result bytes.new ≡ take start bytes.old ++ cycle_text (address cycle.now.command.c cycle.now.command.n cycle.now.command.a) cycle.now.command.f cycle.now.command.mv cycle.now.reply cycle.now.wait }
    ensures end { result ≤ start + 48 }
    ensures len { length bytes.new ≡ length bytes.old }
{
    let moved = command_in(bytes, start, &cycle.command);
    let replied = move_in(bytes, moved, cycle.command.mv, cycle.reply);
    let number = bytes_in(bytes, replied, &reply_text(cycle.reply));
    ended_in(bytes, number, cycle.wait, b'\n')
}

/// Lays out the line's beginning, the command alone, and returns the place after it.
#[inline(always)]
pub fn command_in(bytes: &mut [u8], start: usize, command: &Command) -> usize
    requires { start + 22 ≤ length bytes.old }
    ensures written { take result bytes.new ≡ take start bytes.old ++ cycle_start (address command.now.c command.now.n command.now.a) command.now.f }
    ensures end { result ≤ start + 22 }
    ensures len { length bytes.new ≡ length bytes.old }
{
    let n = bytes_in(bytes, start, &word_and_crate(command.c));
    let a = ended_in(bytes, n, command.n.get() as u8, b' ');
    let f = ended_in(bytes, a, command.a.get() as u8, b' ');
    ended_in(bytes, f, command.f.get() as u8, b' ')
}

// The line's first word and its crate, which has one digit.
#[inline(always)]
fn word_and_crate(c: CrateNo) -> [u8; 8]
    ensures { result ≡ codes "cycle " ++ decimal c ++ codes " " }
{
    let digit = b'0' + c.get() as u8;
    [b'c', b'y', b'c', b'l', b'e', b' ', digit, b' ']
}

// A number, and the byte that ends it.
#[inline(always)]
fn ended_in(bytes: &mut [u8], start: usize, number: u8, end: u8) -> usize
    requires { start + 4 ≤ length bytes.old }
    ensures written { take result bytes.new ≡ take start bytes.old ++ decimal number ++ end ∷ [] }
    ensures end { result ≤ start + 4 }
    ensures len { length bytes.new ≡ length bytes.old }
{
    if number < 10 {
        bytes_in(bytes, start, &[b'0' + number, end])
    } else {
        let last = small_in(bytes, start, number);
        bytes_in(bytes, last, &[end])
    }
}

#[inline(always)]
fn move_in(bytes: &mut [u8], start: usize, moves: DataMove, reply: Reply) -> usize
    requires { start + 10 ≤ length bytes.old }
    ensures written { take result bytes.new ≡ take start bytes.old ++ move_text moves reply }
    ensures end { result ≤ start + 10 }
    ensures len { length bytes.new ≡ length bytes.old }
{
    match moves {
        DataMove::In => {
            let text = *b"in ";
            let word = bytes_in(bytes, start, &text);
            bytes_in(bytes, word, &hex_word(reply.word))
        }
        DataMove::Out(sent) => {
            let word = text_in(bytes, start, "out ");
            bytes_in(bytes, word, &hex_word(sent))
        }
        DataMove::None => text_in(bytes, start, "none"),
    }
}

// The reply's X and Q, and what stands before the wait. It is made on the stack: bytes that are part of the program would be tested
// for an overlap with the line.
#[inline(always)]
fn reply_text(reply: Reply) -> [u8; 12]
    ensures { result ≡ codes " x" ++ flag_text reply.x ++ codes " q" ++ flag_text reply.q ++ codes " wait " }
{
    let x = flag_digit(reply.x);
    let q = flag_digit(reply.q);
    [
        b' ', b'x', x, b' ', b'q', q, b' ', b'w', b'a', b'i', b't', b' ',
    ]
}

#[inline(always)]
fn flag_digit(flag: bool) -> u8
    ensures { result ∷ [] ≡ flag_text flag }
{
    b'0' + flag as u8
}
