// Room for the bytes that a writer gathers. It is laid out once, so that nothing is looked up in memory where bytes are put into it.

ghost use Rattle.std.specs.Prelude.{◌≡◌, ◌≤◌, ◌+◌, ◌-◌, ◌++◌, [], true, length, take, drop, min, IfOk};
ghost use Rattle.camac_report.specs.Items.{item_text, unlock_texts};
ghost use Rattle.camac_machine.specs.MachineState.{piece_of};

use camac_report::{LONGEST_LINE, items_in};
use camac_rules::Checked;
use camac_run::Item;
use camac_word::CrateNo;
use std::alloc::{AllocError, Global};
use std::marker::Model;

/// How many bytes there is room for.
pub const ROOM: usize = 32_768;

/// The bytes that were put into it, in their order.
#[derive(Drop)]
pub struct Room {
    bytes: Vec<u8>,
    // how many of them were put there
    len: usize,
}

impl Model for Room {
    ghost use Rattle.std.specs.Prelude.{◌≡◌, List, ℕ, ◌≤◌, length, take};

    ghost Value = { List ℕ };

    ghost view = { λ r. take r.len r.bytes.items };

    ghost invariant = { λ r. (length r.bytes.items ≡ 32768) × (r.len ≤ 32768) };
}

impl Room {
    /// An `Err` is out of memory.
    pub fn new(alloc: Global) -> Result<Room, AllocError>
        ensures { IfOk result (λ r. r ≡ []) }
    {
        Ok(Room {
            bytes: vec![in alloc; 0; ROOM]?,
            len: 0,
        })
    }

    /// Whether there is room for so many bytes more.
    #[inline(always)]
    pub fn has_room(&self, count: usize) -> bool
        ensures { result ≡ true → length self.now + count ≤ ROOM }
    {
        count <= ROOM - self.len
    }

    /// Puts as many of the bytes there as there is room for, and tells how many.
    #[inline(always)]
    pub fn put(&mut self, bytes: &[u8]) -> usize
        ensures count { result ≡ min (ROOM - length self.old) (length bytes.now) }
        ensures bytes { self.new ≡ self.old ++ take result bytes.now }
    {
        let count = (self.bytes.len() - self.len).min(bytes.len());
        let end = self.len + count;
        self.bytes[self.len..end].copy_from_slice(&bytes[..count]);
        self.len = end;
        count
    }

    /// Lays out the line of an item, and a line for each crate, at most seven, whose lockout was released after it.
    #[inline(always)]
    pub fn put_items(&mut self, checked: &Checked, item: &Item, unlocks: &[CrateNo])
        requires few { length unlocks.now ≤ 7 }
        requires room { length self.old + LONGEST_LINE ≤ ROOM }
        ensures { self.new ≡ self.old ++ (item_text checked.now.script (piece_of item.now) ++ unlock_texts unlocks.now) }
    {
        self.len = items_in(&mut self.bytes, self.len, checked, item, unlocks);
    }

    pub fn as_slice(&self) -> &[u8]
        ensures { result.now ≡ self.now }
    {
        &self.bytes[..self.len]
    }

    /// Takes the first bytes away.
    pub fn remove_prefix(&mut self, count: usize)
        requires { count ≤ length self.old }
        ensures { self.new ≡ drop count self.old }
    {
        move_down(&mut self.bytes, count, self.len);
        self.len -= count;
    }
}

// Puts the bytes between two places at the front.
fn move_down(bytes: &mut [u8], from: usize, end: usize)
    requires { (from ≤ end) × (end ≤ length bytes.old) }
    ensures moved { take (end - from) bytes.new ≡ drop from (take end bytes.old) }
    ensures len { length bytes.new ≡ length bytes.old }
{
    bytes.copy_within(from..end, 0);
}
