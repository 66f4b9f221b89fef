ghost use Rattle.std.specs.Prelude.{◌≡◌, ◌≤◌, ◌+◌, ◌*◌, ◌%◌, length, slice_index};
ghost use Rattle.spv_words.specs.Words.{words_of, turned};

use crate::words::Order;
use byteorder::{BigEndian, ByteOrder, LittleEndian};

/// Turns each group of four bytes back to front, which leads from either order to the other.
pub fn turn(bytes: &mut [u8])
    requires { length bytes.old % 4 ≡ 0 }
    ensures { bytes.new ≡ turned bytes.old }
{
    let mut at = 0;
    while at < bytes.len() {
        let word = BigEndian::read_u32(&bytes[at..at + 4]);
        LittleEndian::write_u32(&mut bytes[at..at + 4], word);
        at += 4;
    }
}

/// Copies bytes, each group of four back to front.
pub fn turn_into(from: &[u8], into: &mut [u8])
    requires length { length from.now ≡ length into.old }
    requires groups { length from.now % 4 ≡ 0 }
    ensures { into.new ≡ turned from.now }
{
    into.copy_from_slice(from);
    turn(into);
}

/// The nth word of the bytes in an order.
pub fn word_in(bytes: &[u8], order: Order, n: usize) -> u32
    requires { 4 * n + 4 ≤ length bytes.now }
    ensures { result ≡ slice_index (words_of order bytes.now) n }
{
    let at = n * 4;
    match order {
        Order::Little => LittleEndian::read_u32(&bytes[at..at + 4]),
        Order::Big => BigEndian::read_u32(&bytes[at..at + 4]),
    }
}
