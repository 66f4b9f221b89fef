//! The version that the bytes of a module tell.
ghost use Rattle.std.specs.Prelude.{◌≡◌, ◌≤◌, length, IfSome, IsNone, IsTrue};
ghost use Rattle.spv_words.specs.Version.{as_1_6, has_version as has_version_of, version_front as version_front_of};
ghost use Rattle.spv_words.specs.declared.words.Order.TheVariants.{Little, Big};

use crate::words::Order;

/// How many bytes the magic number and the version have.
pub const FRONT_SIZE: usize = 8;

/// The greatest minor number of a version that is read as 1.6, and that of 1.6 itself.
const GREATEST_MINOR: u8 = 6;

/// The bytes that a module of version 1.minor begins with. (2.3)
fn version_front(order: Order, minor: u8) -> [u8; 8]
    ensures { result ≡ version_front_of order minor }
{
    match order {
        Order::Little => [0x03, 0x02, 0x23, 0x07, 0, minor, 1, 0],
        Order::Big => [0x07, 0x23, 0x02, 0x03, 0, 1, minor, 0],
    }
}

/// Whether bytes begin as a module of one of the versions 1.0 to 1.6 does in an order. (2.3)
fn has_version(order: Order, bytes: &[u8]) -> bool
    requires { 8 ≤ length bytes.now }
    ensures { result ≡ has_version_of order bytes.now }
{
    let minor = match order {
        Order::Little => bytes[5],
        Order::Big => bytes[6],
    };
    minor <= GREATEST_MINOR && bytes.starts_with(&version_front(order, minor))
}

/// The order in which bytes begin as a module of one of the versions 1.0 to 1.6 does, if there is one. (2.3)
fn order_of_version(bytes: &[u8]) -> Option<Order>
    requires { 8 ≤ length bytes.now }
    ensures found { IfSome result (λ o. IsTrue (has_version_of o bytes.now)) }
    ensures little { IsTrue (has_version_of Little bytes.now) → result ≡ Some Little }
    ensures none { IsNone result → ¬ (IsTrue (has_version_of Big bytes.now)) }
{
    if has_version(Order::Little, bytes) {
        return Some(Order::Little);
    }
    if has_version(Order::Big, bytes) {
        return Some(Order::Big);
    }
    None
}

/// Puts version 1.6 in place of the version of a module of 1.0 to 1.6, whatever its byte order. Any other bytes are
/// left as they are: so a module of another version, as 1.7 or 2.0, still breaks `W5`. (own)
pub fn replace_version(bytes: &mut [u8])
    ensures { bytes.new ≡ as_1_6 bytes.old }
{
    if bytes.len() < FRONT_SIZE {
        return;
    }
    if let Some(order) = order_of_version(bytes) {
        bytes[..FRONT_SIZE].copy_from_slice(&version_front(order, GREATEST_MINOR));
    }
}
