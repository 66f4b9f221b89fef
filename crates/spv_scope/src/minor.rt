//! The minor number of the version of a module.
ghost use Rattle.std.specs.Prelude.{◌≡◌, ◌≤◌, ◌<◌, length, IfSome, slice_index};
ghost use Rattle.spv_words.specs.Version.{has_version as has_version_of, version_front as version_front_of};
ghost use Rattle.spv_scope.specs.Minor as spec;

use spv_words::Order;

/// How many bytes the magic number and the version have.
const FRONT_SIZE: usize = 8;

/// The greatest minor number of a version.
pub const GREATEST_MINOR: u8 = 6;

/// The bytes that a module of version 1.minor begins with. (2.3)
fn version_front(order: Order, minor: u8) -> [u8; 8]
    ensures { result ≡ version_front_of order minor }
{
    match order {
        Order::Little => [0x03, 0x02, 0x23, 0x07, 0, minor, 1, 0],
        Order::Big => [0x07, 0x23, 0x02, 0x03, 0, 1, minor, 0],
    }
}

/// Whether bytes begin as a module of one of the versions 1.0 to 1.6 does in an order. (2.3)
fn has_version(order: Order, bytes: &[u8]) -> bool
    requires { 8 ≤ length bytes.now }
    ensures { result ≡ has_version_of order bytes.now }
{
    let minor = match order {
        Order::Little => bytes[5],
        Order::Big => bytes[6],
    };
    minor <= GREATEST_MINOR && bytes.starts_with(&version_front(order, minor))
}

/// The place of the minor version number in bytes that begin as a module of one of the versions 1.0 to 1.6 does. (2.3)
fn minor_place(bytes: &[u8]) -> Option<usize>
    ensures place { result ≡ spec.minor_place bytes.now }
    ensures inside { IfSome result (λ at. at < length bytes.now) }
    ensures least { IfSome result (λ at. slice_index bytes.now at ≤ 6) }
{
    if bytes.len() < FRONT_SIZE {
        return None;
    }
    if has_version(Order::Little, bytes) {
        return Some(5);
    }
    if has_version(Order::Big, bytes) {
        return Some(6);
    }
    None
}

/// The minor number of the version of bytes that begin as a module of one of the versions 1.0 to 1.6 does, in either
/// byte order: 0 to 6. None of other bytes. (2.3)
pub fn minor_of(bytes: &[u8]) -> Option<u8>
    ensures told { result ≡ spec.minor_of bytes.now }
    ensures known { IfSome result (λ minor. minor ≤ 6) }
{
    let at = minor_place(bytes)?;
    Some(bytes[at])
}

/// Puts another minor number in place of that of the version of such bytes. Any other bytes are left as they are. (own)
pub fn put_minor(bytes: &mut [u8], minor: u8)
    ensures { bytes.new ≡ spec.with_minor minor bytes.old }
{
    if let Some(at) = minor_place(bytes) {
        bytes[at] = minor;
    }
}
