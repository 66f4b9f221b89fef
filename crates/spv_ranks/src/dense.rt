//! Below which id ids are dense.

ghost use Rattle.std.specs.Prelude.{◌<◌};

/// Of an id the number of its highest bit, from 0.
#[inline(always)]
fn highest_bit(id: u32) -> usize
    ensures { result < 32 }
{
    id.max(1).ilog2() as usize
}

/// How many ids have each highest bit.
fn count_by_bits(ids: &[u32]) -> [u32; 32] {
    let mut counts = [0u32; 32];
    for id in ids {
        let bit = highest_bit(*id);
        counts[bit] = counts[bit].wrapping_add(1);
    }
    counts
}

/// The greatest power of two below which at least half of the numbers are among these ids, or 0. It is at most
/// 2,147,483,648.
pub fn dense_bound(ids: &[u32]) -> u32 {
    let counts = count_by_bits(ids);
    let mut below: u32 = 0;
    let mut bound = 0;
    for bit in 0..31 {
        below = below.wrapping_add(counts[bit]);
        let half = 1u32.wrapping_shl(bit as u32);
        if half <= below {
            bound = half.wrapping_mul(2);
        }
    }
    bound
}
