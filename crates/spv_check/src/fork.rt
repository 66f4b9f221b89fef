//! What is asked of the two labels of a branch, as far as a module is looked at.

ghost use Rattle.std.specs.Prelude.{◌≡◌};
ghost use Rattle.spv_check.specs.Fork as spec;

use spv_extended::Reach;
use spv_flow::branches::Fork;

/// The minor number of the first version that asks it.
const FIRST_MINOR: u8 = 6;

/// What is asked of the two labels of an OpBranchConditional, as far as a module is looked at. It takes no memory.
pub fn fork_of(reach: Reach) -> Fork
    ensures { result ≡ spec.fork_of reach }
{
    match reach {
        Reach::Profile => Fork::Distinct,
        Reach::Extended => Fork::Distinct,
        Reach::OpenCl { minor } => {
            if minor < FIRST_MINOR {
                Fork::Free
            } else {
                Fork::Distinct
            }
        },
    }
}
