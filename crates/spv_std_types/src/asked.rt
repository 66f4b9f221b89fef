ghost use Rattle.std.specs.Prelude.{◌≡◌};
ghost use Rattle.spv_std_types.specs.Broken as spec;

use spv_extended::Reach;

/// Whether the types of the instructions of OpenCL.std are asked of a module that is looked at so far.
pub fn asks_types(reach: Reach) -> bool
    ensures { result ≡ spec.asks_types reach }
{
    match reach {
        Reach::Profile => false,
        Reach::Extended => false,
        Reach::OpenCl { .. } => true,
    }
}
