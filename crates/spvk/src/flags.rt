//! Flags of calls, as `include/spvk.h` lists them.
ghost use Rattle.std.specs.Prelude.{◌≡◌};
ghost use Rattle.spvk.specs.Flags as spec;

use spv_scope::Scope;

/// What flags ask for: `SPVK_AS_1_6` (1), `SPVK_EXTENDED` (2), or both, or `SPVK_OPENCL` (4), beside which
/// `SPVK_EXTENDED` asks for nothing more. None where another bit is set, or `SPVK_OPENCL` with `SPVK_AS_1_6`.
pub fn asked_by(flags: u32) -> Option<Scope>
    ensures { result ≡ spec.asked_by flags }
{
    match flags {
        0 => Some(Scope::Own { as_1_6: false }),
        1 => Some(Scope::Own { as_1_6: true }),
        2 => Some(Scope::Extended { as_1_6: false }),
        3 => Some(Scope::Extended { as_1_6: true }),
        4 | 6 => Some(Scope::OpenCl),
        _ => None,
    }
}
