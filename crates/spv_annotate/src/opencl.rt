//! The instructions of the set OpenCL.std (OpenCL Extended Instruction Set Specification 1.0).

ghost use Rattle.std.specs.Prelude.{◌≡◌, IfOk, map};
ghost use Rattle.spv_lines.specs.Text.{lines_of};
ghost use Rattle.spv_annotate.specs.Notes as specs;
ghost use Rattle.spv_annotate.specs.Notes.{opencl_lines};

use spv_lines::split_line;
use std::alloc::{AllocError, Global};

/// A line for each number, from 0: the name of the instruction of that number. An empty line where no instruction has
/// the number. What the instructions take, spv_extended has.
pub const OPENCL: &str = r#"acos
acosh
acospi
asin
asinh
asinpi
atan
atan2
atanh
atanpi
atan2pi
cbrt
ceil
copysign
cos
cosh
cospi
erfc
erf
exp
exp2
exp10
expm1
fabs
fdim
floor
fma
fmax
fmin
fmod
fract
frexp
hypot
ilogb
ldexp
lgamma
lgamma_r
log
log2
log10
log1p
logb
mad
maxmag
minmag
modf
nan
nextafter
pow
pown
powr
remainder
remquo
rint
rootn
round
rsqrt
sin
sincos
sinh
sinpi
sqrt
tan
tanh
tanpi
tgamma
trunc
half_cos
half_divide
half_exp
half_exp2
half_exp10
half_log
half_log2
half_log10
half_powr
half_recip
half_rsqrt
half_sin
half_sqrt
half_tan
native_cos
native_divide
native_exp
native_exp2
native_exp10
native_log
native_log2
native_log10
native_powr
native_recip
native_rsqrt
native_sin
native_sqrt
native_tan
fclamp
degrees
fmax_common
fmin_common
mix
radians
step
smoothstep
sign
cross
distance
length
normalize
fast_distance
fast_length
fast_normalize






























s_abs
s_abs_diff
s_add_sat
u_add_sat
s_hadd
u_hadd
s_rhadd
u_rhadd
s_clamp
u_clamp
clz
ctz
s_mad_hi
u_mad_sat
s_mad_sat
s_max
u_max
s_min
u_min
s_mul_hi
rotate
s_sub_sat
u_sub_sat
u_upsample
s_upsample
popcount
s_mad24
u_mad24
s_mul24
u_mul24
vloadn
vstoren
vload_half
vload_halfn
vstore_half
vstore_half_r
vstore_halfn
vstore_halfn_r
vloada_halfn
vstorea_halfn
vstorea_halfn_r
shuffle
shuffle2
printf
prefetch
bitselect
select













u_abs
u_abs_diff
u_mul_hi
u_mad_hi
"#;

/// The table, as a text.
fn table() -> &'static str
    ensures { lines_of result.now ≡ opencl_lines }
{
    OPENCL
}

/// The lines of the table, so that each is found by its number.
///
/// An `AllocError` comes only where a growth of memory was refused.
pub fn table_lines(alloc: Global) -> Result<Vec<&'static str>, AllocError>
    ensures { IfOk result (λ v. map (λ t. t.now) v.items ≡ opencl_lines) }
{
    let mut lines = Vec::new(alloc);
    let mut rest = table();
    while !rest.is_empty() {
        let (line, further) = split_line(rest);
        lines.push(line)?;
        rest = further;
    }
    Ok(lines)
}

/// The name of the instruction of a number; nothing where there is none.
pub fn opencl_name(lines: &[&'static str], number: u32) -> &'static str
    requires { map (λ t. t.now) lines.now ≡ opencl_lines }
    ensures { result.now ≡ specs.opencl_name number }
{
    match lines.get(number as usize) {
        Some(name) => name,
        None => "",
    }
}
