//! The types that are read where one is wanted and another found.

ghost use Rattle.std.specs.Prelude.{◌≡◌, ◌++◌, IfOk, option_to_list};
ghost use Rattle.spv_readings.specs.Reads as spec;

use spv_type_forms::{Definitions, Form};
use std::alloc::{AllocError, Global};

/// The type within a type: what a pointer points to, the component of a vector, the element of an array, the image type
/// of a sampled image type.
pub fn inner_of(definitions: &Definitions, t: Option<u32>) -> Option<u32>
    ensures { result ≡ spec.inner_of definitions.now t }
{
    match definitions.form(t?)? {
        Form::Pointer { pointee, .. } => Some(pointee),
        Form::Vector { component, .. } => Some(component),
        Form::Array { element, .. } => Some(element),
        Form::SampledImage(image) => Some(image),
        _ => None,
    }
}

/// Types, and one more if there is one.
pub fn with_type(types: Vec<u32>, t: Option<u32>) -> Result<Vec<u32>, AllocError>
    ensures { IfOk result (λ v. v.items ≡ types.items ++ option_to_list t) }
{
    let mut types = types;
    if let Some(t) = t {
        types.push(t)?;
    }
    Ok(types)
}

/// The type of a whole, if there is one, and the types that are read where one is found and another wanted: these, and
/// the types within them.
///
/// The error comes when out of memory.
pub fn reads_within(
    alloc: Global,
    definitions: &Definitions,
    whole: Option<u32>,
    wanted: Option<u32>,
    found: Option<u32>,
) -> Result<Vec<u32>, AllocError>
    ensures { IfOk result (λ v. v.items ≡ option_to_list whole ++ spec.reads definitions.now wanted found) }
{
    let types = with_type(Vec::new(alloc), whole)?;
    let types = with_type(types, wanted)?;
    let types = with_type(types, found)?;
    let types = with_type(types, inner_of(definitions, wanted))?;
    with_type(types, inner_of(definitions, found))
}

/// The types that are read where one is found and another wanted: these, and the types within them.
///
/// The error comes when out of memory.
pub fn reads(
    alloc: Global,
    definitions: &Definitions,
    wanted: Option<u32>,
    found: Option<u32>,
) -> Result<Vec<u32>, AllocError>
    ensures { IfOk result (λ v. v.items ≡ spec.reads definitions.now wanted found) }
{
    reads_within(alloc, definitions, None, wanted, found)
}
