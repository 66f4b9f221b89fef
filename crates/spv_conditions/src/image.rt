//! What an image type says of its images, and what is asked of types by it.

ghost use Rattle.std.specs.Prelude.{◌≡◌, ◌≤◌, ◌↔◌, ℕ, IsTrue, IsSomeAnd, Some};
ghost use Rattle.spv_type_forms.specs.Form.{form_of};
ghost use Rattle.spv_type_forms.specs.Types.{IsPointer};
ghost use Rattle.spv_conditions.specs.Image as spec;
ghost use Rattle.spv_type_forms.specs.declared.form.Form.TheVariants as form;

use spv_type_forms::{Definitions, Form, Image, Sort, has_sort, image_of};
use spv_type_kinds::Images;

/// The type itself, the image type of a sampled image type, or what a pointer points to.
fn behind(t: u32, form: Form) -> u32
    ensures { result ≡ spec.behind_in t form }
{
    match form {
        Form::SampledImage(image) => image,
        Form::Pointer { pointee, .. } => pointee,
        _ => t,
    }
}

/// What the image type says that is a type, of which that is the sampled image type, or to which it points.
pub fn image_behind(definitions: &Definitions, t: u32) -> Option<Image>
    ensures { result ≡ spec.image_behind definitions.now t }
{
    let form = definitions.form(t)?;
    image_of(definitions, behind(t, form))
}

/// How many coordinates a dimension has.
pub fn plane(dim: u32) -> Option<u32>
    ensures { result ≡ spec.plane_in dim }
{
    match dim {
        0 | 5 => Some(1),
        1 | 4 => Some(2),
        2 | 3 => Some(3),
        _ => None,
    }
}

/// How many coordinates an image has, with its layer.
fn places(image: Image) -> Option<u64>
    ensures { result ≡ spec.places_in image }
{
    let plane = plane(image.dim)?;
    Some(u64::from(plane) + u64::from(image.arrayed))
}

/// How many components the size of an image has.
fn extent(image: Image) -> Option<u64>
    ensures { result ≡ spec.extent_in image }
{
    if image.dim == 3 {
        Some(2 + u64::from(image.arrayed))
    } else {
        places(image)
    }
}

/// Whether images are of a sort.
fn has_images(images: Images, image: Image) -> bool
    ensures { result ≡ spec.has_images images image }
{
    match images {
        Images::Sampled => image.sampled <= 1,
        Images::Fetched => !(image.dim == 3) && image.sampled == 1,
        Images::Stored => image.sampled == 0 || image.sampled == 2,
        Images::Sized => image.dim <= 3 && image.multisampled == 0,
        Images::Leveled => image.dim <= 3,
        Images::Flat => {
            image.dim <= 5
                && (4 <= image.dim
                    || (image.multisampled == 1 || (image.sampled == 0 || image.sampled == 2)))
        }
        Images::Multisampled => image.dim == 1 && image.multisampled == 1,
    }
}

/// Whether a type is an image type of such images.
pub fn is_image(definitions: &Definitions, images: Images, t: u32) -> bool
    ensures { IsTrue result ↔ spec.IsImage definitions.now images t }
{
    match image_of(definitions, t) {
        Some(image) => has_images(images, image),
        None => false,
    }
}

/// Whether images behind a type do not have several samples.
fn has_one_sample(definitions: &Definitions, t: u32) -> bool
    ensures { IsTrue result ↔ IsSomeAnd (spec.image_behind definitions.now t) (λ m. m.multisampled ≡ 0) }
{
    match image_behind(definitions, t) {
        Some(image) => image.multisampled == 0,
        None => false,
    }
}

/// Whether a type is a sampled image type.
fn is_some_sampled(definitions: &Definitions, t: u32) -> bool
    ensures { IsTrue result ↔ ((i : ℕ) × (form_of definitions.now t ≡ Some (form.SampledImage i))) }
{
    match definitions.form(t) {
        Some(Form::SampledImage(_)) => true,
        _ => false,
    }
}

/// Whether a type is a sampled image type of images without several samples.
pub fn is_sampled(definitions: &Definitions, t: u32) -> bool
    ensures { IsTrue result ↔ spec.IsSampled definitions.now t }
{
    is_some_sampled(definitions, t) && has_one_sample(definitions, t)
}

/// Whether a type is the sampled image type of a type.
pub fn is_sampled_of(definitions: &Definitions, t: u32, u: u32) -> bool
    ensures { IsTrue result ↔ (form_of definitions.now t ≡ Some (form.SampledImage u)) }
{
    match definitions.form(t) {
        Some(Form::SampledImage(image)) => image == u,
        _ => false,
    }
}

/// Whether a type is a pointer of the class Image to a type.
fn is_image_pointer_to(definitions: &Definitions, t: u32, to: u32) -> bool
    ensures { IsTrue result ↔ IsPointer definitions.now t 11 to }
{
    match definitions.form(t) {
        Some(Form::Pointer { class: 11, pointee }) => pointee == to,
        _ => false,
    }
}

/// Whether a type is a pointer to texels of the images behind another.
pub fn is_texel_pointer(definitions: &Definitions, t: u32, u: u32) -> bool
    ensures { IsTrue result ↔ spec.IsTexelPointer definitions.now t u }
{
    match image_behind(definitions, u) {
        Some(image) => is_image_pointer_to(definitions, t, image.sampled_type),
        None => false,
    }
}

/// Whether a type has as many components as images behind another have coordinates.
fn fills_places(definitions: &Definitions, t: u32, u: u32) -> bool
    ensures { IsTrue result ↔ spec.Counts definitions.now spec.places_in (λ n m. n ≡ m) t u }
{
    let Some(image) = image_behind(definitions, u) else {
        return false;
    };
    match (places(image), definitions.components(t)) {
        (Some(most), Some(components)) => most == u64::from(components.count),
        _ => false,
    }
}

/// Whether a type has as many components as images behind another have coordinates, or more.
fn covers_places(definitions: &Definitions, t: u32, u: u32) -> bool
    ensures { IsTrue result ↔ spec.Counts definitions.now spec.places_in (λ n m. n ≤ m) t u }
{
    let Some(image) = image_behind(definitions, u) else {
        return false;
    };
    match (places(image), definitions.components(t)) {
        (Some(least), Some(components)) => least <= u64::from(components.count),
        _ => false,
    }
}

/// Whether a type has as many components as the size of images behind another.
fn fills_extent(definitions: &Definitions, t: u32, u: u32) -> bool
    ensures { IsTrue result ↔ spec.Counts definitions.now spec.extent_in (λ n m. n ≡ m) t u }
{
    let Some(image) = image_behind(definitions, u) else {
        return false;
    };
    match (extent(image), definitions.components(t)) {
        (Some(most), Some(components)) => most == u64::from(components.count),
        _ => false,
    }
}

/// Whether a type is an int or a float, or a vector of them.
pub fn is_numeric(definitions: &Definitions, t: u32) -> bool
    ensures { IsTrue result ↔ spec.IsNumeric definitions.now t }
{
    has_sort(definitions, Sort::Int, t) || has_sort(definitions, Sort::Float, t)
}

/// Whether a type is one of ints, one for each coordinate of images behind another.
pub fn is_place(definitions: &Definitions, t: u32, u: u32) -> bool
    ensures { IsTrue result ↔ spec.IsPlace definitions.now t u }
{
    has_sort(definitions, Sort::Int, t) && fills_places(definitions, t, u)
}

/// Whether a type is one of ints, one for each coordinate of images behind another, or more.
pub fn is_int_coordinate(definitions: &Definitions, t: u32, u: u32) -> bool
    ensures { IsTrue result ↔ spec.IsIntCoordinate definitions.now t u }
{
    has_sort(definitions, Sort::Int, t) && covers_places(definitions, t, u)
}

/// Whether a type is one of ints or floats, one for each coordinate of images behind another, or more.
pub fn is_coordinate(definitions: &Definitions, t: u32, u: u32) -> bool
    ensures { IsTrue result ↔ spec.IsCoordinate definitions.now t u }
{
    is_numeric(definitions, t) && covers_places(definitions, t, u)
}

/// Whether a type is that of the size of images behind another.
pub fn is_extent(definitions: &Definitions, t: u32, u: u32) -> bool
    ensures { IsTrue result ↔ spec.IsExtent definitions.now t u }
{
    has_sort(definitions, Sort::Int, t) && fills_extent(definitions, t, u)
}

/// The component type of a vector, and any other type itself.
fn component(t: u32, form: Form) -> u32
    ensures { result ≡ spec.component_in t form }
{
    match form {
        Form::Vector { component, .. } => component,
        _ => t,
    }
}

/// Whether the components of a type are of another.
fn has_component(definitions: &Definitions, t: u32, sampled: u32) -> bool
    ensures { IsTrue result ↔ (spec.component_of definitions.now t ≡ Some sampled) }
{
    match definitions.form(t) {
        Some(form) => component(t, form) == sampled,
        None => false,
    }
}

/// Whether a type is void.
fn is_void(definitions: &Definitions, t: u32) -> bool
    ensures { IsTrue result ↔ (form_of definitions.now t ≡ Some form.Void) }
{
    match definitions.form(t) {
        Some(Form::Void) => true,
        _ => false,
    }
}

/// Whether the components of a type are such as images behind another have.
fn is_sampled_type(definitions: &Definitions, t: u32, u: u32) -> bool
    ensures { IsTrue result ↔ spec.IsOfSampledType definitions.now t u }
{
    match image_behind(definitions, u) {
        Some(image) => {
            is_void(definitions, image.sampled_type)
                || has_component(definitions, t, image.sampled_type)
        }
        None => false,
    }
}

/// Whether a type is that of texels of images behind another.
pub fn is_texel(definitions: &Definitions, t: u32, u: u32) -> bool
    ensures { IsTrue result ↔ spec.IsTexel definitions.now t u }
{
    is_numeric(definitions, t) && is_sampled_type(definitions, t, u)
}
