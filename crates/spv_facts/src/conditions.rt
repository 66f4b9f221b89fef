//! The words for conditions.
ghost use Rattle.std.specs.Prelude.{◌≡◌};
ghost use Rattle.spv_facts.specs.Conditions as texts;

use spv_evidence::{Condition, Kind, Relation};
use spv_type_kinds::{Images, Object};

/// What objects the type of an operand points to.
fn pointer_words(object: Object) -> &'static str
    ensures { result.now ≡ texts.pointer_text object }
{
    match object {
        Object::Image => "its type is a pointer to an image type",
        Object::Sampler => "its type is a pointer to a sampler type",
        Object::Event => "its type is a pointer to an event type",
        Object::DeviceEvent => "its type is a pointer to a device event type",
        Object::ReserveId => "its type is a pointer to a reserve id type",
        Object::Queue => "its type is a pointer to a queue type",
        Object::Pipe => "its type is a pointer to a pipe type",
        Object::PipeStorage => "its type is a pointer to a pipe storage type",
        Object::NamedBarrier => "its type is a pointer to a named barrier type",
    }
}

/// What objects the type of an operand is of.
fn object_words(object: Object) -> &'static str
    ensures { result.now ≡ texts.object_text object }
{
    match object {
        Object::Image => "its type is an image type",
        Object::Sampler => "its type is a sampler type",
        Object::Event => "its type is an event type",
        Object::DeviceEvent => "its type is a device event type",
        Object::ReserveId => "its type is a reserve id type",
        Object::Queue => "its type is a queue type",
        Object::Pipe => "its type is a pipe type",
        Object::PipeStorage => "its type is a pipe storage type",
        Object::NamedBarrier => "its type is a named barrier type",
    }
}

/// What images the type of an operand is of.
fn image_words(images: Images) -> &'static str
    ensures { result.now ≡ texts.image_text images }
{
    match images {
        Images::Sampled => "its type is an image type whose images may be sampled",
        Images::Fetched => "its type is an image type whose images are sampled, and no cubes",
        Images::Stored => "its type is an image type whose images may be used without a sampler",
        Images::Sized => {
            "its type is an image type of 1D, 2D, 3D or cube images without several samples"
        }
        Images::Leveled => "its type is an image type of 1D, 2D, 3D or cube images",
        Images::Flat => "its type is an image type whose images have one size",
        Images::Multisampled => "its type is an image type of 2D images with several samples",
    }
}

/// What the type of an operand is to be.
fn kind_words(kind: Kind) -> &'static str
    ensures { result.now ≡ texts.kind_text kind }
{
    match kind {
        Kind::Int => "its type is an int",
        Kind::Int32 => "its type is an int of width 32",
        Kind::Number => "its type is an int or a float",
        Kind::Bool => "its type is bool",
        Kind::Data => "its type is a data type",
        Kind::Ints => "its type is an int or a vector of ints",
        Kind::Floats => "its type is a float or a vector of floats",
        Kind::Bools => "its type is bool or a vector of bools",
        Kind::Pointer => "its type is a pointer",
        Kind::FunctionPointer => "its type is a pointer of the storage class Function",
        Kind::GenericPointer => "its type is a pointer of the storage class Generic",
        Kind::NamedPointer => {
            "its type is a pointer of the storage class Workgroup, CrossWorkgroup or Function"
        }
        Kind::Vector => "its type is a vector",
        Kind::Composite => "its type is a vector, a struct or an array",
        Kind::Plain => "its type is a data type, and not one of objects",
        Kind::Scalars => "its type is a scalar or a vector",
        Kind::Floats32 => "its type is a float of width 32 or a vector of them",
        Kind::FewInts => "its type is an int or a vector of two or three ints",
        Kind::Ballot => "its type is a vector of four ints of width 32",
        Kind::Int8Pointer => "its type is a pointer to an int of width 8",
        Kind::Int32Pointer => "its type is a pointer to an int of width 32",
        Kind::PlainPointer => { "its type is a pointer to a data type that is not one of objects" }
        Kind::GlobalPointer => "its type is a pointer of the storage class CrossWorkgroup",
        Kind::Size => "its type is an int as wide as the addressing model has sizes",
        Kind::Sizes => {
            "its type is an int as wide as the addressing model has sizes, or an array of two or three of them"
        }
        Kind::RangeStruct => {
            "its type is a struct of an int of width 32 and three arrays of three sizes"
        }
        Kind::Range => {
            "its type is a struct of an int of width 32 and three arrays of three sizes, or a pointer to one"
        }
        Kind::NumbersPointer => "its type is a pointer to ints or floats",
        Kind::SampledImage => "its type is a sampled image type of images without several samples",
        Kind::Four => "its type is a vector of four components",
        Kind::Object(object) => object_words(object),
        Kind::ObjectPointer(object) => pointer_words(object),
        Kind::Pipe(0) => "its type is a pipe type of the access qualifier ReadOnly",
        Kind::Pipe(_) => "its type is a pipe type of the access qualifier WriteOnly",
        Kind::Image(images) => image_words(images),
    }
}

/// How the type of an operand is to stand to the type that is wanted.
fn relation_words(relation: Relation) -> &'static str
    ensures { result.now ≡ texts.relation_text relation }
{
    match relation {
        Relation::Same => "its type is the one that is wanted",
        Relation::SameCount => "its type has as many components as the wanted one",
        Relation::OtherWidth => "its type has components of another width than the wanted one",
        Relation::SameBits => {
            "its type has as many bits as the wanted one, or both are pointers of one storage class"
        }
        Relation::Chooses => {
            "its type is bool, or a vector of as many bools as the wanted type, a vector, has components"
        }
        Relation::PointsTo => "its type is a pointer to the wanted one",
        Relation::SamePointee => "its type and the wanted one are pointers to one type",
        Relation::SameClass => "its type and the wanted one are pointers of one storage class",
        Relation::VectorOf => "its type is a vector of the wanted one",
        Relation::ComponentOf => "its type is the component type of the wanted one, a vector",
        Relation::SameComponent => {
            "its type is a vector of the same component type as the wanted one"
        }
        Relation::PairOf => "its type is a struct of two members of the wanted one",
        Relation::Across => {
            "its type and the wanted one are pointers, one of the storage class Workgroup and one of CrossWorkgroup"
        }
        Relation::SampledImageOf => {
            "its type is the sampled image type of the wanted one, an image type"
        }
        Relation::TexelPointer => {
            "its type is a pointer of the storage class Image to the sampled type of the images"
        }
        Relation::Place => "its type has an int for each coordinate of the images",
        Relation::IntCoordinate => {
            "its type has an int for each coordinate of the images, or more"
        }
        Relation::Coordinate => {
            "its type has an int or a float for each coordinate of the images, or more"
        }
        Relation::Extent => "its type has an int for each number of the size of the images",
        Relation::Texel => "its type has the components of the texels of the images",
        Relation::Matches => "its type is another than the wanted one, and matches it",
    }
}

/// A condition in words. 'It' is the operand; its type is the result type, where it is that, and else the one that its
/// id is declared with.
pub fn condition_words(condition: Condition) -> &'static str
    ensures { result.now ≡ texts.condition_text condition }
{
    match condition {
        Condition::Kind(kind) => kind_words(kind),
        Condition::Relation(relation) => relation_words(relation),
        Condition::Weights => "there are no weights, or two",
        Condition::StorageClass => "the storage class is that of the pointer",
        Condition::ClassHere => {
            "in a function the storage class is Function, outside neither Function nor Generic"
        }
        Condition::Initializer => "the initializer is a constant or a variable outside functions",
        Condition::InitializerType => "its type is the one that is pointed to",
        Condition::Chosen => {
            "at a struct the index is an OpConstant, the number of a member; else the type before it has parts"
        }
        Condition::Leads => "its type is a pointer to the one that the indexes lead to",
        Condition::IntWidth => "the width is 8, 16, 32 or 64",
        Condition::Signedness => "the signedness is 0",
        Condition::FloatWidth => "the width is 16, 32 or 64",
        Condition::Scalar => "the component type is an int, a float or bool",
        Condition::VectorCount => "the count is 2, 3, 4, 8 or 16",
        Condition::Length => "the length is a constant of int type, 1 or more",
        Condition::Pointee => "it is a data type or an opaque type",
        Condition::Returned => "it is a data type or void",
        Condition::Forward => "it is a pointer of this storage class that is declared later",
        Condition::SampledType => "the sampled type is void, an int or a float",
        Condition::Depth => "the depth is 0, 1 or 2",
        Condition::Arrayed => "Arrayed is 0 or 1",
        Condition::SampleCount => "MS is 0 or 1",
        Condition::SampledUse => "Sampled is 0, 1 or 2",
        Condition::Dimension =>
            "it is an image type of another dimension than Buffer and SubpassData",
        Condition::Operands => "the operands are those of the opcode",
        Condition::FitsWidth => "the number fits the width of its type",
        Condition::Nullable => "its type is a data type that has a null value",
        Condition::Normalized => "it is 0 or 1, as coordinates are not normalized or are",
        Condition::Count => "there are as many constituents as the type has parts",
        Condition::Constituent => {
            "it is a constant or an OpUndef, of the type of the part at its place"
        }
        Condition::Indexes => "there is an index",
        Condition::Within => {
            "the index is that of a part of the type that the indexes before it lead to"
        }
        Condition::Reached => "its type is the one that the indexes lead to",
        Condition::ComponentCount => "its type has as many components as there are literals",
        Condition::Component => {
            "the literal is the number of a component of the two vectors, or 4294967295"
        }
        Condition::Several => "there are two constituents or more",
        Condition::Share => "its type is the wanted one, or a vector of it",
        Condition::Filled =>
            "the constituents have as many components together as its type, a vector",
        Condition::Part => "its type is that of the part at its place",
        Condition::CastClass => "the storage class is that of the pointer",
        Condition::Scan => "the group operation is Reduce, InclusiveScan or ExclusiveScan",
        Condition::Cluster => {
            "there is a size of clusters if and only if the group operation is ClusteredReduce"
        }
        Condition::ClusterSize => "the size of the clusters is a constant of int type",
        Condition::Constant => "it is a constant",
        Condition::Packed => {
            "its type is an int of width 32 with a packed vector format, and else a vector of ints no wider than the result"
        }
        Condition::ImageMask => {
            "the image operands are such as the opcode takes, and there are as many as the mask asks for"
        }
        Condition::ImageSample => {
            "Sample is among the image operands if and only if the images have several samples"
        }
        Condition::ImageSign => "SignExtend and ZeroExtend are for texels of ints",
        Condition::ImageOperands => "each image operand has the type that the mask asks for",
        Condition::Extended => {
            "outside blocks the instruction gives void, and its set is one of debug information or non-semantic"
        }
        Condition::ModeIds => "the operands after the mode are constants of int type, one or more",
        Condition::DecorationIds => {
            "the operands after the decoration are constants or variables outside functions, one or more"
        }
        Condition::Texts => "the operands after the decoration are texts, one or more",
        Condition::Group => "the first operand is an OpDecorationGroup",
        Condition::NoMoreGroups => "no operand after the first is an OpDecorationGroup",
        Condition::Members => {
            "each id is that of a struct type, and the literal below it the number of a member"
        }
        Condition::Block => {
            "the function returns void, and its first parameter has the type of the first value of the block"
        }
        Condition::LocalSizes => "each value after the block is an int or a pointer to an int",
        Condition::Locals => {
            "the function has a parameter more for each of these values and no other, each a pointer of the storage class Workgroup"
        }
    }
}
