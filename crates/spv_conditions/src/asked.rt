//! What the row of an opcode asks, condition by condition.

use crate::seat::Seat;
use spv_type_kinds::{Kind, Relation};

/// What an instruction does with the texels of an image.
#[derive(Clone, Copy)]
pub enum Texels {
    /// It samples them.
    Sampled,
    /// It fetches or reads them.
    Read,
    /// It writes them.
    Written,
}

/// What is asked beside kinds of types and relations between them: of literals, of ids, of the place.
#[derive(Clone, Copy)]
pub enum Rest {
    /// There are no weights, or two.
    Weights,
    /// The storage class of a variable is that of the pointer that is its result type.
    StorageClass,
    /// A variable there may have its storage class.
    ClassHere,
    /// The initializer is a constant or a variable outside functions.
    Initializer,
    /// The initializer is of the type that the result type points to.
    InitializerType,
    /// The index of an access chain leads to a part. The indexes are numbered from 0, and before them stands an
    /// element, or none.
    Chosen { element: bool, index: u32 },
    /// The result type of an access chain points to the type that the indexes lead to.
    Leads { element: bool },
    /// There is an index.
    Indexes,
    /// Each index is that of a part, from the type of a value on.
    Within { from: u32 },
    /// A type is the one that the indexes lead to from the type of a value.
    Reached { of: Seat, from: u32 },
    /// The result type has as many components as there are literals.
    ComponentCount,
    /// Each literal is the number of a component of the two vectors, or 4294967295.
    Component,
    /// Of a vector there are two constituents or more.
    Several,
    /// Of a vector the constituent of that number is of the component type, or a vector of that.
    Share(u32),
    /// Of a vector the constituents have as many components together.
    Filled,
    /// Of a struct or an array there are as many constituents as it has parts.
    Count,
    /// Of a struct or an array the constituent of that number is of the type of the part at its place.
    Part(u32),
    /// The storage class that stands after the value is that of the pointer that is the result type.
    CastClass,
    /// The group operation is a reduction or a scan of the whole group, not of clusters.
    Scan,
    /// There are two values, or three where the group operation is one of clusters.
    Cluster,
    /// The size of the clusters, if it is there, is a constant of int type.
    ClusterSize,
    /// The value of that number is a constant.
    Constant(u32),
    /// The type of the first value is an int of width 32, where a packed vector format stands, and else a vector of
    /// ints that are no wider than the result.
    Packed,
    /// The mask of image operands has bits that the instruction takes, and there are as many values as it asks for.
    ImageMask(Texels),
    /// Sample is among the image operands if and only if the images have several samples.
    ImageSample,
    /// SignExtend and ZeroExtend are among the image operands of texels of ints alone, which are of that type.
    ImageSign(Seat),
    /// The values that the mask of image operands asks for are of their types.
    ImageOperands(Texels),
    /// An extended instruction stands in a block, or gives void and is one of debug information or of no meaning.
    Extended,
    /// There are operands after the execution mode, each the id of a constant of int type.
    ModeIds,
    /// There are operands after the decoration, each the id of a constant or of a variable outside functions.
    DecorationIds,
    /// There are operands after the decoration, each a text.
    Texts,
    /// The first id is that of an OpDecorationGroup.
    Group,
    /// No id after the first is that of an OpDecorationGroup.
    NoMoreGroups,
    /// Each id after the first is that of a struct type, and the literal below it the number of a member.
    Members,
    /// The id before the value of that number is a function that returns void, and whose first parameter is of the type
    /// of the value: a block.
    Block(u32),
    /// Each value after the block whose first value has that number is an int, or a pointer to one.
    LocalSizes(u32),
    /// The function of that block has a parameter more for each of these values and no other, each a pointer of the
    /// storage class Workgroup.
    Locals(u32),
}

/// A condition of a row.
#[derive(Clone, Copy)]
pub enum Asked {
    /// There is a result type, or none, and there are so many value operands.
    Operands {
        result: bool,
        values: u32,
    },
    /// A type is of a kind.
    Kind {
        kind: Kind,
        of: Seat,
    },
    /// A type stands to another, the one that is wanted, in a relation.
    Relation {
        relation: Relation,
        of: Seat,
        to: Seat,
    },
    /// Something else.
    Rest(Rest),
}

/// A condition of each value.
#[derive(Clone, Copy)]
pub enum Each {
    /// Its type is the result type.
    Same,
    /// Of a vector the constituent is of the component type, or a vector of that.
    Share,
    /// Of a struct or an array the constituent is of the type of the part at its place.
    Part,
}

/// What a line of the table of types asks.
#[derive(Clone, Copy)]
pub enum Asks {
    /// One condition.
    Once(Asked),
    /// One of each value.
    Each(Each),
    /// Two of each index of an access chain: it is an int, and leads to a part. Before the indexes stands a base, and
    /// an element or none.
    Indexes { element: bool },
}
