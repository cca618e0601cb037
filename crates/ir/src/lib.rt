// The declarations of the source (ir/mod.rs, lines 324 to 1916), its names and its order, in the forms that document 01
// asks for: a number type for each arena in the place of Handle<T>, enums by value.
#![tactic(auto)]

pub mod methods;
pub mod numbers;

// The number of a type, counted from 0 within family 1.
#[derive(Clone, Copy, PartialEq, Eq)]
pub struct TypeNumber(pub u16);

// The number of a member, counted from 0 within family 2.
#[derive(Clone, Copy, PartialEq, Eq)]
pub struct MemberNumber(pub u16);

// The number of an item, counted from 0 within its kind.
#[derive(Clone, Copy, PartialEq, Eq)]
pub struct ItemNumber(pub u32);

// The number of a row, counted from 0 within family 4.
#[derive(Clone, Copy, PartialEq, Eq)]
pub struct RowNumber(pub u16);

// The number of a component, counted from 0 within family 5.
#[derive(Clone, Copy, PartialEq, Eq)]
pub struct ComponentNumber(pub u32);

#[derive(Clone, Copy, PartialEq, Eq)]
pub enum VectorSize {
    Bi = 2,
    Tri = 3,
    Quad = 4,
}

#[derive(Clone, Copy, PartialEq, Eq)]
pub enum CooperativeSize {
    Eight = 8,
    Sixteen = 16,
}

#[derive(Clone, Copy, PartialEq, Eq)]
pub enum CooperativeRole {
    A,
    B,
    C,
}

#[derive(Clone, Copy, PartialEq, Eq)]
pub enum ScalarKind {
    Sint,
    Uint,
    Float,
    Bool,
    AbstractInt,
    AbstractFloat,
}

// The width of a scalar in bytes, 1, 2, 4 or 8 (document 02, request 2). The source has any number of bytes, `Bytes`.
#[derive(Clone, Copy, PartialEq, Eq)]
pub enum Width {
    One = 1,
    Two = 2,
    Four = 4,
    Eight = 8,
}

#[derive(Clone, Copy, PartialEq, Eq)]
pub struct Scalar {
    pub kind: ScalarKind,
    pub width: Width,
}

// proc/type_methods.rs, lines 25 to 73
impl Scalar {
    pub const I16: Self = Self {
        kind: ScalarKind::Sint,
        width: Width::Two,
    };

    pub const U16: Self = Self {
        kind: ScalarKind::Uint,
        width: Width::Two,
    };

    pub const I32: Self = Self {
        kind: ScalarKind::Sint,
        width: Width::Four,
    };

    pub const U32: Self = Self {
        kind: ScalarKind::Uint,
        width: Width::Four,
    };

    pub const F16: Self = Self {
        kind: ScalarKind::Float,
        width: Width::Two,
    };

    pub const F32: Self = Self {
        kind: ScalarKind::Float,
        width: Width::Four,
    };

    pub const F64: Self = Self {
        kind: ScalarKind::Float,
        width: Width::Eight,
    };

    pub const I64: Self = Self {
        kind: ScalarKind::Sint,
        width: Width::Eight,
    };

    pub const U64: Self = Self {
        kind: ScalarKind::Uint,
        width: Width::Eight,
    };

    pub const BOOL: Self = Self {
        kind: ScalarKind::Bool,
        width: Width::One,
    };

    pub const ABSTRACT_INT: Self = Self {
        kind: ScalarKind::AbstractInt,
        width: Width::Eight,
    };

    pub const ABSTRACT_FLOAT: Self = Self {
        kind: ScalarKind::AbstractFloat,
        width: Width::Eight,
    };
}

// The source's set of flags LOAD, STORE and ATOMIC.
#[derive(Clone, Copy, PartialEq, Eq)]
pub struct StorageAccess {
    pub load: bool,
    pub store: bool,
    pub atomic: bool,
}

#[derive(Clone, Copy, PartialEq, Eq)]
pub enum AddressSpace {
    Function,
    Private,
    WorkGroup,
    Uniform,
    Storage { access: StorageAccess },
    Handle,
    Immediate,
    TaskPayload,
    RayPayload,
    IncomingRayPayload,
}

#[derive(Clone, Copy, PartialEq, Eq)]
pub enum ArraySize {
    Constant(u32),
    Pending(ItemNumber),
    Dynamic,
}

#[derive(Clone, Copy, PartialEq, Eq)]
pub enum ImageDimension {
    D1 = 1,
    D2 = 2,
    D3 = 3,
    Cube = 4,
}

#[derive(Clone, Copy, PartialEq, Eq)]
pub enum StorageFormat {
    R8Unorm,
    R8Snorm,
    R8Uint,
    R8Sint,
    R16Uint,
    R16Sint,
    R16Float,
    Rg8Unorm,
    Rg8Snorm,
    Rg8Uint,
    Rg8Sint,
    R32Uint,
    R32Sint,
    R32Float,
    Rg16Uint,
    Rg16Sint,
    Rg16Float,
    Rgba8Unorm,
    Rgba8Snorm,
    Rgba8Uint,
    Rgba8Sint,
    Bgra8Unorm,
    Rgb10a2Uint,
    Rgb10a2Unorm,
    Rg11b10Ufloat,
    R64Uint,
    Rg32Uint,
    Rg32Sint,
    Rg32Float,
    Rgba16Uint,
    Rgba16Sint,
    Rgba16Float,
    Rgba32Uint,
    Rgba32Sint,
    Rgba32Float,
    R16Unorm,
    R16Snorm,
    Rg16Unorm,
    Rg16Snorm,
    Rgba16Unorm,
    Rgba16Snorm,
}

#[derive(Clone, Copy, PartialEq, Eq)]
pub enum ImageClass {
    Sampled {
        kind: ScalarKind,
        multi: bool,
    },
    Depth {
        multi: bool,
    },
    External,
    Storage {
        format: StorageFormat,
        access: StorageAccess,
    },
}

// The inner form of a type. A struct's members are the frames of family 2 from `first` on, `count` of them.
#[derive(Clone, Copy, PartialEq, Eq)]
pub enum TypeInner {
    Scalar(Scalar),
    Vector {
        size: VectorSize,
        scalar: Scalar,
    },
    Matrix {
        columns: VectorSize,
        rows: VectorSize,
        scalar: Scalar,
    },
    CooperativeMatrix {
        columns: CooperativeSize,
        rows: CooperativeSize,
        scalar: Scalar,
        role: CooperativeRole,
    },
    Atomic(Scalar),
    Pointer {
        base: TypeNumber,
        space: AddressSpace,
    },
    ValuePointer {
        size: Option<VectorSize>,
        scalar: Scalar,
        space: AddressSpace,
    },
    Array {
        base: TypeNumber,
        size: ArraySize,
        stride: u32,
    },
    Struct {
        first: MemberNumber,
        count: u16,
        span: u32,
    },
    Image {
        dim: ImageDimension,
        arrayed: bool,
        class: ImageClass,
    },
    Sampler {
        comparison: bool,
    },
    AccelerationStructure {
        vertex_return: bool,
    },
    RayQuery {
        vertex_return: bool,
    },
    BindingArray {
        base: TypeNumber,
        size: ArraySize,
    },
}

// The type of an expression: a type of the file, by number, or a value.
#[derive(Clone, Copy, PartialEq, Eq)]
pub enum TypeResolution {
    Handle(TypeNumber),
    Value(TypeInner),
}

#[derive(Clone, Copy, PartialEq, Eq)]
pub struct StructMember {
    pub ty: TypeNumber,
    pub offset: u32,
}

// An item of a file, by the kinds of family 3. The source has an arena for each but the last two, its special types.
#[derive(Clone, Copy, PartialEq, Eq)]
pub enum Item {
    Unknown,
    Constant { ty: TypeNumber },
    Override { ty: TypeNumber },
    GlobalVariable { ty: TypeNumber, space: AddressSpace },
    FunctionArgument { ty: TypeNumber },
    LocalVariable { ty: TypeNumber },
    Function { result: Option<TypeNumber> },
    RayIntersection { ty: TypeNumber },
    RayVertexReturn { ty: TypeNumber },
}

// A literal's kind; its value stands in no frame.
#[derive(Clone, Copy, PartialEq, Eq)]
pub enum Literal {
    F64,
    F32,
    F16,
    U16,
    I16,
    U32,
    I32,
    U64,
    I64,
    Bool,
    AbstractInt,
    AbstractFloat,
}

#[derive(Clone, Copy, PartialEq, Eq)]
pub enum BinaryOperator {
    Add,
    Subtract,
    Multiply,
    Divide,
    Modulo,
    Equal,
    NotEqual,
    Less,
    LessEqual,
    Greater,
    GreaterEqual,
    And,
    ExclusiveOr,
    InclusiveOr,
    LogicalAnd,
    LogicalOr,
    ShiftLeft,
    ShiftRight,
}

#[derive(Clone, Copy, PartialEq, Eq)]
pub enum RelationalFunction {
    All,
    Any,
    IsNan,
    IsInf,
}

#[derive(Clone, Copy, PartialEq, Eq)]
pub enum ImageQuery {
    Size,
    NumLevels,
    NumLayers,
    NumSamples,
}

// A row's expression, with what a row's frame carries. A compose's components are the frames of family 5 from `first`
// on, `count` of them.
#[derive(Clone, Copy, PartialEq, Eq)]
pub enum Expression {
    Literal(Literal),
    Constant(ItemNumber),
    Override(ItemNumber),
    ZeroValue(TypeNumber),
    Compose {
        ty: TypeNumber,
        count: u16,
        first: ComponentNumber,
    },
    Access {
        base: RowNumber,
    },
    AccessIndex {
        base: RowNumber,
        index: u32,
    },
    Splat {
        size: VectorSize,
        value: RowNumber,
    },
    Swizzle {
        size: VectorSize,
        vector: RowNumber,
    },
    FunctionArgument(u32),
    GlobalVariable(ItemNumber),
    LocalVariable(ItemNumber),
    Load {
        pointer: RowNumber,
    },
    ImageSample {
        image: RowNumber,
        gather: bool,
    },
    ImageLoad {
        image: RowNumber,
    },
    ImageQuery {
        image: RowNumber,
        query: ImageQuery,
    },
    Unary {
        expr: RowNumber,
    },
    Binary {
        op: BinaryOperator,
        left: RowNumber,
        right: RowNumber,
    },
    Select {
        accept: RowNumber,
    },
    Derivative {
        expr: RowNumber,
    },
    Relational {
        fun: RelationalFunction,
        argument: RowNumber,
    },
    Math,
    As {
        expr: RowNumber,
        kind: ScalarKind,
        convert: Option<Width>,
    },
    CallResult(ItemNumber),
    AtomicResult {
        ty: TypeNumber,
    },
    WorkGroupUniformLoadResult {
        ty: TypeNumber,
    },
    ArrayLength,
    RayQueryVertexPositions,
    RayQueryProceedResult,
    RayQueryGetIntersection,
    SubgroupBallotResult,
    SubgroupOperationResult {
        ty: TypeNumber,
    },
    CooperativeLoad {
        columns: CooperativeSize,
        rows: CooperativeSize,
        role: CooperativeRole,
        pointer: RowNumber,
    },
    CooperativeMultiplyAdd {
        c: RowNumber,
    },
}

// The kind of a type, by the cases of TypeInner.
#[derive(Clone, Copy, PartialEq, Eq)]
pub enum TypeKind {
    Unknown,
    Scalar,
    Vector,
    Matrix,
    CooperativeMatrix,
    Atomic,
    Pointer,
    ValuePointer,
    Array,
    Struct,
    Image,
    Sampler,
    AccelerationStructure,
    RayQuery,
    BindingArray,
}

// The kind of an item.
#[derive(Clone, Copy, PartialEq, Eq)]
pub enum ItemKind {
    Unknown,
    Constant,
    Override,
    GlobalVariable,
    FunctionArgument,
    LocalVariable,
    Function,
    RayIntersection,
    RayVertexReturn,
}

// The kind of a row, by the cases of Expression.
#[derive(Clone, Copy, PartialEq, Eq)]
pub enum RowKind {
    Unknown,
    Literal,
    Constant,
    Override,
    ZeroValue,
    Compose,
    Access,
    AccessIndex,
    Splat,
    Swizzle,
    FunctionArgument,
    GlobalVariable,
    LocalVariable,
    Load,
    ImageSample,
    ImageLoad,
    ImageQuery,
    Unary,
    Binary,
    Select,
    Derivative,
    Relational,
    Math,
    As,
    CallResult,
    AtomicResult,
    WorkGroupUniformLoadResult,
    ArrayLength,
    RayQueryVertexPositions,
    RayQueryProceedResult,
    RayQueryGetIntersection,
    SubgroupBallotResult,
    SubgroupOperationResult,
    CooperativeLoad,
    CooperativeMultiplyAdd,
}
