// The numbers of kinds and cases (document 01, "The file"): each enum's cases are numbered in the source's order. A
// byte that is no case's number gives the first case; which bytes may stand is the layout's to say.
ghost use Rattle.std.specs.Prelude.{◌≡◌, eqb};
ghost use Rattle.ir.specs.declared.RowKind.TheVariants.{Compose};
ghost use Rattle.ir.specs.Numbers.{type_kind_of, item_kind_of, row_kind_of, row_kind_number, vector_size_of};
ghost use Rattle.ir.specs.Numbers.{vector_size_number, cooperative_role_of, cooperative_role_number, scalar_kind_of};
ghost use Rattle.ir.specs.Numbers.{scalar_kind_number, image_dimension_of, image_dimension_number, storage_format_of};
ghost use Rattle.ir.specs.Numbers.{storage_format_number, literal_of, binary_operator_of, relational_function_of};
ghost use Rattle.ir.specs.Numbers.{image_query_of, cooperative_size_of, cooperative_size_number, width_of};
ghost use Rattle.ir.specs.Numbers.{width_number, is_width, access_of, access_number, space_of, space_number};
ghost use Rattle.ir.specs.Numbers.{space_access};

use super::{
    AddressSpace, BinaryOperator, CooperativeRole, CooperativeSize, ImageDimension, ImageQuery,
    ItemKind, Literal, RelationalFunction, RowKind, ScalarKind, StorageAccess, StorageFormat,
    TypeKind, VectorSize, Width,
};

impl From<u8> for TypeKind {
    ghost from_gives = { λ n x. x ≡ type_kind_of n };

    fn from(n: u8) -> Self {
        match n {
            0 => TypeKind::Unknown,
            1 => TypeKind::Scalar,
            2 => TypeKind::Vector,
            3 => TypeKind::Matrix,
            4 => TypeKind::CooperativeMatrix,
            5 => TypeKind::Atomic,
            6 => TypeKind::Pointer,
            7 => TypeKind::ValuePointer,
            8 => TypeKind::Array,
            9 => TypeKind::Struct,
            10 => TypeKind::Image,
            11 => TypeKind::Sampler,
            12 => TypeKind::AccelerationStructure,
            13 => TypeKind::RayQuery,
            14 => TypeKind::BindingArray,
            _ => TypeKind::Unknown,
        }
    }
}

impl From<u8> for ItemKind {
    ghost from_gives = { λ n x. x ≡ item_kind_of n };

    fn from(n: u8) -> Self {
        match n {
            0 => ItemKind::Unknown,
            1 => ItemKind::Constant,
            2 => ItemKind::Override,
            3 => ItemKind::GlobalVariable,
            4 => ItemKind::FunctionArgument,
            5 => ItemKind::LocalVariable,
            6 => ItemKind::Function,
            7 => ItemKind::RayIntersection,
            8 => ItemKind::RayVertexReturn,
            _ => ItemKind::Unknown,
        }
    }
}

// Whether a row of this kind is a Compose.
pub fn is_compose(kind: u8) -> bool
    ensures { result ≡ eqb kind (row_kind_number Compose) }
{
    kind == 5
}

impl From<u8> for RowKind {
    ghost from_gives = { λ n x. x ≡ row_kind_of n };

    fn from(n: u8) -> Self {
        match n {
            0 => RowKind::Unknown,
            1 => RowKind::Literal,
            2 => RowKind::Constant,
            3 => RowKind::Override,
            4 => RowKind::ZeroValue,
            5 => RowKind::Compose,
            6 => RowKind::Access,
            7 => RowKind::AccessIndex,
            8 => RowKind::Splat,
            9 => RowKind::Swizzle,
            10 => RowKind::FunctionArgument,
            11 => RowKind::GlobalVariable,
            12 => RowKind::LocalVariable,
            13 => RowKind::Load,
            14 => RowKind::ImageSample,
            15 => RowKind::ImageLoad,
            16 => RowKind::ImageQuery,
            17 => RowKind::Unary,
            18 => RowKind::Binary,
            19 => RowKind::Select,
            20 => RowKind::Derivative,
            21 => RowKind::Relational,
            22 => RowKind::Math,
            23 => RowKind::As,
            24 => RowKind::CallResult,
            25 => RowKind::AtomicResult,
            26 => RowKind::WorkGroupUniformLoadResult,
            27 => RowKind::ArrayLength,
            28 => RowKind::RayQueryVertexPositions,
            29 => RowKind::RayQueryProceedResult,
            30 => RowKind::RayQueryGetIntersection,
            31 => RowKind::SubgroupBallotResult,
            32 => RowKind::SubgroupOperationResult,
            33 => RowKind::CooperativeLoad,
            34 => RowKind::CooperativeMultiplyAdd,
            _ => RowKind::Unknown,
        }
    }
}

impl From<u8> for VectorSize {
    ghost from_gives = { λ n x. x ≡ vector_size_of n };

    fn from(n: u8) -> Self {
        match n {
            2 => VectorSize::Bi,
            3 => VectorSize::Tri,
            4 => VectorSize::Quad,
            _ => VectorSize::Bi,
        }
    }
}

impl From<VectorSize> for u8 {
    ghost from_gives = { λ x n. n ≡ vector_size_number x };

    fn from(x: VectorSize) -> u8 {
        x as u8
    }
}

impl From<VectorSize> for u32 {
    ghost from_gives = { λ x n. n ≡ vector_size_number x };

    fn from(x: VectorSize) -> u32 {
        x as u32
    }
}

impl From<u8> for CooperativeRole {
    ghost from_gives = { λ n x. x ≡ cooperative_role_of n };

    fn from(n: u8) -> Self {
        match n {
            0 => CooperativeRole::A,
            1 => CooperativeRole::B,
            2 => CooperativeRole::C,
            _ => CooperativeRole::A,
        }
    }
}

impl From<CooperativeRole> for u8 {
    ghost from_gives = { λ x n. n ≡ cooperative_role_number x };

    fn from(x: CooperativeRole) -> u8 {
        x as u8
    }
}

impl From<u8> for ScalarKind {
    ghost from_gives = { λ n x. x ≡ scalar_kind_of n };

    fn from(n: u8) -> Self {
        match n {
            0 => ScalarKind::Sint,
            1 => ScalarKind::Uint,
            2 => ScalarKind::Float,
            3 => ScalarKind::Bool,
            4 => ScalarKind::AbstractInt,
            5 => ScalarKind::AbstractFloat,
            _ => ScalarKind::Sint,
        }
    }
}

impl From<ScalarKind> for u8 {
    ghost from_gives = { λ x n. n ≡ scalar_kind_number x };

    fn from(x: ScalarKind) -> u8 {
        x as u8
    }
}

impl From<u8> for ImageDimension {
    ghost from_gives = { λ n x. x ≡ image_dimension_of n };

    fn from(n: u8) -> Self {
        match n {
            1 => ImageDimension::D1,
            2 => ImageDimension::D2,
            3 => ImageDimension::D3,
            4 => ImageDimension::Cube,
            _ => ImageDimension::D1,
        }
    }
}

impl From<ImageDimension> for u8 {
    ghost from_gives = { λ x n. n ≡ image_dimension_number x };

    fn from(x: ImageDimension) -> u8 {
        x as u8
    }
}

impl From<u8> for StorageFormat {
    ghost from_gives = { λ n x. x ≡ storage_format_of n };

    fn from(n: u8) -> Self {
        match n {
            0 => StorageFormat::R8Unorm,
            1 => StorageFormat::R8Snorm,
            2 => StorageFormat::R8Uint,
            3 => StorageFormat::R8Sint,
            4 => StorageFormat::R16Uint,
            5 => StorageFormat::R16Sint,
            6 => StorageFormat::R16Float,
            7 => StorageFormat::Rg8Unorm,
            8 => StorageFormat::Rg8Snorm,
            9 => StorageFormat::Rg8Uint,
            10 => StorageFormat::Rg8Sint,
            11 => StorageFormat::R32Uint,
            12 => StorageFormat::R32Sint,
            13 => StorageFormat::R32Float,
            14 => StorageFormat::Rg16Uint,
            15 => StorageFormat::Rg16Sint,
            16 => StorageFormat::Rg16Float,
            17 => StorageFormat::Rgba8Unorm,
            18 => StorageFormat::Rgba8Snorm,
            19 => StorageFormat::Rgba8Uint,
            20 => StorageFormat::Rgba8Sint,
            21 => StorageFormat::Bgra8Unorm,
            22 => StorageFormat::Rgb10a2Uint,
            23 => StorageFormat::Rgb10a2Unorm,
            24 => StorageFormat::Rg11b10Ufloat,
            25 => StorageFormat::R64Uint,
            26 => StorageFormat::Rg32Uint,
            27 => StorageFormat::Rg32Sint,
            28 => StorageFormat::Rg32Float,
            29 => StorageFormat::Rgba16Uint,
            30 => StorageFormat::Rgba16Sint,
            31 => StorageFormat::Rgba16Float,
            32 => StorageFormat::Rgba32Uint,
            33 => StorageFormat::Rgba32Sint,
            34 => StorageFormat::Rgba32Float,
            35 => StorageFormat::R16Unorm,
            36 => StorageFormat::R16Snorm,
            37 => StorageFormat::Rg16Unorm,
            38 => StorageFormat::Rg16Snorm,
            39 => StorageFormat::Rgba16Unorm,
            40 => StorageFormat::Rgba16Snorm,
            _ => StorageFormat::R8Unorm,
        }
    }
}

impl From<StorageFormat> for u8 {
    ghost from_gives = { λ x n. n ≡ storage_format_number x };

    fn from(x: StorageFormat) -> u8 {
        x as u8
    }
}

impl From<u8> for Literal {
    ghost from_gives = { λ n x. x ≡ literal_of n };

    fn from(n: u8) -> Self {
        match n {
            0 => Literal::F64,
            1 => Literal::F32,
            2 => Literal::F16,
            3 => Literal::U16,
            4 => Literal::I16,
            5 => Literal::U32,
            6 => Literal::I32,
            7 => Literal::U64,
            8 => Literal::I64,
            9 => Literal::Bool,
            10 => Literal::AbstractInt,
            11 => Literal::AbstractFloat,
            _ => Literal::F64,
        }
    }
}

impl From<u8> for BinaryOperator {
    ghost from_gives = { λ n x. x ≡ binary_operator_of n };

    fn from(n: u8) -> Self {
        match n {
            0 => BinaryOperator::Add,
            1 => BinaryOperator::Subtract,
            2 => BinaryOperator::Multiply,
            3 => BinaryOperator::Divide,
            4 => BinaryOperator::Modulo,
            5 => BinaryOperator::Equal,
            6 => BinaryOperator::NotEqual,
            7 => BinaryOperator::Less,
            8 => BinaryOperator::LessEqual,
            9 => BinaryOperator::Greater,
            10 => BinaryOperator::GreaterEqual,
            11 => BinaryOperator::And,
            12 => BinaryOperator::ExclusiveOr,
            13 => BinaryOperator::InclusiveOr,
            14 => BinaryOperator::LogicalAnd,
            15 => BinaryOperator::LogicalOr,
            16 => BinaryOperator::ShiftLeft,
            17 => BinaryOperator::ShiftRight,
            _ => BinaryOperator::Add,
        }
    }
}

impl From<u8> for RelationalFunction {
    ghost from_gives = { λ n x. x ≡ relational_function_of n };

    fn from(n: u8) -> Self {
        match n {
            0 => RelationalFunction::All,
            1 => RelationalFunction::Any,
            2 => RelationalFunction::IsNan,
            3 => RelationalFunction::IsInf,
            _ => RelationalFunction::All,
        }
    }
}

impl From<u8> for ImageQuery {
    ghost from_gives = { λ n x. x ≡ image_query_of n };

    fn from(n: u8) -> Self {
        match n {
            0 => ImageQuery::Size,
            1 => ImageQuery::NumLevels,
            2 => ImageQuery::NumLayers,
            3 => ImageQuery::NumSamples,
            _ => ImageQuery::Size,
        }
    }
}

impl From<u8> for CooperativeSize {
    ghost from_gives = { λ n x. x ≡ cooperative_size_of n };

    fn from(n: u8) -> Self {
        match n {
            16 => CooperativeSize::Sixteen,
            _ => CooperativeSize::Eight,
        }
    }
}

impl From<CooperativeSize> for u8 {
    ghost from_gives = { λ x n. n ≡ cooperative_size_number x };

    fn from(x: CooperativeSize) -> u8 {
        x as u8
    }
}

impl From<u8> for Width {
    ghost from_gives = { λ n x. x ≡ width_of n };

    fn from(n: u8) -> Self {
        match n {
            2 => Width::Two,
            4 => Width::Four,
            8 => Width::Eight,
            _ => Width::One,
        }
    }
}

impl From<Width> for u8 {
    ghost from_gives = { λ x n. n ≡ width_number x };

    fn from(x: Width) -> u8 {
        x as u8
    }
}

impl Width {
    // Whether a width has this number.
    pub fn is_number(n: u8) -> bool
        ensures { result ≡ is_width n }
    {
        matches!(n, 1 | 2 | 4 | 8)
    }
}

impl From<u8> for StorageAccess {
    ghost from_gives = { λ n x. x ≡ access_of n };

    fn from(n: u8) -> Self {
        StorageAccess {
            load: n % 2 == 1,
            store: n / 2 % 2 == 1,
            atomic: n / 4 % 2 == 1,
        }
    }
}

impl From<StorageAccess> for u8 {
    ghost from_gives = { λ x n. n ≡ access_number x };

    fn from(x: StorageAccess) -> u8 {
        u8::from(x.load) + 2 * u8::from(x.store) + 4 * u8::from(x.atomic)
    }
}

// A space's number, and its access. The access counts in the storage space alone.
impl From<(u8, u8)> for AddressSpace {
    ghost from_gives = { λ n x. x ≡ space_of n.0 n.1 };

    fn from((n, access): (u8, u8)) -> Self {
        match n {
            0 => AddressSpace::Function,
            1 => AddressSpace::Private,
            2 => AddressSpace::WorkGroup,
            3 => AddressSpace::Uniform,
            4 => AddressSpace::Storage {
                access: StorageAccess::from(access),
            },
            5 => AddressSpace::Handle,
            6 => AddressSpace::Immediate,
            7 => AddressSpace::TaskPayload,
            8 => AddressSpace::RayPayload,
            9 => AddressSpace::IncomingRayPayload,
            _ => AddressSpace::Function,
        }
    }
}

impl From<AddressSpace> for (u8, u8) {
    ghost from_gives = { λ x n. n ≡ (space_number x, space_access x) };

    fn from(x: AddressSpace) -> (u8, u8) {
        match x {
            AddressSpace::Function => (0, 0),
            AddressSpace::Private => (1, 0),
            AddressSpace::WorkGroup => (2, 0),
            AddressSpace::Uniform => (3, 0),
            AddressSpace::Storage { access } => (4, u8::from(access)),
            AddressSpace::Handle => (5, 0),
            AddressSpace::Immediate => (6, 0),
            AddressSpace::TaskPayload => (7, 0),
            AddressSpace::RayPayload => (8, 0),
            AddressSpace::IncomingRayPayload => (9, 0),
        }
    }
}
