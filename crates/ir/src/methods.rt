// The source's proc/type_methods.rs, lines 138 to 218: the methods of TypeInner that take no types.
ghost use Rattle.std.specs.Prelude.{◌≡◌};
ghost use Rattle.ir.specs.Formats.{storage_scalar};
ghost use Rattle.ir.specs.TypeMethods.{scalar_in, value_base, pointer_base};
ghost use Rattle.ir.specs.ForProofs.{pointer_space};

use super::{Scalar, StorageFormat, TypeInner, TypeResolution};
use crate::{AddressSpace, VectorSize};

// What a value pointer points to: a scalar, or a vector where it has a size.
fn value_base(size: Option<VectorSize>, scalar: Scalar) -> TypeInner
    ensures { result ≡ value_base size scalar }
{
    match size {
        None => TypeInner::Scalar(scalar),
        Some(size) => TypeInner::Vector { size, scalar },
    }
}

impl TypeInner {
    // The scalar of a scalar, vector, matrix or cooperative matrix.
    pub fn scalar(self) -> Option<Scalar>
        ensures { result ≡ scalar_in self }
    {
        match self {
            TypeInner::Scalar(scalar) => Some(scalar),
            TypeInner::Vector { size: _, scalar } => Some(scalar),
            TypeInner::Matrix {
                columns: _,
                rows: _,
                scalar,
            } => Some(scalar),
            TypeInner::CooperativeMatrix {
                columns: _,
                rows: _,
                scalar,
                role: _,
            } => Some(scalar),
            _ => None,
        }
    }

    // The space of a pointer.
    pub fn pointer_space(self) -> Option<AddressSpace>
        ensures { result ≡ pointer_space self }
    {
        match self {
            TypeInner::Pointer { base: _, space } => Some(space),
            TypeInner::ValuePointer {
                size: _,
                scalar: _,
                space,
            } => Some(space),
            _ => None,
        }
    }

    // What a pointer points to.
    pub fn pointer_base_type(self) -> Option<TypeResolution>
        ensures { result ≡ pointer_base self }
    {
        match self {
            TypeInner::Pointer { base, space: _ } => Some(TypeResolution::Handle(base)),
            TypeInner::ValuePointer {
                size,
                scalar,
                space: _,
            } => Some(TypeResolution::Value(value_base(size, scalar))),
            _ => None,
        }
    }
}

impl StorageFormat {
    // The scalar of its texels: the source's Scalar::from(StorageFormat).
    pub fn scalar(self) -> Scalar
        ensures { result ≡ storage_scalar self }
    {
        match self {
            StorageFormat::R8Uint
            | StorageFormat::R16Uint
            | StorageFormat::Rg8Uint
            | StorageFormat::R32Uint
            | StorageFormat::Rg16Uint
            | StorageFormat::Rgba8Uint
            | StorageFormat::Rgb10a2Uint
            | StorageFormat::Rg32Uint
            | StorageFormat::Rgba16Uint
            | StorageFormat::Rgba32Uint => Scalar::U32,
            StorageFormat::R8Sint
            | StorageFormat::R16Sint
            | StorageFormat::Rg8Sint
            | StorageFormat::R32Sint
            | StorageFormat::Rg16Sint
            | StorageFormat::Rgba8Sint
            | StorageFormat::Rg32Sint
            | StorageFormat::Rgba16Sint
            | StorageFormat::Rgba32Sint => Scalar::I32,
            StorageFormat::R64Uint => Scalar::U64,
            _ => Scalar::F32,
        }
    }
}
