// The type, member or component that a frame stands for.
ghost use Rattle.std.specs.Prelude.{◌≡◌, ◌+◌, ◌*◌};
ghost use Rattle.ir.specs.declared.TypeKind.TheVariants.{Unknown};
ghost use Rattle.frames.specs.Bytes.{half, word};
ghost use Rattle.frames.specs.Fields.{read, scalar, class, option_size_of, array_size_of};
ghost use Rattle.frames.specs.Forms.{type_as, type_of, member_of, component_of};

use super::Frame;
use ir::{
    AddressSpace, ArraySize, ComponentNumber, CooperativeRole, CooperativeSize, ImageClass,
    ImageDimension, ItemNumber, MemberNumber, RowNumber, Scalar, ScalarKind, StorageAccess,
    StorageFormat, StructMember, TypeInner, TypeKind, TypeNumber, VectorSize, Width,
};

fn option_size(b: u8) -> Option<VectorSize>
    ensures { result ≡ option_size_of b }
{
    if b == 0 {
        return None;
    }
    let size = VectorSize::from(b);
    Some(size)
}

fn array_size(form: u8, n: u32) -> ArraySize
    ensures { result ≡ array_size_of form n }
{
    match form {
        0 => ArraySize::Constant(n),
        1 => ArraySize::Pending(ItemNumber(n)),
        _ => ArraySize::Dynamic,
    }
}

impl Frame {
    // Bytes 2 and 3: the type, row, item or member that a frame names.
    pub fn named(self) -> u16
        ensures { result ≡ half self 2 }
    {
        u16::from_le_bytes([self.b2, self.b3])
    }

    // They are a type: a pointer's or an array's base, the type of a member, an item or a compose.
    pub fn ty(self) -> TypeNumber
        ensures { result ≡ record { 0 = half self 2 } }
    {
        TypeNumber(self.named())
    }

    // They are a row: the operand that a row reads, or a component.
    pub fn operand(self) -> RowNumber
        ensures { result ≡ record { 0 = half self 2 } }
    {
        RowNumber(self.named())
    }

    // They are the first member of a struct.
    pub fn first_member(self) -> MemberNumber
        ensures { result ≡ record { 0 = half self 2 } }
    {
        MemberNumber(self.named())
    }

    // Bytes 4 and 5: how many members a struct has, or components a compose.
    pub fn count(self) -> u16
        ensures { result ≡ half self 4 }
    {
        u16::from_le_bytes([self.b4, self.b5])
    }

    // They are the right operand of a Binary row.
    pub fn right(self) -> RowNumber
        ensures { result ≡ record { 0 = half self 4 } }
    {
        RowNumber(self.count())
    }

    // Bytes 4 to 7: in what is handed back an index, what was expected, or a component.
    pub fn index(self) -> u32
        ensures { result ≡ word self 4 }
    {
        u32::from_le_bytes([self.b4, self.b5, self.b6, self.b7])
    }

    // Bytes 8 to 11: a count or an override.
    pub fn third(self) -> u32
        ensures { result ≡ word self 8 }
    {
        u32::from_le_bytes([self.b8, self.b9, self.b10, self.b11])
    }

    // Bytes 12 to 15: a stride, span, offset, index, argument or first component.
    pub fn last(self) -> u32
        ensures { result ≡ word self 12 }
    {
        u32::from_le_bytes([self.b12, self.b13, self.b14, self.b15])
    }

    // They are the first component of a compose.
    pub fn first_component(self) -> ComponentNumber
        ensures { result ≡ record { 0 = word self 12 } }
    {
        ComponentNumber(self.last())
    }

    // Bytes 4 and 5, as a scalar.
    pub fn scalar(self) -> Scalar
        ensures { result ≡ read scalar self }
    {
        let kind = ScalarKind::from(self.b4);
        let width = Width::from(self.b5);
        Scalar { kind, width }
    }

    // Bytes 4 to 7.
    fn image_class(self) -> ImageClass
        ensures { result ≡ read class self }
    {
        let c = self.b4;
        match c {
            0 => {
                let kind = ScalarKind::from(self.b5);
                ImageClass::Sampled {
                    kind,
                    multi: self.b6 == 1,
                }
            }
            1 => ImageClass::Depth {
                multi: self.b6 == 1,
            },
            2 => ImageClass::External,
            3 => {
                let format = StorageFormat::from(self.b5);
                let access = StorageAccess::from(self.b7);
                ImageClass::Storage { format, access }
            }
            _ => ImageClass::External,
        }
    }

    // A type: family 1, or a value of family 9.
    #[tactic(auto, unfolding(crate::specs::Forms::type_of))]
    pub fn type_form(self) -> Option<TypeInner>
        ensures { result ≡ type_of self }
    {
        let kind = TypeKind::from(self.b1);
        match kind {
            TypeKind::Unknown => None,
            _ => Some(inner(kind, self)),
        }
    }

    // A member, family 2.
    #[tactic(auto, unfolding(crate::specs::Forms::member_of))]
    pub fn member(self) -> StructMember
        ensures { result ≡ member_of self }
    {
        let ty = self.ty();
        let offset = self.last();
        StructMember { ty, offset }
    }

    // A component, family 5.
    #[tactic(auto, unfolding(crate::specs::Forms::component_of))]
    pub fn component(self) -> RowNumber
        ensures { result ≡ component_of self }
    {
        self.operand()
    }
}

// A type of a known kind; the arm of the unknown one is never taken.
fn inner(kind: TypeKind, f: Frame) -> TypeInner
    requires { kind ≡ Unknown → ⊥ }
    ensures { Some result ≡ type_as kind f }
{
    match kind {
        TypeKind::Unknown => TypeInner::Sampler { comparison: false },
        TypeKind::Scalar => {
            let scalar = f.scalar();
            TypeInner::Scalar(scalar)
        }
        TypeKind::Vector => {
            let size = VectorSize::from(f.b2);
            let scalar = f.scalar();
            TypeInner::Vector { size, scalar }
        }
        TypeKind::Matrix => {
            let columns = VectorSize::from(f.b2);
            let rows = VectorSize::from(f.b3);
            let scalar = f.scalar();
            TypeInner::Matrix {
                columns,
                rows,
                scalar,
            }
        }
        TypeKind::CooperativeMatrix => {
            let columns = CooperativeSize::from(f.b2);
            let rows = CooperativeSize::from(f.b3);
            let scalar = f.scalar();
            let role = CooperativeRole::from(f.b6);
            TypeInner::CooperativeMatrix {
                columns,
                rows,
                scalar,
                role,
            }
        }
        TypeKind::Atomic => {
            let scalar = f.scalar();
            TypeInner::Atomic(scalar)
        }
        TypeKind::Pointer => {
            let base = f.ty();
            let space = AddressSpace::from((f.b6, f.b7));
            TypeInner::Pointer { base, space }
        }
        TypeKind::ValuePointer => {
            let size = option_size(f.b2);
            let scalar = f.scalar();
            let space = AddressSpace::from((f.b6, f.b7));
            TypeInner::ValuePointer {
                size,
                scalar,
                space,
            }
        }
        TypeKind::Array => {
            let base = f.ty();
            let size = array_size(f.b4, f.third());
            let stride = f.last();
            TypeInner::Array { base, size, stride }
        }
        TypeKind::Struct => {
            let first = f.first_member();
            let count = f.count();
            let span = f.last();
            TypeInner::Struct { first, count, span }
        }
        TypeKind::Image => {
            let dim = ImageDimension::from(f.b2);
            let class = f.image_class();
            TypeInner::Image {
                dim,
                arrayed: f.b3 == 1,
                class,
            }
        }
        TypeKind::Sampler => TypeInner::Sampler {
            comparison: f.b2 == 1,
        },
        TypeKind::AccelerationStructure => TypeInner::AccelerationStructure {
            vertex_return: f.b2 == 1,
        },
        TypeKind::RayQuery => TypeInner::RayQuery {
            vertex_return: f.b2 == 1,
        },
        TypeKind::BindingArray => {
            let base = f.ty();
            let size = array_size(f.b4, f.third());
            TypeInner::BindingArray { base, size }
        }
    }
}
