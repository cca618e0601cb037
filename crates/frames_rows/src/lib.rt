// The item or row that a frame stands for (document 01, "The file", families 3 and 4).
#![tactic(auto)]

ghost use Rattle.std.specs.Prelude.{◌≡◌};
ghost use Rattle.ir.specs.declared.RowKind.TheVariants.{Unknown};
ghost use Rattle.frames.specs.Fields.{result_of, convert_of};
ghost use Rattle.frames.specs.Forms.{item_as, row_as, item_of, row_of};

use frames::Frame;
use ir::{
    AddressSpace, BinaryOperator, CooperativeRole, CooperativeSize, Expression, ImageQuery, Item,
    ItemKind, ItemNumber, Literal, RelationalFunction, RowKind, RowNumber, ScalarKind, TypeNumber,
    VectorSize, Width,
};

// A function's result: its type, where the flag says that there is one.
fn function_result(b: u8, ty: TypeNumber) -> Option<TypeNumber>
    ensures { result ≡ result_of b ty }
{
    if b == 1 { Some(ty) } else { None }
}

fn converted(b: u8, width: u8) -> Option<Width>
    ensures { result ≡ convert_of b width }
{
    if b == 1 {
        Some(Width::from(width))
    } else {
        None
    }
}

// An item, family 3.
#[tactic(auto, unfolding(frames::specs::Forms::item_of))]
pub fn item_of(f: Frame) -> Item
    ensures { result ≡ item_of f }
{
    item_as(ItemKind::from(f.b1), f)
}

// A row, family 4.
#[tactic(auto, unfolding(frames::specs::Forms::row_of))]
pub fn row_form(f: Frame) -> Option<Expression>
    ensures { result ≡ row_of f }
{
    let kind = RowKind::from(f.b1);
    match kind {
        RowKind::Unknown => None,
        _ => Some(expression(kind, f)),
    }
}

fn item_as(kind: ItemKind, f: Frame) -> Item
    ensures { result ≡ item_as kind f }
{
    let ty = f.ty();
    match kind {
        ItemKind::Unknown => Item::Unknown,
        ItemKind::Constant => Item::Constant { ty },
        ItemKind::Override => Item::Override { ty },
        ItemKind::GlobalVariable => {
            let space = AddressSpace::from((f.b6, f.b7));
            Item::GlobalVariable { ty, space }
        }
        ItemKind::FunctionArgument => Item::FunctionArgument { ty },
        ItemKind::LocalVariable => Item::LocalVariable { ty },
        ItemKind::Function => {
            let result = function_result(f.b4, ty);
            Item::Function { result }
        }
        ItemKind::RayIntersection => Item::RayIntersection { ty },
        ItemKind::RayVertexReturn => Item::RayVertexReturn { ty },
    }
}

// A row of a known kind; the arm of the unknown one is never taken.
fn expression(kind: RowKind, f: Frame) -> Expression
    requires { kind ≡ Unknown → ⊥ }
    ensures { Some result ≡ row_as kind f }
{
    let n = f.named();
    match kind {
        RowKind::Unknown => Expression::Math,
        RowKind::Literal => {
            let literal = Literal::from(f.b6);
            Expression::Literal(literal)
        }
        RowKind::Constant => Expression::Constant(ItemNumber(n as u32)),
        RowKind::Override => Expression::Override(ItemNumber(n as u32)),
        RowKind::ZeroValue => Expression::ZeroValue(TypeNumber(n)),
        RowKind::Compose => {
            let count = f.count();
            let first = f.first_component();
            Expression::Compose {
                ty: TypeNumber(n),
                count,
                first,
            }
        }
        RowKind::Access => Expression::Access { base: RowNumber(n) },
        RowKind::AccessIndex => {
            let index = f.last();
            Expression::AccessIndex {
                base: RowNumber(n),
                index,
            }
        }
        RowKind::Splat => {
            let size = VectorSize::from(f.b6);
            Expression::Splat {
                size,
                value: RowNumber(n),
            }
        }
        RowKind::Swizzle => {
            let size = VectorSize::from(f.b6);
            Expression::Swizzle {
                size,
                vector: RowNumber(n),
            }
        }
        RowKind::FunctionArgument => {
            let index = f.last();
            Expression::FunctionArgument(index)
        }
        RowKind::GlobalVariable => Expression::GlobalVariable(ItemNumber(n as u32)),
        RowKind::LocalVariable => Expression::LocalVariable(ItemNumber(n as u32)),
        RowKind::Load => Expression::Load {
            pointer: RowNumber(n),
        },
        RowKind::ImageSample => Expression::ImageSample {
            image: RowNumber(n),
            gather: f.b6 == 1,
        },
        RowKind::ImageLoad => Expression::ImageLoad {
            image: RowNumber(n),
        },
        RowKind::ImageQuery => {
            let query = ImageQuery::from(f.b6);
            Expression::ImageQuery {
                image: RowNumber(n),
                query,
            }
        }
        RowKind::Unary => Expression::Unary { expr: RowNumber(n) },
        RowKind::Binary => {
            let op = BinaryOperator::from(f.b6);
            let right = f.right();
            Expression::Binary {
                op,
                left: RowNumber(n),
                right,
            }
        }
        RowKind::Select => Expression::Select {
            accept: RowNumber(n),
        },
        RowKind::Derivative => Expression::Derivative { expr: RowNumber(n) },
        RowKind::Relational => {
            let fun = RelationalFunction::from(f.b6);
            Expression::Relational {
                fun,
                argument: RowNumber(n),
            }
        }
        RowKind::Math => Expression::Math,
        RowKind::As => {
            let kind = ScalarKind::from(f.b6);
            let convert = converted(f.b7, f.b8);
            Expression::As {
                expr: RowNumber(n),
                kind,
                convert,
            }
        }
        RowKind::CallResult => Expression::CallResult(ItemNumber(n as u32)),
        RowKind::AtomicResult => Expression::AtomicResult { ty: TypeNumber(n) },
        RowKind::WorkGroupUniformLoadResult => Expression::WorkGroupUniformLoadResult {
            ty: TypeNumber(n),
        },
        RowKind::ArrayLength => Expression::ArrayLength,
        RowKind::RayQueryVertexPositions => Expression::RayQueryVertexPositions,
        RowKind::RayQueryProceedResult => Expression::RayQueryProceedResult,
        RowKind::RayQueryGetIntersection => Expression::RayQueryGetIntersection,
        RowKind::SubgroupBallotResult => Expression::SubgroupBallotResult,
        RowKind::SubgroupOperationResult => Expression::SubgroupOperationResult {
            ty: TypeNumber(n),
        },
        RowKind::CooperativeLoad => {
            let columns = CooperativeSize::from(f.b6);
            let rows = CooperativeSize::from(f.b7);
            let role = CooperativeRole::from(f.b8);
            Expression::CooperativeLoad {
                columns,
                rows,
                role,
                pointer: RowNumber(n),
            }
        }
        RowKind::CooperativeMultiplyAdd => Expression::CooperativeMultiplyAdd { c: RowNumber(n) },
    }
}
