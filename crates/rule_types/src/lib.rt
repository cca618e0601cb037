// Pointer forms and the comparison of two types, as rules, in specs/: the source's proc/type_methods.rs, lines 193 to
// 230 and 299 to 356, and compare_types (proc/typifier.rs, lines 841 to 864). Crate type_methods has the code; the
// methods that take no types stand with TypeInner, in ir.
#![tactic(auto)]

use ir::TypeInner;

// The source's Option<TypeInner> of a canonical form, and the port's own case: a pointer's base is of unknown kind.
#[derive(Clone, Copy)]
pub enum CanonicalForm {
    None,
    Some(TypeInner),
    Newer,
}
