// Where each family of a file begins, and the parts that a frame holds. Checks 4 to 6 (document 01, "Numbers handed
// back"), what each frame names, and types, members, items, rows and components by their numbers stand in specs/;
// crates archive_access, check_names and check_file have the code.
#![tactic(auto)]

use ir::{RowNumber, TypeNumber};

// The ranks at which a family begins, and each kind of items.
pub const MEMBER_RANK: usize = 512;

pub const CONSTANT_RANK: usize = 769;

pub const OVERRIDE_RANK: usize = 770;

pub const GLOBAL_RANK: usize = 771;

pub const ARGUMENT_RANK: usize = 772;

pub const LOCAL_RANK: usize = 773;

pub const FUNCTION_RANK: usize = 774;

pub const INTERSECTION_RANK: usize = 775;

pub const VERTEX_RETURN_RANK: usize = 776;

pub const ROW_RANK: usize = 1024;

pub const COMPONENT_RANK: usize = 1280;

// The lowest frame of each family after the types, and of each kind of items; types begin the file, and `end` is past
// its last frame.
#[derive(Clone, Copy)]
pub struct Starts {
    pub members: usize,
    pub constants: usize,
    pub overrides: usize,
    pub globals: usize,
    pub arguments: usize,
    pub locals: usize,
    pub functions: usize,
    pub intersections: usize,
    pub vertex_returns: usize,
    pub rows: usize,
    pub components: usize,
    pub end: usize,
}

// A frame that holds parts: a struct holds members, a compose components.
#[derive(Clone, Copy)]
pub enum Owner {
    Struct(TypeNumber),
    Compose(RowNumber),
}

// The parts that a frame holds: the frames from `from` up to `to`.
#[derive(Clone, Copy)]
pub enum Held {
    Parts {
        from: usize,
        to: usize,
        owner: Owner,
    },
    Nothing,
}
