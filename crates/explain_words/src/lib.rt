// Pieces written as bytes: a piece below 4096 is a word of the table, every other a number in decimal
// (specs/Lines.antt). A word has at most 48 bytes, a number at most ten.
#![tactic(auto)]

pub mod table;

ghost use Rattle.std.specs.Prelude.{◌≡◌, ◌+◌, ◌*◌, ◌-◌, ◌≤◌, ◌<◌, length, take, drop};
ghost use Rattle.rule_explain.specs.Words.{word_bytes};
ghost use Rattle.rule_explain.specs.Lines.{decimal, piece_bytes, spelled};
ghost use Rattle.explain_words.specs.ForProofs.{written, put_in, place_after, put_pieces};

use table::STARTS;

// The piece that is a number.
pub fn num(n: u32) -> u64
    ensures { result ≡ 4096 + n }
{
    4096 + (n as u64)
}

// Copies bytes into a buffer, from a place on.
fn copy_in(src: &[u8], out: &mut [u8], at: usize)
    requires { at + length src.now ≤ length out.old }
    ensures { out.new ≡ written out.old at src.now }
{
    out[at..at + src.len()].copy_from_slice(src);
}

// The same where there is room; else the buffer stays as it was.
#[tactic(auto, unfolding(crate::specs::ForProofs::put_in))]
pub fn copy(src: &[u8], out: &mut [u8], at: usize)
    ensures { out.new ≡ put_in out.old at src.now }
{
    if out.len() < at {
        return;
    }
    if out.len() - at < src.len() {
        return;
    }
    copy_in(src, out, at);
}

// Copies the bytes from place a to place e.
fn copy_part(src: &[u8], a: usize, e: usize, out: &mut [u8], at: usize)
    requires { (a ≤ e) × (e ≤ length src.now) × (at + (e - a) ≤ length out.old) }
    ensures { out.new ≡ written out.old at (take (e - a) (drop a src.now)) }
{
    copy_in(&src[a..e], out, at);
}

fn wide(n: u16) -> usize
    ensures { result ≡ n }
{
    n as usize
}

// Writes word w, and gives the place after it.
#[tactic(auto, unfolding(rule_explain::specs::Words::word_table))]
fn put_word(w: u64, out: &mut [u8], at: usize) -> usize
    requires { at + 48 ≤ length out.old }
    ensures { (result ≡ at + length (word_bytes w))
        × (result ≤ at + 48)
        × (out.new ≡ written out.old at (word_bytes w)) }
{
    if w < 163 {
        let i = w as usize;
        let a = wide(STARTS[i]);
        let e = wide(STARTS[i + 1]);
        let words =
            b"row   \n  (type )\ntype unknown kind , <>xi32u32f32bool{AbstractInt}{AbstractFloat}i16i64u16u64f16f64sint(uint(float(bool({AbstractInt}({AbstractFloat}( bytes)vecmatatomic<coop_mat, A, B, Cptr<value_ptr<functionprivateworkgroupuniformstoragehandleimmediatetask_payloadray_payloadincoming_ray_payloadno_accessreadwriteread_writeatomic_onlyread_atomicwrite_atomicatomicarray<binding_array<, override structtexture_texture_externalmultisampled_depth_depth_multisampled_storage_1d2d3dcube_arrayr8unormr8snormr8uintr8sintr16uintr16sintr16floatrg8unormrg8snormrg8uintrg8sintr32uintr32sintr32floatrg16uintrg16sintrg16floatrgba8unormrgba8snormrgba8uintrgba8sintbgra8unormrgb10a2uintrgb10a2unormrg11b10ufloatr64uintrg32uintrg32sintrg32floatrgba16uintrgba16sintrgba16floatrgba32uintrgba32sintrgba32floatr16unormr16snormrg16unormrg16snormrgba16unormrgba16snormsamplersampler_comparisonacceleration_structureacceleration_structure<vertex_return>ray_queryray_query<vertex_return>refused  bound: operand row  access: operand row  subaccess: type  scalar: operand row  vector: operand row  pointer: operand row  image: operand row  void: the function gives nothing clash: the operands do not go together argument: index  special: the special type is missing mismatch: not in WGSL with these operand types, index , by a computed index, by a constant indexrefused 22 newer: met at row verdict: passes22 newer: component 22 newer: the composed type type: not one that is composed count: expected  part: component  broken part: component , given line : number , long: over , torn: not 32 digits and a line feed, short: a lent buffer is too small, order: unknown or out of order, field: a byte is outside its values, index: a number is out of range or not earlier frames (align , size  unmeasured: type  misplaced: type  huge: type  to , span: override ";
        copy_part(words, a, e, out, at);
        at + (e - a)
    } else {
        at
    }
}

fn digit(d: u64) -> u8
    requires { d < 10 }
    ensures { result ≡ 48 + d }
{
    48 + (d as u8)
}

// Writes a number's digits at the end of a buffer of ten bytes, and gives where they begin.
fn numeral(n: u64, buf: &mut [u8]) -> usize
    requires { length buf.old ≡ 10 }
    ensures { (drop result buf.new ≡ decimal n) × (result ≤ 10) × (length buf.new ≡ 10) }
{
    let mut rest = n;
    for i in (0..10).rev() {
        buf[i] = digit(rest % 10);
        if rest < 10 {
            return i;
        }
        rest /= 10;
    }
    0
}

// Writes a number in decimal, and gives the place after it.
fn put_number(n: u64, out: &mut [u8], at: usize) -> usize
    requires { at + 48 ≤ length out.old }
    ensures { (result ≡ at + length (decimal n))
        × (result ≤ at + 48)
        × (out.new ≡ written out.old at (decimal n)) }
{
    let mut buf = [0u8; 10];
    let i = numeral(n, &mut buf);
    copy_in(&buf[i..], out, at);
    at + (10 - i)
}

#[tactic(auto, unfolding(rule_explain::specs::Lines::piece_bytes))]
fn put_piece(p: u64, out: &mut [u8], at: usize) -> usize
    requires { at + 48 ≤ length out.old }
    ensures { (result ≡ at + length (piece_bytes p))
        × (result ≤ at + 48)
        × (out.new ≡ written out.old at (piece_bytes p)) }
{
    if p < 4096 {
        put_word(p, out, at)
    } else {
        put_number(p - 4096, out, at)
    }
}

// Writes pieces, and gives the place after them.
#[tactic(auto, unfolding(rule_explain::specs::Lines::spelled))]
fn put_run(pieces: &[u64], out: &mut [u8], at: usize) -> usize
    requires { at + 48 * length pieces.now ≤ length out.old }
    ensures { (result ≡ at + length (spelled pieces.now))
        × (result ≤ at + 48 * length pieces.now)
        × (out.new ≡ written out.old at (spelled pieces.now)) }
{
    let mut next = at;
    for p in pieces {
        next = put_piece(*p, out, next);
    }
    next
}

// The same where 48 bytes a piece are left; else the buffer stays as it was.
#[tactic(auto, unfolding(crate::specs::ForProofs::put_pieces, crate::specs::ForProofs::place_after))]
pub fn put_pieces(pieces: &[u64], out: &mut [u8], at: usize) -> usize
    ensures { (result ≡ place_after out.old at pieces.now)
        × (result ≤ at + 48 * length pieces.now)
        × (out.new ≡ put_pieces out.old at pieces.now) }
{
    if out.len() < at {
        return at;
    }
    if (out.len() - at) / 48 < pieces.len() {
        return at;
    }
    put_run(pieces, out, at)
}
