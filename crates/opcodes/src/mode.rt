// The addressing modes by the opcode map's abbreviations; specs/Mode.antt numbers them in this order.
#[derive(Clone, Copy)]
pub enum Mode {
    Im,
    Di,
    Ex,
    Ih,
    Rl,
    Sp,
    ImEx,
    ExEx,
    // The first of the modes that have an indexed postbyte.
    Id,
    ImId,
    ExId,
    IdId,
    IdEx,
}
