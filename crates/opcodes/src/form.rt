// The address forms of an indexed postbyte, in the order of the grid's columns from IDX on; specs/Postbyte.antt numbers them so.
#[derive(Clone, Copy)]
pub enum Form {
    Idx,
    Idx1,
    Idx2,
    // [D,IDX] of the papers.
    DIndirect,
    // [IDX2] of the papers.
    Idx2Indirect,
}
