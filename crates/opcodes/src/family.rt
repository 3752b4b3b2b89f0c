// The families of instructions that the grid prices, in the order of its rows; specs/Grid.antt numbers them so.
#[derive(Clone, Copy)]
pub enum Family {
    // No family: the cost is the cell's own.
    Own,
    Byte,
    Word,
    Store,
    Clear,
    Modify,
    Test,
    Jump,
    Subroutine,
    Address,
    BitChange,
    BitBranch,
    Choose,
    ChooseM,
    Lookup,
    LookupW,
    MoveIm,
    MoveM,
}
