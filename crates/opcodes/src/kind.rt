// The kinds of instruction by their names, a group a variant. specs/Kind.antt gives each its number: the group and the member of the group.

// What the machine does next is chosen by the group; A and B, the three places of a byte, and the two lengths of a branch share their members.
#[derive(Clone, Copy)]
pub enum Kind {
    // What stops the machine (the ten encodings of docs/MACHINE.md, "The machine"; CALL has two).
    Stops(Stopping),
    // The next byte is an opcode of page 2.
    Prebyte,
    // Short branches, in the order of opcodes 20 to 2F.
    ShortBranch(Condition),
    // Long branches, in the order of page 2's 20 to 2F.
    LongBranch(Condition),
    // A with an operand, by the opcode's second digit.
    WithA(ByteOp),
    // B with an operand, by the opcode's second digit.
    WithB(ByteOp),
    // D, X, Y or SP with an operand.
    WithWord(WordOp),
    // Stores, by the opcode's second digit.
    Store(StoreOp),
    // A byte of memory is read, changed and written back; cleared; tested.
    InMemory(Change),
    // The same in A.
    InA(Change),
    // The same in B.
    InB(Change),
    // Registers and condition codes alone.
    Registers(RegisterOp),
    // Products and quotients.
    Product(ProductOp),
    // Pulls and pushes.
    Stack(StackOp),
    // Subroutines, interrupts and loops: what changes the flow and has no operand in memory.
    Control(ControlOp),
    // What takes the operand's address alone.
    Address(AddressOp),
    // The larger or smaller of two.
    Choose(Choice),
    // Moves.
    Move(MoveOp),
    // Table lookup.
    LookUp(Lookup),
    // Bits of memory: changed, or tested for a branch.
    Bits(BitOp),
}

// What stops the machine (the ten encodings of docs/MACHINE.md, "The machine"; CALL has two).
#[derive(Clone, Copy)]
pub enum Stopping {
    Bgnd,
    Mem,
    Rtc,
    Wavr,
    Call,
    Rev,
    Revw,
    Wav,
    Stop,
}

// The conditions of the branches, short and long: each by its mnemonic without the B.
#[derive(Clone, Copy)]
pub enum Condition {
    Ra,
    Rn,
    Hi,
    Ls,
    Cc,
    Cs,
    Ne,
    Eq,
    Vc,
    Vs,
    Pl,
    Mi,
    Ge,
    Lt,
    Gt,
    Le,
}

// A or B with an operand, by the opcode's second digit.
#[derive(Clone, Copy)]
pub enum ByteOp {
    Sub,
    Cmp,
    Sbc,
    And,
    Bit,
    Ld,
    Eor,
    Adc,
    Or,
    Add,
}

// D, X, Y or SP with an operand.
#[derive(Clone, Copy)]
pub enum WordOp {
    Subd,
    Addd,
    Cpd,
    Cpy,
    Cpx,
    Cps,
    Ldd,
    Ldy,
    Ldx,
    Lds,
}

// Stores, by the opcode's second digit.
#[derive(Clone, Copy)]
pub enum StoreOp {
    Staa,
    Stab,
    Std,
    Sty,
    Stx,
    Sts,
}

// What is done to a byte of memory, to A or to B.
#[derive(Clone, Copy)]
pub enum Change {
    Neg,
    Com,
    Inc,
    Dec,
    Lsr,
    Rol,
    Ror,
    Asr,
    Asl,
    Clr,
    Tst,
}

// Registers and condition codes alone.
#[derive(Clone, Copy)]
pub enum RegisterOp {
    Lsrd,
    Asld,
    Inx,
    Iny,
    Dex,
    Dey,
    Aba,
    Sba,
    Cba,
    Daa,
    Tab,
    Tba,
    Andcc,
    Orcc,
    TfrExg,
    Nop,
}

// Products and quotients.
#[derive(Clone, Copy)]
pub enum ProductOp {
    Mul,
    Emul,
    Emuls,
    Emacs,
    Ediv,
    Edivs,
    Idiv,
    Idivs,
    Fdiv,
}

// Pulls and pushes.
#[derive(Clone, Copy)]
pub enum StackOp {
    Pulx,
    Puly,
    Pula,
    Pulb,
    Pshx,
    Pshy,
    Psha,
    Pshb,
    Pulc,
    Pshc,
    Puld,
    Pshd,
}

// Subroutines, interrupts and loops: what changes the flow and has no operand in memory.
#[derive(Clone, Copy)]
pub enum ControlOp {
    Bsr,
    Rts,
    Rti,
    Swi,
    Trap,
    Wai,
    Loop,
}

// What takes the operand's address alone.
#[derive(Clone, Copy)]
pub enum AddressOp {
    Leay,
    Leax,
    Leas,
    Jmp,
    Jsr,
}

// The larger or smaller of two.
#[derive(Clone, Copy)]
pub enum Choice {
    Maxa,
    Mina,
    Emaxd,
    Emind,
    Maxm,
    Minm,
    Emaxm,
    Eminm,
}

// Moves.
#[derive(Clone, Copy)]
pub enum MoveOp {
    Movb,
    Movw,
}

// Table lookup.
#[derive(Clone, Copy)]
pub enum Lookup {
    Tbl,
    Etbl,
}

// Bits of memory: changed, or tested for a branch.
#[derive(Clone, Copy)]
pub enum BitOp {
    Bset,
    Bclr,
    Brset,
    Brclr,
}
