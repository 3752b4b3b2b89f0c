// The mnemonics of the kinds. A group whose members stand for A and for B, or for a short branch and a long one, has the letters that they share.
use opcodes::kind::{
    AddressOp, BitOp, ByteOp, Change, Choice, Condition, ControlOp, Kind, Lookup, MoveOp,
    ProductOp, RegisterOp, StackOp, Stopping, StoreOp, WordOp,
};
use std::fmt;

#[derive(Clone, Copy)]
pub struct Mnemonic(pub Kind);

impl fmt::Display for Mnemonic {
    fn fmt<W: fmt::Write>(&self, f: &mut fmt::Formatter<W>) -> fmt::Result {
        match self.0 {
            Kind::Stops(op) => f.write_str(stopping(op)),
            Kind::Prebyte => f.write_str("PAGE2"),
            Kind::ShortBranch(op) => write!(f, "B{}", condition(op)),
            Kind::LongBranch(op) => write!(f, "LB{}", condition(op)),
            Kind::WithA(op) => write!(f, "{}A", byte_op(op)),
            Kind::WithB(op) => write!(f, "{}B", byte_op(op)),
            Kind::WithWord(op) => f.write_str(word_op(op)),
            Kind::Store(op) => f.write_str(store_op(op)),
            Kind::InMemory(op) => f.write_str(change(op)),
            Kind::InA(op) => write!(f, "{}A", change(op)),
            Kind::InB(op) => write!(f, "{}B", change(op)),
            Kind::Registers(op) => f.write_str(register_op(op)),
            Kind::Product(op) => f.write_str(product_op(op)),
            Kind::Stack(op) => f.write_str(stack_op(op)),
            Kind::Control(op) => f.write_str(control_op(op)),
            Kind::Address(op) => f.write_str(address_op(op)),
            Kind::Choose(op) => f.write_str(choice(op)),
            Kind::Move(op) => f.write_str(move_op(op)),
            Kind::LookUp(op) => f.write_str(lookup(op)),
            Kind::Bits(op) => f.write_str(bit_op(op)),
        }
    }
}

fn stopping(op: Stopping) -> &'static str {
    match op {
        Stopping::Bgnd => "BGND",
        Stopping::Mem => "MEM",
        Stopping::Rtc => "RTC",
        Stopping::Wavr => "wavr",
        Stopping::Call => "CALL",
        Stopping::Rev => "REV",
        Stopping::Revw => "REVW",
        Stopping::Wav => "WAV",
        Stopping::Stop => "STOP",
    }
}

fn condition(op: Condition) -> &'static str {
    match op {
        Condition::Ra => "RA",
        Condition::Rn => "RN",
        Condition::Hi => "HI",
        Condition::Ls => "LS",
        Condition::Cc => "CC",
        Condition::Cs => "CS",
        Condition::Ne => "NE",
        Condition::Eq => "EQ",
        Condition::Vc => "VC",
        Condition::Vs => "VS",
        Condition::Pl => "PL",
        Condition::Mi => "MI",
        Condition::Ge => "GE",
        Condition::Lt => "LT",
        Condition::Gt => "GT",
        Condition::Le => "LE",
    }
}

fn byte_op(op: ByteOp) -> &'static str {
    match op {
        ByteOp::Sub => "SUB",
        ByteOp::Cmp => "CMP",
        ByteOp::Sbc => "SBC",
        ByteOp::And => "AND",
        ByteOp::Bit => "BIT",
        ByteOp::Ld => "LDA",
        ByteOp::Eor => "EOR",
        ByteOp::Adc => "ADC",
        ByteOp::Or => "ORA",
        ByteOp::Add => "ADD",
    }
}

fn word_op(op: WordOp) -> &'static str {
    match op {
        WordOp::Subd => "SUBD",
        WordOp::Addd => "ADDD",
        WordOp::Cpd => "CPD",
        WordOp::Cpy => "CPY",
        WordOp::Cpx => "CPX",
        WordOp::Cps => "CPS",
        WordOp::Ldd => "LDD",
        WordOp::Ldy => "LDY",
        WordOp::Ldx => "LDX",
        WordOp::Lds => "LDS",
    }
}

fn store_op(op: StoreOp) -> &'static str {
    match op {
        StoreOp::Staa => "STAA",
        StoreOp::Stab => "STAB",
        StoreOp::Std => "STD",
        StoreOp::Sty => "STY",
        StoreOp::Stx => "STX",
        StoreOp::Sts => "STS",
    }
}

fn change(op: Change) -> &'static str {
    match op {
        Change::Neg => "NEG",
        Change::Com => "COM",
        Change::Inc => "INC",
        Change::Dec => "DEC",
        Change::Lsr => "LSR",
        Change::Rol => "ROL",
        Change::Ror => "ROR",
        Change::Asr => "ASR",
        Change::Asl => "ASL",
        Change::Clr => "CLR",
        Change::Tst => "TST",
    }
}

fn register_op(op: RegisterOp) -> &'static str {
    match op {
        RegisterOp::Lsrd => "LSRD",
        RegisterOp::Asld => "ASLD",
        RegisterOp::Inx => "INX",
        RegisterOp::Iny => "INY",
        RegisterOp::Dex => "DEX",
        RegisterOp::Dey => "DEY",
        RegisterOp::Aba => "ABA",
        RegisterOp::Sba => "SBA",
        RegisterOp::Cba => "CBA",
        RegisterOp::Daa => "DAA",
        RegisterOp::Tab => "TAB",
        RegisterOp::Tba => "TBA",
        RegisterOp::Andcc => "ANDCC",
        RegisterOp::Orcc => "ORCC",
        RegisterOp::TfrExg => "TFR/EXG",
        RegisterOp::Nop => "NOP",
    }
}

fn product_op(op: ProductOp) -> &'static str {
    match op {
        ProductOp::Mul => "MUL",
        ProductOp::Emul => "EMUL",
        ProductOp::Emuls => "EMULS",
        ProductOp::Emacs => "EMACS",
        ProductOp::Ediv => "EDIV",
        ProductOp::Edivs => "EDIVS",
        ProductOp::Idiv => "IDIV",
        ProductOp::Idivs => "IDIVS",
        ProductOp::Fdiv => "FDIV",
    }
}

fn stack_op(op: StackOp) -> &'static str {
    match op {
        StackOp::Pulx => "PULX",
        StackOp::Puly => "PULY",
        StackOp::Pula => "PULA",
        StackOp::Pulb => "PULB",
        StackOp::Pshx => "PSHX",
        StackOp::Pshy => "PSHY",
        StackOp::Psha => "PSHA",
        StackOp::Pshb => "PSHB",
        StackOp::Pulc => "PULC",
        StackOp::Pshc => "PSHC",
        StackOp::Puld => "PULD",
        StackOp::Pshd => "PSHD",
    }
}

fn control_op(op: ControlOp) -> &'static str {
    match op {
        ControlOp::Bsr => "BSR",
        ControlOp::Rts => "RTS",
        ControlOp::Rti => "RTI",
        ControlOp::Swi => "SWI",
        ControlOp::Trap => "TRAP",
        ControlOp::Wai => "WAI",
        ControlOp::Loop => "LOOP",
    }
}

fn address_op(op: AddressOp) -> &'static str {
    match op {
        AddressOp::Leay => "LEAY",
        AddressOp::Leax => "LEAX",
        AddressOp::Leas => "LEAS",
        AddressOp::Jmp => "JMP",
        AddressOp::Jsr => "JSR",
    }
}

fn choice(op: Choice) -> &'static str {
    match op {
        Choice::Maxa => "MAXA",
        Choice::Mina => "MINA",
        Choice::Emaxd => "EMAXD",
        Choice::Emind => "EMIND",
        Choice::Maxm => "MAXM",
        Choice::Minm => "MINM",
        Choice::Emaxm => "EMAXM",
        Choice::Eminm => "EMINM",
    }
}

fn move_op(op: MoveOp) -> &'static str {
    match op {
        MoveOp::Movb => "MOVB",
        MoveOp::Movw => "MOVW",
    }
}

fn lookup(op: Lookup) -> &'static str {
    match op {
        Lookup::Tbl => "TBL",
        Lookup::Etbl => "ETBL",
    }
}

fn bit_op(op: BitOp) -> &'static str {
    match op {
        BitOp::Bset => "BSET",
        BitOp::Bclr => "BCLR",
        BitOp::Brset => "BRSET",
        BitOp::Brclr => "BRCLR",
    }
}
