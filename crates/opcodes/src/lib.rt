// The opcode map: what each of the 512 cells is, how long it is and what it costs; and the names of kinds, modes, families and forms.
#![tactic(auto)]

ghost use Rattle.std.specs.Prelude.{◌≡◌, ◌+◌};
ghost use Rattle.opcodes.specs.Grid.{grid_at};
ghost use Rattle.opcodes.specs.Kind.{TFR/EXG, LOOP, MOVB, same};
ghost use Rattle.opcodes.specs.Map.{cell_of, cell_number};
ghost use Rattle.opcodes.specs.Postbyte.{form_number, form_of, extension_of, indexed_of, transfer_reserved, loop_reserved, reserved_of, length_in, cost_in, cost_of, untaken_of};
ghost use Rattle.opcodes.specs.Rules.{stops_of};

pub mod family;
pub mod form;
pub mod kind;
pub mod mode;

use family::Family;
use form::Form;
use kind::{
    AddressOp, BitOp, ByteOp, Change, Choice, Condition, ControlOp, Kind, Lookup, MoveOp,
    ProductOp, RegisterOp, StackOp, Stopping, StoreOp, WordOp,
};
use mode::Mode;

// A cell of the map. `kind` says which instruction; `mode` how it is addressed; `family` which row
// of the grid prices it; `length` in bytes and `cost` in cycles are those of a plain IDX postbyte where it has one. `spare` is 0: with it a
// cell has eight bytes, which are read as one number (docs/SPEED.md).
#[derive(Clone, Copy)]
pub struct Cell {
    pub kind: Kind,
    pub mode: Mode,
    pub family: Family,
    pub length: u8,
    pub cost: u8,
    pub spare: u16,
}

// A cell in one line: its kind, mode and family, its length in bytes and its cost in cycles.
macro_rules! cell {
    (Prebyte, $mode:ident, $family:ident, $length:literal, $cost:literal) => {
        Cell {
            kind: Kind::Prebyte,
            mode: Mode::$mode,
            family: Family::$family,
            length: $length,
            cost: $cost,
            spare: 0,
        }
    };
    ($group:ident($set:ident::$member:ident), $mode:ident, $family:ident, $length:literal, $cost:literal) => {
        Cell {
            kind: Kind::$group($set::$member),
            mode: Mode::$mode,
            family: Family::$family,
            length: $length,
            cost: $cost,
            spare: 0,
        }
    };
}

// Page 1 and then page 2, cell by cell.
static MAP: [Cell; 512] = [
    cell!(Stops(Stopping::Bgnd), Ih, Own, 1, 0), // 00 BGND IH
    cell!(Stops(Stopping::Mem), Ih, Own, 1, 0), // 01 MEM IH
    cell!(Registers(RegisterOp::Iny), Ih, Own, 1, 1), // 02 INY IH
    cell!(Registers(RegisterOp::Dey), Ih, Own, 1, 1), // 03 DEY IH
    cell!(Control(ControlOp::Loop), Rl, Own, 3, 3), // 04 LOOP RL
    cell!(Address(AddressOp::Jmp), Id, Jump, 2, 3), // 05 JMP ID
    cell!(Address(AddressOp::Jmp), Ex, Jump, 3, 3), // 06 JMP EX
    cell!(Control(ControlOp::Bsr), Rl, Own, 2, 4), // 07 BSR RL
    cell!(Registers(RegisterOp::Inx), Ih, Own, 1, 1), // 08 INX IH
    cell!(Registers(RegisterOp::Dex), Ih, Own, 1, 1), // 09 DEX IH
    cell!(Stops(Stopping::Rtc), Ih, Own, 1, 0), // 0A RTC IH
    cell!(Control(ControlOp::Rti), Ih, Own, 1, 8), // 0B RTI IH
    cell!(Bits(BitOp::Bset), Id, BitChange, 3, 4), // 0C BSET ID
    cell!(Bits(BitOp::Bclr), Id, BitChange, 3, 4), // 0D BCLR ID
    cell!(Bits(BitOp::Brset), Id, BitBranch, 4, 4), // 0E BRSET ID
    cell!(Bits(BitOp::Brclr), Id, BitBranch, 4, 4), // 0F BRCLR ID
    cell!(Registers(RegisterOp::Andcc), Im, Own, 2, 1), // 10 ANDCC IM
    cell!(Product(ProductOp::Ediv), Ih, Own, 1, 11), // 11 EDIV IH
    cell!(Product(ProductOp::Mul), Ih, Own, 1, 1), // 12 MUL IH
    cell!(Product(ProductOp::Emul), Ih, Own, 1, 3), // 13 EMUL IH
    cell!(Registers(RegisterOp::Orcc), Im, Own, 2, 1), // 14 ORCC IM
    cell!(Address(AddressOp::Jsr), Id, Subroutine, 2, 4), // 15 JSR ID
    cell!(Address(AddressOp::Jsr), Ex, Subroutine, 3, 4), // 16 JSR EX
    cell!(Address(AddressOp::Jsr), Di, Subroutine, 2, 4), // 17 JSR DI
    cell!(Prebyte, Ih, Own, 1, 0), // 18 PAGE2 IH
    cell!(Address(AddressOp::Leay), Id, Address, 2, 2), // 19 LEAY ID
    cell!(Address(AddressOp::Leax), Id, Address, 2, 2), // 1A LEAX ID
    cell!(Address(AddressOp::Leas), Id, Address, 2, 2), // 1B LEAS ID
    cell!(Bits(BitOp::Bset), Ex, BitChange, 4, 4), // 1C BSET EX
    cell!(Bits(BitOp::Bclr), Ex, BitChange, 4, 4), // 1D BCLR EX
    cell!(Bits(BitOp::Brset), Ex, BitBranch, 5, 5), // 1E BRSET EX
    cell!(Bits(BitOp::Brclr), Ex, BitBranch, 5, 5), // 1F BRCLR EX
    cell!(ShortBranch(Condition::Ra), Rl, Own, 2, 3), // 20 BRA RL
    cell!(ShortBranch(Condition::Rn), Rl, Own, 2, 1), // 21 BRN RL
    cell!(ShortBranch(Condition::Hi), Rl, Own, 2, 3), // 22 BHI RL
    cell!(ShortBranch(Condition::Ls), Rl, Own, 2, 3), // 23 BLS RL
    cell!(ShortBranch(Condition::Cc), Rl, Own, 2, 3), // 24 BCC RL
    cell!(ShortBranch(Condition::Cs), Rl, Own, 2, 3), // 25 BCS RL
    cell!(ShortBranch(Condition::Ne), Rl, Own, 2, 3), // 26 BNE RL
    cell!(ShortBranch(Condition::Eq), Rl, Own, 2, 3), // 27 BEQ RL
    cell!(ShortBranch(Condition::Vc), Rl, Own, 2, 3), // 28 BVC RL
    cell!(ShortBranch(Condition::Vs), Rl, Own, 2, 3), // 29 BVS RL
    cell!(ShortBranch(Condition::Pl), Rl, Own, 2, 3), // 2A BPL RL
    cell!(ShortBranch(Condition::Mi), Rl, Own, 2, 3), // 2B BMI RL
    cell!(ShortBranch(Condition::Ge), Rl, Own, 2, 3), // 2C BGE RL
    cell!(ShortBranch(Condition::Lt), Rl, Own, 2, 3), // 2D BLT RL
    cell!(ShortBranch(Condition::Gt), Rl, Own, 2, 3), // 2E BGT RL
    cell!(ShortBranch(Condition::Le), Rl, Own, 2, 3), // 2F BLE RL
    cell!(Stack(StackOp::Pulx), Ih, Own, 1, 3), // 30 PULX IH
    cell!(Stack(StackOp::Puly), Ih, Own, 1, 3), // 31 PULY IH
    cell!(Stack(StackOp::Pula), Ih, Own, 1, 3), // 32 PULA IH
    cell!(Stack(StackOp::Pulb), Ih, Own, 1, 3), // 33 PULB IH
    cell!(Stack(StackOp::Pshx), Ih, Own, 1, 2), // 34 PSHX IH
    cell!(Stack(StackOp::Pshy), Ih, Own, 1, 2), // 35 PSHY IH
    cell!(Stack(StackOp::Psha), Ih, Own, 1, 2), // 36 PSHA IH
    cell!(Stack(StackOp::Pshb), Ih, Own, 1, 2), // 37 PSHB IH
    cell!(Stack(StackOp::Pulc), Ih, Own, 1, 3), // 38 PULC IH
    cell!(Stack(StackOp::Pshc), Ih, Own, 1, 2), // 39 PSHC IH
    cell!(Stack(StackOp::Puld), Ih, Own, 1, 3), // 3A PULD IH
    cell!(Stack(StackOp::Pshd), Ih, Own, 1, 2), // 3B PSHD IH
    cell!(Stops(Stopping::Wavr), Sp, Own, 1, 0), // 3C wavr SP
    cell!(Control(ControlOp::Rts), Ih, Own, 1, 5), // 3D RTS IH
    cell!(Control(ControlOp::Wai), Ih, Own, 1, 7), // 3E WAI IH
    cell!(Control(ControlOp::Swi), Ih, Own, 1, 9), // 3F SWI IH
    cell!(InA(Change::Neg), Ih, Own, 1, 1), // 40 NEGA IH
    cell!(InA(Change::Com), Ih, Own, 1, 1), // 41 COMA IH
    cell!(InA(Change::Inc), Ih, Own, 1, 1), // 42 INCA IH
    cell!(InA(Change::Dec), Ih, Own, 1, 1), // 43 DECA IH
    cell!(InA(Change::Lsr), Ih, Own, 1, 1), // 44 LSRA IH
    cell!(InA(Change::Rol), Ih, Own, 1, 1), // 45 ROLA IH
    cell!(InA(Change::Ror), Ih, Own, 1, 1), // 46 RORA IH
    cell!(InA(Change::Asr), Ih, Own, 1, 1), // 47 ASRA IH
    cell!(InA(Change::Asl), Ih, Own, 1, 1), // 48 ASLA IH
    cell!(Registers(RegisterOp::Lsrd), Ih, Own, 1, 1), // 49 LSRD IH
    cell!(Stops(Stopping::Call), Ex, Own, 4, 0), // 4A CALL EX
    cell!(Stops(Stopping::Call), Id, Own, 3, 0), // 4B CALL ID
    cell!(Bits(BitOp::Bset), Di, BitChange, 3, 4), // 4C BSET DI
    cell!(Bits(BitOp::Bclr), Di, BitChange, 3, 4), // 4D BCLR DI
    cell!(Bits(BitOp::Brset), Di, BitBranch, 4, 4), // 4E BRSET DI
    cell!(Bits(BitOp::Brclr), Di, BitBranch, 4, 4), // 4F BRCLR DI
    cell!(InB(Change::Neg), Ih, Own, 1, 1), // 50 NEGB IH
    cell!(InB(Change::Com), Ih, Own, 1, 1), // 51 COMB IH
    cell!(InB(Change::Inc), Ih, Own, 1, 1), // 52 INCB IH
    cell!(InB(Change::Dec), Ih, Own, 1, 1), // 53 DECB IH
    cell!(InB(Change::Lsr), Ih, Own, 1, 1), // 54 LSRB IH
    cell!(InB(Change::Rol), Ih, Own, 1, 1), // 55 ROLB IH
    cell!(InB(Change::Ror), Ih, Own, 1, 1), // 56 RORB IH
    cell!(InB(Change::Asr), Ih, Own, 1, 1), // 57 ASRB IH
    cell!(InB(Change::Asl), Ih, Own, 1, 1), // 58 ASLB IH
    cell!(Registers(RegisterOp::Asld), Ih, Own, 1, 1), // 59 ASLD IH
    cell!(Store(StoreOp::Staa), Di, Store, 2, 2), // 5A STAA DI
    cell!(Store(StoreOp::Stab), Di, Store, 2, 2), // 5B STAB DI
    cell!(Store(StoreOp::Std), Di, Store, 2, 2), // 5C STD DI
    cell!(Store(StoreOp::Sty), Di, Store, 2, 2), // 5D STY DI
    cell!(Store(StoreOp::Stx), Di, Store, 2, 2), // 5E STX DI
    cell!(Store(StoreOp::Sts), Di, Store, 2, 2), // 5F STS DI
    cell!(InMemory(Change::Neg), Id, Modify, 2, 3), // 60 NEG ID
    cell!(InMemory(Change::Com), Id, Modify, 2, 3), // 61 COM ID
    cell!(InMemory(Change::Inc), Id, Modify, 2, 3), // 62 INC ID
    cell!(InMemory(Change::Dec), Id, Modify, 2, 3), // 63 DEC ID
    cell!(InMemory(Change::Lsr), Id, Modify, 2, 3), // 64 LSR ID
    cell!(InMemory(Change::Rol), Id, Modify, 2, 3), // 65 ROL ID
    cell!(InMemory(Change::Ror), Id, Modify, 2, 3), // 66 ROR ID
    cell!(InMemory(Change::Asr), Id, Modify, 2, 3), // 67 ASR ID
    cell!(InMemory(Change::Asl), Id, Modify, 2, 3), // 68 ASL ID
    cell!(InMemory(Change::Clr), Id, Clear, 2, 2), // 69 CLR ID
    cell!(Store(StoreOp::Staa), Id, Store, 2, 2), // 6A STAA ID
    cell!(Store(StoreOp::Stab), Id, Store, 2, 2), // 6B STAB ID
    cell!(Store(StoreOp::Std), Id, Store, 2, 2), // 6C STD ID
    cell!(Store(StoreOp::Sty), Id, Store, 2, 2), // 6D STY ID
    cell!(Store(StoreOp::Stx), Id, Store, 2, 2), // 6E STX ID
    cell!(Store(StoreOp::Sts), Id, Store, 2, 2), // 6F STS ID
    cell!(InMemory(Change::Neg), Ex, Modify, 3, 4), // 70 NEG EX
    cell!(InMemory(Change::Com), Ex, Modify, 3, 4), // 71 COM EX
    cell!(InMemory(Change::Inc), Ex, Modify, 3, 4), // 72 INC EX
    cell!(InMemory(Change::Dec), Ex, Modify, 3, 4), // 73 DEC EX
    cell!(InMemory(Change::Lsr), Ex, Modify, 3, 4), // 74 LSR EX
    cell!(InMemory(Change::Rol), Ex, Modify, 3, 4), // 75 ROL EX
    cell!(InMemory(Change::Ror), Ex, Modify, 3, 4), // 76 ROR EX
    cell!(InMemory(Change::Asr), Ex, Modify, 3, 4), // 77 ASR EX
    cell!(InMemory(Change::Asl), Ex, Modify, 3, 4), // 78 ASL EX
    cell!(InMemory(Change::Clr), Ex, Clear, 3, 3), // 79 CLR EX
    cell!(Store(StoreOp::Staa), Ex, Store, 3, 3), // 7A STAA EX
    cell!(Store(StoreOp::Stab), Ex, Store, 3, 3), // 7B STAB EX
    cell!(Store(StoreOp::Std), Ex, Store, 3, 3), // 7C STD EX
    cell!(Store(StoreOp::Sty), Ex, Store, 3, 3), // 7D STY EX
    cell!(Store(StoreOp::Stx), Ex, Store, 3, 3), // 7E STX EX
    cell!(Store(StoreOp::Sts), Ex, Store, 3, 3), // 7F STS EX
    cell!(WithA(ByteOp::Sub), Im, Byte, 2, 1), // 80 SUBA IM
    cell!(WithA(ByteOp::Cmp), Im, Byte, 2, 1), // 81 CMPA IM
    cell!(WithA(ByteOp::Sbc), Im, Byte, 2, 1), // 82 SBCA IM
    cell!(WithWord(WordOp::Subd), Im, Word, 3, 2), // 83 SUBD IM
    cell!(WithA(ByteOp::And), Im, Byte, 2, 1), // 84 ANDA IM
    cell!(WithA(ByteOp::Bit), Im, Byte, 2, 1), // 85 BITA IM
    cell!(WithA(ByteOp::Ld), Im, Byte, 2, 1), // 86 LDAA IM
    cell!(InA(Change::Clr), Ih, Own, 1, 1), // 87 CLRA IH
    cell!(WithA(ByteOp::Eor), Im, Byte, 2, 1), // 88 EORA IM
    cell!(WithA(ByteOp::Adc), Im, Byte, 2, 1), // 89 ADCA IM
    cell!(WithA(ByteOp::Or), Im, Byte, 2, 1), // 8A ORAA IM
    cell!(WithA(ByteOp::Add), Im, Byte, 2, 1), // 8B ADDA IM
    cell!(WithWord(WordOp::Cpd), Im, Word, 3, 2), // 8C CPD IM
    cell!(WithWord(WordOp::Cpy), Im, Word, 3, 2), // 8D CPY IM
    cell!(WithWord(WordOp::Cpx), Im, Word, 3, 2), // 8E CPX IM
    cell!(WithWord(WordOp::Cps), Im, Word, 3, 2), // 8F CPS IM
    cell!(WithA(ByteOp::Sub), Di, Byte, 2, 3), // 90 SUBA DI
    cell!(WithA(ByteOp::Cmp), Di, Byte, 2, 3), // 91 CMPA DI
    cell!(WithA(ByteOp::Sbc), Di, Byte, 2, 3), // 92 SBCA DI
    cell!(WithWord(WordOp::Subd), Di, Word, 2, 3), // 93 SUBD DI
    cell!(WithA(ByteOp::And), Di, Byte, 2, 3), // 94 ANDA DI
    cell!(WithA(ByteOp::Bit), Di, Byte, 2, 3), // 95 BITA DI
    cell!(WithA(ByteOp::Ld), Di, Byte, 2, 3), // 96 LDAA DI
    cell!(InA(Change::Tst), Ih, Own, 1, 1), // 97 TSTA IH
    cell!(WithA(ByteOp::Eor), Di, Byte, 2, 3), // 98 EORA DI
    cell!(WithA(ByteOp::Adc), Di, Byte, 2, 3), // 99 ADCA DI
    cell!(WithA(ByteOp::Or), Di, Byte, 2, 3), // 9A ORAA DI
    cell!(WithA(ByteOp::Add), Di, Byte, 2, 3), // 9B ADDA DI
    cell!(WithWord(WordOp::Cpd), Di, Word, 2, 3), // 9C CPD DI
    cell!(WithWord(WordOp::Cpy), Di, Word, 2, 3), // 9D CPY DI
    cell!(WithWord(WordOp::Cpx), Di, Word, 2, 3), // 9E CPX DI
    cell!(WithWord(WordOp::Cps), Di, Word, 2, 3), // 9F CPS DI
    cell!(WithA(ByteOp::Sub), Id, Byte, 2, 3), // A0 SUBA ID
    cell!(WithA(ByteOp::Cmp), Id, Byte, 2, 3), // A1 CMPA ID
    cell!(WithA(ByteOp::Sbc), Id, Byte, 2, 3), // A2 SBCA ID
    cell!(WithWord(WordOp::Subd), Id, Word, 2, 3), // A3 SUBD ID
    cell!(WithA(ByteOp::And), Id, Byte, 2, 3), // A4 ANDA ID
    cell!(WithA(ByteOp::Bit), Id, Byte, 2, 3), // A5 BITA ID
    cell!(WithA(ByteOp::Ld), Id, Byte, 2, 3), // A6 LDAA ID
    cell!(Registers(RegisterOp::Nop), Ih, Own, 1, 1), // A7 NOP IH
    cell!(WithA(ByteOp::Eor), Id, Byte, 2, 3), // A8 EORA ID
    cell!(WithA(ByteOp::Adc), Id, Byte, 2, 3), // A9 ADCA ID
    cell!(WithA(ByteOp::Or), Id, Byte, 2, 3), // AA ORAA ID
    cell!(WithA(ByteOp::Add), Id, Byte, 2, 3), // AB ADDA ID
    cell!(WithWord(WordOp::Cpd), Id, Word, 2, 3), // AC CPD ID
    cell!(WithWord(WordOp::Cpy), Id, Word, 2, 3), // AD CPY ID
    cell!(WithWord(WordOp::Cpx), Id, Word, 2, 3), // AE CPX ID
    cell!(WithWord(WordOp::Cps), Id, Word, 2, 3), // AF CPS ID
    cell!(WithA(ByteOp::Sub), Ex, Byte, 3, 3), // B0 SUBA EX
    cell!(WithA(ByteOp::Cmp), Ex, Byte, 3, 3), // B1 CMPA EX
    cell!(WithA(ByteOp::Sbc), Ex, Byte, 3, 3), // B2 SBCA EX
    cell!(WithWord(WordOp::Subd), Ex, Word, 3, 3), // B3 SUBD EX
    cell!(WithA(ByteOp::And), Ex, Byte, 3, 3), // B4 ANDA EX
    cell!(WithA(ByteOp::Bit), Ex, Byte, 3, 3), // B5 BITA EX
    cell!(WithA(ByteOp::Ld), Ex, Byte, 3, 3), // B6 LDAA EX
    cell!(Registers(RegisterOp::TfrExg), Ih, Own, 2, 1), // B7 TFR/EXG IH
    cell!(WithA(ByteOp::Eor), Ex, Byte, 3, 3), // B8 EORA EX
    cell!(WithA(ByteOp::Adc), Ex, Byte, 3, 3), // B9 ADCA EX
    cell!(WithA(ByteOp::Or), Ex, Byte, 3, 3), // BA ORAA EX
    cell!(WithA(ByteOp::Add), Ex, Byte, 3, 3), // BB ADDA EX
    cell!(WithWord(WordOp::Cpd), Ex, Word, 3, 3), // BC CPD EX
    cell!(WithWord(WordOp::Cpy), Ex, Word, 3, 3), // BD CPY EX
    cell!(WithWord(WordOp::Cpx), Ex, Word, 3, 3), // BE CPX EX
    cell!(WithWord(WordOp::Cps), Ex, Word, 3, 3), // BF CPS EX
    cell!(WithB(ByteOp::Sub), Im, Byte, 2, 1), // C0 SUBB IM
    cell!(WithB(ByteOp::Cmp), Im, Byte, 2, 1), // C1 CMPB IM
    cell!(WithB(ByteOp::Sbc), Im, Byte, 2, 1), // C2 SBCB IM
    cell!(WithWord(WordOp::Addd), Im, Word, 3, 2), // C3 ADDD IM
    cell!(WithB(ByteOp::And), Im, Byte, 2, 1), // C4 ANDB IM
    cell!(WithB(ByteOp::Bit), Im, Byte, 2, 1), // C5 BITB IM
    cell!(WithB(ByteOp::Ld), Im, Byte, 2, 1), // C6 LDAB IM
    cell!(InB(Change::Clr), Ih, Own, 1, 1), // C7 CLRB IH
    cell!(WithB(ByteOp::Eor), Im, Byte, 2, 1), // C8 EORB IM
    cell!(WithB(ByteOp::Adc), Im, Byte, 2, 1), // C9 ADCB IM
    cell!(WithB(ByteOp::Or), Im, Byte, 2, 1), // CA ORAB IM
    cell!(WithB(ByteOp::Add), Im, Byte, 2, 1), // CB ADDB IM
    cell!(WithWord(WordOp::Ldd), Im, Word, 3, 2), // CC LDD IM
    cell!(WithWord(WordOp::Ldy), Im, Word, 3, 2), // CD LDY IM
    cell!(WithWord(WordOp::Ldx), Im, Word, 3, 2), // CE LDX IM
    cell!(WithWord(WordOp::Lds), Im, Word, 3, 2), // CF LDS IM
    cell!(WithB(ByteOp::Sub), Di, Byte, 2, 3), // D0 SUBB DI
    cell!(WithB(ByteOp::Cmp), Di, Byte, 2, 3), // D1 CMPB DI
    cell!(WithB(ByteOp::Sbc), Di, Byte, 2, 3), // D2 SBCB DI
    cell!(WithWord(WordOp::Addd), Di, Word, 2, 3), // D3 ADDD DI
    cell!(WithB(ByteOp::And), Di, Byte, 2, 3), // D4 ANDB DI
    cell!(WithB(ByteOp::Bit), Di, Byte, 2, 3), // D5 BITB DI
    cell!(WithB(ByteOp::Ld), Di, Byte, 2, 3), // D6 LDAB DI
    cell!(InB(Change::Tst), Ih, Own, 1, 1), // D7 TSTB IH
    cell!(WithB(ByteOp::Eor), Di, Byte, 2, 3), // D8 EORB DI
    cell!(WithB(ByteOp::Adc), Di, Byte, 2, 3), // D9 ADCB DI
    cell!(WithB(ByteOp::Or), Di, Byte, 2, 3), // DA ORAB DI
    cell!(WithB(ByteOp::Add), Di, Byte, 2, 3), // DB ADDB DI
    cell!(WithWord(WordOp::Ldd), Di, Word, 2, 3), // DC LDD DI
    cell!(WithWord(WordOp::Ldy), Di, Word, 2, 3), // DD LDY DI
    cell!(WithWord(WordOp::Ldx), Di, Word, 2, 3), // DE LDX DI
    cell!(WithWord(WordOp::Lds), Di, Word, 2, 3), // DF LDS DI
    cell!(WithB(ByteOp::Sub), Id, Byte, 2, 3), // E0 SUBB ID
    cell!(WithB(ByteOp::Cmp), Id, Byte, 2, 3), // E1 CMPB ID
    cell!(WithB(ByteOp::Sbc), Id, Byte, 2, 3), // E2 SBCB ID
    cell!(WithWord(WordOp::Addd), Id, Word, 2, 3), // E3 ADDD ID
    cell!(WithB(ByteOp::And), Id, Byte, 2, 3), // E4 ANDB ID
    cell!(WithB(ByteOp::Bit), Id, Byte, 2, 3), // E5 BITB ID
    cell!(WithB(ByteOp::Ld), Id, Byte, 2, 3), // E6 LDAB ID
    cell!(InMemory(Change::Tst), Id, Test, 2, 3), // E7 TST ID
    cell!(WithB(ByteOp::Eor), Id, Byte, 2, 3), // E8 EORB ID
    cell!(WithB(ByteOp::Adc), Id, Byte, 2, 3), // E9 ADCB ID
    cell!(WithB(ByteOp::Or), Id, Byte, 2, 3), // EA ORAB ID
    cell!(WithB(ByteOp::Add), Id, Byte, 2, 3), // EB ADDB ID
    cell!(WithWord(WordOp::Ldd), Id, Word, 2, 3), // EC LDD ID
    cell!(WithWord(WordOp::Ldy), Id, Word, 2, 3), // ED LDY ID
    cell!(WithWord(WordOp::Ldx), Id, Word, 2, 3), // EE LDX ID
    cell!(WithWord(WordOp::Lds), Id, Word, 2, 3), // EF LDS ID
    cell!(WithB(ByteOp::Sub), Ex, Byte, 3, 3), // F0 SUBB EX
    cell!(WithB(ByteOp::Cmp), Ex, Byte, 3, 3), // F1 CMPB EX
    cell!(WithB(ByteOp::Sbc), Ex, Byte, 3, 3), // F2 SBCB EX
    cell!(WithWord(WordOp::Addd), Ex, Word, 3, 3), // F3 ADDD EX
    cell!(WithB(ByteOp::And), Ex, Byte, 3, 3), // F4 ANDB EX
    cell!(WithB(ByteOp::Bit), Ex, Byte, 3, 3), // F5 BITB EX
    cell!(WithB(ByteOp::Ld), Ex, Byte, 3, 3), // F6 LDAB EX
    cell!(InMemory(Change::Tst), Ex, Test, 3, 3), // F7 TST EX
    cell!(WithB(ByteOp::Eor), Ex, Byte, 3, 3), // F8 EORB EX
    cell!(WithB(ByteOp::Adc), Ex, Byte, 3, 3), // F9 ADCB EX
    cell!(WithB(ByteOp::Or), Ex, Byte, 3, 3), // FA ORAB EX
    cell!(WithB(ByteOp::Add), Ex, Byte, 3, 3), // FB ADDB EX
    cell!(WithWord(WordOp::Ldd), Ex, Word, 3, 3), // FC LDD EX
    cell!(WithWord(WordOp::Ldy), Ex, Word, 3, 3), // FD LDY EX
    cell!(WithWord(WordOp::Ldx), Ex, Word, 3, 3), // FE LDX EX
    cell!(WithWord(WordOp::Lds), Ex, Word, 3, 3), // FF LDS EX
    cell!(Move(MoveOp::Movw), ImId, MoveIm, 5, 4), // 18 00 MOVW IM-ID
    cell!(Move(MoveOp::Movw), ExId, MoveM, 5, 5), // 18 01 MOVW EX-ID
    cell!(Move(MoveOp::Movw), IdId, MoveM, 4, 5), // 18 02 MOVW ID-ID
    cell!(Move(MoveOp::Movw), ImEx, MoveM, 6, 5), // 18 03 MOVW IM-EX
    cell!(Move(MoveOp::Movw), ExEx, MoveM, 6, 6), // 18 04 MOVW EX-EX
    cell!(Move(MoveOp::Movw), IdEx, MoveM, 5, 5), // 18 05 MOVW ID-EX
    cell!(Registers(RegisterOp::Aba), Ih, Own, 2, 2), // 18 06 ABA IH
    cell!(Registers(RegisterOp::Daa), Ih, Own, 2, 3), // 18 07 DAA IH
    cell!(Move(MoveOp::Movb), ImId, MoveIm, 4, 4), // 18 08 MOVB IM-ID
    cell!(Move(MoveOp::Movb), ExId, MoveM, 5, 5), // 18 09 MOVB EX-ID
    cell!(Move(MoveOp::Movb), IdId, MoveM, 4, 5), // 18 0A MOVB ID-ID
    cell!(Move(MoveOp::Movb), ImEx, MoveM, 5, 4), // 18 0B MOVB IM-EX
    cell!(Move(MoveOp::Movb), ExEx, MoveM, 6, 6), // 18 0C MOVB EX-EX
    cell!(Move(MoveOp::Movb), IdEx, MoveM, 5, 5), // 18 0D MOVB ID-EX
    cell!(Registers(RegisterOp::Tab), Ih, Own, 2, 2), // 18 0E TAB IH
    cell!(Registers(RegisterOp::Tba), Ih, Own, 2, 2), // 18 0F TBA IH
    cell!(Product(ProductOp::Idiv), Ih, Own, 2, 12), // 18 10 IDIV IH
    cell!(Product(ProductOp::Fdiv), Ih, Own, 2, 12), // 18 11 FDIV IH
    cell!(Product(ProductOp::Emacs), Sp, Own, 4, 13), // 18 12 EMACS SP
    cell!(Product(ProductOp::Emuls), Ih, Own, 2, 3), // 18 13 EMULS IH
    cell!(Product(ProductOp::Edivs), Ih, Own, 2, 12), // 18 14 EDIVS IH
    cell!(Product(ProductOp::Idivs), Ih, Own, 2, 12), // 18 15 IDIVS IH
    cell!(Registers(RegisterOp::Sba), Ih, Own, 2, 2), // 18 16 SBA IH
    cell!(Registers(RegisterOp::Cba), Ih, Own, 2, 2), // 18 17 CBA IH
    cell!(Choose(Choice::Maxa), Id, Choose, 3, 4), // 18 18 MAXA ID
    cell!(Choose(Choice::Mina), Id, Choose, 3, 4), // 18 19 MINA ID
    cell!(Choose(Choice::Emaxd), Id, Choose, 3, 4), // 18 1A EMAXD ID
    cell!(Choose(Choice::Emind), Id, Choose, 3, 4), // 18 1B EMIND ID
    cell!(Choose(Choice::Maxm), Id, ChooseM, 3, 4), // 18 1C MAXM ID
    cell!(Choose(Choice::Minm), Id, ChooseM, 3, 4), // 18 1D MINM ID
    cell!(Choose(Choice::Emaxm), Id, ChooseM, 3, 4), // 18 1E EMAXM ID
    cell!(Choose(Choice::Eminm), Id, ChooseM, 3, 4), // 18 1F EMINM ID
    cell!(LongBranch(Condition::Ra), Rl, Own, 4, 4), // 18 20 LBRA RL
    cell!(LongBranch(Condition::Rn), Rl, Own, 4, 3), // 18 21 LBRN RL
    cell!(LongBranch(Condition::Hi), Rl, Own, 4, 4), // 18 22 LBHI RL
    cell!(LongBranch(Condition::Ls), Rl, Own, 4, 4), // 18 23 LBLS RL
    cell!(LongBranch(Condition::Cc), Rl, Own, 4, 4), // 18 24 LBCC RL
    cell!(LongBranch(Condition::Cs), Rl, Own, 4, 4), // 18 25 LBCS RL
    cell!(LongBranch(Condition::Ne), Rl, Own, 4, 4), // 18 26 LBNE RL
    cell!(LongBranch(Condition::Eq), Rl, Own, 4, 4), // 18 27 LBEQ RL
    cell!(LongBranch(Condition::Vc), Rl, Own, 4, 4), // 18 28 LBVC RL
    cell!(LongBranch(Condition::Vs), Rl, Own, 4, 4), // 18 29 LBVS RL
    cell!(LongBranch(Condition::Pl), Rl, Own, 4, 4), // 18 2A LBPL RL
    cell!(LongBranch(Condition::Mi), Rl, Own, 4, 4), // 18 2B LBMI RL
    cell!(LongBranch(Condition::Ge), Rl, Own, 4, 4), // 18 2C LBGE RL
    cell!(LongBranch(Condition::Lt), Rl, Own, 4, 4), // 18 2D LBLT RL
    cell!(LongBranch(Condition::Gt), Rl, Own, 4, 4), // 18 2E LBGT RL
    cell!(LongBranch(Condition::Le), Rl, Own, 4, 4), // 18 2F LBLE RL
    cell!(Control(ControlOp::Trap), Ih, Own, 2, 10), // 18 30 TRAP IH
    cell!(Control(ControlOp::Trap), Ih, Own, 2, 10), // 18 31 TRAP IH
    cell!(Control(ControlOp::Trap), Ih, Own, 2, 10), // 18 32 TRAP IH
    cell!(Control(ControlOp::Trap), Ih, Own, 2, 10), // 18 33 TRAP IH
    cell!(Control(ControlOp::Trap), Ih, Own, 2, 10), // 18 34 TRAP IH
    cell!(Control(ControlOp::Trap), Ih, Own, 2, 10), // 18 35 TRAP IH
    cell!(Control(ControlOp::Trap), Ih, Own, 2, 10), // 18 36 TRAP IH
    cell!(Control(ControlOp::Trap), Ih, Own, 2, 10), // 18 37 TRAP IH
    cell!(Control(ControlOp::Trap), Ih, Own, 2, 10), // 18 38 TRAP IH
    cell!(Control(ControlOp::Trap), Ih, Own, 2, 10), // 18 39 TRAP IH
    cell!(Stops(Stopping::Rev), Sp, Own, 2, 0), // 18 3A REV SP
    cell!(Stops(Stopping::Revw), Sp, Own, 2, 0), // 18 3B REVW SP
    cell!(Stops(Stopping::Wav), Sp, Own, 2, 0), // 18 3C WAV SP
    cell!(LookUp(Lookup::Tbl), Id, Lookup, 3, 6), // 18 3D TBL ID
    cell!(Stops(Stopping::Stop), Ih, Own, 2, 0), // 18 3E STOP IH
    cell!(LookUp(Lookup::Etbl), Id, LookupW, 3, 10), // 18 3F ETBL ID
    cell!(Control(ControlOp::Trap), Ih, Own, 2, 10), // 18 40 TRAP IH
    cell!(Control(ControlOp::Trap), Ih, Own, 2, 10), // 18 41 TRAP IH
    cell!(Control(ControlOp::Trap), Ih, Own, 2, 10), // 18 42 TRAP IH
    cell!(Control(ControlOp::Trap), Ih, Own, 2, 10), // 18 43 TRAP IH
    cell!(Control(ControlOp::Trap), Ih, Own, 2, 10), // 18 44 TRAP IH
    cell!(Control(ControlOp::Trap), Ih, Own, 2, 10), // 18 45 TRAP IH
    cell!(Control(ControlOp::Trap), Ih, Own, 2, 10), // 18 46 TRAP IH
    cell!(Control(ControlOp::Trap), Ih, Own, 2, 10), // 18 47 TRAP IH
    cell!(Control(ControlOp::Trap), Ih, Own, 2, 10), // 18 48 TRAP IH
    cell!(Control(ControlOp::Trap), Ih, Own, 2, 10), // 18 49 TRAP IH
    cell!(Control(ControlOp::Trap), Ih, Own, 2, 10), // 18 4A TRAP IH
    cell!(Control(ControlOp::Trap), Ih, Own, 2, 10), // 18 4B TRAP IH
    cell!(Control(ControlOp::Trap), Ih, Own, 2, 10), // 18 4C TRAP IH
    cell!(Control(ControlOp::Trap), Ih, Own, 2, 10), // 18 4D TRAP IH
    cell!(Control(ControlOp::Trap), Ih, Own, 2, 10), // 18 4E TRAP IH
    cell!(Control(ControlOp::Trap), Ih, Own, 2, 10), // 18 4F TRAP IH
    cell!(Control(ControlOp::Trap), Ih, Own, 2, 10), // 18 50 TRAP IH
    cell!(Control(ControlOp::Trap), Ih, Own, 2, 10), // 18 51 TRAP IH
    cell!(Control(ControlOp::Trap), Ih, Own, 2, 10), // 18 52 TRAP IH
    cell!(Control(ControlOp::Trap), Ih, Own, 2, 10), // 18 53 TRAP IH
    cell!(Control(ControlOp::Trap), Ih, Own, 2, 10), // 18 54 TRAP IH
    cell!(Control(ControlOp::Trap), Ih, Own, 2, 10), // 18 55 TRAP IH
    cell!(Control(ControlOp::Trap), Ih, Own, 2, 10), // 18 56 TRAP IH
    cell!(Control(ControlOp::Trap), Ih, Own, 2, 10), // 18 57 TRAP IH
    cell!(Control(ControlOp::Trap), Ih, Own, 2, 10), // 18 58 TRAP IH
    cell!(Control(ControlOp::Trap), Ih, Own, 2, 10), // 18 59 TRAP IH
    cell!(Control(ControlOp::Trap), Ih, Own, 2, 10), // 18 5A TRAP IH
    cell!(Control(ControlOp::Trap), Ih, Own, 2, 10), // 18 5B TRAP IH
    cell!(Control(ControlOp::Trap), Ih, Own, 2, 10), // 18 5C TRAP IH
    cell!(Control(ControlOp::Trap), Ih, Own, 2, 10), // 18 5D TRAP IH
    cell!(Control(ControlOp::Trap), Ih, Own, 2, 10), // 18 5E TRAP IH
    cell!(Control(ControlOp::Trap), Ih, Own, 2, 10), // 18 5F TRAP IH
    cell!(Control(ControlOp::Trap), Ih, Own, 2, 10), // 18 60 TRAP IH
    cell!(Control(ControlOp::Trap), Ih, Own, 2, 10), // 18 61 TRAP IH
    cell!(Control(ControlOp::Trap), Ih, Own, 2, 10), // 18 62 TRAP IH
    cell!(Control(ControlOp::Trap), Ih, Own, 2, 10), // 18 63 TRAP IH
    cell!(Control(ControlOp::Trap), Ih, Own, 2, 10), // 18 64 TRAP IH
    cell!(Control(ControlOp::Trap), Ih, Own, 2, 10), // 18 65 TRAP IH
    cell!(Control(ControlOp::Trap), Ih, Own, 2, 10), // 18 66 TRAP IH
    cell!(Control(ControlOp::Trap), Ih, Own, 2, 10), // 18 67 TRAP IH
    cell!(Control(ControlOp::Trap), Ih, Own, 2, 10), // 18 68 TRAP IH
    cell!(Control(ControlOp::Trap), Ih, Own, 2, 10), // 18 69 TRAP IH
    cell!(Control(ControlOp::Trap), Ih, Own, 2, 10), // 18 6A TRAP IH
    cell!(Control(ControlOp::Trap), Ih, Own, 2, 10), // 18 6B TRAP IH
    cell!(Control(ControlOp::Trap), Ih, Own, 2, 10), // 18 6C TRAP IH
    cell!(Control(ControlOp::Trap), Ih, Own, 2, 10), // 18 6D TRAP IH
    cell!(Control(ControlOp::Trap), Ih, Own, 2, 10), // 18 6E TRAP IH
    cell!(Control(ControlOp::Trap), Ih, Own, 2, 10), // 18 6F TRAP IH
    cell!(Control(ControlOp::Trap), Ih, Own, 2, 10), // 18 70 TRAP IH
    cell!(Control(ControlOp::Trap), Ih, Own, 2, 10), // 18 71 TRAP IH
    cell!(Control(ControlOp::Trap), Ih, Own, 2, 10), // 18 72 TRAP IH
    cell!(Control(ControlOp::Trap), Ih, Own, 2, 10), // 18 73 TRAP IH
    cell!(Control(ControlOp::Trap), Ih, Own, 2, 10), // 18 74 TRAP IH
    cell!(Control(ControlOp::Trap), Ih, Own, 2, 10), // 18 75 TRAP IH
    cell!(Control(ControlOp::Trap), Ih, Own, 2, 10), // 18 76 TRAP IH
    cell!(Control(ControlOp::Trap), Ih, Own, 2, 10), // 18 77 TRAP IH
    cell!(Control(ControlOp::Trap), Ih, Own, 2, 10), // 18 78 TRAP IH
    cell!(Control(ControlOp::Trap), Ih, Own, 2, 10), // 18 79 TRAP IH
    cell!(Control(ControlOp::Trap), Ih, Own, 2, 10), // 18 7A TRAP IH
    cell!(Control(ControlOp::Trap), Ih, Own, 2, 10), // 18 7B TRAP IH
    cell!(Control(ControlOp::Trap), Ih, Own, 2, 10), // 18 7C TRAP IH
    cell!(Control(ControlOp::Trap), Ih, Own, 2, 10), // 18 7D TRAP IH
    cell!(Control(ControlOp::Trap), Ih, Own, 2, 10), // 18 7E TRAP IH
    cell!(Control(ControlOp::Trap), Ih, Own, 2, 10), // 18 7F TRAP IH
    cell!(Control(ControlOp::Trap), Ih, Own, 2, 10), // 18 80 TRAP IH
    cell!(Control(ControlOp::Trap), Ih, Own, 2, 10), // 18 81 TRAP IH
    cell!(Control(ControlOp::Trap), Ih, Own, 2, 10), // 18 82 TRAP IH
    cell!(Control(ControlOp::Trap), Ih, Own, 2, 10), // 18 83 TRAP IH
    cell!(Control(ControlOp::Trap), Ih, Own, 2, 10), // 18 84 TRAP IH
    cell!(Control(ControlOp::Trap), Ih, Own, 2, 10), // 18 85 TRAP IH
    cell!(Control(ControlOp::Trap), Ih, Own, 2, 10), // 18 86 TRAP IH
    cell!(Control(ControlOp::Trap), Ih, Own, 2, 10), // 18 87 TRAP IH
    cell!(Control(ControlOp::Trap), Ih, Own, 2, 10), // 18 88 TRAP IH
    cell!(Control(ControlOp::Trap), Ih, Own, 2, 10), // 18 89 TRAP IH
    cell!(Control(ControlOp::Trap), Ih, Own, 2, 10), // 18 8A TRAP IH
    cell!(Control(ControlOp::Trap), Ih, Own, 2, 10), // 18 8B TRAP IH
    cell!(Control(ControlOp::Trap), Ih, Own, 2, 10), // 18 8C TRAP IH
    cell!(Control(ControlOp::Trap), Ih, Own, 2, 10), // 18 8D TRAP IH
    cell!(Control(ControlOp::Trap), Ih, Own, 2, 10), // 18 8E TRAP IH
    cell!(Control(ControlOp::Trap), Ih, Own, 2, 10), // 18 8F TRAP IH
    cell!(Control(ControlOp::Trap), Ih, Own, 2, 10), // 18 90 TRAP IH
    cell!(Control(ControlOp::Trap), Ih, Own, 2, 10), // 18 91 TRAP IH
    cell!(Control(ControlOp::Trap), Ih, Own, 2, 10), // 18 92 TRAP IH
    cell!(Control(ControlOp::Trap), Ih, Own, 2, 10), // 18 93 TRAP IH
    cell!(Control(ControlOp::Trap), Ih, Own, 2, 10), // 18 94 TRAP IH
    cell!(Control(ControlOp::Trap), Ih, Own, 2, 10), // 18 95 TRAP IH
    cell!(Control(ControlOp::Trap), Ih, Own, 2, 10), // 18 96 TRAP IH
    cell!(Control(ControlOp::Trap), Ih, Own, 2, 10), // 18 97 TRAP IH
    cell!(Control(ControlOp::Trap), Ih, Own, 2, 10), // 18 98 TRAP IH
    cell!(Control(ControlOp::Trap), Ih, Own, 2, 10), // 18 99 TRAP IH
    cell!(Control(ControlOp::Trap), Ih, Own, 2, 10), // 18 9A TRAP IH
    cell!(Control(ControlOp::Trap), Ih, Own, 2, 10), // 18 9B TRAP IH
    cell!(Control(ControlOp::Trap), Ih, Own, 2, 10), // 18 9C TRAP IH
    cell!(Control(ControlOp::Trap), Ih, Own, 2, 10), // 18 9D TRAP IH
    cell!(Control(ControlOp::Trap), Ih, Own, 2, 10), // 18 9E TRAP IH
    cell!(Control(ControlOp::Trap), Ih, Own, 2, 10), // 18 9F TRAP IH
    cell!(Control(ControlOp::Trap), Ih, Own, 2, 10), // 18 A0 TRAP IH
    cell!(Control(ControlOp::Trap), Ih, Own, 2, 10), // 18 A1 TRAP IH
    cell!(Control(ControlOp::Trap), Ih, Own, 2, 10), // 18 A2 TRAP IH
    cell!(Control(ControlOp::Trap), Ih, Own, 2, 10), // 18 A3 TRAP IH
    cell!(Control(ControlOp::Trap), Ih, Own, 2, 10), // 18 A4 TRAP IH
    cell!(Control(ControlOp::Trap), Ih, Own, 2, 10), // 18 A5 TRAP IH
    cell!(Control(ControlOp::Trap), Ih, Own, 2, 10), // 18 A6 TRAP IH
    cell!(Control(ControlOp::Trap), Ih, Own, 2, 10), // 18 A7 TRAP IH
    cell!(Control(ControlOp::Trap), Ih, Own, 2, 10), // 18 A8 TRAP IH
    cell!(Control(ControlOp::Trap), Ih, Own, 2, 10), // 18 A9 TRAP IH
    cell!(Control(ControlOp::Trap), Ih, Own, 2, 10), // 18 AA TRAP IH
    cell!(Control(ControlOp::Trap), Ih, Own, 2, 10), // 18 AB TRAP IH
    cell!(Control(ControlOp::Trap), Ih, Own, 2, 10), // 18 AC TRAP IH
    cell!(Control(ControlOp::Trap), Ih, Own, 2, 10), // 18 AD TRAP IH
    cell!(Control(ControlOp::Trap), Ih, Own, 2, 10), // 18 AE TRAP IH
    cell!(Control(ControlOp::Trap), Ih, Own, 2, 10), // 18 AF TRAP IH
    cell!(Control(ControlOp::Trap), Ih, Own, 2, 10), // 18 B0 TRAP IH
    cell!(Control(ControlOp::Trap), Ih, Own, 2, 10), // 18 B1 TRAP IH
    cell!(Control(ControlOp::Trap), Ih, Own, 2, 10), // 18 B2 TRAP IH
    cell!(Control(ControlOp::Trap), Ih, Own, 2, 10), // 18 B3 TRAP IH
    cell!(Control(ControlOp::Trap), Ih, Own, 2, 10), // 18 B4 TRAP IH
    cell!(Control(ControlOp::Trap), Ih, Own, 2, 10), // 18 B5 TRAP IH
    cell!(Control(ControlOp::Trap), Ih, Own, 2, 10), // 18 B6 TRAP IH
    cell!(Control(ControlOp::Trap), Ih, Own, 2, 10), // 18 B7 TRAP IH
    cell!(Control(ControlOp::Trap), Ih, Own, 2, 10), // 18 B8 TRAP IH
    cell!(Control(ControlOp::Trap), Ih, Own, 2, 10), // 18 B9 TRAP IH
    cell!(Control(ControlOp::Trap), Ih, Own, 2, 10), // 18 BA TRAP IH
    cell!(Control(ControlOp::Trap), Ih, Own, 2, 10), // 18 BB TRAP IH
    cell!(Control(ControlOp::Trap), Ih, Own, 2, 10), // 18 BC TRAP IH
    cell!(Control(ControlOp::Trap), Ih, Own, 2, 10), // 18 BD TRAP IH
    cell!(Control(ControlOp::Trap), Ih, Own, 2, 10), // 18 BE TRAP IH
    cell!(Control(ControlOp::Trap), Ih, Own, 2, 10), // 18 BF TRAP IH
    cell!(Control(ControlOp::Trap), Ih, Own, 2, 10), // 18 C0 TRAP IH
    cell!(Control(ControlOp::Trap), Ih, Own, 2, 10), // 18 C1 TRAP IH
    cell!(Control(ControlOp::Trap), Ih, Own, 2, 10), // 18 C2 TRAP IH
    cell!(Control(ControlOp::Trap), Ih, Own, 2, 10), // 18 C3 TRAP IH
    cell!(Control(ControlOp::Trap), Ih, Own, 2, 10), // 18 C4 TRAP IH
    cell!(Control(ControlOp::Trap), Ih, Own, 2, 10), // 18 C5 TRAP IH
    cell!(Control(ControlOp::Trap), Ih, Own, 2, 10), // 18 C6 TRAP IH
    cell!(Control(ControlOp::Trap), Ih, Own, 2, 10), // 18 C7 TRAP IH
    cell!(Control(ControlOp::Trap), Ih, Own, 2, 10), // 18 C8 TRAP IH
    cell!(Control(ControlOp::Trap), Ih, Own, 2, 10), // 18 C9 TRAP IH
    cell!(Control(ControlOp::Trap), Ih, Own, 2, 10), // 18 CA TRAP IH
    cell!(Control(ControlOp::Trap), Ih, Own, 2, 10), // 18 CB TRAP IH
    cell!(Control(ControlOp::Trap), Ih, Own, 2, 10), // 18 CC TRAP IH
    cell!(Control(ControlOp::Trap), Ih, Own, 2, 10), // 18 CD TRAP IH
    cell!(Control(ControlOp::Trap), Ih, Own, 2, 10), // 18 CE TRAP IH
    cell!(Control(ControlOp::Trap), Ih, Own, 2, 10), // 18 CF TRAP IH
    cell!(Control(ControlOp::Trap), Ih, Own, 2, 10), // 18 D0 TRAP IH
    cell!(Control(ControlOp::Trap), Ih, Own, 2, 10), // 18 D1 TRAP IH
    cell!(Control(ControlOp::Trap), Ih, Own, 2, 10), // 18 D2 TRAP IH
    cell!(Control(ControlOp::Trap), Ih, Own, 2, 10), // 18 D3 TRAP IH
    cell!(Control(ControlOp::Trap), Ih, Own, 2, 10), // 18 D4 TRAP IH
    cell!(Control(ControlOp::Trap), Ih, Own, 2, 10), // 18 D5 TRAP IH
    cell!(Control(ControlOp::Trap), Ih, Own, 2, 10), // 18 D6 TRAP IH
    cell!(Control(ControlOp::Trap), Ih, Own, 2, 10), // 18 D7 TRAP IH
    cell!(Control(ControlOp::Trap), Ih, Own, 2, 10), // 18 D8 TRAP IH
    cell!(Control(ControlOp::Trap), Ih, Own, 2, 10), // 18 D9 TRAP IH
    cell!(Control(ControlOp::Trap), Ih, Own, 2, 10), // 18 DA TRAP IH
    cell!(Control(ControlOp::Trap), Ih, Own, 2, 10), // 18 DB TRAP IH
    cell!(Control(ControlOp::Trap), Ih, Own, 2, 10), // 18 DC TRAP IH
    cell!(Control(ControlOp::Trap), Ih, Own, 2, 10), // 18 DD TRAP IH
    cell!(Control(ControlOp::Trap), Ih, Own, 2, 10), // 18 DE TRAP IH
    cell!(Control(ControlOp::Trap), Ih, Own, 2, 10), // 18 DF TRAP IH
    cell!(Control(ControlOp::Trap), Ih, Own, 2, 10), // 18 E0 TRAP IH
    cell!(Control(ControlOp::Trap), Ih, Own, 2, 10), // 18 E1 TRAP IH
    cell!(Control(ControlOp::Trap), Ih, Own, 2, 10), // 18 E2 TRAP IH
    cell!(Control(ControlOp::Trap), Ih, Own, 2, 10), // 18 E3 TRAP IH
    cell!(Control(ControlOp::Trap), Ih, Own, 2, 10), // 18 E4 TRAP IH
    cell!(Control(ControlOp::Trap), Ih, Own, 2, 10), // 18 E5 TRAP IH
    cell!(Control(ControlOp::Trap), Ih, Own, 2, 10), // 18 E6 TRAP IH
    cell!(Control(ControlOp::Trap), Ih, Own, 2, 10), // 18 E7 TRAP IH
    cell!(Control(ControlOp::Trap), Ih, Own, 2, 10), // 18 E8 TRAP IH
    cell!(Control(ControlOp::Trap), Ih, Own, 2, 10), // 18 E9 TRAP IH
    cell!(Control(ControlOp::Trap), Ih, Own, 2, 10), // 18 EA TRAP IH
    cell!(Control(ControlOp::Trap), Ih, Own, 2, 10), // 18 EB TRAP IH
    cell!(Control(ControlOp::Trap), Ih, Own, 2, 10), // 18 EC TRAP IH
    cell!(Control(ControlOp::Trap), Ih, Own, 2, 10), // 18 ED TRAP IH
    cell!(Control(ControlOp::Trap), Ih, Own, 2, 10), // 18 EE TRAP IH
    cell!(Control(ControlOp::Trap), Ih, Own, 2, 10), // 18 EF TRAP IH
    cell!(Control(ControlOp::Trap), Ih, Own, 2, 10), // 18 F0 TRAP IH
    cell!(Control(ControlOp::Trap), Ih, Own, 2, 10), // 18 F1 TRAP IH
    cell!(Control(ControlOp::Trap), Ih, Own, 2, 10), // 18 F2 TRAP IH
    cell!(Control(ControlOp::Trap), Ih, Own, 2, 10), // 18 F3 TRAP IH
    cell!(Control(ControlOp::Trap), Ih, Own, 2, 10), // 18 F4 TRAP IH
    cell!(Control(ControlOp::Trap), Ih, Own, 2, 10), // 18 F5 TRAP IH
    cell!(Control(ControlOp::Trap), Ih, Own, 2, 10), // 18 F6 TRAP IH
    cell!(Control(ControlOp::Trap), Ih, Own, 2, 10), // 18 F7 TRAP IH
    cell!(Control(ControlOp::Trap), Ih, Own, 2, 10), // 18 F8 TRAP IH
    cell!(Control(ControlOp::Trap), Ih, Own, 2, 10), // 18 F9 TRAP IH
    cell!(Control(ControlOp::Trap), Ih, Own, 2, 10), // 18 FA TRAP IH
    cell!(Control(ControlOp::Trap), Ih, Own, 2, 10), // 18 FB TRAP IH
    cell!(Control(ControlOp::Trap), Ih, Own, 2, 10), // 18 FC TRAP IH
    cell!(Control(ControlOp::Trap), Ih, Own, 2, 10), // 18 FD TRAP IH
    cell!(Control(ControlOp::Trap), Ih, Own, 2, 10), // 18 FE TRAP IH
    cell!(Control(ControlOp::Trap), Ih, Own, 2, 10), // 18 FF TRAP IH
];

fn cell_number(second: bool, opcode: u8) -> u16
    ensures { result ≡ cell_number second opcode }
{
    if second {
        256 + u16::from(opcode)
    } else {
        u16::from(opcode)
    }
}

// The cell of an opcode, on page 1 or on the second page.
pub fn cell_at(second: bool, opcode: u8) -> Cell
    ensures { result ≡ cell_of (cell_number second opcode) }
{
    MAP[usize::from(cell_number(second, opcode))]
}

// Whether the machine stops at this cell, with reply 4.
pub fn stops(c: Cell) -> bool
    ensures { result ≡ stops_of c }
{
    matches!(c.kind, Kind::Stops(_))
}

// Columns E and F of the postbyte table: each repeats these eight rows.
static FORMS: [Form; 8] = [
    Form::Idx1,
    Form::Idx1,
    Form::Idx2,
    Form::Idx2Indirect,
    Form::Idx,
    Form::Idx,
    Form::Idx,
    Form::DIndirect,
];

// The address form of an indexed postbyte: every value names one of the five.
pub fn form_of(postbyte: u8) -> Form
    ensures { form_number result ≡ form_of postbyte }
{
    if postbyte < 0xE0 {
        return Form::Idx;
    }
    FORMS[usize::from(postbyte % 8)]
}

// The bytes that follow an indexed postbyte of this form.
#[tactic(auto, unfolding(crate::specs::Postbyte::extension_of))]
fn extension(form: Form) -> u8
    ensures { result ≡ extension_of (form_number form) }
{
    match form {
        Form::Idx | Form::DIndirect => 0,
        Form::Idx1 => 1,
        Form::Idx2 | Form::Idx2Indirect => 2,
    }
}

// The grid: a row a family, a column an address form: IMM, DIR, EXT, IDX, IDX1, IDX2, [D,IDX], [IDX2]. 0 where there is none.
static GRID: [[u8; 8]; 18] = [
    [0, 0, 0, 0, 0, 0, 0, 0],
    [1, 3, 3, 3, 3, 4, 6, 6],
    [2, 3, 3, 3, 3, 4, 6, 6],
    [0, 2, 3, 2, 3, 3, 4, 4],
    [0, 0, 3, 2, 3, 3, 4, 4],
    [0, 0, 4, 3, 4, 5, 6, 6],
    [0, 0, 3, 3, 3, 4, 6, 6],
    [0, 0, 3, 3, 3, 4, 6, 6],
    [0, 4, 4, 4, 4, 5, 7, 7],
    [0, 0, 0, 2, 2, 2, 0, 0],
    [0, 4, 4, 4, 4, 6, 0, 0],
    [0, 4, 5, 4, 5, 6, 0, 0],
    [0, 0, 0, 4, 4, 5, 7, 7],
    [0, 0, 0, 4, 5, 6, 7, 7],
    [0, 0, 0, 6, 0, 0, 0, 0],
    [0, 0, 0, 10, 0, 0, 0, 0],
    [0, 0, 0, 4, 0, 0, 0, 0],
    [0, 0, 0, 5, 0, 0, 0, 0],
];

// What an instruction of a family, by its number, costs in an address form, by its column; or 0 where it has no such form.
pub fn grid_entry(family: u8, column: u8) -> u8
    ensures { result ≡ grid_at family column }
{
    if family >= 18 {
        return 0;
    }
    if column >= 8 {
        return 0;
    }
    GRID[usize::from(family)][usize::from(column)]
}

pub fn transfer_reserved(postbyte: u8) -> bool
    ensures { result ≡ transfer_reserved postbyte }
{
    (postbyte / 16 % 8 == 3) | (postbyte % 8 == 3)
}

pub fn loop_reserved(postbyte: u8) -> bool
    ensures { result ≡ loop_reserved postbyte }
{
    (postbyte / 32 >= 6) | ((postbyte % 8 == 2) | (postbyte % 8 == 3))
}

// Whether the cell has an indexed postbyte.
pub fn indexed(c: Cell) -> bool
    ensures { result ≡ indexed_of c }
{
    matches!(
        c.mode,
        Mode::Id | Mode::ImId | Mode::ExId | Mode::IdId | Mode::IdEx,
    )
}

// Whether this is TFR or EXG, whose postbyte names two registers.
pub fn is_transfer(kind: Kind) -> bool
    ensures { result ≡ same kind TFR/EXG }
{
    match kind {
        Kind::Registers(op) => matches!(op, RegisterOp::TfrExg),
        _ => false,
    }
}

// Whether this is a loop primitive.
pub fn is_loop(kind: Kind) -> bool
    ensures { result ≡ same kind LOOP }
{
    match kind {
        Kind::Control(op) => matches!(op, ControlOp::Loop),
        _ => false,
    }
}

// Whether this is MOVB.
pub fn is_movb(kind: Kind) -> bool
    ensures { result ≡ same kind MOVB }
{
    match kind {
        Kind::Move(op) => matches!(op, MoveOp::Movb),
        _ => false,
    }
}

// Whether a postbyte of this cell is reserved, which gives reply 5. `cost` is the cell's with this postbyte: a form that the cell
// does not have costs 0. A cell with two postbytes is asked for each.
#[tactic(auto, unfolding(crate::specs::Postbyte::reserved_of, crate::specs::Postbyte::cost_of))]
pub fn reserved(c: Cell, postbyte: u8, cost: u8) -> bool
    requires { cost ≡ cost_of c postbyte }
    ensures { result ≡ reserved_of c postbyte }
{
    if is_transfer(c.kind) {
        return transfer_reserved(postbyte);
    }
    if is_loop(c.kind) {
        return loop_reserved(postbyte);
    }
    indexed(c) & (cost == 0)
}

// The length of the whole instruction. A cell without an indexed postbyte does not look at `form`.
pub fn full_length(c: Cell, form: Form) -> u16
    ensures { result ≡ length_in c (form_number form) }
{
    if indexed(c) {
        return u16::from(c.length) + u16::from(extension(form));
    }
    u16::from(c.length)
}

// The cost of the whole instruction; of a branch, when it is taken. 0 where the cell has no such form.
pub fn full_cost(c: Cell, form: Form) -> u8
    ensures { result ≡ cost_in c (form_number form) }
{
    if indexed(c) {
        return grid_entry(c.family as u8, 3 + form as u8);
    }
    c.cost
}

// The cost of a branch that is not taken: P for a short one, OPO for a long one.
#[tactic(auto, unfolding(crate::specs::Postbyte::untaken_of))]
pub fn untaken_cost(c: Cell) -> u8
    ensures { result ≡ untaken_of c }
{
    match c.kind {
        Kind::ShortBranch(_) => 1,
        Kind::LongBranch(_) => 3,
        _ => c.cost,
    }
}
