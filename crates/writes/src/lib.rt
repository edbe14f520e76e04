//! Which instructions write to memory, and how wide.

#![tactic(auto)]

ghost use Rattle.std.specs.Prelude.{◌≡◌};
ghost use Rattle.writes.specs.Writes.{manual_writes};

// What one instruction writes to memory, outside zero page and the stack.
#[derive(Clone, Copy)]
pub enum Wr {
    None,
    // One byte, at the absolute operand.
    One,
    // A page from the absolute operand on: a run-time index carries the store.
    Page,
    // `STA (zp),Y`: the operand names the pointer, and not the target.
    IndY,
    // `STA (zp,X)`.
    IndX,
}

// What each opcode writes. A static is read where it stands; a constant would be built anew at each call.
static WRITES: [Wr; 256] = [
    Wr::None, // 00 BRK
    Wr::None, // 01 ORA
    Wr::None, // 02 undefined
    Wr::None, // 03 undefined
    Wr::None, // 04 undefined
    Wr::None, // 05 ORA
    Wr::None, // 06 ASL
    Wr::None, // 07 undefined
    Wr::None, // 08 PHP
    Wr::None, // 09 ORA
    Wr::None, // 0A ASL
    Wr::None, // 0B undefined
    Wr::None, // 0C undefined
    Wr::None, // 0D ORA
    Wr::One, // 0E ASL
    Wr::None, // 0F undefined
    Wr::None, // 10 BPL
    Wr::None, // 11 ORA
    Wr::None, // 12 undefined
    Wr::None, // 13 undefined
    Wr::None, // 14 undefined
    Wr::None, // 15 ORA
    Wr::None, // 16 ASL
    Wr::None, // 17 undefined
    Wr::None, // 18 CLC
    Wr::None, // 19 ORA
    Wr::None, // 1A undefined
    Wr::None, // 1B undefined
    Wr::None, // 1C undefined
    Wr::None, // 1D ORA
    Wr::Page, // 1E ASL
    Wr::None, // 1F undefined
    Wr::None, // 20 JSR
    Wr::None, // 21 AND
    Wr::None, // 22 undefined
    Wr::None, // 23 undefined
    Wr::None, // 24 BIT
    Wr::None, // 25 AND
    Wr::None, // 26 ROL
    Wr::None, // 27 undefined
    Wr::None, // 28 PLP
    Wr::None, // 29 AND
    Wr::None, // 2A ROL
    Wr::None, // 2B undefined
    Wr::None, // 2C BIT
    Wr::None, // 2D AND
    Wr::One, // 2E ROL
    Wr::None, // 2F undefined
    Wr::None, // 30 BMI
    Wr::None, // 31 AND
    Wr::None, // 32 undefined
    Wr::None, // 33 undefined
    Wr::None, // 34 undefined
    Wr::None, // 35 AND
    Wr::None, // 36 ROL
    Wr::None, // 37 undefined
    Wr::None, // 38 SEC
    Wr::None, // 39 AND
    Wr::None, // 3A undefined
    Wr::None, // 3B undefined
    Wr::None, // 3C undefined
    Wr::None, // 3D AND
    Wr::Page, // 3E ROL
    Wr::None, // 3F undefined
    Wr::None, // 40 RTI
    Wr::None, // 41 EOR
    Wr::None, // 42 undefined
    Wr::None, // 43 undefined
    Wr::None, // 44 undefined
    Wr::None, // 45 EOR
    Wr::None, // 46 LSR
    Wr::None, // 47 undefined
    Wr::None, // 48 PHA
    Wr::None, // 49 EOR
    Wr::None, // 4A LSR
    Wr::None, // 4B undefined
    Wr::None, // 4C JMP
    Wr::None, // 4D EOR
    Wr::One, // 4E LSR
    Wr::None, // 4F undefined
    Wr::None, // 50 BVC
    Wr::None, // 51 EOR
    Wr::None, // 52 undefined
    Wr::None, // 53 undefined
    Wr::None, // 54 undefined
    Wr::None, // 55 EOR
    Wr::None, // 56 LSR
    Wr::None, // 57 undefined
    Wr::None, // 58 CLI
    Wr::None, // 59 EOR
    Wr::None, // 5A undefined
    Wr::None, // 5B undefined
    Wr::None, // 5C undefined
    Wr::None, // 5D EOR
    Wr::Page, // 5E LSR
    Wr::None, // 5F undefined
    Wr::None, // 60 RTS
    Wr::None, // 61 ADC
    Wr::None, // 62 undefined
    Wr::None, // 63 undefined
    Wr::None, // 64 undefined
    Wr::None, // 65 ADC
    Wr::None, // 66 ROR
    Wr::None, // 67 undefined
    Wr::None, // 68 PLA
    Wr::None, // 69 ADC
    Wr::None, // 6A ROR
    Wr::None, // 6B undefined
    Wr::None, // 6C JMP
    Wr::None, // 6D ADC
    Wr::One, // 6E ROR
    Wr::None, // 6F undefined
    Wr::None, // 70 BVS
    Wr::None, // 71 ADC
    Wr::None, // 72 undefined
    Wr::None, // 73 undefined
    Wr::None, // 74 undefined
    Wr::None, // 75 ADC
    Wr::None, // 76 ROR
    Wr::None, // 77 undefined
    Wr::None, // 78 SEI
    Wr::None, // 79 ADC
    Wr::None, // 7A undefined
    Wr::None, // 7B undefined
    Wr::None, // 7C undefined
    Wr::None, // 7D ADC
    Wr::Page, // 7E ROR
    Wr::None, // 7F undefined
    Wr::None, // 80 undefined
    Wr::IndX, // 81 STA
    Wr::None, // 82 undefined
    Wr::None, // 83 undefined
    Wr::None, // 84 STY
    Wr::None, // 85 STA
    Wr::None, // 86 STX
    Wr::None, // 87 undefined
    Wr::None, // 88 DEY
    Wr::None, // 89 undefined
    Wr::None, // 8A TXA
    Wr::None, // 8B undefined
    Wr::One, // 8C STY
    Wr::One, // 8D STA
    Wr::One, // 8E STX
    Wr::None, // 8F undefined
    Wr::None, // 90 BCC
    Wr::IndY, // 91 STA
    Wr::None, // 92 undefined
    Wr::None, // 93 undefined
    Wr::None, // 94 STY
    Wr::None, // 95 STA
    Wr::None, // 96 STX
    Wr::None, // 97 undefined
    Wr::None, // 98 TYA
    Wr::Page, // 99 STA
    Wr::None, // 9A TXS
    Wr::None, // 9B undefined
    Wr::None, // 9C undefined
    Wr::Page, // 9D STA
    Wr::None, // 9E undefined
    Wr::None, // 9F undefined
    Wr::None, // A0 LDY
    Wr::None, // A1 LDA
    Wr::None, // A2 LDX
    Wr::None, // A3 undefined
    Wr::None, // A4 LDY
    Wr::None, // A5 LDA
    Wr::None, // A6 LDX
    Wr::None, // A7 undefined
    Wr::None, // A8 TAY
    Wr::None, // A9 LDA
    Wr::None, // AA TAX
    Wr::None, // AB undefined
    Wr::None, // AC LDY
    Wr::None, // AD LDA
    Wr::None, // AE LDX
    Wr::None, // AF undefined
    Wr::None, // B0 BCS
    Wr::None, // B1 LDA
    Wr::None, // B2 undefined
    Wr::None, // B3 undefined
    Wr::None, // B4 LDY
    Wr::None, // B5 LDA
    Wr::None, // B6 LDX
    Wr::None, // B7 undefined
    Wr::None, // B8 CLV
    Wr::None, // B9 LDA
    Wr::None, // BA TSX
    Wr::None, // BB undefined
    Wr::None, // BC LDY
    Wr::None, // BD LDA
    Wr::None, // BE LDX
    Wr::None, // BF undefined
    Wr::None, // C0 CPY
    Wr::None, // C1 CMP
    Wr::None, // C2 undefined
    Wr::None, // C3 undefined
    Wr::None, // C4 CPY
    Wr::None, // C5 CMP
    Wr::None, // C6 DEC
    Wr::None, // C7 undefined
    Wr::None, // C8 INY
    Wr::None, // C9 CMP
    Wr::None, // CA DEX
    Wr::None, // CB undefined
    Wr::None, // CC CPY
    Wr::None, // CD CMP
    Wr::One, // CE DEC
    Wr::None, // CF undefined
    Wr::None, // D0 BNE
    Wr::None, // D1 CMP
    Wr::None, // D2 undefined
    Wr::None, // D3 undefined
    Wr::None, // D4 undefined
    Wr::None, // D5 CMP
    Wr::None, // D6 DEC
    Wr::None, // D7 undefined
    Wr::None, // D8 CLD
    Wr::None, // D9 CMP
    Wr::None, // DA undefined
    Wr::None, // DB undefined
    Wr::None, // DC undefined
    Wr::None, // DD CMP
    Wr::Page, // DE DEC
    Wr::None, // DF undefined
    Wr::None, // E0 CPX
    Wr::None, // E1 SBC
    Wr::None, // E2 undefined
    Wr::None, // E3 undefined
    Wr::None, // E4 CPX
    Wr::None, // E5 SBC
    Wr::None, // E6 INC
    Wr::None, // E7 undefined
    Wr::None, // E8 INX
    Wr::None, // E9 SBC
    Wr::None, // EA NOP
    Wr::None, // EB undefined
    Wr::None, // EC CPX
    Wr::None, // ED SBC
    Wr::One, // EE INC
    Wr::None, // EF undefined
    Wr::None, // F0 BEQ
    Wr::None, // F1 SBC
    Wr::None, // F2 undefined
    Wr::None, // F3 undefined
    Wr::None, // F4 undefined
    Wr::None, // F5 SBC
    Wr::None, // F6 INC
    Wr::None, // F7 undefined
    Wr::None, // F8 SED
    Wr::None, // F9 SBC
    Wr::None, // FA undefined
    Wr::None, // FB undefined
    Wr::None, // FC undefined
    Wr::None, // FD SBC
    Wr::Page, // FE INC
    Wr::None, // FF undefined
];

// What the manual's instruction writes; an undefined opcode writes nothing.
pub fn writes(op: u8) -> Wr
    ensures { result ≡ manual_writes op }
{
    WRITES[op as usize]
}
