//! What an opcode of the MOS 6502 is: how its operand is addressed, how long it is and where control goes on.

#![tactic(auto)]

ghost use Rattle.std.specs.Prelude.{◌≡◌};
ghost use Rattle.mos6502.specs.Class.{length_of, manual_class};
ghost use Rattle.mos6502.specs.Packed.{mode_at, flow_at, pack};

// How the operand is addressed. `Imp` is implied and accumulator; `Illegal` is an opcode that the manual does not have.
#[derive(Clone, Copy)]
pub enum Mode {
    Imp,
    Imm,
    Zp,
    ZpX,
    ZpY,
    Izx,
    Izy,
    Rel,
    Abs,
    AbX,
    AbY,
    Ind,
    Illegal,
}

// What the instruction does to control flow.
#[derive(Clone, Copy)]
pub enum Flow {
    Next,
    Jump,
    Call,
    Branch,
    Stop,
    Refuse,
}

// The class of an opcode, in place of the Rust's pair.
#[derive(Clone, Copy)]
pub struct Decoded {
    pub mode: Mode,
    pub flow: Flow,
}

impl Mode {
    // How many bytes an instruction so addressed has; 0 for an undefined opcode.
    pub fn len(self) -> u16
        ensures { result ≡ length_of self }
    {
        match self {
            Mode::Imp => 1,
            Mode::Imm => 2,
            Mode::Zp => 2,
            Mode::ZpX => 2,
            Mode::ZpY => 2,
            Mode::Izx => 2,
            Mode::Izy => 2,
            Mode::Rel => 2,
            Mode::Abs => 3,
            Mode::AbX => 3,
            Mode::AbY => 3,
            Mode::Ind => 3,
            Mode::Illegal => 0,
        }
    }
}

// The class of each opcode as one number, the form that 01 names for this table: the mode's place in `Mode` x 16 + the flow's place in `Flow`.
const CLASSES: [u8; 256] = [
    0x05, // 00 BRK
    0x50, // 01 ORA
    0xC5, // 02 undefined
    0xC5, // 03 undefined
    0xC5, // 04 undefined
    0x20, // 05 ORA
    0x20, // 06 ASL
    0xC5, // 07 undefined
    0x00, // 08 PHP
    0x10, // 09 ORA
    0x00, // 0A ASL
    0xC5, // 0B undefined
    0xC5, // 0C undefined
    0x80, // 0D ORA
    0x80, // 0E ASL
    0xC5, // 0F undefined
    0x73, // 10 BPL
    0x60, // 11 ORA
    0xC5, // 12 undefined
    0xC5, // 13 undefined
    0xC5, // 14 undefined
    0x30, // 15 ORA
    0x30, // 16 ASL
    0xC5, // 17 undefined
    0x00, // 18 CLC
    0xA0, // 19 ORA
    0xC5, // 1A undefined
    0xC5, // 1B undefined
    0xC5, // 1C undefined
    0x90, // 1D ORA
    0x90, // 1E ASL
    0xC5, // 1F undefined
    0x82, // 20 JSR
    0x50, // 21 AND
    0xC5, // 22 undefined
    0xC5, // 23 undefined
    0x20, // 24 BIT
    0x20, // 25 AND
    0x20, // 26 ROL
    0xC5, // 27 undefined
    0x00, // 28 PLP
    0x10, // 29 AND
    0x00, // 2A ROL
    0xC5, // 2B undefined
    0x80, // 2C BIT
    0x80, // 2D AND
    0x80, // 2E ROL
    0xC5, // 2F undefined
    0x73, // 30 BMI
    0x60, // 31 AND
    0xC5, // 32 undefined
    0xC5, // 33 undefined
    0xC5, // 34 undefined
    0x30, // 35 AND
    0x30, // 36 ROL
    0xC5, // 37 undefined
    0x00, // 38 SEC
    0xA0, // 39 AND
    0xC5, // 3A undefined
    0xC5, // 3B undefined
    0xC5, // 3C undefined
    0x90, // 3D AND
    0x90, // 3E ROL
    0xC5, // 3F undefined
    0x04, // 40 RTI
    0x50, // 41 EOR
    0xC5, // 42 undefined
    0xC5, // 43 undefined
    0xC5, // 44 undefined
    0x20, // 45 EOR
    0x20, // 46 LSR
    0xC5, // 47 undefined
    0x00, // 48 PHA
    0x10, // 49 EOR
    0x00, // 4A LSR
    0xC5, // 4B undefined
    0x81, // 4C JMP
    0x80, // 4D EOR
    0x80, // 4E LSR
    0xC5, // 4F undefined
    0x73, // 50 BVC
    0x60, // 51 EOR
    0xC5, // 52 undefined
    0xC5, // 53 undefined
    0xC5, // 54 undefined
    0x30, // 55 EOR
    0x30, // 56 LSR
    0xC5, // 57 undefined
    0x00, // 58 CLI
    0xA0, // 59 EOR
    0xC5, // 5A undefined
    0xC5, // 5B undefined
    0xC5, // 5C undefined
    0x90, // 5D EOR
    0x90, // 5E LSR
    0xC5, // 5F undefined
    0x04, // 60 RTS
    0x50, // 61 ADC
    0xC5, // 62 undefined
    0xC5, // 63 undefined
    0xC5, // 64 undefined
    0x20, // 65 ADC
    0x20, // 66 ROR
    0xC5, // 67 undefined
    0x00, // 68 PLA
    0x10, // 69 ADC
    0x00, // 6A ROR
    0xC5, // 6B undefined
    0xB5, // 6C JMP
    0x80, // 6D ADC
    0x80, // 6E ROR
    0xC5, // 6F undefined
    0x73, // 70 BVS
    0x60, // 71 ADC
    0xC5, // 72 undefined
    0xC5, // 73 undefined
    0xC5, // 74 undefined
    0x30, // 75 ADC
    0x30, // 76 ROR
    0xC5, // 77 undefined
    0x00, // 78 SEI
    0xA0, // 79 ADC
    0xC5, // 7A undefined
    0xC5, // 7B undefined
    0xC5, // 7C undefined
    0x90, // 7D ADC
    0x90, // 7E ROR
    0xC5, // 7F undefined
    0xC5, // 80 undefined
    0x50, // 81 STA
    0xC5, // 82 undefined
    0xC5, // 83 undefined
    0x20, // 84 STY
    0x20, // 85 STA
    0x20, // 86 STX
    0xC5, // 87 undefined
    0x00, // 88 DEY
    0xC5, // 89 undefined
    0x00, // 8A TXA
    0xC5, // 8B undefined
    0x80, // 8C STY
    0x80, // 8D STA
    0x80, // 8E STX
    0xC5, // 8F undefined
    0x73, // 90 BCC
    0x60, // 91 STA
    0xC5, // 92 undefined
    0xC5, // 93 undefined
    0x30, // 94 STY
    0x30, // 95 STA
    0x40, // 96 STX
    0xC5, // 97 undefined
    0x00, // 98 TYA
    0xA0, // 99 STA
    0x00, // 9A TXS
    0xC5, // 9B undefined
    0xC5, // 9C undefined
    0x90, // 9D STA
    0xC5, // 9E undefined
    0xC5, // 9F undefined
    0x10, // A0 LDY
    0x50, // A1 LDA
    0x10, // A2 LDX
    0xC5, // A3 undefined
    0x20, // A4 LDY
    0x20, // A5 LDA
    0x20, // A6 LDX
    0xC5, // A7 undefined
    0x00, // A8 TAY
    0x10, // A9 LDA
    0x00, // AA TAX
    0xC5, // AB undefined
    0x80, // AC LDY
    0x80, // AD LDA
    0x80, // AE LDX
    0xC5, // AF undefined
    0x73, // B0 BCS
    0x60, // B1 LDA
    0xC5, // B2 undefined
    0xC5, // B3 undefined
    0x30, // B4 LDY
    0x30, // B5 LDA
    0x40, // B6 LDX
    0xC5, // B7 undefined
    0x00, // B8 CLV
    0xA0, // B9 LDA
    0x00, // BA TSX
    0xC5, // BB undefined
    0x90, // BC LDY
    0x90, // BD LDA
    0xA0, // BE LDX
    0xC5, // BF undefined
    0x10, // C0 CPY
    0x50, // C1 CMP
    0xC5, // C2 undefined
    0xC5, // C3 undefined
    0x20, // C4 CPY
    0x20, // C5 CMP
    0x20, // C6 DEC
    0xC5, // C7 undefined
    0x00, // C8 INY
    0x10, // C9 CMP
    0x00, // CA DEX
    0xC5, // CB undefined
    0x80, // CC CPY
    0x80, // CD CMP
    0x80, // CE DEC
    0xC5, // CF undefined
    0x73, // D0 BNE
    0x60, // D1 CMP
    0xC5, // D2 undefined
    0xC5, // D3 undefined
    0xC5, // D4 undefined
    0x30, // D5 CMP
    0x30, // D6 DEC
    0xC5, // D7 undefined
    0x00, // D8 CLD
    0xA0, // D9 CMP
    0xC5, // DA undefined
    0xC5, // DB undefined
    0xC5, // DC undefined
    0x90, // DD CMP
    0x90, // DE DEC
    0xC5, // DF undefined
    0x10, // E0 CPX
    0x50, // E1 SBC
    0xC5, // E2 undefined
    0xC5, // E3 undefined
    0x20, // E4 CPX
    0x20, // E5 SBC
    0x20, // E6 INC
    0xC5, // E7 undefined
    0x00, // E8 INX
    0x10, // E9 SBC
    0x00, // EA NOP
    0xC5, // EB undefined
    0x80, // EC CPX
    0x80, // ED SBC
    0x80, // EE INC
    0xC5, // EF undefined
    0x73, // F0 BEQ
    0x60, // F1 SBC
    0xC5, // F2 undefined
    0xC5, // F3 undefined
    0xC5, // F4 undefined
    0x30, // F5 SBC
    0x30, // F6 INC
    0xC5, // F7 undefined
    0x00, // F8 SED
    0xA0, // F9 SBC
    0xC5, // FA undefined
    0xC5, // FB undefined
    0xC5, // FC undefined
    0x90, // FD SBC
    0x90, // FE INC
    0xC5, // FF undefined
];

// The mode at a place of `Mode`.
fn mode_at(n: u8) -> Mode
    ensures { result ≡ mode_at n }
{
    match n {
        0 => Mode::Imp,
        1 => Mode::Imm,
        2 => Mode::Zp,
        3 => Mode::ZpX,
        4 => Mode::ZpY,
        5 => Mode::Izx,
        6 => Mode::Izy,
        7 => Mode::Rel,
        8 => Mode::Abs,
        9 => Mode::AbX,
        10 => Mode::AbY,
        11 => Mode::Ind,
        12..=255 => Mode::Illegal,
    }
}

// The flow at a place of `Flow`.
fn flow_at(n: u8) -> Flow
    ensures { result ≡ flow_at n }
{
    match n {
        0 => Flow::Next,
        1 => Flow::Jump,
        2 => Flow::Call,
        3 => Flow::Branch,
        4 => Flow::Stop,
        5..=255 => Flow::Refuse,
    }
}

// The class of an opcode, packed.
fn packed_class(op: u8) -> u8
    ensures { result ≡ pack (manual_class op) }
{
    CLASSES[op as usize]
}

// The class that the manual gives an opcode.
pub fn decode(op: u8) -> Decoded
    ensures { result ≡ manual_class op }
{
    let packed = packed_class(op);
    Decoded {
        mode: mode_at(packed / 16),
        flow: flow_at(packed % 16),
    }
}
