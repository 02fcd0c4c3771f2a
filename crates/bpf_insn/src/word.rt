//! Instruction words, and their bytes.
ghost use Rattle.std.specs.Prelude.{◌≡◌, ◌≤◌, ◌<◌, length};
ghost use Rattle.bpf_insn.specs.Word.{word_of, IsWritten};

use byteorder::{ByteOrder, LittleEndian};

/// The five fields of an instruction word, whatever their values (RFC 9669, section 3.1). Contracts refer to words; use `decode` to obtain
/// instructions.
#[derive(Clone, Copy, Default)]
pub struct Word {
    pub opcode: u8,
    /// A number of four bits, which need not name a register.
    pub destination: u8,
    /// A number of four bits, which need not name a register.
    pub source: u8,
    pub offset: i16,
    pub immediate: i32,
}

impl Word {
    /// Reads the word in the first eight bytes.
    pub(crate) fn read(bytes: &[u8]) -> Word
        requires { 8 ≤ length bytes.now }
        ensures { result ≡ word_of bytes.now }
    {
        Word {
            opcode: bytes[0],
            destination: bytes[1] % 16,
            source: bytes[1] / 16,
            offset: LittleEndian::read_i16(&bytes[2..4]),
            immediate: LittleEndian::read_i32(&bytes[4..8]),
        }
    }

    /// Returns the word's eight bytes.
    pub(crate) fn bytes(self) -> [u8; 8]
        requires { (self.destination < 16) × (self.source < 16) }
        ensures { IsWritten self result }
    {
        let mut bytes = [0; 8];
        bytes[0] = self.opcode;
        bytes[1] = self.source * 16 + self.destination;
        LittleEndian::write_i16(&mut bytes[2..4], self.offset);
        LittleEndian::write_i32(&mut bytes[4..8], self.immediate);
        bytes
    }
}
