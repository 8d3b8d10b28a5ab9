//! The sum that the fast one is held against.
/// CRC-32C byte by byte over a table of its own: what the fast sum is compared with.
#[derive(Drop)]
pub struct PlainCrc {
    table: [u32; 256],
}

// The polynomial without its leading term, the coefficient of the highest degree as the lowest bit.
const POLYNOMIAL: u32 = 0x82f6_3b78;

fn entry(index: u8) -> u32 {
    let mut register = u32::from(index);
    for _ in 0..8 {
        let carry = register & 1;
        register = (register >> 1) ^ (POLYNOMIAL * carry);
    }
    register
}

impl PlainCrc {
    pub fn new() -> PlainCrc {
        let mut table = [0; 256];
        for index in 0..=u8::MAX {
            table[usize::from(index)] = entry(index);
        }
        PlainCrc { table }
    }

    #[inline(never)]
    pub fn crc(&self, bytes: &[u8]) -> u32 {
        let mut register = u32::MAX;
        for byte in bytes {
            let low = (register ^ u32::from(*byte)) & 0xff;
            register = self.table[low as usize] ^ (register >> 8);
        }
        !register
    }
}
