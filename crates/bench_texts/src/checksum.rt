//! A checksum of octets.

/// 2^31 - 1.
const PRIME: u64 = 2_147_483_647;

#[derive(Clone, Copy, PartialEq, Eq)]
pub struct Checksum {
    pub value: u64,
}

impl Checksum {
    /// Nothing wraps here: the checksum stays below 2^31.
    fn take_in(&mut self, octet: u8) {
        self.value = self.value.wrapping_mul(31).wrapping_add(octet as u64) % PRIME;
    }

    pub fn take_in_all(&mut self, octets: &[u8]) {
        for octet in octets {
            self.take_in(*octet);
        }
    }
}
