//! Checksums.

/// The checksum of what was summed and a number after it.
pub fn mix(sum: u64, number: u64) -> u64 {
    sum.wrapping_mul(1_099_511_628_211) ^ number
}

/// The checksum of what was summed and bytes after it.
pub fn mix_bytes(sum: u64, bytes: &[u8]) -> u64 {
    let mut sum = sum;
    for byte in bytes {
        sum = mix(sum, u64::from(*byte));
    }
    sum
}
